//! Threads that pass numbers on through a bounded buffer.
ghost use Rattle.std.specs.Prelude.{[], ◌∷◌, ◌≡◌, ◌<◌, ◌≤◌, ◌+◌, ◌*◌, ◌%◌, ◌^◌, ℕ, length, IfNone, IfOk, IfSome};
ghost use Rattle.std.specs.List.{sum};
ghost use mathlib.Core.Option.{some};
ghost use lib.ListN.{get_elem?};
ghost use Rattle.bounded_buffer.specs.Parts.{unused};
ghost use Rattle.bounded_buffer.specs.Rings.{Held, fresh};
ghost use Rattle.bounded_buffer.specs.Using.{HasUsed};
ghost use Rattle.bench_workloads.specs.Passing.{HasBuffers, HasPassed, IsOver, numbers_sum};

use crate::numbers::{Capacity, Sides};
use bounded_buffer::{PlainBuffers, Ring, plain_buffer, put_anyway, shut_plain, take_anyway};
use nub::{Closed, Layout, Package, Thread, close_package, open_package};
use package_crew::at_once;
use std::alloc::{AllocError, Global};
use std::sync::Wait;
use std::thread::Threads;

/// The use of the package: two buffers of numbers, one for what is passed on and, under mutex 1,
/// one for the makers that have put all their numbers.
pub type Numbers = PlainBuffers<u64>;

/// The package in which numbers were passed on, and the sum of what each thread has taken.
#[derive(Drop)]
pub struct Passed {
    pub closed: Closed<Numbers>,
    pub sums: Vec<u64>,
}

/// Puts `times` numbers, this maker's own, and then reports that it has ended. The last maker to do
/// so shuts the buffer.
#[tactic(auto, using(bounded_buffer::proofs::Using::plain_named))]
fn make<R: Wait>(
    rt: &R,
    shared: &Package<Numbers>,
    mut me: Thread<Numbers>,
    makers: u32,
    times: u32,
) -> Thread<Numbers>
    requires named { HasBuffers shared.now.layout }
    requires begun { HasUsed shared.now me.number (unused ∷ unused ∷ []) me }
    requires maker { me.number < makers }
    ensures { HasPassed shared.now makers times me.number 0 result }
{
    let others = makers - 1;
    let numbers = plain_buffer(0);
    let ends = plain_buffer(1);
    let own = me.number() as u64;
    let first = own * times as u64;
    for i in 0..times {
        let Ok(_) = put_anyway(rt, shared, &mut me, &numbers, first + i as u64) else {
            return me;
        };
    }
    let Ok(place) = put_anyway(rt, shared, &mut me, &ends, own) else {
        return me;
    };
    if place == others as u64 {
        shut_plain(rt, shared, &mut me, &numbers);
        return me;
    }
    me
}

/// Takes everything until the buffer is shut and empty, and returns the sum, modulo 2^64.
#[tactic(auto, using(bounded_buffer::proofs::Using::plain_named))]
fn sum_all<R: Wait>(
    rt: &R,
    shared: &Package<Numbers>,
    mut me: Thread<Numbers>,
) -> (Thread<Numbers>, u64)
    requires named { HasBuffers shared.now.layout }
    requires begun { HasUsed shared.now me.number (unused ∷ unused ∷ []) me }
    ensures { (makers times : ℕ) → makers ≤ me.number → HasPassed shared.now makers times me.number result.1 result.0 }
{
    let numbers = plain_buffer(0);
    let mut sum = 0u64;
    for _ in rt.forever() {
        let Ok((_, item)) = take_anyway(rt, shared, &mut me, &numbers) else {
            return (me, sum);
        };
        sum = sum.wrapping_add(item);
    }
    unreachable!()
}

/// Makes or takes, by the thread's number.
fn pass<R: Wait>(
    rt: &R,
    shared: &Package<Numbers>,
    me: Thread<Numbers>,
    sides: Sides,
    times: u32,
) -> (Thread<Numbers>, u64)
    requires named { HasBuffers shared.now.layout }
    requires begun { HasUsed shared.now me.number (unused ∷ unused ∷ []) me }
    ensures { HasPassed shared.now sides.first times me.number result.1 result.0 }
{
    if me.number() < sides.first {
        (make(rt, shared, me, sides.first, times), 0)
    } else {
        sum_all(rt, shared, me)
    }
}

/// Returns an empty buffer of this capacity, and one with a place for each maker.
fn two_rings(alloc: Global, capacity: Capacity, makers: u32) -> Result<Vec<Ring<u64>>, AllocError>
    requires { (1 ≤ makers) × (makers ≤ 64) }
    ensures { IfOk result (λ v. v.items ≡ fresh capacity.number ∷ fresh makers ∷ []) }
{
    let mut rings = Vec::new(alloc);
    rings.push(Ring::new(alloc, capacity.number)?)?;
    rings.push(Ring::new(alloc, makers)?)?;
    Ok(rings)
}

/// Lets the makers pass `times` numbers each on to the takers, all at once: all numbers below the
/// product.
pub fn pass_at_once<R: Threads + Wait + Sync>(
    rt: &R,
    alloc: Global,
    sides: Sides,
    times: u32,
    capacity: Capacity,
) -> Result<Passed, AllocError>
    ensures count { IfOk result (λ r. length r.closed.threads ≡ sides.first + sides.second) }
    ensures sum { IfOk result (λ r. sum r.sums.items % 2 ^ 64 ≡ numbers_sum 0 (sides.first * times) % 2 ^ 64) }
    ensures over { IfOk result (λ r. (q : Held ℕ) → get_elem? r.closed.values 0 ≡ some q → IsOver (sides.first * times) q) }
{
    let layout = Layout::of(sides.first + sides.second, 2, 4, 0);
    let rings = two_rings(alloc, capacity, sides.first)?;
    let (shared, threads) = open_package::<Numbers>(alloc, layout, &(), rings, false)?;
    let Ok((threads, sums)) = at_once(
        rt,
        alloc,
        threads,
        &|me: Thread<Numbers>| -> (Thread<Numbers>, u64)
            requires { HasBuffers shared.layout × HasUsed shared me.number (unused ∷ unused ∷ []) me }
            ensures { HasPassed shared sides.first times me.number result.1 result.0 }
        { pass(rt, &shared, me, sides, times) },
    ) else {
        drop(shared);
        return Err(AllocError);
    };
    let closed = close_package(shared, threads)?;
    Ok(Passed { closed, sums })
}
