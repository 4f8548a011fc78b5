//! Threads that take turns by semaphores.
ghost use Rattle.std.specs.Prelude.{length, IfOk, ◌≡◌, ◌≤◌, ◌+◌, ◌*◌};
ghost use Rattle.nub_rule.specs.Items.{Each};
ghost use Rattle.bench_workloads.specs.Workloads.{HasMade, HasObjects, HasPassed, HasWorked, first_calls};

use crate::numbers::Count;
use crate::parts::{Part, run_part};
use bin_semaphore::{p, v};
use nub::{Closed, Package, SemId, Thread};
use std::alloc::{AllocError, Global};
use std::sync::Wait;
use std::thread::Threads;
use sum_uses::SumUses;

/// The package in which threads have taken turns, and how many turns each counted.
#[derive(Drop)]
pub struct Turned {
    pub closed: Closed<SumUses>,
    pub turns: Vec<u64>,
}

/// Makes P of the thread's own semaphore, adds 1, and makes V of the other, `times` times. A
/// semaphore protects no value, so the number is the thread's own.
pub fn turn<R: Wait>(
    rt: &R,
    shared: &Package<SumUses>,
    mut me: Thread<SumUses>,
    alone: bool,
    times: u32,
) -> (Thread<SumUses>, u64)
    requires named { HasObjects shared.now.layout }
    requires begun { HasWorked shared.now me.number 0 (HasMade (first_calls me.number)) me }
    ensures { HasWorked shared.now me.number 0 (HasPassed times me.number result.1) result.0 }
{
    let own = me.number() % 2;
    let other = if alone { own } else { 1 - own };
    let mut number = 0u64;
    for _i in 0..times {
        p(rt, shared, &mut me, SemId(own));
        number += 1;
        v(rt, shared, &mut me, SemId(other));
    }
    (me, number)
}

/// Lets one thread alone, or two in turns, do `times` turns each: a P of the thread's own semaphore
/// and a V of the next thread's. The second of two has made one call more, with which the first
/// began.
pub fn turn_at_once<R: Threads + Wait + Sync>(
    rt: &R,
    alloc: Global,
    count: u32,
    times: u32,
) -> Result<Turned, AllocError>
    requires { (1 ≤ count) × (count ≤ 2) }
    ensures count { IfOk result (λ r. (length r.turns.items ≡ count) × (length r.closed.threads ≡ count)) }
    ensures turns { IfOk result (λ r. Each (λ n k. k ≡ times) r.turns.items) }
    ensures each { IfOk result (λ r. Each (λ n t. HasMade (n + 2 * times) t) r.closed.threads) }
{
    let part = Part::Pass {
        alone: count == 1,
        times,
    };
    let (closed, turns) = run_part(rt, alloc, Count { number: count }, part)?;
    Ok(Turned { closed, turns })
}
