//! A package with one buffer, whose threads do a task.
ghost use Rattle.std.specs.Prelude.{◌<◌, ◌≤◌, ◌≡◌, ◌∷◌, [], IfOk};
ghost use Rattle.bounded_buffer.specs.Rings.{fresh};
ghost use Rattle.nub.specs.Ended.{IsDone};
ghost use Rattle.test_condition.specs.Free.{IsFree, HasBuffer};

use crate::calls::Numbers;
use crate::work::{Left, Task, work};
use bounded_buffer::Ring;
use nub::{Closed, Layout, Thread, close_package, open_package};
use package_crew::at_once;
use std::alloc::{AllocError, Global};
use std::sync::Wait;
use std::sync::atomic::AtomicU64;
use std::test::Fail;
use std::thread::Threads;

/// The one value at first: a new ring.
fn one_ring(alloc: Global, capacity: u32) -> Result<Vec<Ring<u32>>, AllocError>
    requires { (1 ≤ capacity) × (capacity ≤ 4096) }
    ensures { IfOk result (λ v. v.items ≡ fresh capacity ∷ []) }
{
    let mut values = Vec::new(alloc);
    values.push(Ring::new(alloc, capacity)?)?;
    Ok(values)
}

/// Lets `threads` threads do their task, all at once. Returns the closed package, and what each of
/// them left.
fn run<R: Threads + Wait + Sync>(
    rt: &R,
    alloc: Global,
    threads: u32,
    capacity: u32,
    what: Task,
) -> Result<(Closed<Numbers>, Vec<Left>), AllocError>
    requires threads { (1 ≤ threads) × (threads ≤ 64) }
    requires capacity { (1 ≤ capacity) × (capacity ≤ 4096) }
{
    let layout = Layout::of(threads, 1, 2, 0);
    let values = one_ring(alloc, capacity)?;
    let (pkg, threads) = open_package::<Numbers>(alloc, layout, &(), values, false)?;
    let ended = AtomicU64::new(0);
    let Ok((threads, left)) = at_once(
        rt,
        alloc,
        threads,
        &|me: Thread<Numbers>| -> (Thread<Numbers>, Left)
            requires { HasBuffer pkg.layout × IsFree pkg me.number me × (me.number < pkg.layout.threads) }
            ensures { IsDone pkg me.number result.0 }
        { work(rt, alloc, &pkg, me, what, &ended) },
    ) else {
        drop(pkg);
        return Err(AllocError);
    };
    let Ok(closed) = close_package(pkg, threads) else {
        drop(left);
        return Err(AllocError);
    };
    Ok((closed, left))
}

/// What a package with one ring leaves.
#[derive(Clone, Copy, Drop)]
pub struct End {
    /// Whether there is a trace.
    pub traced: bool,
    /// How many items were taken from the ring, and whether it is empty.
    pub taken: u64,
    pub empty: bool,
}

/// What the closed package leaves, if it has a ring.
fn end_of(closed: &Closed<Numbers>) -> Option<End> {
    let ring = closed.values().first()?;
    Some(End {
        traced: closed.trace().is_some(),
        taken: ring.taken(),
        empty: ring.is_empty(),
    })
}

/// How many items the last ring of a closed package has.
fn items_left(closed: Closed<Numbers>) -> usize {
    let mut rings = closed.into_values();
    match rings.pop() {
        Some(ring) => {
            let items = ring.into_items();
            items.len()
        }
        None => 0,
    }
}

/// Lets `threads` threads do their task, all at once. Returns what the package leaves of its ring,
/// and what each of them left. The closed package is dropped here, so that tests compare where none
/// is alive.
pub fn ended<R: Threads + Wait + Sync>(
    rt: &R,
    alloc: Global,
    threads: u32,
    capacity: u32,
    what: Task,
) -> Result<(End, Vec<Left>), Fail>
    requires threads { (1 ≤ threads) × (threads ≤ 64) }
    requires capacity { (1 ≤ capacity) × (capacity ≤ 4096) }
{
    let (closed, left) = run(rt, alloc, threads, capacity, what)?;
    let end = end_of(&closed);
    let items = items_left(closed);
    match end {
        Some(end) if end.empty == (items == 0) => Ok((end, left)),
        _ => {
            drop(left);
            Err(Fail::from("no ring, or one that is empty and has items"))
        }
    }
}
