//! Threads that add under one mutex.
ghost use Rattle.std.specs.Prelude.{[], ◌∷◌, length, IfOk, ◌≡◌, ◌*◌};
ghost use Rattle.nub_rule.specs.Items.{Each};
ghost use Rattle.bench_workloads.specs.Workloads.{HasMade, HasObjects, HasWorked};

use crate::numbers::Count;
use crate::parts::{Part, run_part};
use nub::{Closed, MutexId, Package, Thread};
use std::alloc::{AllocError, Global};
use std::sync::Wait;
use std::thread::Threads;
use sum_uses::{AddChange, SumUses};
use user_mutex::locked;

/// The package in which threads have added, and the number that each has turned beside that.
#[derive(Drop)]
pub struct Added {
    pub closed: Closed<SumUses>,
    pub own: Vec<u64>,
}

/// Returns the number after `turns` turns.
#[inline]
fn value_after(own: u64, turns: u32) -> u64 {
    let mut x = own;
    for _i in 0..turns {
        x ^= x << 13;
        x ^= x >> 7;
        x ^= x << 17;
    }
    x
}

/// Adds 1 under the mutex `times` times, with `outside` turns on a number of its own after each.
pub fn add_many<R: Wait>(
    rt: &R,
    shared: &Package<SumUses>,
    mut me: Thread<SumUses>,
    times: u32,
    outside: u32,
) -> (Thread<SumUses>, u64)
    requires named { HasObjects shared.now.layout }
    requires begun { HasWorked shared.now me.number 0 (HasMade 0) me }
    ensures { HasWorked shared.now me.number times (HasMade (2 * times)) result.0 }
{
    let mut number = me.number() as u64 + 1;
    for _i in 0..times {
        locked::<SumUses, AddChange, (), _, R>(rt, shared, &mut me, MutexId(0), |x| *x += 1);
        number = value_after(number, outside);
    }
    (me, number)
}

/// Lets `threads` threads add 1 `times` times each, all at once.
pub fn add_at_once<R: Threads + Wait + Sync>(
    rt: &R,
    alloc: Global,
    threads: Count,
    times: u32,
    outside: u32,
) -> Result<Added, AllocError>
    ensures value { IfOk result (λ r. r.closed.values ≡ (threads.number * times) ∷ []) }
    ensures count { IfOk result (λ r. length r.closed.threads ≡ threads.number) }
    ensures each { IfOk result (λ r. Each (λ n t. HasMade (2 * times) t) r.closed.threads) }
{
    let (closed, own) = run_part(rt, alloc, threads, Part::Add { times, outside })?;
    Ok(Added { closed, own })
}
