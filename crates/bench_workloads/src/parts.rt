//! Packages of sums whose threads all do one part.
ghost use Rattle.std.specs.Prelude.{[], ◌∷◌, ◌≡◌, ◌+◌, ◌*◌, ◌≤◌, ℕ, length, IfOk};
ghost use Rattle.nub_rule.specs.Items.{Each};
ghost use Rattle.nub.specs.Ended.{IsFirst};
ghost use Rattle.bench_workloads.specs.Parts.{HasDonePart, HasRun, begun, is_pass};
ghost use Rattle.bench_workloads.specs.Workloads.{HasMade, HasObjects, HasWorked};

use crate::additions::add_many;
use crate::alert_waits::wake;
use crate::alternation::{Play, take_turns};
use crate::calls::call_many;
use crate::numbers::Count;
use crate::semaphores::turn;
use bin_semaphore::p;
use nub::{Closed, Layout, Package, SemId, Thread, close_package, open_package};
use package_crew::at_once;
use std::alloc::{AllocError, Global};
use std::sync::Wait;
use std::thread::Threads;
use sum_uses::SumUses;

/// What each thread does, and how many times.
#[derive(Clone, Copy)]
pub enum Part {
    /// Adds 1 under the mutex, with `outside` turns after each addition.
    Add {
        times: u32,
        outside: u32,
    },
    /// Calls Broadcast or Signal.
    Call {
        all: bool,
        times: u32,
    },
    /// Takes its own semaphore and makes the other thread's available, or its own if it is alone.
    Pass {
        alone: bool,
        times: u32,
    },
    /// Takes turns with the others; there are `threads` in all.
    Turns {
        what: Play,
        threads: Count,
        times: u32,
    },
    /// Waits for alerts if it is the first thread, and otherwise alerts the first.
    Wake {
        times: u32,
    },
}

/// Does the part, and returns the number that it has turned or counted, if it has.
fn do_part<R: Wait>(
    rt: &R,
    shared: &Package<SumUses>,
    me: Thread<SumUses>,
    part: Part,
) -> (Thread<SumUses>, u64)
    requires named { HasObjects shared.now.layout }
    requires begun { HasWorked shared.now me.number 0 (HasMade (begun part me.number)) me }
    ensures { HasDonePart part shared.now me.number result.1 result.0 }
{
    match part {
        Part::Add { times, outside } => add_many(rt, shared, me, times, outside),
        Part::Call { all, times } => (call_many(rt, shared, me, all, times), 0),
        Part::Pass { alone, times } => turn(rt, shared, me, alone, times),
        Part::Turns {
            what,
            threads,
            times,
        } => take_turns(rt, shared, me, what, threads, times),
        Part::Wake { times } => wake(rt, shared, me, times),
    }
}

/// Returns whether semaphores are passed on.
fn passes(part: Part) -> bool
    ensures { result ≡ is_pass part }
{
    matches!(part, Part::Pass { .. })
}

/// If semaphores are passed on, lets the second thread take its own, so that the first begins.
fn begin_part<R: Wait>(
    rt: &R,
    shared: &Package<SumUses>,
    threads: &mut Vec<Thread<SumUses>>,
    part: Part,
)
    requires named { HasObjects shared.now.layout }
    requires first { Each (IsFirst shared.now (λ w t. [])) threads.old.items }
    ensures count { length threads.new.items ≡ length threads.old.items }
    ensures begun { Each (λ n t. HasWorked shared.now n 0 (HasMade (begun part n)) t) threads.new.items }
{
    if !passes(part) {
        return;
    }
    if let Some(second) = threads.get_mut(1) {
        p(rt, shared, second, SemId(1));
    }
}

/// Opens a package of `threads` threads with one number, which is 0, two conditions and two
/// semaphores, lets each thread do the part, all at once, and closes the package. Also returns the
/// number that each thread has turned or counted.
pub fn run_part<R: Threads + Wait + Sync>(
    rt: &R,
    alloc: Global,
    threads: Count,
    part: Part,
) -> Result<(Closed<SumUses>, Vec<u64>), AllocError>
    ensures { IfOk result (λ r. HasRun threads.number part r.0 r.1.items) }
{
    let layout = Layout::of(threads.number, 1, 2, 2);
    let values = vec![in alloc; 0u64]?;
    let (shared, mut threads) = open_package::<SumUses>(alloc, layout, &(), values, false)?;
    begin_part(rt, &shared, &mut threads, part);
    let Ok((threads, own)) = at_once(
        rt,
        alloc,
        threads,
        &|me: Thread<SumUses>| -> (Thread<SumUses>, u64)
            requires { HasObjects shared.layout × HasWorked shared me.number 0 (HasMade (begun part me.number)) me }
            ensures { HasDonePart part shared me.number result.1 result.0 }
        { do_part(rt, &shared, me, part) },
    ) else {
        drop(shared);
        return Err(AllocError);
    };
    let closed = close_package(shared, threads)?;
    Ok((closed, own))
}
