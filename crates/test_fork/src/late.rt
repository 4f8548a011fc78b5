//! Runs that end in time, or else end the test: a thread that doesn't go on where it must would
//! wait for ever.
ghost use Rattle.std.specs.Prelude.{◌≤◌};

use crate::chain::run_chain;
use crate::notes::{Notes, count, seen_in_time};
use crate::run::{Plan, run};
use nub::Closed;
use std::alloc::Global;
use std::process::Abort;
use std::sync::Wait;
use std::test::Fail;
use std::thread::{Threads, join};
use std::time::Clock;
use sum_uses::SumUses;

/// Ends the test, unless the run is over in ten seconds.
fn watch<R: Clock + Abort>(rt: &R, notes: &Notes) {
    assert!(rt; seen_in_time(rt, &notes.over, 1), "a thread still waits");
}

/// Returns the closed package, if its run ends in time.
pub fn run_in_time<R: Threads + Wait + Clock + Abort + Sync>(
    rt: &R,
    alloc: Global,
    plan: Plan,
    notes: &Notes,
) -> Result<Closed<SumUses>, Fail>
    requires { (1 ≤ plan.threads) × (plan.threads ≤ 256) }
{
    let (_, closed) = join(
        rt,
        || watch(rt, notes),
        || -> Result<Closed<SumUses>, Fail>
            requires { (1 ≤ plan.threads) × (plan.threads ≤ 256) }
        {
            let closed = run(rt, alloc, plan, notes);
            count(&notes.over);
            closed
        },
    );
    closed
}

/// Does the same for a chain.
pub fn chain_in_time<R: Threads + Wait + Clock + Abort + Sync>(
    rt: &R,
    alloc: Global,
    threads: u32,
    traced: bool,
) -> Result<Closed<SumUses>, Fail>
    requires { (1 ≤ threads) × (threads ≤ 256) }
{
    let notes = Notes::new();
    let (_, closed) = join(
        rt,
        || watch(rt, &notes),
        || -> Result<Closed<SumUses>, Fail>
            requires { (1 ≤ threads) × (threads ≤ 256) }
        {
            let closed = run_chain(rt, alloc, threads, traced);
            count(&notes.over);
            closed
        },
    );
    closed
}
