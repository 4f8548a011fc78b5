//! Forks, ends and joins.
ghost use Rattle.std.specs.Prelude.{◌≡◌, ◌≤◌};

use crate::late::{chain_in_time, run_in_time};
use crate::lives::Task;
use crate::notes::Notes;
use crate::run::Plan;
use nub::{Action, Event, ThreadId};
use std::alloc::Global;
use std::process::Abort;
use std::sync::Wait;
use std::sync::atomic::Ordering;
use std::test::Fail;
use std::thread::Threads;
use std::time::Clock;
use test_support::{event, has_left, has_numbers, has_played};

/// Returns a plan in which each of `threads` threads is started, and does this.
fn all_started(threads: u32, task: Task, traced: bool) -> Plan
    ensures { result.threads ≡ threads }
{
    Plan {
        threads,
        family: 1,
        starts: threads as usize,
        task,
        alerts: false,
        traced,
    }
}

/// Checks that the plan leaves the mutex with this number, and the package with a trace of `events`
/// events or none.
fn leaves<R: Threads + Wait + Clock + Abort + Sync>(
    rt: &R,
    alloc: Global,
    plan: Plan,
    value: u64,
    events: Option<usize>,
) -> Result<(), Fail>
    requires { (1 ≤ plan.threads) × (plan.threads ≤ 256) }
{
    let notes = Notes::new();
    let closed = run_in_time(rt, alloc, plan, &notes)?;
    let seen = has_left(&closed, &[value], events);
    drop(closed);
    seen
}

/// Checks that the plan leaves a trace of these events.
fn plays<R: Threads + Wait + Clock + Abort + Sync>(
    rt: &R,
    alloc: Global,
    plan: Plan,
    notes: &Notes,
    expected: &[Event],
) -> Result<(), Fail>
    requires { (1 ≤ plan.threads) × (plan.threads ≤ 256) }
{
    let closed = run_in_time(rt, alloc, plan, notes)?;
    let seen = has_played(&closed, expected);
    drop(closed);
    seen
}

// A fork, the child's end, a join and the first thread's own end are each stored. The child lives
// in an operating-system thread of its own, or, if the system refuses to start one, in that of the
// thread that forked it, which joins it after its end.
#[test]
fn each_event_is_stored(rt: HostRuntime) -> Result<(), Fail> {
    let (first, child) = (0, ThreadId(1));
    let expected = [
        event(first, Action::Fork { who: child }),
        event(1, Action::End),
        event(first, Action::Join { who: child }),
        event(first, Action::End),
    ];
    let notes = Notes::new();
    let started = all_started(2, Task::Nothing, true);
    plays(&rt, rt.alloc(), started, &notes, &expected)?;
    let refused = Plan {
        starts: 0,
        ..started
    };
    let notes = Notes::new();
    plays(&rt, rt.alloc(), refused, &notes, &expected)?;
    leaves(
        &rt,
        rt.alloc(),
        all_started(2, Task::Nothing, false),
        0,
        None,
    )
}

// A thread that waits for the end of another before that ends sleeps, and is woken by the end.
#[test]
fn an_end_wakes_who_waits_for_it(rt: HostRuntime) -> Result<(), Fail> {
    leaves(&rt, rt.alloc(), all_started(2, Task::Late, false), 0, None)?;
    leaves(
        &rt,
        rt.alloc(),
        all_started(2, Task::Late, true),
        0,
        Some(4),
    )
}

// The largest layout, in which one thread forks all others: no addition is lost, and the trace has
// every event.
#[test]
fn many_forks_by_one(rt: HostRuntime) -> Result<(), Fail> {
    leaves(
        &rt,
        rt.alloc(),
        all_started(256, Task::Adds, false),
        255,
        None,
    )?;
    leaves(
        &rt,
        rt.alloc(),
        all_started(256, Task::Adds, true),
        255,
        Some(1276),
    )
}

/// Checks that a chain of 256 leaves a trace of `events` events or none.
fn chain_leaves<R: Threads + Wait + Clock + Abort + Sync>(
    rt: &R,
    alloc: Global,
    events: Option<usize>,
) -> Result<(), Fail> {
    let closed = chain_in_time(rt, alloc, 256, events.is_some())?;
    let seen = has_left(&closed, &[0], events);
    drop(closed);
    seen
}

// Each of 256 threads forks the next one and waits for its end.
#[test]
fn chain(rt: HostRuntime) -> Result<(), Fail> {
    chain_leaves(&rt, rt.alloc(), None)?;
    chain_leaves(&rt, rt.alloc(), Some(766))
}

// 15 threads at once each fork and join 16 others, one after the other.
#[test]
fn many_forks_at_once(rt: HostRuntime) -> Result<(), Fail> {
    let untraced = Plan {
        family: 17,
        ..all_started(256, Task::Adds, false)
    };
    leaves(&rt, rt.alloc(), untraced, 255, None)?;
    let traced = Plan {
        traced: true,
        ..untraced
    };
    leaves(&rt, rt.alloc(), traced, 255, Some(1516))
}

// All threads but one wait at once for the end of that one.
#[test]
fn joined_by_many(rt: HostRuntime) -> Result<(), Fail> {
    leaves(
        &rt,
        rt.alloc(),
        all_started(64, Task::JoinFirst(62), false),
        0,
        None,
    )?;
    leaves(
        &rt,
        rt.alloc(),
        all_started(64, Task::JoinFirst(62), true),
        0,
        Some(252),
    )
}

// Some families can't be started, and one thread is never forked.
#[test]
fn refused_starts(rt: HostRuntime) -> Result<(), Fail> {
    let plan = Plan {
        family: 3,
        starts: 2,
        ..all_started(14, Task::Adds, true)
    };
    leaves(&rt, rt.alloc(), plan, 12, Some(69))?;
    let none = Plan {
        starts: 0,
        traced: false,
        ..plan
    };
    leaves(&rt, rt.alloc(), none, 12, None)
}

// A thread that was alerted before its fork finds it. One that has ended may be alerted.
#[test]
fn alerts_of_the_unborn_and_the_ended(rt: HostRuntime) -> Result<(), Fail> {
    let child = ThreadId(1);
    let alerted = event(0, Action::Alert { who: child });
    let expected = [
        alerted,
        event(0, Action::Fork { who: child }),
        event(1, Action::TestAlert { yes: true }),
        event(1, Action::End),
        event(0, Action::Join { who: child }),
        alerted,
        event(0, Action::End),
    ];
    let notes = Notes::new();
    let plan = Plan {
        alerts: true,
        ..all_started(2, Task::Looks, true)
    };
    plays(&rt, rt.alloc(), plan, &notes, &expected)?;
    has_numbers(&[notes.alerted.load(Ordering::SeqCst)], &[1])
}
