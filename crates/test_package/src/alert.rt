//! Alerts, and waits for a semaphore that alerts end.
use crate::alert_part::{AlertPart, AlertTask};
use crate::notes::Notes;
use nub::{Action, Event, SemId, ThreadId};
use std::alloc::Global;
use std::sync::Wait;
use std::test::Fail;
use std::thread::Threads;
use test_support::{event, few_of_each, has_numbers, leaves, plays, run};

/// Checks that thread 0 raises `times` times, and leaves a trace of `events` events or none.
fn raises<R: Threads + Wait + Sync>(
    rt: &R,
    alloc: Global,
    times: u32,
    events: Option<usize>,
) -> Result<(), Fail> {
    let notes = Notes::new();
    let part = AlertPart(AlertTask::Raises(times), &notes);
    leaves(rt, alloc, few_of_each(3), &part, &[0; 2], events)?;
    has_numbers(&notes.numbers()[..1], &[u64::from(times)])
}

// A thread that waits for a semaphore which no thread makes available raises each time that it is
// alerted.
#[test]
fn raises_each_time(rt: HostRuntime) -> Result<(), Fail> {
    raises(&rt, rt.alloc(), 10_000, None)?;
    raises(&rt, rt.alloc(), 100, Some(402))
}

/// Checks that thread 0 ends its wait `times` times, and finds no fault.
fn ends_each_wait<R: Threads + Wait + Sync>(
    rt: &R,
    alloc: Global,
    times: u32,
    traced: bool,
) -> Result<(), Fail> {
    let notes = Notes::new();
    let part = AlertPart(AlertTask::AtOnce(times), &notes);
    let closed = run(rt, alloc, few_of_each(3), &part, traced)?;
    drop(closed);
    has_numbers(&notes.numbers()[..2], &[u64::from(times), 0])
}

// A semaphore becomes available while the thread that waits for it is alerted: either it has the
// semaphore and is still alerted, or it has raised and the semaphore is available. No thread is
// left in the queue: a V and a P follow, and another alertable P that raises.
#[test]
fn freed_and_alerted_at_once(rt: HostRuntime) -> Result<(), Fail> {
    ends_each_wait(&rt, rt.alloc(), 100_000, false)?;
    ends_each_wait(&rt, rt.alloc(), 200, true)
}

/// Checks that thread 0 does the task, which leaves a trace of these events, and notes these two
/// numbers.
fn plays_alone<R: Threads + Wait + Sync>(
    rt: &R,
    alloc: Global,
    task: AlertTask,
    events: &[Event],
    noted: [u64; 2],
) -> Result<(), Fail> {
    let notes = Notes::new();
    let part = AlertPart(task, &notes);
    plays(rt, alloc, few_of_each(3), &part, events)?;
    has_numbers(&notes.numbers()[..2], &noted)
}

// A thread that has alerted itself raises if the semaphore isn't available.
#[test]
fn alerts_itself(rt: HostRuntime) -> Result<(), Fail> {
    let sem = SemId(0);
    let taken = event(0, Action::P { sem });
    let alerted = event(0, Action::Alert { who: ThreadId(0) });
    let raised = event(0, Action::AlertPRaise { sem });
    let expected = [taken, alerted, raised];
    plays_alone(&rt, rt.alloc(), AlertTask::Oneself, &expected, [1, 0])
}

// Two alerts are one: the first test finds it, and the second finds none.
#[test]
fn two_alerts_are_one(rt: HostRuntime) -> Result<(), Fail> {
    let alerted = event(0, Action::Alert { who: ThreadId(0) });
    let yes = event(0, Action::TestAlert { yes: true });
    let no = event(0, Action::TestAlert { yes: false });
    let expected = [alerted, alerted, yes, no];
    plays_alone(&rt, rt.alloc(), AlertTask::Twice, &expected, [1, 0])
}

// A thread that is alerted at rest finds the alert when it tests.
#[test]
fn alerted_at_rest(rt: HostRuntime) -> Result<(), Fail> {
    let notes = Notes::new();
    let part = AlertPart(AlertTask::AtRest, &notes);
    leaves(&rt, rt.alloc(), few_of_each(3), &part, &[0; 2], None)?;
    has_numbers(&notes.numbers()[..2], &[1, 0])
}
