//! Waits in a condition that an alert may end.
use crate::alert_part::{AlertPart, AlertTask};
use crate::notes::Notes;
use nub::{Action, Closed, CondId, MutexId, ThreadId};
use std::alloc::Global;
use std::sync::Wait;
use std::test::Fail;
use std::thread::Threads;
use sum_uses::SumUses;
use test_support::{event, few_of_each, has_numbers, leaves, plays, run};

// A thread that was alerted before it waits raises at once, holds the mutex then, and is no longer
// alerted.
#[test]
fn alone(rt: HostRuntime) -> Result<(), Fail> {
    let notes = Notes::new();
    let part = AlertPart(AlertTask::Alone, &notes);
    let (mutex, cond) = (MutexId(0), CondId(0));
    let expected = [
        event(0, Action::Alert { who: ThreadId(0) }),
        event(0, Action::Acquire { mutex }),
        event(0, Action::AlertEnqueue { mutex, cond }),
        event(0, Action::AlertRaise { mutex, cond }),
        event(0, Action::Release { mutex }),
        event(0, Action::TestAlert { yes: false }),
    ];
    plays(&rt, rt.alloc(), few_of_each(1), &part, &expected)?;
    has_numbers(&notes.numbers()[..2], &[1, 0])
}

// A monitor begins no wait for a number that is accepted at once. A thread that was alerted waits for one that is never accepted, raises at
// once, and gives the mutex back.
fn untils<R: Threads + Wait + Sync>(rt: &R, alloc: Global, task: AlertTask) -> Result<(), Fail> {
    let notes = Notes::new();
    let part = AlertPart(task, &notes);
    let (mutex, cond) = (MutexId(0), CondId(0));
    let expected = [
        event(0, Action::Acquire { mutex }),
        event(0, Action::Release { mutex }),
        event(0, Action::Alert { who: ThreadId(0) }),
        event(0, Action::Acquire { mutex }),
        event(0, Action::AlertEnqueue { mutex, cond }),
        event(0, Action::AlertRaise { mutex, cond }),
        event(0, Action::Release { mutex }),
    ];
    plays(rt, alloc, few_of_each(1), &part, &expected)?;
    has_numbers(&notes.numbers()[..2], &[1, 1])
}

// A value is worked on once it is accepted, or never after an alert.
#[test]
fn locked_when(rt: HostRuntime) -> Result<(), Fail> {
    untils(&rt, rt.alloc(), AlertTask::Works)
}

// A wait for a value returns once it is accepted, or ends by an alert.
#[test]
fn wait_until(rt: HostRuntime) -> Result<(), Fail> {
    untils(&rt, rt.alloc(), AlertTask::Returns)
}

// A Signal and an alert race for a wait 100,000 times. Exactly one ends it: if the Signal did, the
// alert is still there, and otherwise it is cleared.
#[test]
fn alert_against_signal(rt: HostRuntime) -> Result<(), Fail> {
    let notes = Notes::new();
    let part = AlertPart(AlertTask::Race(100000), &notes);
    leaves(&rt, rt.alloc(), few_of_each(3), &part, &[0; 2], None)?;
    has_numbers(&notes.numbers()[1..2], &[0])
}

/// Returns how many waits that an alert may end have ended, if there is a trace.
fn ended(closed: &Closed<SumUses>) -> Option<u64> {
    let mut ended: u64 = 0;
    for event in closed.trace()? {
        if matches!(
            event.action,
            Action::AlertReturn { .. } | Action::AlertRaise { .. }
        ) {
            ended = ended.wrapping_add(1);
        }
    }
    Some(ended)
}

/// Returns how many waits have ended in the trace of `races` races.
fn ended_in_races<R: Threads + Wait + Sync>(
    rt: &R,
    alloc: Global,
    races: u32,
    notes: &Notes,
) -> Result<u64, Fail> {
    let part = AlertPart(AlertTask::Race(races), notes);
    let closed = run(rt, alloc, few_of_each(3), &part, true)?;
    let ended = ended(&closed);
    drop(closed);
    Ok(ended.ok_or("no trace")?)
}

// The same race with a trace, which is legal as a whole: each wait ends by one of its two events.
#[test]
fn alert_against_signal_traced(rt: HostRuntime) -> Result<(), Fail> {
    let notes = Notes::new();
    let ended = ended_in_races(&rt, rt.alloc(), 1000, &notes)?;
    has_numbers(&[ended], &[1000])?;
    has_numbers(&notes.numbers()[1..2], &[0])
}
