//! A condition, with a mutex whose value says whose turn it is.
ghost use Rattle.std.specs.Prelude.{◌≡◌};
ghost use Rattle.larch_actions.specs.Layout.{IsLawful};
ghost use Rattle.larch_actions.specs.declared.event.Version.TheVariants.{One};
ghost use Rattle.test_support.specs.Layouts.{HasFew};

use crate::notes::Notes;
use crate::steps::{Steps, counted, resumed_beside};
use crate::waits::{WaitPart, Waits};
use larch_actions::ThreadSet;
use nub::{Action, Closed, CondId, Layout, MutexId};
use std::alloc::Global;
use std::process::Abort;
use std::sync::Wait;
use std::sync::atomic::Ordering;
use std::test::Fail;
use std::thread::Threads;
use sum_uses::SumUses;
use test_support::{event, few_of_each, has_numbers, largest, leaves, plays, run};

/// Returns the steps of two conditions in the trace.
fn steps_in(closed: &Closed<SumUses>, conds: (CondId, CondId)) -> Option<(Steps, Steps)> {
    let events = closed.trace()?;
    Some((counted(events, conds.0)?, counted(events, conds.1)?))
}

/// Runs the part with a trace, and checks that it leaves the mutexes with these numbers. Returns
/// the steps of two conditions.
fn steps_of<R: Threads + Wait + Sync>(
    rt: &R,
    alloc: Global,
    layout: Layout,
    part: &WaitPart,
    values: &[u64],
    conds: (CondId, CondId),
) -> Result<(Steps, Steps), Fail>
    requires lawful { IsLawful layout }
    requires version { layout.version ≡ One }
    requires few { HasFew layout }
{
    let closed = run(rt, alloc, layout, part, true)?;
    let seen = has_numbers(closed.values(), values);
    let steps = steps_in(&closed, conds);
    drop(closed);
    seen?;
    Ok(steps.ok_or("no trace, or a wait that nobody ended")?)
}

/// Checks that these are the steps of a condition.
fn has_steps(rt: &impl Abort, found: Steps, expected: Steps) {
    assert_eq!(rt; found, expected);
}

/// Checks that `signals` Signals and no Broadcast ended waits in the condition, and that each
/// thread that waited went on.
fn has_turns(rt: &impl Abort, found: Steps, signals: u64) {
    let expected = Steps {
        enqueued: found.enqueued,
        resumed: found.enqueued,
        signals,
        broadcasts: 0,
    };
    has_steps(rt, found, expected);
}

// A Signal and a Broadcast of an empty condition go on at once, and leave no thread in it.
#[test]
fn alone(rt: HostRuntime) -> Result<(), Fail> {
    let notes = Notes::new();
    let part = WaitPart(Waits::Wakes, &notes);
    let (cond, left) = (CondId(0), ThreadSet::empty());
    let signal = event(0, Action::Signal { cond, left });
    let broadcast = event(0, Action::Broadcast { cond });
    plays(&rt, rt.alloc(), few_of_each(1), &part, &[signal, broadcast])
}

// The conditions in which two threads take turns.
const BOTH: (CondId, CondId) = (CondId(0), CondId(1));

// Two threads take turns, untraced and traced: no wake is lost, and each thread that resumes was
// taken out.
#[test]
fn contended(rt: HostRuntime) -> Result<(), Fail> {
    let (notes, values) = (Notes::new(), [4000, 0]);
    let part = WaitPart(Waits::Turns(2000), &notes);
    leaves(&rt, rt.alloc(), few_of_each(2), &part, &values, None)?;
    let (first, second) = steps_of(&rt, rt.alloc(), few_of_each(2), &part, &values, BOTH)?;
    has_turns(&rt, first, 2000);
    has_turns(&rt, second, 2000);
    Ok(())
}

// Two pairs take turns in conditions of their own: a Signal to one never wakes in place of one to the other.
#[test]
fn two_objects_apart(rt: HostRuntime) -> Result<(), Fail> {
    let notes = Notes::new();
    let part = WaitPart(Waits::TurnsApart(2000), &notes);
    leaves(&rt, rt.alloc(), few_of_each(4), &part, &[4000, 4000], None)
}

// 63 threads are in one condition, as many as can be, and one Broadcast with their mutex takes them
// all out. Each resumes once, so the list of threads to be unparked at the release of the mutex has
// room for all.
#[test]
fn many_threads(rt: HostRuntime) -> Result<(), Fail> {
    let notes = Notes::new();
    let part = WaitPart(Waits::Gather(63), &notes);
    let (steps, _) = steps_of(&rt, rt.alloc(), few_of_each(64), &part, &[64, 0], BOTH)?;
    let expected = Steps {
        enqueued: 63,
        resumed: 63,
        signals: 0,
        broadcasts: 1,
    };
    has_steps(&rt, steps, expected);
    Ok(())
}

/// This number for each of the first 32 mutexes of 64, and 0 for the others.
fn half(sum: u64) -> [u64; 64] {
    let mut values = [0; 64];
    for value in &mut values[..32] {
        *value = sum;
    }
    values
}

// 32 pairs of threads, each in a mutex and a condition of its own.
#[test]
fn largest_layout(rt: HostRuntime) -> Result<(), Fail> {
    let (notes, conds) = (Notes::new(), (CondId(0), CondId(31)));
    let part = WaitPart(Waits::TurnsApart(10), &notes);
    let (_, last) = steps_of(&rt, rt.alloc(), largest(), &part, &half(20), conds)?;
    has_turns(&rt, last, 20);
    Ok(())
}

// A Signal after the release of the mutex finds the other thread anywhere between its count and its
// sleep, and is never lost.
#[test]
fn signal_before_the_push(rt: HostRuntime) -> Result<(), Fail> {
    let notes = Notes::new();
    let part = WaitPart(Waits::TurnsAfter(100000), &notes);
    leaves(&rt, rt.alloc(), few_of_each(2), &part, &[200000, 0], None)
}

/// Two makers and two takers pass 5,000 items each through the ring.
fn pass_once<R: Threads + Wait + Sync>(rt: &R, alloc: Global) -> Result<(), Fail> {
    let notes = Notes::new();
    let part = WaitPart(Waits::Ring(5000), &notes);
    leaves(rt, alloc, few_of_each(4), &part, &[20000, 0], None)?;
    has_numbers(&notes.ring.came(), &[5000, 5000, 0])
}

// Two makers and two takers at a ring of one place: each of 10,000 items is taken once, and those
// of each maker in their order.
#[test]
fn ring_of_one_place(rt: HostRuntime) -> Result<(), Fail> {
    for _i in 0..4 {
        pass_once(&rt, rt.alloc())?;
    }
    Ok(())
}

/// Runs the task without a trace, and checks that the other thread has gone on 1000 times.
fn goes_on<R: Threads + Wait + Sync>(rt: &R, alloc: Global, what: Waits) -> Result<(), Fail> {
    let notes = Notes::new();
    let part = WaitPart(what, &notes);
    leaves(rt, alloc, few_of_each(2), &part, &[0, 0], None)?;
    has_numbers(&[notes.gone_on.load(Ordering::SeqCst)], &[1000])
}

/// Returns how many waits in condition 0 there were, how many Signals ended them, and how many of
/// these waits ended while another thread held this mutex.
fn beside(closed: &Closed<SumUses>, kept: MutexId) -> Option<[u64; 3]> {
    let events = closed.trace()?;
    let found = counted(events, CondId(0))?;
    Some([found.enqueued, found.signals, resumed_beside(events, kept)])
}

/// Does the same with a trace: each wait was ended by a Signal, while another thread held this
/// mutex.
fn goes_on_traced<R: Threads + Wait + Sync>(
    rt: &R,
    alloc: Global,
    what: Waits,
    kept: MutexId,
) -> Result<(), Fail> {
    let notes = Notes::new();
    let closed = run(rt, alloc, few_of_each(2), &WaitPart(what, &notes), true)?;
    let found = beside(&closed, kept);
    drop(closed);
    let found = found.ok_or("no trace, or a wait that nobody ended")?;
    has_numbers(&found, &[1000, 1000, 1000])
}

// The thread that signals keeps another mutex than that of the wait, and releases it only when the
// other thread has gone on. So that thread must be woken at once: it would wait for ever if it were
// unparked only at the release of a mutex.
#[test]
fn the_waker_keeps_another_mutex(rt: HostRuntime) -> Result<(), Fail> {
    for (what, kept) in [
        (Waits::KeepsFirst(1000), MutexId(0)),
        (Waits::KeepsSecond(1000), MutexId(1)),
    ] {
        goes_on(&rt, rt.alloc(), what)?;
        goes_on_traced(&rt, rt.alloc(), what, kept)?;
    }
    Ok(())
}
