//! The work of one thread of a test.
ghost use Rattle.std.specs.Prelude.{[], ◌≡◌, ◌<◌, ◌≤◌};
ghost use Rattle.nub.specs.Ended.{IsDone};
ghost use Rattle.nub.specs.Idle.{IsIdle};

use crate::notes::{Notes, seen_in_time, stand};
use bin_semaphore::{p, v};
use nub::{MutexId, NoChange, Package, SemId, Thread};
use std::sync::Wait;
use std::sync::atomic::Ordering;
use sum_uses::{AddChange, SumUses, add_to};
use test_support::Part;
use user_mutex::{acquire, locked, release};

/// The task of the threads of a test.
#[derive(Clone, Copy)]
pub enum Task {
    /// All add this many times under one mutex.
    Together(u32),
    /// Each adds this many times under a mutex of its own, if there are enough.
    Apart(u32),
    /// One turn of the mutex with an addition, and one without.
    TwoTurns,
    /// Thread 1 holds mutex 0 until thread 0 has been through mutex 1.
    PassBy,
    /// All take turns by one semaphore, this many times.
    TakeTurns(u32),
    /// Each takes turns by a semaphore of its own, if there are enough.
    TurnApart(u32),
    /// Thread 1 stays between P and V of semaphore 0 until thread 0 has been through semaphore 1.
    PassBySem,
}

/// Adds 1 `times` times.
fn add_many<R: Wait>(
    rt: &R,
    pkg: &Package<SumUses>,
    mut me: Thread<SumUses>,
    m: MutexId,
    times: u32,
) -> Thread<SumUses>
    requires named { (m.0 < pkg.now.layout.mutexes) × (m.0 < 64) }
    requires few { times ≤ 1000000 }
    requires idle { IsIdle pkg.now me.number [] me }
    ensures { IsDone pkg.now me.number result }
{
    for _i in 0..times {
        locked::<SumUses, AddChange, (), _, R>(rt, pkg, &mut me, m, |x| *x = add_to(*x, 1));
    }
    me
}

/// Adds 5 in one turn and nothing in the next, and notes what it got in each, and whether the
/// thread reported that it had the mutex.
fn two_turns<R: Wait>(
    rt: &R,
    pkg: &Package<SumUses>,
    mut me: Thread<SumUses>,
    notes: &Notes,
) -> Thread<SumUses>
    requires named { 0 < pkg.now.layout.mutexes }
    requires idle { IsIdle pkg.now me.number [] me }
    ensures { IsDone pkg.now me.number result }
{
    let m = MutexId(0);
    let got = acquire(rt, pkg, &mut me, m);
    notes.first.store(got, Ordering::SeqCst);
    let inside = me.has(m);
    release::<SumUses, AddChange, R>(rt, pkg, &mut me, m, add_to(got, 5));
    if inside && !me.has(m) {
        notes.third.store(1, Ordering::SeqCst);
    }
    let again = acquire(rt, pkg, &mut me, m);
    notes.second.store(again, Ordering::SeqCst);
    release::<SumUses, NoChange, R>(rt, pkg, &mut me, m, again);
    me
}

/// Holds mutex 0 until it has seen the second note, and adds 1 if that was in time.
fn stand_by<R: Wait>(
    rt: &R,
    pkg: &Package<SumUses>,
    mut me: Thread<SumUses>,
    notes: &Notes,
) -> Thread<SumUses>
    requires named { 0 < pkg.now.layout.mutexes }
    requires idle { IsIdle pkg.now me.number [] me }
    ensures { IsDone pkg.now me.number result }
{
    let seen = |x: &mut u64|
        requires { x.old ≤ 25600000000000 }
    { *x = add_to(*x, stand(notes)) };
    locked::<SumUses, AddChange, (), _, R>(rt, pkg, &mut me, MutexId(0), seen);
    me
}

/// Waits until thread 1 holds mutex 0, goes through mutex 1, and sets the second note.
fn pass_by<R: Wait>(
    rt: &R,
    pkg: &Package<SumUses>,
    me: Thread<SumUses>,
    notes: &Notes,
) -> Thread<SumUses>
    requires named { 1 < pkg.now.layout.mutexes }
    requires idle { IsIdle pkg.now me.number [] me }
    ensures { IsDone pkg.now me.number result }
{
    let _ = seen_in_time(&notes.first);
    let me = add_many(rt, pkg, me, MutexId(1), 1);
    notes.second.store(1, Ordering::SeqCst);
    me
}

/// Makes P and V `times` times. Notes whether another thread was between its own at the same time.
fn turns<R: Wait>(
    rt: &R,
    pkg: &Package<SumUses>,
    mut me: Thread<SumUses>,
    s: SemId,
    times: u32,
    notes: &Notes,
) -> Thread<SumUses>
    requires named { s.0 < pkg.now.layout.semaphores }
    requires idle { IsIdle pkg.now me.number [] me }
    ensures { IsDone pkg.now me.number result }
{
    for _i in 0..times {
        p(rt, pkg, &mut me, s);
        if notes.first.swap(1, Ordering::SeqCst) != 0 {
            notes.second.store(1, Ordering::SeqCst);
        }
        notes.first.store(0, Ordering::SeqCst);
        v(rt, pkg, &mut me, s);
    }
    me
}

/// Stays between P and V of semaphore 0 until it has seen the second note, and notes whether that
/// was in time.
fn stand_in<R: Wait>(
    rt: &R,
    pkg: &Package<SumUses>,
    mut me: Thread<SumUses>,
    notes: &Notes,
) -> Thread<SumUses>
    requires named { 0 < pkg.now.layout.semaphores }
    requires idle { IsIdle pkg.now me.number [] me }
    ensures { IsDone pkg.now me.number result }
{
    p(rt, pkg, &mut me, SemId(0));
    notes.third.store(stand(notes), Ordering::SeqCst);
    v(rt, pkg, &mut me, SemId(0));
    me
}

/// Waits until thread 1 has semaphore 0, goes through semaphore 1, and sets the second note.
fn pass_in<R: Wait>(
    rt: &R,
    pkg: &Package<SumUses>,
    me: Thread<SumUses>,
    notes: &Notes,
) -> Thread<SumUses>
    requires named { 1 < pkg.now.layout.semaphores }
    requires idle { IsIdle pkg.now me.number [] me }
    ensures { IsDone pkg.now me.number result }
{
    let _ = seen_in_time(&notes.first);
    let own = Notes::new();
    let me = turns(rt, pkg, me, SemId(1), 1, &own);
    notes.second.store(1, Ordering::SeqCst);
    me
}

/// A task, and where its threads leave what they see.
#[derive(Drop)]
pub struct WorkPart<'a>(pub Task, pub &'a Notes);

impl Part for WorkPart<'_> {
    fn act<R: Wait>(&self, rt: &R, pkg: &Package<SumUses>, me: Thread<SumUses>) -> Thread<SumUses> {
        let notes = self.1;
        let number = me.number();
        match self.0 {
            Task::Together(times) => add_many(rt, pkg, me, MutexId(0), times % 1000000),
            Task::Apart(times) => {
                let m = MutexId(number % pkg.layout().mutexes);
                add_many(rt, pkg, me, m, times % 1000000)
            }
            Task::TwoTurns => two_turns(rt, pkg, me, notes),
            Task::PassBy => {
                if number == 0 {
                    pass_by(rt, pkg, me, notes)
                } else {
                    stand_by(rt, pkg, me, notes)
                }
            }
            Task::TakeTurns(times) => turns(rt, pkg, me, SemId(0), times, notes),
            Task::TurnApart(times) => {
                let s = SemId(number % pkg.layout().semaphores);
                let own = Notes::new();
                turns(rt, pkg, me, s, times, &own)
            }
            Task::PassBySem => {
                if number == 0 {
                    pass_in(rt, pkg, me, notes)
                } else {
                    stand_in(rt, pkg, me, notes)
                }
            }
        }
    }
}
