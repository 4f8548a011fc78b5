//! The life of threads between their fork and their end.
ghost use Rattle.std.specs.Prelude.{[], ◌≡◌, ◌<◌, ◌≤◌};
ghost use Rattle.larch_actions.specs.declared.event.Version.TheVariants.{Two};
ghost use Rattle.nub.specs.Ended.{IsDone};
ghost use Rattle.nub.specs.Forks.{IsLeft};
ghost use Rattle.nub.specs.Idle.{IsIdle};
ghost use Rattle.test_fork.specs.Families.{AllAre};

use crate::family::{Family, forked, join_other};
use crate::notes::{Notes, count, seen_in_time};
use alerts::test_alert;
use nub::{Ended, MutexId, Package, Thread, Unborn, end_thread};
use std::alloc::Global;
use std::sync::Wait;
use std::sync::atomic::AtomicU64;
use std::thread;
use std::time::{Clock, Duration};
use sum_uses::{AddChange, SumUses, add_to};
use user_mutex::locked;

// A thread ends this many ms after another is about to wait for its end: by then, the other sleeps.
const LATE: u64 = 20;

/// The task of threads before their end.
#[derive(Clone, Copy)]
pub enum Task {
    Nothing,
    /// Each adds 1 under mutex 0.
    Adds,
    /// This many threads wait for the end of thread 1, which ends once all are about to.
    JoinFirst(u64),
    /// Each ends a while after thread 0 is about to wait for its end.
    Late,
    /// Each looks whether it was alerted.
    Looks,
}

/// Adds 1 under mutex 0.
fn add_one<R: Wait>(rt: &R, pkg: &Package<SumUses>, mut me: Thread<SumUses>) -> Thread<SumUses>
    requires named { 0 < pkg.now.layout.mutexes }
    requires idle { IsIdle pkg.now me.number [] me }
    ensures { IsDone pkg.now me.number result }
{
    locked::<SumUses, AddChange, (), _, R>(rt, pkg, &mut me, MutexId(0), |x| *x = add_to(*x, 1));
    me
}

/// Adds, if that is the task.
fn worked<R: Wait>(
    rt: &R,
    pkg: &Package<SumUses>,
    me: Thread<SumUses>,
    what: Task,
) -> Thread<SumUses>
    requires named { 0 < pkg.now.layout.mutexes }
    requires idle { IsIdle pkg.now me.number [] me }
    ensures { IsDone pkg.now me.number result }
{
    match what {
        Task::Adds => add_one(rt, pkg, me),
        _ => me,
    }
}

/// Keeps what is left of one more thread, or loses it if there is no memory.
pub fn keep(ended: &mut Vec<Ended<SumUses>>, pkg: &Package<SumUses>, one: Ended<SumUses>)
    requires all { AllAre (λ k. IsLeft pkg.now k) ended.old.items }
    requires one { IsLeft pkg.now one }
    ensures { AllAre (λ k. IsLeft pkg.now k) ended.new.items }
{
    let _ = ended.push(one);
}

/// Forks the others one after the other; works for each, ends it and waits for its end.
fn raise<R: Wait>(
    rt: &R,
    alloc: Global,
    pkg: &Package<SumUses>,
    me: &mut Thread<SumUses>,
    rights: Vec<Unborn<SumUses>>,
    what: Task,
) -> Vec<Ended<SumUses>>
    requires named { 0 < pkg.now.layout.mutexes }
    requires version { pkg.now.layout.version ≡ Two }
    requires left { AllAre (λ k. IsLeft pkg.now k) rights.items }
    requires idle { IsIdle pkg.now me.old.number [] me.old }
    ensures idle { IsIdle pkg.now me.old.number [] me.new }
    ensures ended { AllAre (λ k. IsLeft pkg.now k) result.items }
{
    let mut ended = Vec::new(alloc);
    for right in rights {
        let child = forked(rt, pkg, me, right);
        let number = child.number();
        let child = worked(rt, pkg, child, what);
        keep(&mut ended, pkg, end_thread(rt, pkg, child));
        join_other(rt, pkg, me, number);
    }
    ended
}

/// Waits until `number` threads are about to join, and a while longer.
fn be_late<R: Clock>(rt: &R, note: &AtomicU64, number: u64) {
    let _ = seen_in_time(rt, note, number);
    thread::sleep(rt, Duration::from_millis(LATE));
}

/// Does the task, except adding.
fn meet<R: Wait + Clock>(
    rt: &R,
    pkg: &Package<SumUses>,
    me: &mut Thread<SumUses>,
    what: Task,
    notes: &Notes,
)
    requires idle { IsIdle pkg.now me.old.number [] me.old }
    ensures { IsIdle pkg.now me.old.number [] me.new }
{
    match what {
        Task::Nothing | Task::Adds => (),
        Task::JoinFirst(many) => {
            if me.number() == 1 {
                be_late(rt, &notes.joining, many);
            } else {
                count(&notes.joining);
                join_other(rt, pkg, me, 1);
            }
        }
        Task::Late => be_late(rt, &notes.joining, 1),
        Task::Looks => {
            if test_alert(rt, pkg, me) {
                count(&notes.alerted);
            }
        }
    }
}

/// Lets the head of the family fork the others and wait for their ends, one after the other, do the
/// task, and end. Returns what is left of each thread, the head's last.
pub fn live<R: Wait + Clock>(
    rt: &R,
    alloc: Global,
    pkg: &Package<SumUses>,
    family: Family,
    what: Task,
    notes: &Notes,
) -> Vec<Ended<SumUses>>
    requires named { 0 < pkg.now.layout.mutexes }
    requires version { pkg.now.layout.version ≡ Two }
    requires head { IsIdle pkg.now family.head.number [] family.head }
    requires rights { AllAre (λ k. IsLeft pkg.now k) family.rights.items }
    ensures { AllAre (λ k. IsLeft pkg.now k) result.items }
{
    let Family { head, rights } = family;
    let mut me = head;
    let mut ended = raise(rt, alloc, pkg, &mut me, rights, what);
    meet(rt, pkg, &mut me, what, notes);
    let me = worked(rt, pkg, me, what);
    keep(&mut ended, pkg, end_thread(rt, pkg, me));
    ended
}
