//! The acts of two threads at once while thread 0 waits, some number of times, each after thread 0
//! has let them go on.
ghost use Rattle.std.specs.Prelude.{[], ◌<◌, ◌≤◌};
ghost use Rattle.nub.specs.Idle.{IsIdle};

use crate::notes::{Notes, seen_in_time};
use alerts::alert;
use bin_semaphore::{p, v};
use condition::signal;
use nub::{CondId, Package, SemId, Thread, ThreadId};
use std::sync::Wait;
use std::sync::atomic::Ordering;
use sum_uses::SumUses;

/// The thread that is alerted.
pub const ALERTED: ThreadId = ThreadId(0);

/// The semaphore that an alertable call tries.
pub const TRIED: SemId = SemId(0);

/// The semaphores by which thread 0 lets the first and the last of the two go on.
pub const FIRST_GOES: SemId = SemId(1);

const LAST_GOES: SemId = SemId(2);

// The semaphores by which the two announce that they have acted.
const FIRST_CAME: SemId = SemId(3);

const LAST_CAME: SemId = SemId(4);

/// The act of a thread, each time.
#[derive(Clone, Copy)]
pub enum Act {
    /// The first makes the semaphore available that is tried.
    Free,
    /// The first signals in condition 0.
    Signal,
    /// The last alerts thread 0.
    Alert,
}

/// Acts once.
fn do_once<R: Wait>(rt: &R, pkg: &Package<SumUses>, me: &mut Thread<SumUses>, what: Act)
    requires named { (1 ≤ pkg.now.layout.threads) × (1 ≤ pkg.now.layout.conditions) × (5 ≤ pkg.now.layout.semaphores) }
    requires idle { IsIdle pkg.now me.old.number [] me.old }
    ensures { IsIdle pkg.now me.old.number [] me.new }
{
    match what {
        Act::Free => v(rt, pkg, me, TRIED),
        Act::Signal => signal(rt, pkg, me, CondId(0)),
        Act::Alert => alert(rt, pkg, me, ALERTED),
    }
}

/// Waits until thread 0 has taken all semaphores, or has been alerted.
pub fn await_start<R: Wait>(rt: &R, notes: &Notes) {
    for _ in rt.forever() {
        if seen_in_time(&notes.third) == 1 {
            return;
        }
    }
    unreachable!()
}

/// Returns the semaphore by which the acting thread is let go on, and the one by which it announces
/// that it has acted.
fn semaphores_of(what: Act) -> (SemId, SemId)
    ensures { (result.0.0 < 5) × (result.1.0 < 5) }
{
    match what {
        Act::Free | Act::Signal => (FIRST_GOES, FIRST_CAME),
        Act::Alert => (LAST_GOES, LAST_CAME),
    }
}

/// Acts `times` times, each as soon as it may go on, and then announces that it has acted.
pub fn act_often<R: Wait>(
    rt: &R,
    pkg: &Package<SumUses>,
    me: &mut Thread<SumUses>,
    what: Act,
    times: u32,
    notes: &Notes,
)
    requires named { (1 ≤ pkg.now.layout.threads) × (1 ≤ pkg.now.layout.conditions) × (5 ≤ pkg.now.layout.semaphores) }
    requires idle { IsIdle pkg.now me.old.number [] me.old }
    ensures { IsIdle pkg.now me.old.number [] me.new }
{
    let (goes, came) = semaphores_of(what);
    await_start(rt, notes);
    for _i in 0..times {
        p(rt, pkg, me, goes);
        do_once(rt, pkg, me, what);
        v(rt, pkg, me, came);
    }
}

/// Takes all semaphores, and lets the others begin.
pub fn take_all<R: Wait>(rt: &R, pkg: &Package<SumUses>, me: &mut Thread<SumUses>, notes: &Notes)
    requires named { 5 ≤ pkg.now.layout.semaphores }
    requires idle { IsIdle pkg.now me.old.number [] me.old }
    ensures { IsIdle pkg.now me.old.number [] me.new }
{
    p(rt, pkg, me, TRIED);
    p(rt, pkg, me, FIRST_GOES);
    p(rt, pkg, me, LAST_GOES);
    p(rt, pkg, me, FIRST_CAME);
    p(rt, pkg, me, LAST_CAME);
    notes.third.store(1, Ordering::SeqCst);
}

/// Lets both others go on.
pub fn let_both_go<R: Wait>(rt: &R, pkg: &Package<SumUses>, me: &mut Thread<SumUses>)
    requires named { 5 ≤ pkg.now.layout.semaphores }
    requires idle { IsIdle pkg.now me.old.number [] me.old }
    ensures { IsIdle pkg.now me.old.number [] me.new }
{
    v(rt, pkg, me, FIRST_GOES);
    v(rt, pkg, me, LAST_GOES);
}

/// Waits until both have acted.
pub fn await_both<R: Wait>(rt: &R, pkg: &Package<SumUses>, me: &mut Thread<SumUses>)
    requires named { 5 ≤ pkg.now.layout.semaphores }
    requires idle { IsIdle pkg.now me.old.number [] me.old }
    ensures { IsIdle pkg.now me.old.number [] me.new }
{
    p(rt, pkg, me, FIRST_CAME);
    p(rt, pkg, me, LAST_CAME);
}
