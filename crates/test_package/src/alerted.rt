//! The work of one thread of a test with alerts and waits in a condition. Thread 0 is alerted.
ghost use Rattle.std.specs.Prelude.{[], ◌≤◌};
ghost use Rattle.nub.specs.Idle.{IsIdle};

use crate::notes::Notes;
use crate::races::{ALERTED, await_both, let_both_go, take_all};
use alert_wait::{Outcome, alert_wait};
use alerts::{alert, test_alert};
use nub::{CondId, MutexId, NoChange, Package, Thread};
use std::sync::Wait;
use std::sync::atomic::Ordering;
use sum_uses::SumUses;
use user_mutex::{acquire, release};

/// Acquires the mutex, waits until it is woken or alerted, and releases the mutex. Returns whether
/// an alert ended the wait.
fn wait_once<R: Wait>(rt: &R, pkg: &Package<SumUses>, me: &mut Thread<SumUses>) -> bool
    requires named { (1 ≤ pkg.now.layout.mutexes) × (1 ≤ pkg.now.layout.conditions) }
    requires idle { IsIdle pkg.now me.old.number [] me.old }
    ensures { IsIdle pkg.now me.old.number [] me.new }
{
    let m = MutexId(0);
    let got = acquire(rt, pkg, me, m);
    let (outcome, again) = alert_wait::<SumUses, NoChange, R>(rt, pkg, me, m, CondId(0), got);
    release::<SumUses, NoChange, R>(rt, pkg, me, m, again);
    outcome == Outcome::Alerted
}

/// Alerts itself and waits, and notes whether an alert ended the wait, and whether it is still
/// alerted.
pub fn raise_alone<R: Wait>(rt: &R, pkg: &Package<SumUses>, me: &mut Thread<SumUses>, notes: &Notes)
    requires named { (1 ≤ pkg.now.layout.mutexes) × (1 ≤ pkg.now.layout.conditions) × (1 ≤ pkg.now.layout.threads) }
    requires idle { IsIdle pkg.now me.old.number [] me.old }
    ensures { IsIdle pkg.now me.old.number [] me.new }
{
    alert(rt, pkg, me, ALERTED);
    if wait_once(rt, pkg, me) {
        notes.first.store(1, Ordering::SeqCst);
    }
    if test_alert(rt, pkg, me) {
        notes.second.store(1, Ordering::SeqCst);
    }
}

/// Waits `times` times, each time while the other two signal and alert it once. After that it must
/// be alerted if and only if the alert didn't end the wait: the note counts where this fails.
pub fn wait_for_wakes<R: Wait>(
    rt: &R,
    pkg: &Package<SumUses>,
    me: &mut Thread<SumUses>,
    times: u32,
    notes: &Notes,
)
    requires named { (1 ≤ pkg.now.layout.mutexes) × (1 ≤ pkg.now.layout.conditions) × (5 ≤ pkg.now.layout.semaphores) }
    requires idle { IsIdle pkg.now me.old.number [] me.old }
    ensures { IsIdle pkg.now me.old.number [] me.new }
{
    take_all(rt, pkg, me, notes);
    for _i in 0..times {
        let_both_go(rt, pkg, me);
        let raised = wait_once(rt, pkg, me);
        await_both(rt, pkg, me);
        if test_alert(rt, pkg, me) == raised {
            let _ = notes.second.fetch_add(1, Ordering::SeqCst);
        }
    }
}
