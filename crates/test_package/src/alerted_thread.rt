//! The work of one thread of a test with alerts and waits for a semaphore. Thread 0 is alerted.
ghost use Rattle.std.specs.Prelude.{[], ◌≤◌};
ghost use Rattle.nub.specs.Idle.{IsIdle};

use crate::notes::Notes;
use crate::races::{ALERTED, FIRST_GOES, TRIED, await_both, let_both_go, take_all};
use alert_wait::{Outcome, alert_p};
use alerts::{alert, test_alert};
use bin_semaphore::{p, v};
use nub::{Package, Thread};
use std::sync::Wait;
use std::sync::atomic::Ordering;
use sum_uses::SumUses;

/// Alerts thread 0 `times` times, each time after it has raised for the time before.
pub fn alert_often<R: Wait>(rt: &R, pkg: &Package<SumUses>, me: &mut Thread<SumUses>, times: u32)
    requires named { (5 ≤ pkg.now.layout.semaphores) × (1 ≤ pkg.now.layout.threads) }
    requires idle { IsIdle pkg.now me.old.number [] me.old }
    ensures { IsIdle pkg.now me.old.number [] me.new }
{
    p(rt, pkg, me, FIRST_GOES);
    for _i in 0..times {
        alert(rt, pkg, me, ALERTED);
        p(rt, pkg, me, FIRST_GOES);
    }
}

/// Waits `times` times for a semaphore that it has taken itself, and counts how often it raises.
pub fn raise_often<R: Wait>(
    rt: &R,
    pkg: &Package<SumUses>,
    me: &mut Thread<SumUses>,
    times: u32,
    notes: &Notes,
)
    requires named { 5 ≤ pkg.now.layout.semaphores }
    requires idle { IsIdle pkg.now me.old.number [] me.old }
    ensures { IsIdle pkg.now me.old.number [] me.new }
{
    p(rt, pkg, me, TRIED);
    for _i in 0..times {
        if alert_p(rt, pkg, me, TRIED) == Outcome::Alerted {
            let _ = notes.first.fetch_add(1, Ordering::SeqCst);
        }
        v(rt, pkg, me, FIRST_GOES);
    }
}

/// Has taken the semaphore, and is alerted if `alerted` is true. Counts a fault if this isn't so:
/// if an alertable P returns, or the alert is left. Afterwards it isn't alerted, and has the
/// semaphore after a V and a P.
fn look_over<R: Wait>(
    rt: &R,
    pkg: &Package<SumUses>,
    me: &mut Thread<SumUses>,
    alerted: bool,
    notes: &Notes,
)
    requires named { (5 ≤ pkg.now.layout.semaphores) × (1 ≤ pkg.now.layout.threads) }
    requires idle { IsIdle pkg.now me.old.number [] me.old }
    ensures { IsIdle pkg.now me.old.number [] me.new }
{
    if test_alert(rt, pkg, me) != alerted {
        let _ = notes.second.fetch_add(1, Ordering::SeqCst);
    }
    alert(rt, pkg, me, ALERTED);
    if alert_p(rt, pkg, me, TRIED) == Outcome::Returned || test_alert(rt, pkg, me) {
        let _ = notes.second.fetch_add(1, Ordering::SeqCst);
    }
    v(rt, pkg, me, TRIED);
    p(rt, pkg, me, TRIED);
}

/// Waits `times` times for a semaphore that becomes available while the thread is alerted: it has
/// the semaphore, or has raised and can take it.
pub fn wait_often<R: Wait>(
    rt: &R,
    pkg: &Package<SumUses>,
    me: &mut Thread<SumUses>,
    times: u32,
    notes: &Notes,
)
    requires named { (5 ≤ pkg.now.layout.semaphores) × (1 ≤ pkg.now.layout.threads) }
    requires idle { IsIdle pkg.now me.old.number [] me.old }
    ensures { IsIdle pkg.now me.old.number [] me.new }
{
    take_all(rt, pkg, me, notes);
    for _i in 0..times {
        let_both_go(rt, pkg, me);
        let outcome = alert_p(rt, pkg, me, TRIED);
        await_both(rt, pkg, me);
        if outcome == Outcome::Alerted {
            p(rt, pkg, me, TRIED);
        }
        look_over(rt, pkg, me, outcome == Outcome::Returned, notes);
        let _ = notes.first.fetch_add(1, Ordering::SeqCst);
    }
}

/// Alerts itself, and then raises out of a P of a semaphore that it has taken. Notes how often it
/// raised.
pub fn alert_oneself<R: Wait>(
    rt: &R,
    pkg: &Package<SumUses>,
    me: &mut Thread<SumUses>,
    notes: &Notes,
)
    requires named { (5 ≤ pkg.now.layout.semaphores) × (1 ≤ pkg.now.layout.threads) }
    requires idle { IsIdle pkg.now me.old.number [] me.old }
    ensures { IsIdle pkg.now me.old.number [] me.new }
{
    p(rt, pkg, me, TRIED);
    alert(rt, pkg, me, ALERTED);
    if alert_p(rt, pkg, me, TRIED) == Outcome::Alerted {
        notes.first.store(1, Ordering::SeqCst);
    }
}

/// Tests twice whether it is alerted.
pub fn test_twice<R: Wait>(rt: &R, pkg: &Package<SumUses>, me: &mut Thread<SumUses>, notes: &Notes)
    requires idle { IsIdle pkg.now me.old.number [] me.old }
    ensures { IsIdle pkg.now me.old.number [] me.new }
{
    if test_alert(rt, pkg, me) {
        notes.first.store(1, Ordering::SeqCst);
    }
    if test_alert(rt, pkg, me) {
        notes.second.store(1, Ordering::SeqCst);
    }
}
