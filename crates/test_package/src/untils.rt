//! What one thread of a test does with the calls of a monitor that an alert may end. Thread 0 is the one that is alerted.
ghost use Rattle.std.specs.Prelude.{[], ◌≤◌};
ghost use Rattle.nub.specs.Idle.{IsIdle};

use crate::notes::Notes;
use crate::races::ALERTED;
use alert_wait::Outcome;
use alerts::alert;
use monitor::{alert_locked_when, alert_wait_until};
use nub::{CondId, MutexId, NoChange, Package, Thread};
use std::sync::Wait;
use std::sync::atomic::Ordering;
use sum_uses::SumUses;
use user_mutex::{acquire, release};

/// Works on the number under the mutex once a test accepts it, which takes any number or none. It answers whether it did.
fn works_when<R: Wait>(
    rt: &R,
    pkg: &Package<SumUses>,
    me: &mut Thread<SumUses>,
    accepts: bool,
) -> bool
    requires named { (1 ≤ pkg.now.layout.mutexes) × (1 ≤ pkg.now.layout.conditions) }
    requires idle { IsIdle pkg.now me.old.number [] me.old }
    ensures { IsIdle pkg.now me.old.number [] me.new }
{
    let answer = alert_locked_when::<SumUses, NoChange, u64, _, _, R>(
        rt,
        pkg,
        me,
        MutexId(0),
        CondId(0),
        &|_sum: &u64| accepts,
        |sum: &mut u64| *sum,
    );
    answer.is_some()
}

/// Takes the mutex, and waits until a test accepts its number, which takes any number or none. It answers whether it was accepted.
fn waits_until<R: Wait>(
    rt: &R,
    pkg: &Package<SumUses>,
    me: &mut Thread<SumUses>,
    accepts: bool,
) -> bool
    requires named { (1 ≤ pkg.now.layout.mutexes) × (1 ≤ pkg.now.layout.conditions) }
    requires idle { IsIdle pkg.now me.old.number [] me.old }
    ensures { IsIdle pkg.now me.old.number [] me.new }
{
    let m = MutexId(0);
    let got = acquire(rt, pkg, me, m);
    let (outcome, again) = alert_wait_until(rt, pkg, me, m, CondId(0), got, &|_sum: &u64| accepts);
    release::<SumUses, NoChange, R>(rt, pkg, me, m, again);
    outcome == Outcome::Returned
}

/// Works at once, and then alerts itself and works never. It notes 1 for each that is so.
pub fn works_once<R: Wait>(rt: &R, pkg: &Package<SumUses>, me: &mut Thread<SumUses>, notes: &Notes)
    requires named { (1 ≤ pkg.now.layout.mutexes) × (1 ≤ pkg.now.layout.conditions) × (1 ≤ pkg.now.layout.threads) }
    requires idle { IsIdle pkg.now me.old.number [] me.old }
    ensures { IsIdle pkg.now me.old.number [] me.new }
{
    if works_when(rt, pkg, me, true) {
        notes.first.store(1, Ordering::SeqCst);
    }
    alert(rt, pkg, me, ALERTED);
    if !works_when(rt, pkg, me, false) {
        notes.second.store(1, Ordering::SeqCst);
    }
}

/// Finds its number accepted at once, and then alerts itself and finds none accepted. It notes 1 for each that is so.
pub fn returns_once<R: Wait>(
    rt: &R,
    pkg: &Package<SumUses>,
    me: &mut Thread<SumUses>,
    notes: &Notes,
)
    requires named { (1 ≤ pkg.now.layout.mutexes) × (1 ≤ pkg.now.layout.conditions) × (1 ≤ pkg.now.layout.threads) }
    requires idle { IsIdle pkg.now me.old.number [] me.old }
    ensures { IsIdle pkg.now me.old.number [] me.new }
{
    if waits_until(rt, pkg, me, true) {
        notes.first.store(1, Ordering::SeqCst);
    }
    alert(rt, pkg, me, ALERTED);
    if !waits_until(rt, pkg, me, false) {
        notes.second.store(1, Ordering::SeqCst);
    }
}
