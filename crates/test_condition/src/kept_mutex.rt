//! A thread that waits with one mutex, and one that wakes it and keeps another mutex all the while.
ghost use Rattle.std.specs.Prelude.{[], ◌≡◌, ◌≢◌, ◌<◌, Some, None};
ghost use mathlib.Core.Option.{some};
ghost use lib.ListN.{get_elem?};
ghost use Rattle.nub.specs.Ended.{IsDone};
ghost use Rattle.nub.specs.Idle.{IsIdle};
ghost use Rattle.nub.specs.Rest.{AtRest, IsSame};

use crate::notes::{Notes, await_count, linger};
use condition::{signal, wait};
use nub::{CondId, MutexId, NoChange, Package, Thread};
use std::sync::Wait;
use std::sync::atomic::Ordering;
use sum_uses::SumUses;
use user_mutex::{acquire, release};

/// Waits once in condition 0. Notes that it is going to wait before it releases the mutex, and that
/// it has gone on when it has the mutex again.
fn wait_once<R: Wait>(
    rt: &R,
    pkg: &Package<SumUses>,
    me: &mut Thread<SumUses>,
    own: MutexId,
    notes: &Notes,
)
    requires named { (own.0 < 64) × (own.0 < pkg.now.layout.mutexes) × (0 < pkg.now.layout.conditions) }
    requires idle { IsIdle pkg.now me.old.number [] me.old }
    ensures { IsIdle pkg.now me.old.number [] me.new }
{
    let got = acquire(rt, pkg, me, own);
    let _ = notes.begun.fetch_add(1, Ordering::SeqCst);
    let again = wait::<SumUses, NoChange, R>(rt, pkg, me, own, CondId(0), got);
    let _ = notes.gone_on.fetch_add(1, Ordering::SeqCst);
    release::<SumUses, NoChange, R>(rt, pkg, me, own, again);
}

/// Acquires the mutex and releases it.
fn pass<R: Wait>(rt: &R, pkg: &Package<SumUses>, me: &mut Thread<SumUses>, m: MutexId)
    requires rest { AtRest pkg.now me.old }
    requires named { m.0 < pkg.now.layout.mutexes }
    requires lacks { get_elem? me.old.held m.0 ≡ some None }
    requires first { (me.old.world ≡ Some pkg.now.world) × (me.old.share ≡ Some []) }
    ensures rest { AtRest pkg.now me.new }
    ensures same { IsSame me.old me.new }
    ensures held { me.new.held ≡ me.old.held }
    ensures share { me.new.share ≡ me.old.share }
{
    let got = acquire(rt, pkg, me, m);
    release::<SumUses, NoChange, R>(rt, pkg, me, m, got);
}

/// Wakes the thread that is about to wait for the time of this number, and keeps the other mutex
/// until that thread has gone on.
fn wake_once<R: Wait>(
    rt: &R,
    pkg: &Package<SumUses>,
    me: &mut Thread<SumUses>,
    own: MutexId,
    kept: MutexId,
    time: u32,
    notes: &Notes,
)
    requires named { (own.0 < 64) × (own.0 < pkg.now.layout.mutexes) × (0 < pkg.now.layout.conditions) }
    requires kept { (kept.0 < 64) × (kept.0 < pkg.now.layout.mutexes) }
    requires apart { own.0 ≢ kept.0 }
    requires idle { IsIdle pkg.now me.old.number [] me.old }
    ensures { IsIdle pkg.now me.old.number [] me.new }
{
    let got = acquire(rt, pkg, me, kept);
    await_count(rt, &notes.begun, time as u64);
    // The waiting thread has released its mutex once this thread gets it, so it is in the
    // condition.
    pass(rt, pkg, me, own);
    // Longer each time, so that the first signals find the other thread before its sleep, and the
    // last ones asleep.
    linger(&notes.begun, time);
    signal(rt, pkg, me, CondId(0));
    await_count(rt, &notes.gone_on, time as u64);
    release::<SumUses, NoChange, R>(rt, pkg, me, kept, got);
}

/// Waits `times` times with its own mutex, which is the part of thread 0, or wakes the other as
/// often and keeps the other mutex.
pub fn wait_or_keep<R: Wait>(
    rt: &R,
    pkg: &Package<SumUses>,
    mut me: Thread<SumUses>,
    own: MutexId,
    kept: MutexId,
    times: u32,
    notes: &Notes,
) -> Thread<SumUses>
    requires named { (own.0 < 64) × (own.0 < pkg.now.layout.mutexes) × (0 < pkg.now.layout.conditions) }
    requires kept { (kept.0 < 64) × (kept.0 < pkg.now.layout.mutexes) }
    requires apart { own.0 ≢ kept.0 }
    requires idle { IsIdle pkg.now me.number [] me }
    ensures { IsDone pkg.now me.number result }
{
    let waits = me.number() == 0;
    for time in 1..=times {
        if waits {
            wait_once(rt, pkg, &mut me, own, notes);
        } else {
            wake_once(rt, pkg, &mut me, own, kept, time, notes);
        }
    }
    me
}
