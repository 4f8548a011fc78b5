//! What each thread of a package does, and the call that lets all do it.
ghost use Rattle.std.specs.Prelude.{◌≡◌, ℕ, List, Some, None, true, false, length, IfOk};
ghost use Rattle.larch_actions.specs.declared.event.Event.{Event};
ghost use Rattle.larch_actions.specs.declared.event.Layout.{Layout};
ghost use Rattle.larch_actions.specs.declared.event.Version.TheVariants.{One};
ghost use Rattle.larch_actions.specs.Layout.{IsLawful};
ghost use Rattle.nub_rule.specs.Ends.{firsts};
ghost use Rattle.nub.specs.Ended.{IsFirst, IsWhole};
ghost use Rattle.nub.specs.Idle.{IsIdle};
ghost use Rattle.package_crew.specs.Runs.{HasDone, HaveWorked};

use crate::crews::at_once;
use nub::{Closed, Layout, Package, Thread, Uses, close_package, open_package};
use std::alloc::{AllocError, Global};
use std::sync::Wait;
use std::thread::Threads;

/// The work of each thread of a package, in one description for all.
///
/// ```rust
/// type Left = Log;
///
/// ghost asks = { λ job layout w. (1 ≤ layout.mutexes) × (2 ≤ layout.conditions) };
///
/// ghost did = { λ job w n es log s. IsPart job.count n log s };
/// ```
pub trait Work<U: Uses>: Sync {
    /// What a thread leaves beside its share.
    type Left: Send + Drop;

    // What the work asks of the layout and the world.
    ghost asks: { Self → Layout → U.World → Type 0 };

    // What the work promises of the world, the thread's number, its own events, what the thread
    // left, and its last share.
    ghost did: { Self → U.World → ℕ → List Event → Self.Left → U.Share → Type 0 };

    /// Does the work of this thread, which has its first share and holds no mutex, neither at the
    /// start nor at the end.
    fn work<R: Wait>(&self, rt: &R, alloc: Global, p: &Package<U>, me: &mut Thread<U>) -> Self::Left
        requires asks { asks self.now p.now.layout p.now.world }
        requires first { IsFirst p.now U.begin me.old.number me.old }
        requires idle { IsIdle p.now me.old.number (U.begin p.now.world me.old.number) me.old }
        ensures { HasDone p.now (did self.now p.now.world) me.old.number me.new result };
}

/// Lets one thread do its work.
fn at_work<U: Uses, W: Work<U>, R: Wait>(
    rt: &R,
    alloc: Global,
    p: &Package<U>,
    mut me: Thread<U>,
    work: &W,
) -> (Thread<U>, W::Left)
    requires asks { W.asks work.now p.now.layout p.now.world }
    requires first { IsFirst p.now U.begin me.number me }
    ensures { HasDone p.now (W.did work.now p.now.world) me.number result.0 result.1 }
{
    let left = work.work(rt, alloc, p, &mut me);
    (me, left)
}

/// Opens a package, lets each of its threads do its work, all at once, and closes the package.
/// Returns what the threads left, in their order, and what is left of the package.
///
/// Each thread is started in an operating-system thread of its own, or run on the caller's thread
/// if it can't be started, after all others have been. Blocks until each has ended, for ever if one
/// never does. Fails only if there is no memory.
///
/// ```rust
/// let (logs, closed) = run_package::<Post, Mailing, R>(rt, alloc, layout, &(), mail, false, &job)?;
/// ```
pub fn run_package<U: Uses + Send + Sync, W: Work<U>, R: Threads + Wait + Sync>(
    rt: &R,
    alloc: Global,
    layout: Layout,
    world: &U::World,
    values: Vec<U::Value>,
    traced: bool,
    work: &W,
) -> Result<(Vec<W::Left>, Closed<U>), AllocError>
    requires lawful { IsLawful layout }
    requires version { layout.version ≡ One }
    requires values { length values.items ≡ layout.mutexes }
    requires holds { U.holds world.now values.items (firsts (U.begin world.now) layout.threads) }
    requires asks { W.asks work.now layout world.now }
    ensures layout { IfOk result (λ r. r.1.layout ≡ layout) }
    ensures count { IfOk result (λ r. (length r.0.items ≡ layout.threads) × (length r.1.threads ≡ layout.threads)) }
    ensures values { IfOk result (λ r. length r.1.values ≡ layout.mutexes) }
    ensures worked { IfOk result (λ r. HaveWorked world.now (U.holds world.now) (W.did work.now world.now) r.1.threads r.1.values
        r.0.items) }
    ensures untraced { traced ≡ false → IfOk result (λ r. r.1.trace ≡ None) }
    ensures traced { traced ≡ true → IfOk result (λ r. (h : List Event) × (r.1.trace ≡ Some h) × IsWhole layout r.1.threads h) }
{
    let (p, threads) = open_package::<U>(alloc, layout, world, values, traced)?;
    let (threads, left) = at_once(
        rt,
        alloc,
        threads,
        &|me: Thread<U>| -> (Thread<U>, W::Left)
            requires { W.asks work.now p.layout p.world × IsFirst p U.begin me.number me }
            ensures { HasDone p (W.did work.entry.now p.world) me.number result.0 result.1 }
        { at_work(rt, alloc, &p, me, work) },
    )?;
    let closed = close_package(p, threads)?;
    Ok((left, closed))
}
