//! Threads with the rights to fork others.
ghost use Rattle.std.specs.Prelude.{[], ◌≡◌, ◌<◌, ◌≢◌, IfOk};
ghost use Rattle.nub.specs.Forks.{IsLeft};
ghost use Rattle.nub.specs.Idle.{IsIdle};
ghost use Rattle.test_fork.specs.Families.{AllAre};

use nub::{Package, Thread, ThreadId, Unborn, fork_thread, join_thread};
use std::alloc::{AllocError, Global};
use std::sync::Wait;
use sum_uses::SumUses;

/// A thread, and the rights to fork those that it is to fork.
#[derive(Drop)]
pub struct Family {
    pub head: Thread<SumUses>,
    pub rights: Vec<Unborn<SumUses>>,
}

/// Forks the thread. That never fails.
pub fn forked<R: Wait>(
    rt: &R,
    pkg: &Package<SumUses>,
    me: &mut Thread<SumUses>,
    right: Unborn<SumUses>,
) -> Thread<SumUses>
    requires left { IsLeft pkg.now right }
    requires idle { IsIdle pkg.now me.old.number [] me.old }
    ensures idle { IsIdle pkg.now me.old.number [] me.new }
    ensures child { IsIdle pkg.now right.number [] result }
{
    let Ok(child) = fork_thread(rt, pkg, me, right) else {
        unreachable!()
    };
    child
}

/// Waits for the end of the thread with this number, unless it is this thread or none of the
/// layout.
pub fn join_other<R: Wait>(rt: &R, pkg: &Package<SumUses>, me: &mut Thread<SumUses>, who: u32)
    requires idle { IsIdle pkg.now me.old.number [] me.old }
    ensures { IsIdle pkg.now me.old.number [] me.new }
{
    if who < pkg.layout().threads && who != me.number() {
        join_thread(rt, pkg, me, ThreadId(who));
    }
}

/// Forks the last of each `size` threads, which gets the rights to fork those before it. Also
/// returns the rights that are left over.
pub fn families<R: Wait>(
    rt: &R,
    alloc: Global,
    pkg: &Package<SumUses>,
    me: &mut Thread<SumUses>,
    rights: Vec<Unborn<SumUses>>,
    size: usize,
) -> Result<(Vec<Family>, Vec<Unborn<SumUses>>), AllocError>
    requires left { AllAre (λ k. IsLeft pkg.now k) rights.items }
    requires idle { IsIdle pkg.now me.old.number [] me.old }
    ensures idle { IsIdle pkg.now me.old.number [] me.new }
    ensures heads { IfOk result (λ r. AllAre (λ f. IsIdle pkg.now f.head.number [] f.head) r.0.items) }
    ensures rights { IfOk result (λ r. AllAre (λ f. AllAre (λ k. IsLeft pkg.now k) f.rights.items) r.0.items) }
    ensures over { IfOk result (λ r. AllAre (λ k. IsLeft pkg.now k) r.1.items) }
{
    let mut families = Vec::new(alloc);
    let mut own = Vec::new(alloc);
    for right in rights {
        if own.len() < size.saturating_sub(1) {
            own.push(right)?;
        } else {
            let head = forked(rt, pkg, me, right);
            let rights = own;
            families.push(Family { head, rights })?;
            own = Vec::new(alloc);
        }
    }
    Ok((families, own))
}
