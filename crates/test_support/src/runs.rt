//! Runs a package whose threads do a part, and checks what it leaves.
ghost use Rattle.std.specs.Prelude.{[], ◌≡◌, replicate, IfOk};
ghost use Rattle.larch_actions.specs.Layout.{IsLawful};
ghost use Rattle.larch_actions.specs.declared.event.Version.TheVariants.{One};
ghost use Rattle.nub.specs.Ended.{IsDone};
ghost use Rattle.nub.specs.Idle.{IsIdle};
ghost use Rattle.test_support.specs.Layouts.{HasFew};

use crate::part::Part;
use crate::seen::{has_left, has_played};
use nub::{Closed, Event, Layout, Thread, close_package, open_package};
use package_crew::at_once;
use std::alloc::{AllocError, Global};
use std::sync::Wait;
use std::test::Fail;
use std::thread::Threads;
use sum_uses::SumUses;

/// The first numbers of the mutexes: zeros.
fn zeros(alloc: Global, count: u32) -> Result<Vec<u64>, AllocError>
    ensures { IfOk result (λ v. v.items ≡ replicate count 0) }
{
    vec![in alloc; 0; count as usize]
}

/// Runs the part in each thread, all at once, and returns the closed package.
pub fn run<R: Threads + Wait + Sync, P: Part>(
    rt: &R,
    alloc: Global,
    layout: Layout,
    part: &P,
    traced: bool,
) -> Result<Closed<SumUses>, AllocError>
    requires lawful { IsLawful layout }
    requires version { layout.version ≡ One }
    requires few { HasFew layout }
{
    let values = zeros(alloc, layout.mutexes)?;
    let (pkg, threads) = open_package::<SumUses>(alloc, layout, &(), values, traced)?;
    let Ok((threads, _)) = at_once(
        rt,
        alloc,
        threads,
        &|me: Thread<SumUses>| -> (Thread<SumUses>, ())
            requires { IsLawful pkg.layout × HasFew pkg.layout × IsIdle pkg me.number [] me }
            ensures { IsDone pkg me.number result.0 }
        { (part.act(rt, &pkg, me), ()) },
    ) else {
        drop(pkg);
        return Err(AllocError);
    };
    close_package(pkg, threads)
}

/// Runs the part, and checks that the mutexes are left with these numbers, and the package with a
/// trace of `events` events or none.
pub fn leaves<R: Threads + Wait + Sync, P: Part>(
    rt: &R,
    alloc: Global,
    layout: Layout,
    part: &P,
    values: &[u64],
    events: Option<usize>,
) -> Result<(), Fail>
    requires lawful { IsLawful layout }
    requires version { layout.version ≡ One }
    requires few { HasFew layout }
{
    let closed = run(rt, alloc, layout, part, events.is_some())?;
    let seen = has_left(&closed, values, events);
    drop(closed);
    seen
}

/// Runs the part, and checks that it leaves a trace of these events.
pub fn plays<R: Threads + Wait + Sync, P: Part>(
    rt: &R,
    alloc: Global,
    layout: Layout,
    part: &P,
    events: &[Event],
) -> Result<(), Fail>
    requires lawful { IsLawful layout }
    requires version { layout.version ≡ One }
    requires few { HasFew layout }
{
    let closed = run(rt, alloc, layout, part, true)?;
    let seen = has_played(&closed, events);
    drop(closed);
    seen
}
