//! Chains of threads, each of which forks the next one and waits for its end.
ghost use Rattle.std.specs.Prelude.{[], ◌≡◌, ◌<◌, ◌≤◌, IfOk};
ghost use Rattle.larch_actions.specs.declared.event.Version.TheVariants.{Two};
ghost use Rattle.nub.specs.Forks.{IsLeft};
ghost use Rattle.nub.specs.Idle.{IsIdle};
ghost use Rattle.test_fork.specs.Families.{AllAre};

use crate::family::{forked, join_other};
use crate::package_end::close;
use crate::run::layout_of;
use nub::{Closed, Ended, Package, Thread, Unborn, end_thread, open_forked};
use std::alloc::{AllocError, Global};
use std::sync::Wait;
use std::test::Fail;
use std::thread::Threads;
use sum_uses::SumUses;
use thread_crew::run_crew;

/// Lets each thread fork the next one.
fn links<R: Wait>(
    rt: &R,
    alloc: Global,
    pkg: &Package<SumUses>,
    first: Thread<SumUses>,
    rights: Vec<Unborn<SumUses>>,
) -> Result<Vec<Thread<SumUses>>, AllocError>
    requires left { AllAre (λ k. IsLeft pkg.now k) rights.items }
    requires idle { IsIdle pkg.now first.number [] first }
    ensures { IfOk result (λ v. AllAre (λ t. IsIdle pkg.now t.number [] t) v.items) }
{
    let mut links = Vec::new(alloc);
    let mut last = first;
    for right in rights {
        let next = forked(rt, pkg, &mut last, right);
        links.push(last)?;
        last = next;
    }
    links.push(last)?;
    Ok(links)
}

/// Waits for the end of the next thread, if there is one, and ends.
fn end_after_next<R: Wait>(rt: &R, pkg: &Package<SumUses>, me: Thread<SumUses>) -> Ended<SumUses>
    requires version { pkg.now.layout.version ≡ Two }
    requires idle { IsIdle pkg.now me.number [] me }
    ensures { IsLeft pkg.now result }
{
    let mut last = me;
    let next = last.number().saturating_add(1);
    join_other(rt, pkg, &mut last, next);
    end_thread(rt, pkg, last)
}

/// Lets all threads end, each in an operating-system thread of its own.
fn end_all<R: Threads + Wait + Sync>(
    rt: &R,
    alloc: Global,
    pkg: &Package<SumUses>,
    links: Vec<Thread<SumUses>>,
) -> Result<Vec<Ended<SumUses>>, AllocError>
    requires version { pkg.now.layout.version ≡ Two }
    requires idle { AllAre (λ t. IsIdle pkg.now t.number [] t) links.items }
    ensures { IfOk result (λ v. AllAre (λ k. IsLeft pkg.now k) v.items) }
{
    let f = move |me: Thread<SumUses>| -> Ended<SumUses>
        requires { (pkg.now.layout.version ≡ Two) × IsIdle pkg.now me.number [] me }
        ensures { IsLeft pkg.entry.now result }
    { end_after_next(rt, pkg, me) };
    let starts = links.len();
    let Ok(done) = run_crew(rt, alloc, links, &f, starts, (), |_own: (), _held: usize| {}) else {
        return Err(AllocError);
    };
    Ok(done.results)
}

/// Runs a chain of `threads` threads, and returns the closed package. It needs an operating-system
/// thread for each.
pub fn run_chain<R: Threads + Wait + Sync>(
    rt: &R,
    alloc: Global,
    threads: u32,
    traced: bool,
) -> Result<Closed<SumUses>, Fail>
    requires { (1 ≤ threads) × (threads ≤ 256) }
{
    let values = vec![in alloc; 0u64; 1]?;
    let layout = layout_of(threads);
    let (pkg, first, rights) = open_forked::<SumUses>(alloc, layout, &(), values, traced)?;
    let Ok(links) = links(rt, alloc, &pkg, first, rights) else {
        drop(pkg);
        return Err(Fail::from("no memory"));
    };
    let Ok(ended) = end_all(rt, alloc, &pkg, links) else {
        drop(pkg);
        return Err(Fail::from("no memory"));
    };
    close(pkg, ended, Vec::new(alloc))
}
