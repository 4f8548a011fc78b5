//! A package of version two whose threads are forked, live and end.
ghost use Rattle.std.specs.Prelude.{[], ◌≡◌, ◌<◌, ◌≤◌, IfOk};
ghost use Rattle.larch_actions.specs.Layout.{IsLawful};
ghost use Rattle.larch_actions.specs.declared.event.Version.TheVariants.{Two};
ghost use Rattle.nub.specs.Forks.{IsLeft};
ghost use Rattle.nub.specs.Idle.{IsIdle};
ghost use Rattle.test_fork.specs.Families.{AllAre};

use crate::family::{Family, families, join_other};
use crate::lives::{Task, live};
use crate::notes::{Notes, count};
use crate::package_end::close;
use alerts::alert;
use nub::{Closed, Ended, Layout, Package, Thread, ThreadId, Version, end_thread, open_forked};
use std::alloc::{AllocError, Global};
use std::sync::Wait;
use std::test::Fail;
use std::thread::Threads;
use std::time::Clock;
use sum_uses::SumUses;
use thread_crew::{Finished, NotRun, run_crew};

/// The plan of a package.
#[derive(Clone, Copy)]
pub struct Plan {
    pub threads: u32,
    /// How many threads live in one operating-system thread.
    pub family: usize,
    /// How many families are started. The others live in the operating-system thread of the thread
    /// that forks their heads, as they do when the system refuses to start them.
    pub starts: usize,
    pub task: Task,
    /// Whether thread 0 alerts thread 1 before it is forked, and after its end.
    pub alerts: bool,
    pub traced: bool,
}

/// Returns a layout of `threads` threads with one mutex.
pub fn layout_of(threads: u32) -> Layout
    requires { (1 ≤ threads) × (threads ≤ 256) }
    ensures lawful { IsLawful result }
    ensures version { result.version ≡ Two }
    ensures one { result.mutexes ≡ 1 }
    ensures threads { result.threads ≡ threads }
{
    Layout::of_version(Version::Two, threads, 1, 0, 0)
}

/// Waits for the ends of the threads from 1 to this one.
fn join_all<R: Wait>(rt: &R, pkg: &Package<SumUses>, me: &mut Thread<SumUses>, last: u32)
    requires idle { IsIdle pkg.now me.old.number [] me.old }
    ensures { IsIdle pkg.now me.old.number [] me.new }
{
    for who in 0..last {
        join_other(rt, pkg, me, who.saturating_add(1));
    }
}

/// Alerts thread 1, if that is asked and there is one.
fn alert_first<R: Wait>(rt: &R, pkg: &Package<SumUses>, me: &mut Thread<SumUses>, asked: bool)
    requires idle { IsIdle pkg.now me.old.number [] me.old }
    ensures { IsIdle pkg.now me.old.number [] me.new }
{
    if asked && 1 < pkg.layout().threads {
        alert(rt, pkg, me, ThreadId(1));
    }
}

/// Thread 0 after the families have lived, and whether one of them couldn't be started.
#[derive(Drop)]
struct StoodBy {
    me: Thread<SumUses>,
    refused: bool,
}

/// The part of thread 0 while the families live: it waits for all, unless one can't be started
/// while it does so.
fn stand_by<R: Wait>(
    rt: &R,
    pkg: &Package<SumUses>,
    mut me: Thread<SumUses>,
    last: u32,
    held: usize,
    notes: &Notes,
) -> StoodBy
    requires idle { IsIdle pkg.now me.number [] me }
    ensures { IsIdle pkg.now result.me.number [] result.me }
{
    count(&notes.joining);
    if held == 0 {
        join_all(rt, pkg, &mut me, last);
    }
    StoodBy {
        me,
        refused: held != 0,
    }
}

/// Waits for all families if thread 0 hasn't done so yet. Also returns what the families have left.
fn joined<R: Wait, J: Drop, O: Drop, M: Drop>(
    rt: &R,
    pkg: &Package<SumUses>,
    answer: Result<Finished<Vec<Ended<SumUses>>, StoodBy>, NotRun<J, O, M>>,
    last: u32,
) -> Result<(Thread<SumUses>, Vec<Vec<Ended<SumUses>>>), AllocError>
    requires idle { IfOk answer (λ d. IsIdle pkg.now d.between.me.number [] d.between.me) }
    requires ended { IfOk answer (λ d. AllAre (λ v. AllAre (λ k. IsLeft pkg.now k) v.items) d.results.items) }
    ensures idle { IfOk result (λ r. IsIdle pkg.now r.0.number [] r.0) }
    ensures ended { IfOk result (λ r. AllAre (λ v. AllAre (λ k. IsLeft pkg.now k) v.items) r.1.items) }
{
    let Ok(done) = answer else {
        return Err(AllocError);
    };
    let Finished {
        results,
        held: _,
        between,
    } = done;
    let StoodBy { me, refused } = between;
    let mut first = me;
    if refused {
        join_all(rt, pkg, &mut first, last);
    }
    Ok((first, results))
}

/// Lets all families live, each in an operating-system thread of its own, and thread 0 wait for
/// them. Returns thread 0 and what is left of each family.
fn let_live<R: Threads + Wait + Clock + Sync>(
    rt: &R,
    alloc: Global,
    pkg: &Package<SumUses>,
    me: Thread<SumUses>,
    families: Vec<Family>,
    plan: Plan,
    notes: &Notes,
) -> Result<(Thread<SumUses>, Vec<Vec<Ended<SumUses>>>), AllocError>
    requires named { 0 < pkg.now.layout.mutexes }
    requires version { pkg.now.layout.version ≡ Two }
    requires idle { IsIdle pkg.now me.number [] me }
    requires heads { AllAre (λ f. IsIdle pkg.now f.head.number [] f.head) families.items }
    requires rights { AllAre (λ f. AllAre (λ k. IsLeft pkg.now k) f.rights.items) families.items }
    ensures idle { IfOk result (λ r. IsIdle pkg.now r.0.number [] r.0) }
    ensures ended { IfOk result (λ r. AllAre (λ v. AllAre (λ k. IsLeft pkg.now k) v.items) r.1.items) }
{
    let last = families.len().saturating_mul(plan.family).min(256) as u32;
    let f = move |family: Family| -> Vec<Ended<SumUses>>
        requires { ((0 < pkg.now.layout.mutexes) × (pkg.now.layout.version ≡ Two))
            × IsIdle pkg.now family.head.number [] family.head × AllAre (λ k. IsLeft pkg.now k) family.rights.items }
        ensures { AllAre (λ k. IsLeft pkg.entry.now k) result.items }
    { live(rt, alloc, pkg, family, plan.task, notes) };
    let between = move |own: Thread<SumUses>, held: usize| -> StoodBy
        requires { IsIdle pkg.now own.number [] own }
        ensures { IsIdle pkg.entry.now result.me.number [] result.me }
    { stand_by(rt, pkg, own, last, held, notes) };
    let answer = run_crew(rt, alloc, families, &f, plan.starts, me, between);
    joined(rt, pkg, answer, last)
}

/// Ends the thread, which holds nothing.
fn finish<R: Wait>(rt: &R, pkg: &Package<SumUses>, me: Thread<SumUses>) -> Ended<SumUses>
    requires version { pkg.now.layout.version ≡ Two }
    requires idle { IsIdle pkg.now me.number [] me }
    ensures { IsLeft pkg.now result }
{
    end_thread(rt, pkg, me)
}

/// Returns what is left of thread 0 and of all families, in order.
fn together(
    alloc: Global,
    pkg: &Package<SumUses>,
    own: Ended<SumUses>,
    families: Vec<Vec<Ended<SumUses>>>,
) -> Result<Vec<Ended<SumUses>>, AllocError>
    requires own { IsLeft pkg.now own }
    requires families { AllAre (λ v. AllAre (λ k. IsLeft pkg.now k) v.items) families.items }
    ensures { IfOk result (λ v. AllAre (λ k. IsLeft pkg.now k) v.items) }
{
    let mut all = Vec::new(alloc);
    all.push(own)?;
    for family in families {
        let mut ended = family;
        all.append(&mut ended)?;
    }
    Ok(all)
}

/// Runs the plan, and returns the package, which is closed after its threads were forked and have
/// ended.
pub fn run<R: Threads + Wait + Clock + Sync>(
    rt: &R,
    alloc: Global,
    plan: Plan,
    notes: &Notes,
) -> Result<Closed<SumUses>, Fail>
    requires { (1 ≤ plan.threads) × (plan.threads ≤ 256) }
{
    let values = vec![in alloc; 0u64; 1]?;
    let layout = layout_of(plan.threads);
    let (pkg, mut me, rights) = open_forked::<SumUses>(alloc, layout, &(), values, plan.traced)?;
    alert_first(rt, &pkg, &mut me, plan.alerts);
    let Ok((families, unborn)) = families(rt, alloc, &pkg, &mut me, rights, plan.family) else {
        drop(pkg);
        return Err(Fail::from("no memory"));
    };
    let Ok((mut me, families)) = let_live(rt, alloc, &pkg, me, families, plan, notes) else {
        drop(pkg);
        return Err(Fail::from("no memory"));
    };
    alert_first(rt, &pkg, &mut me, plan.alerts);
    let own = finish(rt, &pkg, me);
    let Ok(ended) = together(alloc, &pkg, own, families) else {
        drop(pkg);
        return Err(Fail::from("no memory"));
    };
    close(pkg, ended, unborn)
}
