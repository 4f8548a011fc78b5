//! The workers, at work all at once.
ghost use Rattle.std.specs.Prelude.{◌≡◌, ◌≤◌, ◌<◌, [], length, IfOk, OnErr, Option};
ghost use Rattle.firefly_outside.specs.Trees.{Path, Contents};
ghost use Rattle.nub_rule.specs.Items.{Each};
ghost use Rattle.package_crew.specs.Crews.{CameBack};
ghost use Rattle.indexer.specs.Gets.{Makes, nothing};
ghost use Rattle.indexer.specs.Jobs.{GivesRole, HasCrew, IsFresh};
ghost use Rattle.indexer.specs.Says.{AreLeft};
ghost use Rattle.indexer.specs.Turns.{HasLists, IsBetween};

use crate::job::Job;
use crate::run::early_end::shut_all;
use crate::run::trees::{jobs_of, put_back};
use crate::work::work;
use firefly_outside::Tree;
use index_findings::Findings;
use index_rule::IndexUses;
use nub_rule::{Package, Thread};
use package_crew::{BeforeStart, at_once_beside};
use std::alloc::{AllocError, Global};
use std::sync::Wait;
use std::thread::Threads;

// Lets each job be worked on, all at once, at most the first `starts` in operating-system threads
// of their own. If some workers weren't started, the caller first shuts all, since it runs these
// workers itself once the others have been started.
fn run_jobs<R: Threads + Wait + Sync, S: Tree, G: BeforeStart>(
    rt: &R,
    alloc: Global,
    p: &Package<IndexUses>,
    caller: Thread<IndexUses>,
    jobs: Vec<Job<S>>,
    root: &str,
    walkers: u32,
    starts: u32,
    before_start: &G,
) -> Result<(Vec<Job<S>>, Vec<Findings>, Thread<IndexUses>), AllocError>
    requires layout { HasLists p.now.layout }
    requires caller { IsBetween p.now caller }
    requires jobs { Each (λ n j. IsFresh p.now j.me) jobs.items }
    requires root { root.now ≡ p.now.world }
    ensures caller { IfOk result (λ r. Makes p.now nothing caller r.2) }
    ensures jobs { IfOk result (λ r. length r.0.items ≡ length jobs.items) }
    ensures findings { IfOk result (λ r. length r.1.items ≡ length jobs.items) }
    ensures each { IfOk result (λ r. Each (λ n j. CameBack
        (λ was left. GivesRole S.tree S.may_fail S.faults S.calls root.now p.now was.me j.me left was.role j.role) jobs.items r.1.items n)
        r.0.items) }
{
    let done = at_once_beside(
        rt,
        alloc,
        jobs,
        starts as usize,
        &move |job: Job<S>| -> (Job<S>, Findings)
            requires { HasLists p.now.layout × IsFresh p.now job.me × (root.now ≡ p.now.world) }
            ensures { GivesRole S.tree S.may_fail S.faults S.calls root.entry.now p.entry.now job.me result.0.me result.1 job.role
                result.0.role }
        { work(rt, alloc, p, root, before_start, walkers, job) },
        caller,
        |caller: Thread<IndexUses>, held: usize| -> Thread<IndexUses>
            requires { HasLists p.now.layout × IsBetween p.now caller }
            ensures { Makes p.entry.now nothing caller result }
        {
            let mut caller = caller;
            let refused = held > 0;
            if refused {
                shut_all(rt, p, &mut caller);
            }
            caller
        },
    );
    match done {
        Ok(done) => Ok((done.threads, done.left, done.between)),
        Err(_) => Err(AllocError),
    }
}

/// Lets the workers work, all at once, each with its thread. The first thread is the caller's. The
/// first workers have a tree each, and of these the first are walkers. Returns the threads, and
/// what each worker found, in the order of the threads.
///
/// At most the first `starts` workers are started. If one isn't or can't be, the list and both
/// buffers are shut, and the worker is run here once all others have been started; the closing walk
/// does what no worker does then. Blocks until each has ended. Fails only if there is no memory,
/// and then each of the first trees is in its place or lost.
pub fn run_workers<R: Threads + Wait + Sync, S: Tree, G: BeforeStart>(
    rt: &R,
    alloc: Global,
    p: &Package<IndexUses>,
    mut threads: Vec<Thread<IndexUses>>,
    root: &str,
    trees: &mut [Option<S>],
    walkers: u32,
    with_tree: usize,
    starts: u32,
    before_start: &G,
) -> Result<(Vec<Thread<IndexUses>>, Vec<Findings>), AllocError>
    requires layout { HasLists p.now.layout }
    requires caller { 0 < length threads.items }
    requires threads { Each (λ n t. IsFresh p.now t) threads.items }
    requires root { root.now ≡ p.now.world }
    requires trees { with_tree ≤ length trees.old }
    ensures crew { IfOk result (λ r. HasCrew S.tree S.may_fail S.faults S.calls root.now p.now walkers with_tree threads.items trees.old
        trees.new r.0.items r.1.items) }
    ensures left { OnErr result (AreLeft S.tree S.may_fail S.faults S.calls with_tree trees.old trees.new) }
{
    let room = Vec::with_capacity(alloc, threads.len())?;
    // The caller is thread 0.
    let caller = threads.remove(0);
    let Ok(jobs) = jobs_of(alloc, threads, trees, walkers as usize, with_tree) else {
        drop(caller);
        return Err(AllocError);
    };
    let (jobs, findings, caller) = run_jobs(
        rt,
        alloc,
        p,
        caller,
        jobs,
        root,
        walkers,
        starts,
        before_start,
    )?;
    Ok((put_back(caller, jobs, trees, with_tree, room), findings))
}
