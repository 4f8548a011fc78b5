//! A run of the workers in a package of its own.
ghost use Rattle.std.specs.Prelude.{◌+◌, ◌≤◌, length, IfOk, OnErr};
ghost use Rattle.indexer.specs.Plans.{IsPlan};
ghost use Rattle.indexer.specs.Runs.{HasRun};
ghost use Rattle.indexer.specs.Says.{AreLeft};

use crate::plan::Plan;
use crate::run::crew::run_workers;
use crate::run::opening::open_run;
use firefly_outside::Tree;
use index_findings::Findings;
use index_rule::IndexUses;
use nub::{Closed, close_package};
use package_crew::BeforeStart;
use std::alloc::{AllocError, Global};
use std::sync::Wait;
use std::thread::Threads;

/// Lets the workers list and read what is under the root, in a package that is closed when all have
/// ended. At most the first `starts` workers are started. Returns what each worker found.
///
/// Blocks until all have ended. Fails only if there is no memory, and then each of the workers'
/// trees is in its place or lost.
pub fn worked_run<R: Threads + Wait + Sync, S: Tree, G: BeforeStart>(
    rt: &R,
    alloc: Global,
    root: &str,
    plan: &Plan,
    trees: &mut [Option<S>],
    before_start: &G,
    starts: u32,
) -> Result<(Closed<IndexUses>, Vec<Findings>), AllocError>
    requires plan { IsPlan plan.now }
    requires trees { plan.now.walkers + plan.now.parsers ≤ length trees.old }
    ensures run { IfOk result (λ r. HasRun S.tree S.may_fail S.faults S.calls root.now plan.now trees.old trees.new r.0 r.1.items) }
    ensures left { OnErr result (AreLeft S.tree S.may_fail S.faults S.calls (plan.now.walkers + plan.now.parsers) trees.old trees.new) }
{
    let (p, threads) = open_run(alloc, root, plan)?;
    let with_tree = (plan.walkers + plan.parsers) as usize;
    let Ok((all, findings)) = run_workers(
        rt,
        alloc,
        &p,
        threads,
        root,
        trees,
        plan.walkers,
        with_tree,
        starts,
        before_start,
    ) else {
        drop(p);
        return Err(AllocError);
    };
    let closed = close_package(p, all)?;
    Ok((closed, findings))
}
