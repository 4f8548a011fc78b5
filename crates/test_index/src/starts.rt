//! Runs of which only the first workers are started.
ghost use Rattle.indexer.specs.Plans.{IsPlan};

use crate::copies::{copies_of, listed_by, read_by};
use crate::runs::{has_index, plan_of};
use firefly_outside::MemTree;
use indexer::{BeginsAtOnce, IndexAnswer, Plan, index_with};
use std::alloc::{AllocError, Global};
use std::sync::Wait;
use std::test::Fail;
use std::thread::Threads;
use test_project::{project, project_index};

// The answer of a run of which the first workers are started, and the trees as they came back.
fn run_with<R: Threads + Wait + Sync>(
    rt: &R,
    alloc: Global,
    tree: &MemTree,
    plan: &Plan,
    starts: u32,
) -> Result<(IndexAnswer, Vec<Option<MemTree>>), AllocError>
    requires { IsPlan plan.now }
{
    let mut trees = copies_of(alloc, tree, plan.walkers + plan.parsers, &[], &[])?;
    let answer = index_with(
        rt,
        alloc,
        "proj",
        plan,
        trees.as_mut_slice(),
        &BeginsAtOnce,
        starts,
    );
    Ok((answer, trees))
}

// How many paths these trees were asked for.
fn asked(trees: &[Option<MemTree>]) -> usize {
    listed_by(trees).saturating_add(read_by(trees))
}

// Whether a run of which only the first workers are started gives the index of the project; how
// many paths its workers' trees were asked for, and how many all trees together.
fn seen_with<R: Threads + Wait + Sync>(
    rt: &R,
    alloc: Global,
    tree: &MemTree,
    plan: &Plan,
    starts: u32,
) -> Result<(bool, usize, usize), Fail>
    requires { IsPlan plan.now }
{
    let (answer, mut trees) = run_with(rt, alloc, tree, plan, starts)?;
    let all = asked(&trees);
    drop(trees.pop());
    let workers = asked(&trees);
    drop(trees);
    let found = has_index(alloc, &answer, project_index());
    drop(answer);
    Ok((found?, workers, all))
}

#[test]
fn what_is_not_started_is_done_by_the_closing_walk(rt: HostRuntime) -> Result<(), Fail> {
    let tree = project(rt.alloc())?;
    let plan = plan_of(1, 2, 1);
    for starts in [0u32, 1, 2, 3, 4, 24] {
        let (found, workers, all) = seen_with(&rt, rt.alloc(), &tree, &plan, starts)?;
        assert!(rt; found, "{starts}");
        assert!(rt; all == 8, "{starts} {all}");
        assert!(rt; starts > 0 || workers == 0, "{starts} {workers}");
        assert!(rt; starts < 24 || workers == 8, "{starts} {workers}");
    }
    Ok(())
}
