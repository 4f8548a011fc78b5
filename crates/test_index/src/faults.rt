//! Runs in which paths fail, with every number of workers.
ghost use Rattle.indexer.specs.Plans.{IsPlan};

use crate::runs::{failed_at, has_index, plan_of, run_on, seen_of};
use crate::trees::{small, small_index, small_paths};
use firefly_outside::MemTree;
use indexer::{BeginsAtOnce, IndexAnswer, Plan};
use std::alloc::Global;
use std::process::Abort;
use std::sync::Wait;
use std::test::Fail;
use std::thread::Threads;

// The paths of the small tree whose bits are set.
fn chosen_paths(alloc: Global, bits: u32) -> Result<Vec<&'static str>, Fail> {
    let mut paths = Vec::new(alloc);
    let mut rest = bits;
    for path in small_paths() {
        if rest % 2 == 1 {
            paths.push(path)?;
        }
        rest /= 2;
    }
    Ok(paths)
}

// Whether the path is below the directory.
fn is_below(path: &str, dir: &str) -> bool {
    match path.strip_prefix(dir) {
        Some(rest) => rest.starts_with('/'),
        None => false,
    }
}

// Whether the path is one of those that fail, and none of these is a directory above it.
fn may_be_named(failing: &[&str], path: &str) -> bool {
    let mut fails = false;
    for other in failing {
        if *other == path {
            fails = true;
        }
        if is_below(path, other) {
            return false;
        }
    }
    fails
}

// Whether the answer is right if these paths fail: the index if none fails, and otherwise one that
// fails and is found.
fn is_right(alloc: Global, answer: &IndexAnswer, failing: &[&str]) -> Result<bool, Fail> {
    match failed_at(answer) {
        Some(path) => Ok(may_be_named(failing, path)),
        None => Ok(failing.is_empty() && has_index(alloc, answer, small_index())?),
    }
}

// Whether a run in which these paths fail gives the right answer.
fn is_answered<R: Threads + Wait + Sync>(
    rt: &R,
    alloc: Global,
    tree: &MemTree,
    plan: &Plan,
    failing: &[&str],
) -> Result<bool, Fail>
    requires { IsPlan plan.now }
{
    let (answer, trees) = run_on(rt, alloc, tree, plan, failing, failing, &BeginsAtOnce)?;
    drop(trees);
    let right = is_right(alloc, &answer, failing);
    drop(answer);
    right
}

// The first set of failing paths for which the answer isn't right, if there is one.
fn wrong_set<R: Threads + Wait + Sync>(
    rt: &R,
    alloc: Global,
    tree: &MemTree,
    plan: &Plan,
) -> Result<Option<u32>, Fail>
    requires { IsPlan plan.now }
{
    for bits in 0..32u32 {
        let failing = chosen_paths(alloc, bits)?;
        if !is_answered(rt, alloc, tree, plan, &failing)? {
            return Ok(Some(bits));
        }
    }
    Ok(None)
}

// Checks that no set of failing paths gives a wrong answer, with `many` workers of one kind and
// `others` of the others.
fn none_is_wrong(rt: &impl Abort, wrong: Option<u32>, many: u32, others: u32) {
    assert_eq!(rt; wrong, None, "{many} {others}");
}

#[test]
fn a_path_that_fails_is_named_with_each_number_of_walkers(rt: HostRuntime) -> Result<(), Fail> {
    let tree = small(rt.alloc())?;
    for others in [1u32, 2, 8] {
        for walkers in 1..9u32 {
            let plan = plan_of(walkers, others, others);
            let wrong = wrong_set(&rt, rt.alloc(), &tree, &plan)?;
            none_is_wrong(&rt, wrong, walkers, others);
        }
    }
    Ok(())
}

#[test]
fn a_path_that_fails_is_named_with_each_number_of_parsers(rt: HostRuntime) -> Result<(), Fail> {
    let tree = small(rt.alloc())?;
    for others in [1u32, 2, 8] {
        for parsers in 1..9u32 {
            let plan = plan_of(others, parsers, others);
            let wrong = wrong_set(&rt, rt.alloc(), &tree, &plan)?;
            none_is_wrong(&rt, wrong, parsers, others);
        }
    }
    Ok(())
}

#[test]
fn a_path_that_fails_is_named_with_each_number_of_mergers(rt: HostRuntime) -> Result<(), Fail> {
    let tree = small(rt.alloc())?;
    for others in [1u32, 2, 8] {
        for mergers in 1..9u32 {
            let plan = plan_of(others, others, mergers);
            let wrong = wrong_set(&rt, rt.alloc(), &tree, &plan)?;
            none_is_wrong(&rt, wrong, mergers, others);
        }
    }
    Ok(())
}

// Whether the index is found although the closing walk's tree fails at each path.
fn is_all_found<R: Threads + Wait + Sync>(
    rt: &R,
    alloc: Global,
    tree: &MemTree,
    plan: &Plan,
) -> Result<bool, Fail>
    requires { IsPlan plan.now }
{
    let paths = small_paths();
    let seen = seen_of(rt, alloc, tree, plan, &paths, &BeginsAtOnce, small_index())?;
    Ok(seen.found)
}

#[test]
fn the_workers_leave_nothing_to_the_closing_walk(rt: HostRuntime) -> Result<(), Fail> {
    let tree = small(rt.alloc())?;
    for walkers in 1..9u32 {
        for parsers in 1..9u32 {
            for mergers in 1..9u32 {
                let plan = plan_of(walkers, parsers, mergers);
                let found = is_all_found(&rt, rt.alloc(), &tree, &plan)?;
                assert!(rt; found, "{walkers} {parsers} {mergers}");
            }
        }
    }
    Ok(())
}
