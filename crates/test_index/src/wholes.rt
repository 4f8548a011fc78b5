//! Runs that find the whole, and runs that are stopped.
use crate::copies::{listed_by, read_by, times_asked};
use crate::runs::{plan_of, run_on, seen_of, stopping_plan};
use firefly_outside::MemTree;
use indexer::BeginsAtOnce;
use std::test::Fail;
use test_project::{project, project_index, project_paths};

// How many trees a run of two workers of each kind has, how many paths the walkers' trees listed,
// and how many files the parsers' read.
fn shares(trees: &[Option<MemTree>]) -> (usize, usize, usize) {
    if trees.len() < 4 {
        return (trees.len(), 0, 0);
    }
    (trees.len(), listed_by(&trees[..2]), read_by(&trees[2..4]))
}

#[test]
fn each_plan_finds_the_index(rt: HostRuntime) -> Result<(), Fail> {
    let alloc = rt.alloc();
    let tree = project(alloc)?;
    for (walkers, parsers, mergers) in [(1, 1, 1), (1, 2, 1), (2, 1, 3), (3, 4, 2), (8, 8, 8)] {
        let plan = plan_of(walkers, parsers, mergers);
        let seen = seen_of(
            &rt,
            alloc,
            &tree,
            &plan,
            &[],
            &BeginsAtOnce,
            project_index(),
        )?;
        assert!(rt; seen.found);
        assert_eq!(rt; seen.lists, 3);
        assert_eq!(rt; seen.reads, 5);
    }
    Ok(())
}

// Whether each directory of the project was listed once and never read, and each file read once and
// never listed, in these trees together.
fn asked_once(trees: &[Option<MemTree>]) -> bool {
    let mut once = true;
    let mut dirs = 3usize;
    for path in project_paths() {
        let wanted = if dirs > 0 { (1, 0) } else { (0, 1) };
        once = once && times_asked(trees, path) == wanted;
        dirs = dirs.saturating_sub(1);
    }
    once
}

#[test]
fn each_directory_is_listed_once_and_each_file_read_once(rt: HostRuntime) -> Result<(), Fail> {
    let tree = project(rt.alloc())?;
    let plan = plan_of(2, 4, 2);
    let ran = run_on(&rt, rt.alloc(), &tree, &plan, &[], &[], &BeginsAtOnce);
    drop(tree);
    let (answer, trees) = ran?;
    drop(answer);
    let many = trees.len();
    let lists = listed_by(&trees);
    let reads = read_by(&trees);
    let once = asked_once(&trees);
    drop(trees);
    assert_eq!(rt; many, 7);
    assert_eq!(rt; lists, 3);
    assert_eq!(rt; reads, 5);
    assert!(rt; once);
    Ok(())
}

#[test]
fn walkers_list_and_parsers_read(rt: HostRuntime) -> Result<(), Fail> {
    let tree = project(rt.alloc())?;
    let plan = plan_of(2, 2, 2);
    let ran = run_on(&rt, rt.alloc(), &tree, &plan, &[], &[], &BeginsAtOnce);
    drop(tree);
    let (answer, trees) = ran?;
    drop(answer);
    let (many, lists, reads) = shares(&trees);
    drop(trees);
    assert_eq!(rt; many, 5);
    assert_eq!(rt; lists, 3);
    assert_eq!(rt; reads, 5);
    Ok(())
}

#[test]
fn a_run_stops_at_one_file_too_many(rt: HostRuntime) -> Result<(), Fail> {
    let tree = project(rt.alloc())?;
    for most in 0..5u64 {
        let plan = stopping_plan(most);
        let seen = seen_of(&rt, rt.alloc(), &tree, &plan, &[], &BeginsAtOnce, "")?;
        assert_eq!(rt; seen.stop, Some(most + 1));
    }
    Ok(())
}

#[test]
fn a_run_with_as_many_files_as_are_allowed_goes_on(rt: HostRuntime) -> Result<(), Fail> {
    let tree = project(rt.alloc())?;
    let plan = stopping_plan(5);
    let seen = seen_of(
        &rt,
        rt.alloc(),
        &tree,
        &plan,
        &[],
        &BeginsAtOnce,
        project_index(),
    );
    drop(tree);
    assert!(rt; seen?.found);
    Ok(())
}
