//! Calls of the command `index` on trees that fail, and the walk that it is built on.
use crate::answers::{Answer, answer_of, is_answer};
use crate::same::same;
use crate::trees::copies_failing_from;
use firefly::Status;
use firefly_outside::{MemSource, MemTree};
use std::alloc::{AllocError, Global};
use std::process::Abort;
use std::sync::Wait;
use std::test::Fail;
use std::thread::Threads;
use test_project::{calls, index_of, is_text, project, project_index, project_paths};

// The answer of `index` for the project, if the trees from this place on fail at these paths. The
// trees aren't alive in the test.
fn index_failing<R: Threads + Wait + Sync>(
    rt: &R,
    alloc: Global,
    tree: &MemTree,
    from: usize,
    paths: &[&str],
) -> Result<Answer, AllocError> {
    let mut trees = copies_failing_from(alloc, tree, from, paths)?;
    let mut input = MemSource::new(Vec::new(alloc));
    answer_of(rt, alloc, &["index", "proj"], &mut trees, &mut input, 1000)
}

// Checks that the path is named if the tree fails at it.
fn is_named<R: Threads + Wait + Sync + Abort>(
    rt: &R,
    alloc: Global,
    tree: &MemTree,
    path: &str,
) -> Result<(), AllocError> {
    let found = index_failing(rt, alloc, tree, 0, &[path])?;
    let message = format!(in alloc; "firefly: {path} could not be read\n")?;
    is_answer(rt, &found, Status::ReadFault, b"", message.as_str());
    Ok(())
}

// Checks the same for each of these paths. The tree is borrowed, so no early return drops it.
fn are_named<R: Threads + Wait + Sync + Abort>(
    rt: &R,
    alloc: Global,
    tree: &MemTree,
    paths: &[&str],
) -> Result<(), AllocError> {
    for path in paths {
        is_named(rt, alloc, tree, path)?;
    }
    Ok(())
}

#[test]
fn a_path_that_fails_is_named(rt: HostRuntime) -> Result<(), Fail> {
    let tree = project(rt.alloc())?;
    let paths = ["proj", "proj/doc", "proj/README", "proj/src/run.rs"];
    let named = are_named(&rt, rt.alloc(), &tree, &paths);
    drop(tree);
    named?;
    Ok(())
}

// The default has two walkers and four parsers, so the tree of the closing walk is the seventh.
#[test]
fn the_workers_leave_nothing_to_the_closing_walk(rt: HostRuntime) -> Result<(), Fail> {
    let tree = project(rt.alloc())?;
    let found = index_failing(&rt, rt.alloc(), &tree, 6, &project_paths());
    drop(tree);
    let found = found?;
    is_answer(&rt, &found, Status::Done, project_index().as_bytes(), "");
    Ok(())
}

// Whether the index of the whole tree has this text, and how many files it has. The index isn't
// alive in the test.
fn index_has(
    alloc: Global,
    tree: &mut MemTree,
    root: &str,
    text: &str,
) -> Result<(bool, u64), Fail> {
    let piece = index_of(alloc, tree, root)?;
    let has = is_text(alloc, &piece, text);
    let files = piece.files();
    drop(piece);
    Ok((has?, files))
}

#[test]
fn a_walk_from_nothing_gives_the_index(rt: HostRuntime) -> Result<(), Fail> {
    let mut tree = project(rt.alloc())?;
    let index = index_has(rt.alloc(), &mut tree, "proj", project_index());
    let calls = calls(&tree);
    drop(tree);
    let (has, files) = index?;
    assert!(rt; has);
    same(&rt, &files, &5);
    same(&rt, &calls, &(3, 5));
    Ok(())
}
