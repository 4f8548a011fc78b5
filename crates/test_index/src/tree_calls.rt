//! Trees in memory and of the system.
use firefly_outside::{DirTree, Entry, FileBytes, Kind, MemTree, Tree, TreeError};
use std::alloc::{AllocError, Global};
use std::process::Abort;
use std::test::Fail;
use test_project::{put_dir, put_file, tree_with};

// What a tree lists. What else is known of the tree is then not alive in the tests.
fn list<S: Tree>(alloc: Global, tree: &mut S, dir: &str) -> Result<Vec<Entry>, TreeError> {
    tree.list(alloc, dir)
}

fn read<S: Tree>(alloc: Global, tree: &mut S, path: &str) -> Result<FileBytes, TreeError> {
    tree.read(alloc, path)
}

// Whether these are the entries, in their order.
fn are(entries: &[Entry], expected: &[(&str, Kind)]) -> bool {
    let same = entries.iter().zip(expected).all(|(entry, (name, kind))| {
        entry.name.as_str() == *name && entry.kind == *kind
    });
    entries.len() == expected.len() && same
}

// How many lists, reads and failures the tree has reported.
fn calls(tree: &MemTree) -> (usize, usize, usize) {
    (
        tree.listed().len(),
        tree.files_read().len(),
        tree.failed().len(),
    )
}

// Adds a directory and a file.
fn fill(alloc: Global, tree: &mut MemTree) -> Result<(), Fail> {
    put_dir(tree, "proj/src")?;
    put_file(alloc, tree, "proj/a b", b"x")?;
    Ok(())
}

// Whether these are the entries that the tree lists.
fn lists(alloc: Global, tree: &mut MemTree, expected: &[(&str, Kind)]) -> Result<bool, TreeError> {
    let entries = list(alloc, tree, "proj")?;
    Ok(are(&entries, expected))
}

// Whether these are the bytes that the tree reads.
fn reads(alloc: Global, tree: &mut MemTree, path: &str, bytes: &[u8]) -> Result<bool, TreeError> {
    let file = read(alloc, tree, path)?;
    Ok(file.bytes.as_slice() == bytes)
}

// How many entries are listed.
fn many_in<S: Tree>(alloc: Global, tree: &mut S, dir: &str) -> Result<usize, TreeError> {
    Ok(list(alloc, tree, dir)?.len())
}

// Whether a file is longer than what was read of it.
fn is_long<S: Tree>(alloc: Global, tree: &mut S, path: &str) -> Result<bool, TreeError> {
    Ok(read(alloc, tree, path)?.long)
}

// Why nothing is listed, if nothing is.
fn list_fault<S: Tree>(alloc: Global, tree: &mut S, dir: &str) -> Option<TreeError> {
    list(alloc, tree, dir).err()
}

// Why nothing is read.
fn read_fault<S: Tree>(alloc: Global, tree: &mut S, path: &str) -> Option<TreeError> {
    read(alloc, tree, path).err()
}

fn has_failed(rt: &impl Abort, fault: Option<TreeError>) {
    assert_eq!(rt; fault, Some(TreeError::Failed));
}

// A tree that fails at its root.
fn failing_tree(alloc: Global) -> Result<MemTree, AllocError> {
    let mut tree = tree_with(alloc, "proj")?;
    tree.fail_at("proj")?;
    Ok(tree)
}

// In these tests no tree is alive where its answer is compared, which makes their proofs far
// shorter.
#[test]
fn tree_lists_what_was_added(rt: HostRuntime) -> Result<(), Fail> {
    let alloc = rt.alloc();
    let mut tree = tree_with(alloc, "proj")?;
    fill(alloc, &mut tree)?;
    let listed = lists(alloc, &mut tree, &[("src", Kind::Dir), ("a b", Kind::File)]);
    let read = reads(alloc, &mut tree, "proj/a b", b"x");
    let calls = calls(&tree);
    drop(tree);
    assert!(rt; listed?);
    assert!(rt; read?);
    assert_eq!(rt; calls, (1, 1, 0));
    Ok(())
}

#[test]
fn tree_fails_where_it_is_reported_to(rt: HostRuntime) -> Result<(), Fail> {
    let alloc = rt.alloc();
    let mut tree = failing_tree(alloc)?;
    let is_list_refused = list_fault(alloc, &mut tree, "proj").is_some();
    let is_read_refused = read_fault(alloc, &mut tree, "proj").is_some();
    let failed = calls(&tree).2;
    let fork = tree.fork(alloc);
    drop(tree);
    let mut fork = fork?;
    let many = many_in(alloc, &mut fork, "proj");
    let failed_in_fork = calls(&fork).2;
    drop(fork);
    assert_eq!(rt; is_list_refused, true);
    assert_eq!(rt; is_read_refused, true);
    assert_eq!(rt; failed, 2);
    assert_eq!(rt; many?, 0);
    assert_eq!(rt; failed_in_fork, 0);
    Ok(())
}

#[test]
fn system_tree_follows_no_link_and_reads_no_device(rt: HostRuntime) -> Result<(), Fail> {
    let alloc = rt.alloc();
    let mut tree = DirTree::new(rt.clone()?);
    let many = many_in(alloc, &mut tree, "/");
    let link = list_fault(alloc, &mut tree, "/proc/self");
    let missing = list_fault(alloc, &mut tree, "/no such directory");
    let device = read_fault(alloc, &mut tree, "/dev/null");
    let long = is_long(alloc, &mut tree, "/proc/self/cmdline");
    drop(tree);
    assert_eq!(rt; many? == 0, false);
    has_failed(&rt, link);
    has_failed(&rt, missing);
    has_failed(&rt, device);
    assert_eq!(rt; long?, false);
    Ok(())
}
