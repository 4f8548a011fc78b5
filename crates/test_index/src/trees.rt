//! The small tree, and its index.
use firefly_outside::MemTree;
use std::alloc::Global;
use std::test::Fail;
use test_project::{put_dir, put_file, tree_with};

/// Returns all paths of the small tree.
pub fn small_paths() -> [&'static str; 5] {
    ["proj", "proj/d", "proj/a", "proj/d/b", "proj/d/c"]
}

// Adds everything below the root of the small tree.
fn fill_small(alloc: Global, tree: &mut MemTree) -> Result<(), Fail> {
    put_dir(tree, "proj/d")?;
    put_file(alloc, tree, "proj/a", b"one\n")?;
    put_file(alloc, tree, "proj/d/b", b"\ntwo one\n")?;
    put_file(alloc, tree, "proj/d/c", b"two two")?;
    Ok(())
}

/// Returns a tree of two directories and three files.
pub fn small(alloc: Global) -> Result<MemTree, Fail> {
    let mut tree = tree_with(alloc, "proj")?;
    fill_small(alloc, &mut tree)?;
    Ok(tree)
}

/// Returns the index of the small tree.
pub fn small_index() -> &'static str {
    "one 2
  1 1 a
  1 2 d/b
two 2
  1 2 d/b
  2 1 d/c
"
}
