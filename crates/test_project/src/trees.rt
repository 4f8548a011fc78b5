//! Trees in memory that are filled path by path.
use firefly_outside::MemTree;
use std::alloc::{AllocError, Global};
use std::test::Fail;

/// Returns a tree with only this directory. This is a function of its own so that what is known of
/// the tree isn't alive where more is added.
pub fn tree_with(alloc: Global, root: &str) -> Result<MemTree, AllocError> {
    let mut tree = MemTree::new(alloc);
    tree.add_dir(root)?;
    Ok(tree)
}

/// Adds an empty directory.
pub fn put_dir(tree: &mut MemTree, path: &str) -> Result<(), Fail> {
    if tree.may_add(path)? {
        tree.add_dir(path)?;
    }
    Ok(())
}

/// Adds a file.
pub fn put_file(alloc: Global, tree: &mut MemTree, path: &str, bytes: &[u8]) -> Result<(), Fail> {
    if tree.may_add(path)? {
        let bytes = bytes.to_vec(alloc)?;
        tree.add_file(path, bytes)?;
    }
    Ok(())
}
