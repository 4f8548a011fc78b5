//! Copies of a tree: one for each worker that has a tree, and one for the closing walk.
ghost use Rattle.std.specs.Prelude.{◌≡◌, ◌+◌, All, IfOk, length};
ghost use Rattle.firefly_outside.specs.Seen.{tree_of};
ghost use Rattle.test_index.specs.Copies.{HoldsTree};

use firefly_outside::{MemTree, Text};
use std::alloc::{AllocError, Global};
use test_project::copy_failing_at;

/// Returns copies of the tree for `workers` workers, which fail at the first paths, and one for the
/// closing walk, which fails at the last ones.
pub fn copies_of(
    alloc: Global,
    tree: &MemTree,
    workers: u32,
    first: &[&str],
    last: &[&str],
) -> Result<Vec<Option<MemTree>>, AllocError>
    ensures many { IfOk result (λ v. length v.items ≡ workers + 1) }
    ensures trees { IfOk result (λ v. All (HoldsTree (tree_of tree.now)) v.items) }
{
    let mut trees = Vec::new(alloc);
    for made in 0..workers {
        trees.push(Some(copy_failing_at(alloc, tree, first)?))?;
    }
    trees.push(Some(copy_failing_at(alloc, tree, last)?))?;
    Ok(trees)
}

/// Returns how many paths were listed, in these trees together.
pub fn listed_by(trees: &[Option<MemTree>]) -> usize {
    let mut many = 0usize;
    for tree in trees {
        if let Some(tree) = tree {
            many = many.saturating_add(tree.listed().len());
        }
    }
    many
}

/// Returns how many files were read, in these trees together.
pub fn read_by(trees: &[Option<MemTree>]) -> usize {
    let mut many = 0usize;
    for tree in trees {
        if let Some(tree) = tree {
            many = many.saturating_add(tree.files_read().len());
        }
    }
    many
}

// How often the path is among these.
fn times_in(paths: &[Text], path: &str) -> usize {
    let mut many = 0usize;
    for other in paths {
        if other.as_str() == path {
            many = many.saturating_add(1);
        }
    }
    many
}

/// Returns how often the path was listed, and how often it was read, in these trees together.
pub fn times_asked(trees: &[Option<MemTree>], path: &str) -> (usize, usize) {
    let mut lists = 0usize;
    let mut reads = 0usize;
    for tree in trees {
        if let Some(tree) = tree {
            lists = lists.saturating_add(times_in(tree.listed(), path));
            reads = reads.saturating_add(times_in(tree.files_read(), path));
        }
    }
    (lists, reads)
}
