//! Copies of a tree in memory, as many as a call of the program needs.
ghost use Rattle.std.specs.Prelude.{◌≡◌, IfOk, length, Some};
ghost use Rattle.firefly_outside.specs.Seen.{tree_of};
ghost use Rattle.firefly.specs.Looks.{look_of, looks_of, Agree};

use firefly_outside::{MemTree, Tree};
use std::alloc::{AllocError, Global};
use test_project::copy_failing_at;

// The copy for this place.
fn copy_at(
    alloc: Global,
    tree: &MemTree,
    place: usize,
    from: usize,
    paths: &[&str],
) -> Result<MemTree, AllocError>
    ensures { IfOk result (λ t. tree_of t ≡ tree_of tree.now) }
{
    if place < from {
        return copy_failing_at(alloc, tree, &[]);
    }
    copy_failing_at(alloc, tree, paths)
}

/// Returns as many copies of the tree as a call of the program needs. Those from this place on fail
/// at these paths.
pub fn copies_failing_from(
    alloc: Global,
    tree: &MemTree,
    from: usize,
    paths: &[&str],
) -> Result<Vec<Option<MemTree>>, AllocError>
    ensures many { IfOk result (λ v. length v.items ≡ 17) }
    ensures agree { IfOk result (λ v. Agree (looks_of (look_of ⟦<MemTree as Tree>⟧.tree ⟦<MemTree as Tree>⟧.may_fail
        ⟦<MemTree as Tree>⟧.calls ⟦<MemTree as Tree>⟧.faults) v.items)) }
{
    let mut trees = Vec::new(alloc);
    for made in 0..17usize {
        let copy = copy_at(alloc, tree, made, from, paths)?;
        trees.push(Some(copy))?;
    }
    Ok(trees)
}

/// Returns copies of the tree, none of which fails.
pub fn copies_of(alloc: Global, tree: &MemTree) -> Result<Vec<Option<MemTree>>, AllocError>
    ensures many { IfOk result (λ v. length v.items ≡ 17) }
    ensures agree { IfOk result (λ v. Agree (looks_of (look_of ⟦<MemTree as Tree>⟧.tree ⟦<MemTree as Tree>⟧.may_fail
        ⟦<MemTree as Tree>⟧.calls ⟦<MemTree as Tree>⟧.faults) v.items)) }
{
    copies_failing_from(alloc, tree, 17, &[])
}
