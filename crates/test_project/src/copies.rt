//! Copies of a tree.
ghost use Rattle.std.specs.Prelude.{◌≡◌, IfOk};
ghost use Rattle.firefly_outside.specs.Seen.{tree_of};

use firefly_outside::MemTree;
use std::alloc::{AllocError, Global};

/// Returns a copy of the tree that fails at these paths. Fails only if there is no memory.
pub fn copy_failing_at(alloc: Global, tree: &MemTree, paths: &[&str]) -> Result<MemTree, AllocError>
    ensures { IfOk result (λ t. tree_of t ≡ tree_of tree.now) }
{
    let mut copy = tree.fork(alloc)?;
    for path in paths {
        copy.fail_at(path)?;
    }
    Ok(copy)
}
