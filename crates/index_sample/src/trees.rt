//! Copies of the sample tree.
ghost use Rattle.std.specs.Prelude.{◌≤◌, IfOk};
ghost use Rattle.index_sample.specs.Trees.{AreSamples};

use crate::sample_tree::SampleTree;
use std::alloc::{AllocError, Global};

/// Makes the sample tree for two walkers, two parsers and the closing walk.
pub fn five_trees(
    alloc: Global,
    seed: u64,
    files: u32,
) -> Result<Vec<Option<SampleTree>>, AllocError>
    requires { files ≤ 20000 }
    ensures { IfOk result (λ v. AreSamples seed files v.items) }
{
    let first = SampleTree::new(alloc, seed, files)?;
    let mut trees = Vec::new(alloc);
    for copied in 0..4u32 {
        trees.push(Some(first.fork(alloc)?))?;
    }
    trees.push(Some(first))?;
    Ok(trees)
}
