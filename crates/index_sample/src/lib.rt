//! The sample tree, made as it is read, and its index by threads with the index's sums.
//!
//! Promises: a sample tree lists and reads what the tree of its seed and number of files has, and a
//! call on a path that is there fails only if there is no memory. It has the lines that files are
//! made of, and no files, so a fork copies little. The sums are those of the index of the sample
//! tree, and making them fails only if there is no memory; `print_summary` writes exactly their
//! five lines. Built on the indexer and pieces. Nothing is promised about workers that run beside
//! each other, and a run may wait for ever.
#![tactic(auto)]

mod entries;
mod lines;
mod paths;
mod sample_tree;
mod short_text;
mod summary;
mod sums;
mod trees;

pub use sample_tree::SampleTree;
pub use summary::{SampleSums, print_summary};
pub use sums::index_summary;
