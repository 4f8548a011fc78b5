//! What the workers of an index run found, put together: the directories that they listed, the pieces of the index that they made, and the
//! path that failed, if one did.
//!
//! Promises: files that were read become pieces of the files that the tree has; pieces that are merged stay of such files and cover the same
//! paths; the findings of all are one, with the first fault; and `decided` gives over them what the closing walk answers, which lists and
//! reads only what they leave, or the path that failed, where the listings show that it was found; where something was lost for want of
//! memory it says so. Stands on the walk of `walker`, the pieces of `word_index` and the trees of
//! `firefly_outside`. It knows of no threads, and doesn't say which pieces are merged.
#![tactic(auto)]

mod all_findings;
mod answer;
mod faults;
mod findings;
mod kept_pieces;
mod listings;
mod read_files;
mod visited;
mod whole_piece;

pub use all_findings::gather;
pub use answer::decide;
pub use findings::{Fault, Findings, Visit};
pub use kept_pieces::{keep, merge_rest};
pub use listings::keep_listing;
pub use read_files::{ReadFile, ReadFiles, pieces_of};
