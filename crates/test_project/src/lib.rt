//! A small project in memory with its index, and what else the tests of the program and of its
//! index share: trees and copies of them, a walk by one thread, and a place where two threads meet.
//!
//! Promises: a copy has the tree of which it was made. Built on trees in memory, the walk and the
//! printed index. No part of the product is built on this crate.
#![tactic(auto)]

mod copies;
mod meeting;
mod sample;
mod trees;
mod walks;

pub use copies::copy_failing_at;
pub use meeting::Meeting;
pub use sample::{project, project_index, project_paths};
pub use trees::{put_dir, put_file, tree_with};
pub use walks::{calls, index_of, is_text, walk};
