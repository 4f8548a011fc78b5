//! The walk over a tree of files, and the index of all files under a root.
//!
//! `Walked` holds the directories and files found and which directories were listed. With a new `Walked` and an empty piece
//! `close_walk` is the index of one thread.
//!
//! Promises: `close_walk` lists what wasn't listed, reads what isn't covered, each once, and gives the index of all files under the
//! root, or says why not; a fault is answered only where the tree's count rose. Stands on the trees of `firefly_outside` and the
//! pieces of `word_index`. Nothing is said of the time that a walk takes.
#![tactic(auto)]

mod answer;
mod close;
mod found;
mod listing;
mod note;
mod paths;
mod read;
mod walked;

pub use answer::WalkAnswer;
pub use close::{MOST_DIRS, close_walk};
pub use listing::{Listing, list_dir};
pub use paths::below;
pub use walked::Walked;
