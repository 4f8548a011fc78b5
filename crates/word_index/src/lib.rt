//! The words of files, and the index of some files as a piece that merges with others.
//!
//! A batch holds files that were read, in the order of their paths, and becomes their piece. Contracts see a piece as paths,
//! skipped paths and rows.
//!
//! Promises: a piece is the index of the files that it covers: for each word of a file its count and first line there, in the order
//! of words and paths, and the paths of the files that were too long. `merge` of two pieces is the index of both sets of files. Want
//! of memory is the one refusal. Stands on `indexmap` and `firefly_outside`. Nothing is said of the time that a call takes.
//! `Strings`, `part_of`, `number_of` and `Keyed` are what pieces are made of, and serve `index_table` too.
#![tactic(auto)]

mod batch;
mod blocks;
mod count;
mod join;
mod keyed;
pub mod laws;
mod links;
mod merges;
mod of_file;
mod piece;
mod rows;
mod strings;
mod table;
mod words;

pub use batch::Batch;
pub use blocks::part_of;
pub use join::number_of;
pub use keyed::Keyed;
pub use merges::{merge, merge_or_drop};
pub use of_file::piece_of;
pub use piece::{Found, Piece};
pub use strings::Strings;
