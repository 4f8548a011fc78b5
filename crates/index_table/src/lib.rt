//! An index as a table: rows of words with the files that have them, skipped paths, and each path of the rows once.
//!
//! A draft takes hits, rows and skipped paths in their order, and becomes the table. Contracts see a draft as rows, the hits of the row
//! under way and skipped paths, and a table as rows, skipped paths and paths.
//!
//! Promises: the table has exactly the rows and skipped paths that the draft was given, and the paths of the rows, rising and each once.
//! `files_with` gives the places of the files that have a word, and no others. Want of memory is the one refusal. Stands on `word_index`
//! for its definitions and lists, and on `indexmap`. Nothing is said of the time that a call takes.
#![tactic(auto)]

mod draft;
mod paths;
mod table;

pub use draft::Draft;
pub use table::Index;
