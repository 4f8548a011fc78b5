//! The command `find`.
//!
//! Promises: if the words are a query, or a limit on the index's bytes and a query, and the input is
//! the text of an index, the paths that the query means in this index are printed, each on a line
//! and spelt as in that text. If the words are neither, nothing is read. Each status comes by its
//! cause, with what standard output and standard error got, and a failed read is reported.
//! Stands on `index_find` and `index_text`, on `command_endings`, and on `text_output` for the lines.
#![tactic(auto)]

mod command;
mod lines;
mod words;

pub use command::run_find;

#[cfg(test)]
mod tests;
