//! The words of the program's command line, read exactly.
//!
//! Promises: `read_words` answers the command that the words say, which is one, and answers `Usage`
//! only where they say none. `specs/Grammar.antt` is the grammar: words are spelt parts.
//! Stands on `clap`, which reads the words after `index` and `trace`, and on the numbers of `text_output`.
//! It does not say which commands the program serves, nor what a directory holds.
#![tactic(auto)]

mod command;
mod options;

pub use command::{Command, IndexOptions, WordsFault, read_words};
