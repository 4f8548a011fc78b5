//! Queries for words, and the files of an index that a query means.
//!
//! Promises: `read_query` answers the one tree as which the words of a command line read by the grammar of specs/Grammar.antt, and says
//! that they are no query exactly where they read as none. `find` gives the paths that a query means, in the order of their bytes and
//! each once: a word means the files that have it, `!` all files of the entries but those of its term, `&` those of all parts and `|`
//! those of any. Want of memory is its one refusal. `find_within` gives the same paths of an index text, which it reads in a stream: it
//! keeps the rows of the query's words, and each path once where the query has a `!`. A query is seen as its steps, each after those that
//! it joins. Stands on `index_table` and `index_text`, and hands on their types and the reader of indexes. It compares no texts: each path
//! has a mark, and the steps of a query join marks. Nothing is said of the time that a call takes.
#![tactic(auto)]

mod answer;
mod chosen;
mod kept;
mod last;
mod marks;
mod query;
mod read;
mod sieve;
mod stack;
mod token;
mod tokens;
mod within;

pub use answer::find;
pub use index_table::Index;
pub use index_text::{TextFault, read_index};
pub use query::{Query, Step};
pub use read::{QueryFault, read_query};
pub use within::find_within;
