//! The index text of a piece, written to a sink.
//!
//! Promises: `print_index` writes exactly the text of the piece: for each word in order its line and a line for each file that
//! has it, and then a line for each skipped file. After a fault of the sink it got a proper prefix of that text.
//! Stands on `word_index`, on the buffer of `text_output` and the sinks of `firefly_outside`, and on `itoa`. It takes no memory. It
//! does not know how the piece was made.
#![tactic(auto)]

mod prefix;
mod print;

pub use print::print_index;
