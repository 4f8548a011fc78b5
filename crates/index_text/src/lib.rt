//! The reader of index texts.
//!
//! Promises: `read_index` returns the index that the input is the text of, or the first bad line, exactly, at the first byte that shows it.
//! An input of more than 67,108,864 bytes (or as many as `read_index_within` is offered) is too long where its first bytes begin a text. Each
//! index text of an index of files is such a text, and a text reads as one index (`laws`). `offer_index` reads such a text too, and offers a
//! `Taker` exactly its rows and skipped paths, in their order; what is kept is for the taker to say. Of the text only a part of a line and
//! the last bytes that came are held. Stands on `exact_text` and `index_table`.
#![tactic(auto)]

mod fault;
mod key;
pub mod laws;
mod lines;
mod long;
mod next;
mod path;
mod read;
mod take;
mod taker;
mod token;
mod whole;

pub use exact_text::TextFault;
pub use read::{offer_index, read_index, read_index_within};
pub use taker::Taker;
