//! How the commands of the programs end: their statuses and their messages.
//!
//! Promises: each ending has its status and its message, and each status its number. A text that is a command's whole answer is taken
//! whole, or a proper prefix of it where standard output failed, which has a status and a message too. Specs/Changes.antt has the
//! words in which each command says what it did to what was handed in.
//! A text that can't be read has one ending for each of its faults (`ends_unread`).
//! Stands on the sinks of `firefly_outside`, on `text_output` for the spelling of a path, and on `exact_text` for the faults of texts. It
//! takes no memory, and knows no command.
#![tactic(auto)]

mod ending;
mod message;
mod status;
mod whole_answer;

pub use ending::{Ending, ends, ends_unread};
pub use message::say;
pub use status::{Status, number};
pub use whole_answer::print;
