//! Exact reading of texts that have a grammar, line by line, from a source.
//!
//! Promises: a word, a number, a choice of words and a line are read exactly. Reading returns what stands there, or says that more bytes
//! must come, or that no further bytes can make the bytes a text of the grammar. `take_line` asks the source only where the bytes held
//! don't decide, so a bad line shows at its first bad byte, before a later failed read; `another_line` does so for texts that are lines of
//! one kind. What makes a bad line, an input too long and a failed read just is said once, for any grammar: `HasReason` of
//! specs/Exact.antt. Stands on the sources of `firefly_outside`, and knows no grammar. It takes no memory but a window of 64 KiB; a
//! `LongIntake` also keeps the bytes of the line at hand, which may have any length.
#![tactic(auto)]

mod fault;
mod intake;
mod lines;
mod long_intake;
mod next_line;
mod stop;
mod token;

pub use fault::TextFault;
pub use intake::Intake;
pub use lines::another_line;
pub use long_intake::LongIntake;
pub use next_line::{NextLine, take_line};
pub use stop::Stop;
pub use token::{flag, long_number, number, word};
