//! Scripts of the threads package: what they say, their texts, and what a run of one leaves.
//!
//! A script is of version one, or of version two, in which lines fork and join threads.
//! Promises: `read_script` gives the script of the text exactly where the whole input is one of at most 100,000 lines, and else names
//! the first bad line as soon as the bytes show it, or says that the input is too long, a read failed or memory ran out. Stands on the
//! exact reading of exact_text, on the layout line of trace_core, and on larch_actions. The input is never held whole: a window of 64 KiB,
//! and what was read. Here stand the definitions that a run is held to (specs/Runs.antt), and not the run.
#![tactic(auto)]

mod draft;
mod heads;
pub mod laws;
mod line;
mod parse;
mod read;
mod script;
mod table;

pub use line::{Line, Operation};
pub use read::read_script;
pub use script::Script;
