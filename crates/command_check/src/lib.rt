//! The commands `check` and `order`, and how a command ends by what the check of its trace found.
//!
//! Promises: each status of `check` comes exactly by its cause, with what standard output and
//! standard error got, and nothing is read after the byte that decides. `order` prints the answer of
//! `lock_order`, a cycle with a line for each of its mutexes, with its status and message. If the
//! trace is illegal or can't be read, they are those of `check`. The crate also defines the trace of
//! a whole run, and that it is accepted (specs/Traces.antt, specs/Accepted.antt).
//! Stands on the check of `lock_order`, which keeps the contract of `trace_check`, and on
//! `command_endings`. It takes no memory, and it knows no thread, script or index.
#![tactic(auto)]

mod command;
mod order;
mod order_lines;
mod verdict_ending;
mod verdict_line;

pub use command::run_check;
pub use order::run_order;
pub use verdict_ending::{CHECK_BUDGET, ends_by};
pub use verdict_line::{Line, illegal, legal};
