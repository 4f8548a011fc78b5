//! Why a trace is refused: the event that fails, its row of the table, and what the state before it was.
//!
//! Promises: `explain` checks a trace as `trace_check` does, and the sink gets exactly the text that specs/Words.antt defines for the verdict.
//! What that text says of mutexes, conditions, semaphores and alerts is so in the state before the event (laws).
//! Stands on the check of trace_check, and what trace_board keeps of the events that it shows. It takes no memory.
#![tactic(auto)]

mod explain_verdict;
mod explanation;
mod facts;
pub mod laws;
mod notes;
mod rules;
mod sentences;

pub use explanation::explain;
pub use facts::add_facts;
pub use rules::rule;
