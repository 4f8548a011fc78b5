//! The search of a script's plays over streams, with its words, statuses and messages.
//!
//! Promises: `explore_input` prints `ends` only if each play of the script that the input is goes on or is whole. It prints a trace only
//! if that is of a play that gets stuck: its text reads as the play's events with the numbers of the mutexes there, the events are legal,
//! and standard error says of each thread what it waits for (specs/Waits.antt). A stop names a limit that is passed.
//! Stands on script_search for the answer, on command_script for inputs that are no script, and on trace_core for the trace.
#![tactic(auto)]

mod command;
mod line;
mod report;
mod stuck;
mod waits;
mod words;

pub use command::explore_input;
pub use stuck::{ExploreStatus, number};
