//! The commands of the program, over sources, sinks and trees that are passed in.
//!
//! Promises: each status has exactly its cause, and standard output gets a whole answer, a proper
//! prefix of one if it failed, or nothing. Built on the crates of the commands. Nothing is promised
//! about what the objects passed in do.
#![tactic(auto)]

mod index_command;
mod index_run;
pub mod laws;
mod outside;
mod print_trace;
mod run_command;
mod sample_command;
mod top;
mod trace_command;

pub use command_endings::{Ending, Status, ends, number};
pub use index_sample::{SampleSums, index_summary};
pub use outside::{system_trees, system_words};
pub use script_run::run_script;
pub use script_text::{Script, read_script};
pub use top::firefly;
