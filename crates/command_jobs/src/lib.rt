//! The command `jobs`: lines of jobs, read exactly and run by a pool of threads.
//!
//! Promises: `read_jobs` returns the lines of the text exactly if the whole input is one of at most
//! 100,000 lines, each `sum N` with N at most a million, or `stop`. Otherwise it returns the first
//! bad line as soon as the bytes show it, or too long, a failed read or out of memory.
//! If no line of such a text is `stop`, the value of each line is printed after its place, in order.
//! If one is, the answer names the place of a `stop`, and nothing is printed. Each status comes by
//! its cause, with what standard output and standard error got.
//! Stands on `exact_text` for reading, on `job_pool` for the run, on `command_endings`, and on
//! `text_output` for lines. The input is never held whole: only a window of 64 KiB and the lines
//! that were read.
#![tactic(auto)]

mod command;
mod job;
mod job_line;
mod job_parse;
mod job_read;
pub mod laws;
mod lines;
mod run;

pub use command::run_jobs_command;
pub use job_line::JobLine;
pub use job_read::read_jobs;

#[cfg(test)]
mod tests;
