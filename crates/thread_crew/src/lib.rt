//! A crew of threads: one job for each, run in a scope, with what each job gives as the contract.
//!
//! Promises: `run_crew` answers what each job gave, in the order of the jobs, as the closure's own clause says, how many weren't started,
//! and what the caller's own part gave of what it was handed and of that number, which is at least as large as the number of jobs after
//! the first `starts`. Out of memory is its one refusal, and then all that was given comes back.
//! Stands on the scoped threads of std and their promises.
//! It does not say that a thread was started, that jobs run beside each other, or when a job runs whose thread wasn't started: on the
//! caller, once all others were started and the caller's own part is over. Tests of `test_firefly` show these, of jobs after the first
//! `starts`; no test sees a thread that the system refuses.
#![tactic(auto)]

mod calls;
mod child;
mod crews;
mod outcome;
mod task;

pub use calls::run_crew;
pub use outcome::{Finished, NotRun};
