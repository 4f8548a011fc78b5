//! A pool of jobs: each is done at most once, by threads that take batches of jobs from a buffer or
//! by the caller.
//!
//! Promises: if no job gives Stop, `run_jobs` returns the value of each job in its place, and
//! otherwise the place of one that does; each job comes back in its place, after one call or as it
//! was given. If there is no memory, that shows before any job runs. Built on a buffer and alerts
//! of a package, and on a crew of threads. Nothing is promised about how many threads are at work,
//! nor that a job ever ends.
#![tactic(auto)]

mod batch;
mod batches;
mod calls;
mod crew;
mod item;
mod job;
mod opening;
mod places;
mod pool;
mod pool_end;
mod share;
mod slot;
mod worker;

pub use job::{BoxJob, Job, Work};
pub use pool::run_jobs;
pub use pool_end::PoolEnd;
