//! The ends of a pool.
use std::fmt;

/// How a pool ended.
#[derive(Debug, Drop)]
pub enum PoolEnd {
    /// No job gives Stop. Here is the value of each job, in its place.
    Done(Vec<u64>),
    /// The job at this place gives Stop.
    Stopped(u64),
    /// There was no memory, and no job has run.
    Memory,
}

impl fmt::Display for PoolEnd {
    fn fmt<W: fmt::Write>(&self, f: &mut fmt::Formatter<W>) -> fmt::Result {
        match self {
            PoolEnd::Done(_) => write!(f, "all jobs are done"),
            PoolEnd::Stopped(job) => write!(f, "stopped by job {job}"),
            PoolEnd::Memory => write!(f, "out of memory, no job has run"),
        }
    }
}
