//! The lines of jobs, and the reasons why they can't be read.

/// A job.
#[derive(Clone, Copy, Debug, PartialEq, Eq)]
pub enum JobLine {
    /// The sum of the numbers from 0 to this one.
    Sum(u32),
    /// The job that stops the pool.
    Stop,
}
