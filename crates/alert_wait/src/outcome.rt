//! The two ways in which an alertable call ends.
use std::fmt;

/// How an alertable call ended.
#[derive(Clone, Copy, Debug, PartialEq, Eq)]
pub enum Outcome {
    /// The call did what the same call without alerts does.
    Returned,
    /// An alert ended the call, and was cleared.
    Alerted,
}

impl fmt::Display for Outcome {
    fn fmt<W: fmt::Write>(&self, f: &mut fmt::Formatter<W>) -> fmt::Result {
        match self {
            Outcome::Returned => write!(f, "the call returned"),
            Outcome::Alerted => write!(f, "the thread was alerted"),
        }
    }
}
