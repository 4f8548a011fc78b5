//! What running a crew answers.
use std::fmt;

/// What a crew gave.
#[derive(Drop)]
pub struct Finished<X, Y> {
    /// What the jobs gave, in their order.
    pub results: Vec<X>,
    /// How many of them weren't started, and were run on the caller.
    pub held: usize,
    /// What the caller's own part gave.
    pub between: Y,
}

/// What a crew was given, back: there was no memory, and nothing has run.
#[derive(Drop)]
pub struct NotRun<T, O, M> {
    pub jobs: Vec<T>,
    pub own: O,
    pub between: M,
}

impl<T, O, M> fmt::Display for NotRun<T, O, M> {
    fn fmt<W: fmt::Write>(&self, f: &mut fmt::Formatter<W>) -> fmt::Result {
        write!(f, "out of memory, nothing has run")
    }
}
