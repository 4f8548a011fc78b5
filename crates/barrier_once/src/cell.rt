//! The values that the mutexes protect, and where they are.
ghost use Rattle.std.specs.Prelude.{◌≡◌};
ghost use Rattle.barrier_once.specs.Cells.{arrived_of, once_of, round_of, sum_of};

use larch_actions::{CondId, MutexId};

/// The value of a mutex: a barrier with its round and how many have arrived in it, a sum, or a
/// value that is set once.
#[derive(Clone, Copy, Debug, Drop, PartialEq, Eq)]
pub enum Cell {
    Bar { round: u64, arrived: u32 },
    Sum(u64),
    Once(Option<u64>),
}

/// The mutex of the bar with the condition in which the parties wait, the mutex of the sum, and
/// that of the once cell.
#[derive(Clone, Copy, Debug, PartialEq, Eq)]
pub struct RoundAt {
    pub bar: MutexId,
    pub cond: CondId,
    pub sum: MutexId,
    pub once: MutexId,
}

impl Cell {
    /// Returns the round of a bar, and 0 for any other cell.
    ///
    /// ```rust
    /// (cells[0].round(), cells[1].sum(), value)
    /// ```
    pub fn round(&self) -> u64
        ensures { result ≡ round_of self.now }
    {
        match *self {
            Cell::Bar { round, arrived: _ } => round,
            Cell::Sum(_) => 0,
            Cell::Once(_) => 0,
        }
    }

    /// Returns how many threads have arrived at a bar, and 0 for any other cell.
    ///
    /// ```rust
    /// if bar.arrived() + 1 == p.layout().threads {
    /// ```
    pub fn arrived(&self) -> u32
        ensures { result ≡ arrived_of self.now }
    {
        match *self {
            Cell::Bar { round: _, arrived } => arrived,
            Cell::Sum(_) => 0,
            Cell::Once(_) => 0,
        }
    }

    /// Returns the number of a sum, and 0 for any other cell.
    ///
    /// ```rust
    /// (cells[0].round(), cells[1].sum(), value)
    /// ```
    pub fn sum(&self) -> u64
        ensures { result ≡ sum_of self.now }
    {
        match *self {
            Cell::Bar {
                round: _,
                arrived: _,
            } => 0,
            Cell::Sum(sum) => sum,
            Cell::Once(_) => 0,
        }
    }

    /// Returns the value of a once cell, if it has one.
    ///
    /// ```rust
    /// let value = match cells[2].once() {
    ///     Some(value) => value,
    ///     None => 0,
    /// };
    /// ```
    pub fn once(&self) -> Option<u64>
        ensures { result ≡ once_of self.now }
    {
        match *self {
            Cell::Bar {
                round: _,
                arrived: _,
            } => None,
            Cell::Sum(_) => None,
            Cell::Once(value) => value,
        }
    }
}
