//! Turns at a sum: the monitor that the tests and the workloads of conditions use.
//!
//! Promises: `take_turn` adds 1 to the sum under a mutex, and only to a value that its test
//! accepts. Built on `monitor`, on the mutex and on conditions. Nothing is promised about waiting:
//! not that a turn ever comes, nor which thread a Signal takes.
#![tactic(auto)]

mod turns;

pub use turns::{Turn, Wake, take_turn};
