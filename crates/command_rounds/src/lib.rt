//! The command `rounds`: rounds of a barrier, a sum and a once cell by all threads of a traced
//! package, and their trace, written to standard output.
//!
//! Promises: `play_rounds` returns what its package leaves: a closed legal history in which the
//! events of each thread are those of its rounds, the bar after two arrivals of each thread in each
//! round, the sum of all that was added, and one value on which all have agreed; and the totals
//! that thread 0 took between the arrivals. It fails only if there is no memory. `run_rounds`
//! writes the trace of such a run. Built on `barrier_once` and on a crew of threads. Nothing is
//! promised about what the objects passed in do, nor about waiting: a run may wait for ever.
#![tactic(auto)]

mod command;
mod play;
mod run;

pub use command::run_rounds;
pub use run::{Rounds, play_rounds};
