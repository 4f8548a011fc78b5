//! Fixed workloads over the package, each a call that runs a whole package of threads to its end.
//!
//! Promises: the result of a workload is what its numbers determine, whatever the schedule: sums,
//! turns and counts, in one clause each. Built on the package and what is built over it: mutexes,
//! semaphores, conditions, alerts, bounded buffers, readers and writers. Nothing is promised about
//! how long a workload takes: program_bench times them. No part of the product is built on this
//! crate.
#![tactic(auto)]

mod additions;
mod alert_waits;
mod alternation;
mod buffers;
mod calls;
mod numbers;
mod parts;
mod readers;
mod rounds;
mod semaphores;

pub use additions::{Added, add_at_once};
pub use alert_waits::{Woken, alert_at_once};
pub use alternation::{Play, play_at_once};
pub use buffers::{Numbers, Passed, pass_at_once};
pub use calls::call_alone;
pub use numbers::{Capacity, Count, Sides};
pub use readers::{Pair, Played, read_at_once};
pub use semaphores::{Turned, turn_at_once};
