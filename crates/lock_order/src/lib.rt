//! The lock order of a trace: whether its threads took mutexes within one another in a circle, and if so one such circle.
//!
//! Promises: a cycle is reported exactly where the whole input is a legal trace in which mutexes stand before one another in a circle, with the
//! first event that shows each step of it; all other answers are those of `trace_check`. Stands on the reader of trace_core and the state
//! of larch_actions. It takes no memory and always returns. It does not say whether a run can come to a stop.
#![tactic(auto)]

mod answer;
mod cycle;
mod cyclic_core;
mod lock_graph;
mod mutex_set;
mod order;

pub use answer::{Cycle, Edge, OrderAnswer};
pub use cycle::cycle_in;
pub use lock_graph::LockGraph;
pub use order::{check, lock_order};
