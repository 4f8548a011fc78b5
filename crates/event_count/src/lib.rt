//! The count of a condition, and blocking until it is advanced.
//!
//! Promises: reading the count is the first event of a wait, and advancing it is a Signal or a
//! Broadcast; blocking ends only outside the condition and its queue, or by an alert. Built on the
//! Nub. Nothing is promised about how long a thread blocks, nor about which thread a Signal takes.
#![tactic(auto)]

mod advance;
mod wait;

pub use advance::{advance_quietly, advance_slowly};
pub use wait::{block, read_count};
