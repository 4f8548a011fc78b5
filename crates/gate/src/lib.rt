//! The lock bit of a mutex or semaphore, with its queue.
//!
//! Promises: each call makes its one event, or in a wait none, by one change of the bit. Built on
//! the Nub, which a call enters only after a failed try of the bit, or after it has cleared the bit
//! and seen threads in the queue. Nothing is promised about which thread gets the bit next, nor
//! that any does.
#![tactic(auto)]

mod clear_bit;
mod take_bit;

pub use clear_bit::free;
pub use take_bit::{enqueue_and_sleep, take, take_quiet, try_take};
