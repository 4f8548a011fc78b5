//! Monitors: a thread waits, holding a mutex, until the value of the mutex passes a test, and then
//! works on it.
//!
//! Promises: what `locked` does, and that the value which was worked on passed the test; each call
//! adds exactly its events. This holds for any use of the package. Built on the mutex, on
//! conditions and on alertable waits. Nothing is promised about waiting: not that the value ever
//! passes the test, nor that any thread signals.
#![tactic(auto)]

mod alertable;
mod locked;
mod wait;

pub use alertable::{alert_locked_when, alert_wait_until};
pub use locked::locked_when;
pub use wait::wait_until;
