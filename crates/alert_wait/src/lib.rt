//! AlertWait and AlertP: waits that an alert may end.
//!
//! Promises: each call adds exactly its events to those of its thread, and its result says which.
//! Built on the count of the condition, on the lock bit with its queue, and on the alert words of
//! the Nub. Nothing is promised about waiting, nor about whether an alerted thread returns or
//! raises where it may do both.
#![tactic(auto)]

mod outcome;
mod sem;
mod wait;

pub use outcome::Outcome;
pub use sem::alert_p;
pub use wait::alert_wait;
