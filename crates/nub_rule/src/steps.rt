//! The kinds of atomic step, by what they change.

pub mod alert;
pub mod cond;
pub mod forking;
pub mod life;
pub mod mutex;
pub mod pen;
pub mod queue;
pub mod ready;
pub mod sem;
pub mod spin;
pub mod waiters;
pub mod waking;
