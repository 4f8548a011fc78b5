//! The state that a mutex protects, and the names of the mutex and its condition.
use larch_actions::{CondId, MutexId};

/// How many threads read, and the number of the thread that writes.
#[derive(Clone, Copy, Debug, Drop, PartialEq, Eq)]
pub struct RwState {
    pub readers: u32,
    pub writer: Option<u32>,
}

/// The mutex that protects the state, and the condition that a change of the state signals.
#[derive(Clone, Copy, Debug, PartialEq, Eq)]
pub struct RwAt {
    pub mutex: MutexId,
    pub changed: CondId,
}
