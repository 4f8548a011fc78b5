//! Where a buffer is.
use larch_actions::{CondId, MutexId};

/// The mutex that protects a ring, and its two conditions: one for threads that wait for room, one
/// for threads that wait for more to take.
#[derive(Clone, Copy, Debug, PartialEq, Eq)]
pub struct BufferAt {
    pub mutex: MutexId,
    pub room: CondId,
    pub more: CondId,
}
