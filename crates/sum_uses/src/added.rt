//! What a thread has added.

/// An addition under a mutex.
pub struct Added {
    pub mutex: u64,
    pub amount: u64,
}
