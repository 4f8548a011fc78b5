//! The entries of a share.

/// What a thread does under a mutex.
pub enum Role {
    Idle,
    Reading,
    Writing,
}

/// A change of role: from here on the thread does this under the mutex.
pub struct RoleChange {
    pub mutex: u64,
    pub now: Role,
    /// Where the thread has ended to read, how many readers it left there.
    pub left: Option<u64>,
}
