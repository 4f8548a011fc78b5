//! The entries of a share of plain buffers.
use crate::did::Did;

/// What a thread did at the buffer under this mutex.
pub struct Note<T> {
    pub mutex: u64,
    pub did: Did<T>,
}
