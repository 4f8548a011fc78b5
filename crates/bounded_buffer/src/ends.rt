//! The errors of a put and of a take.
use thiserror::Error;

/// Why a put returned its item.
#[derive(Clone, Copy, Debug, PartialEq, Eq, Error)]
pub enum PutEnd {
    /// The ring was shut.
    #[error("the buffer is shut")]
    Closed,
    /// The thread was alerted while it waited.
    #[error("the thread was alerted")]
    Alerted,
}

/// Why a take returned no item.
#[derive(Clone, Copy, Debug, PartialEq, Eq, Error)]
pub enum TakeEnd {
    /// The ring was shut and empty.
    #[error("the buffer is shut and empty")]
    ClosedEmpty,
    /// The thread was alerted while it waited.
    #[error("the thread was alerted")]
    Alerted,
}
