//! Why a text was not read.
use thiserror::Error;

/// Why a text was not read to its end.
#[derive(Clone, Copy, Debug, PartialEq, Eq, Error)]
pub enum TextFault {
    /// Memory ran out.
    #[error("out of memory")]
    Memory,
    /// This line is the first that is bad, counted from 1.
    #[error("bad line {0}")]
    BadLine(u64),
    /// More bytes come than may be read.
    #[error("input too long")]
    TooLong,
    /// The source failed before the bytes had shown one of these.
    #[error("input could not be read")]
    Read,
}
