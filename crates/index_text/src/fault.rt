//! Why nothing was read.

/// Why a part of a line was not read: want of memory, or the bytes are only a prefix of what could be read, or no prefix of it.
#[derive(Clone, Copy)]
pub enum Stop {
    Memory,
    More,
    Dead,
}
