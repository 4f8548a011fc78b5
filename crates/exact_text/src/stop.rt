//! Why nothing was read.

/// Why nothing was read: the bytes are only a prefix of what could be read, or no prefix of it.
#[derive(Clone, Copy)]
pub enum Stop {
    More,
    Dead,
}
