//! What stays the same while the package is open, and what each thread has done.
use crate::cell::RoundAt;

/// How many parties there are (all threads of the package), the greatest value for the once cell,
/// and where the cells are.
#[derive(Clone, Copy)]
pub struct RoundWorld {
    pub parties: u32,
    pub most: u64,
    pub at: RoundAt,
}

/// How often a thread has arrived at the barrier and left it, what it has added to the sum, the value that it has agreed on, and the value
/// that it has offered: a thread offers one if it finds the once cell empty.
pub struct RoundShare {
    pub arrivals: u64,
    pub left: u64,
    pub added: u64,
    pub agreed: Option<u64>,
    pub offered: Option<u64>,
}
