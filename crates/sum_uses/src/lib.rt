//! The use of the package by sums, for scripts and for the tests of the package.
//!
//! Promises: the two laws of a use hold of sums, so that no addition is lost and none leaves the
//! numbers of 64 bits; `add_to` returns a value that may be released. Built on `nub_rule`, which
//! says what a use is. Nothing here takes a step of the package.
#![tactic(auto)]

mod added;
mod sums;

pub use added::Added;
pub use sums::{AddChange, SumUses, add_to};
