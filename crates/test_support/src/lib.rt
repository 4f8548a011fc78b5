//! Packages that tests run: each thread does its part of a test, all at once, and what the package
//! leaves is compared with what is expected.
//!
//! Promises: nothing, since each test looks at what it is for. Built on the package, its crews and
//! its use by sums. The tests of primitives, of conditions and of forks use it, and no part of the
//! product does.
#![tactic(auto)]

mod layouts;
mod part;
mod runs;
mod seen;

pub use layouts::{few_of_each, largest};
pub use part::Part;
pub use runs::{leaves, plays, run};
pub use seen::{event, has_left, has_numbers, has_played};
