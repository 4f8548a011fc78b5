//! The threads of a package, all at work at once, and a package opened, run and closed in one call.
//!
//! Promises: `at_once` hands every thread to a closure, and returns the threads and what the
//! closure left with each, as the closure's own clause says; closing a package asks for just that.
//! `at_once_beside` also lets the caller do a part of its own meanwhile. `run_package` opens a
//! package of version one, hands each thread to the `work` of a `Work`, and closes the package: the
//! lock invariant holds of the last values and of shares that are each what the work says, and the
//! history of a traced run is whole. All three fail only if there is no memory; the first two have
//! then run no closure. Built on a crew of threads and on the closing of a package. Nothing is
//! promised about threads that run at the same time, nor that one ever ends. Of a `BeforeStart` a
//! contract can say that it was called, not that a thread waited.
#![tactic(auto)]

mod before_start;
mod crews;
mod run;

pub use before_start::{BeforeStart, BeginsAtOnce};
pub use crews::{Beside, at_once, at_once_beside};
pub use run::{Work, run_package};
pub use thread_crew::NotRun;
