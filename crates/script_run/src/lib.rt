//! The run of a script: its calls, made by one thread for each number over a traced package.
//!
//! Promises: `run_script` returns what its package leaves: a closed legal history in which the
//! events of each thread are those of its lines, in order, and for each mutex the sum of all that
//! was added under it. It fails only if there is no memory. Built on the package, on scripts that
//! were read, and on a crew of threads. Nothing is promised about waiting: a run may wait for ever,
//! and only runs show that threads run beside each other.
#![tactic(auto)]

mod cut;
mod forked;
mod parts;
mod places;
mod play;
mod regions;
mod run;
mod slots;
mod waits;

pub use run::run_script;
