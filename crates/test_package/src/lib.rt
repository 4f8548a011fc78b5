//! Tests of the package: its calls by threads that are all at work at once.
//!
//! The same list of tests covers mutexes and semaphores: `alone`, `contended`, `two_objects_apart`,
//! `many_threads` and `largest_layout`.
#![tactic(auto)]

#[cfg(test)]
mod alert;
#[cfg(test)]
mod alert_part;
#[cfg(test)]
mod alert_waits;
#[cfg(test)]
mod alerted;
#[cfg(test)]
mod alerted_thread;
#[cfg(test)]
mod mutex;
#[cfg(test)]
mod notes;
#[cfg(test)]
mod races;
#[cfg(test)]
mod semaphore;
#[cfg(test)]
mod untils;
#[cfg(test)]
mod work;
