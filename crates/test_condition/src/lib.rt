//! Tests of conditions, and of what is built on them: waits, signals and broadcasts by threads that
//! are all at work at once, bounded buffers, readers and writers, rounds with their once cell, and
//! pools of jobs.
//!
//! The same list of tests covers mutexes and semaphores: `alone`, `contended`, `two_objects_apart`,
//! `many_threads` and `largest_layout`.
#![tactic(auto)]

#[cfg(test)]
mod buffers;
#[cfg(test)]
mod calls;
#[cfg(test)]
mod conditions;
#[cfg(test)]
mod kept_mutex;
#[cfg(test)]
mod late_writer;
#[cfg(test)]
mod notes;
#[cfg(test)]
mod once;
#[cfg(test)]
mod pool;
#[cfg(test)]
mod readers;
#[cfg(test)]
mod ring_run;
#[cfg(test)]
mod roles;
#[cfg(test)]
mod rounds;
#[cfg(test)]
mod steps;
#[cfg(test)]
mod turns;
#[cfg(test)]
mod waits;
#[cfg(test)]
mod work;
