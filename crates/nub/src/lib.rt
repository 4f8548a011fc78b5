//! The Nub: opening and closing a package, spin words, queues, sleeping and the pen.
//!
//! Promises: a package opens with threads that have done nothing and have their first shares; a
//! traced package closes with the whole history of its threads, legal and closed. A spin word is
//! taken only for a reason. A thread at rest owes no thread a look. Built on the steps of
//! `nub_rule`; threads sleep by `crossbeam_utils`. Nothing is promised about progress, fairness or
//! time.
#![tactic(auto)]

mod closed;
mod coming_back;
mod forking;
pub mod laws;
mod pen;
mod queue;
mod sleeping;
mod spin;
mod spinning;
mod trace_order;
mod whole;
mod withdrawal;

pub use closed::Closed;
pub use coming_back::are_all_back;
pub use forking::{end_thread, fork_thread, join_thread};
pub use larch_actions::{Action, CondId, Event, Layout, MutexId, SemId, ThreadId, Version};
pub use nub_rule::{Change, Ended, NoChange, Package, Thread, Unborn, Uses};
pub use pen::{begin_event, end_event};
pub use queue::{pop, push, remove, wake_from_condition};
pub use sleeping::sleep;
pub use spin::{enter, leave};
pub use spinning::{Look, learn, may_spin};
pub use whole::{close_forked, close_package, open_forked, open_package};
pub use withdrawal::withdraw;
