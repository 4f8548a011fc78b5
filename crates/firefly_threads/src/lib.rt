//! The package under one name, for programs over it.
//!
//! Re-exports what a program calls and what its contracts and proofs name. Of its own it has one call, `write_trace`, which writes the
//! history of a closed package as a trace text. Buffers, readers and writers, barriers and pools of jobs are crates of their own.
#![tactic(auto)]

mod traces;

pub use alert_wait::{Outcome, alert_p, alert_wait};
pub use alerts::{alert, test_alert};
pub use bin_semaphore::{p, v};
pub use condition::{broadcast, signal, wait};
pub use firefly_outside::{Sink, SinkFault, WriterSink};
pub use monitor::{alert_locked_when, alert_wait_until, locked_when, wait_until};
pub use nub::{
    Action, Change, Closed, CondId, Ended, Event, Layout, MutexId, NoChange, Package, SemId,
    Thread, ThreadId, Unborn, Uses, Version, close_forked, close_package, end_thread, fork_thread,
    join_thread, open_forked, open_package,
};
pub use package_crew::{Beside, NotRun, Work, at_once, at_once_beside, run_package};
pub use traces::write_trace;
pub use user_mutex::{acquire, locked, release};
