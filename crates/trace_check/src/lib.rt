//! The verdict on a trace text: a legal trace with its counts, the first event that fails, or why the text can't be read.
//!
//! Promises: each verdict comes exactly where it is just, and for one input at most one verdict other than a failed read is.
//! Stands on the reader of trace_core and the state of larch_actions. It takes no memory and always returns.
#![tactic(auto)]

mod checker;
pub mod laws;
mod watch;

pub use checker::{Found, Summary, Verdict, check, check_with};
pub use watch::Watch;
