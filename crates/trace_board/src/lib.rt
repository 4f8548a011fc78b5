//! What is kept of the events of a trace while it is read: since which event each mutex is held, each semaphore is taken and each thread waits, which
//! event lets each thread go on and gave each mutex back, which lane of its thread's row each bar has, how long each mutex was held at the longest, and
//! which events forked each thread and ended it.
//!
//! Promises: `TraceState::note` keeps what specs/Kept.antt defines of all events so far, and the laws tie that to the state and to the events.
//! Stands on larch_actions alone, and says nothing of texts: pictures (`trace_picture`) and explanations (`trace_explain`) stand on it. It takes no
//! memory.
#![tactic(auto)]

pub mod board;
pub mod causes;
pub mod history;
pub mod holds;
pub mod laws;
pub mod marks;
pub mod rows;
