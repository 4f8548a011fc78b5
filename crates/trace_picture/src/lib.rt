//! The picture of a trace: a row a thread, a mark an event, bars where a mutex is held, a semaphore is taken and a thread waits,
//! an arrow from the event that let a thread go on, and the longest hold of each mutex.
//!
//! Promises: `draw_trace` checks the trace as `trace_check` does, and the sink gets exactly the picture that specs/Picture.antt defines.
//! Stands on trace_shapes, the reader of trace_core, the state of larch_actions, the lock order, and what trace_board keeps of the events. It takes
//! no memory.
//! How the picture looks is no promise.
#![tactic(auto)]

mod arrows;
mod bands;
mod cycles;
mod draw;
mod endings;
mod head;
mod kept;
pub mod laws;
mod lives;
mod longest;
mod overview;
mod plan;
mod rings;
mod shown;
mod verdicts;

pub use draw::draw_trace;
