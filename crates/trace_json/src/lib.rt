//! The events of a trace in the JSON form that trace viewers load (Chrome's `about:tracing`, Perfetto): each event as an instant on the row of
//! its thread, and as a span the time for which a mutex is held, a semaphore is taken, and a thread waits.
//!
//! Promises: `write_events` checks the trace as `trace_check` does, and the sink gets exactly the text that specs/Texts.antt defines, of the layout
//! and the events that were read. Along a legal trace the spans of each mutex, and those of each thread's waits, begin and end in turn.
//! Stands on the reader and the printer of trace_core, the state of larch_actions and the buffer of text_output. It takes no memory, and the text of
//! an event is made of the event and its place alone.
#![tactic(auto)]

mod events;
pub mod laws;
mod spans;
mod texts;

pub use events::write_events;
pub use spans::Span;
