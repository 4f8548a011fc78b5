//! Bounded buffers between threads: rings, each with a fixed number of places.
//!
//! Promises: `put`, `take` and `shut` do at their ring exactly what their results say, with their
//! events; each item that was put into a plain buffer was taken once or is left, in order of puts.
//! Built on a mutex and two conditions of the package, in alertable waits. Nothing is promised
//! about waiting: not that a put or a take ever returns.
#![tactic(auto)]

mod anyway;
mod at;
mod buffer_use;
mod did;
mod ends;
mod entry;
mod exit;
pub mod laws;
mod note;
mod plain;
mod puts;
mod ring;
mod shuts;
mod side;
mod takes;

pub use anyway::{Over, put_anyway, shut_plain, take_anyway};
pub use at::BufferAt;
pub use buffer_use::BufferUse;
pub use did::Did;
pub use ends::{PutEnd, TakeEnd};
pub use note::Note;
pub use plain::{PlainBuffers, PlainPut, PlainShut, PlainTake, plain_buffer};
pub use puts::put;
pub use ring::Ring;
pub use shuts::shut;
pub use takes::take;
