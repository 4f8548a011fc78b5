//! Many readers, or one writer.
//!
//! Promises: under each mutex the number of readers is that of the threads that read there, the
//! writer is the one thread that writes there, and there are never both; each call moves its thread
//! between idle, reading and writing. Built on a mutex and a condition of the package. Nothing is
//! promised about waiting: not that a thread ever gets in, nor that a writer comes before later
//! readers.
#![tactic(auto)]

mod calls;
mod role;
mod rw_uses;
mod state;

pub use calls::{begin_read, begin_write, end_read, end_write};
pub use role::{Role, RoleChange};
pub use rw_uses::{Idles, Reads, RwUses, Writes};
pub use state::{RwAt, RwState};
