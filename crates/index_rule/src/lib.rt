//! The rule of an index run: the values of its package's mutexes, what the shares of its threads
//! say, and what every allowed change keeps.
//!
//! Promises: the directories that wait to be listed and those that threads have taken are distinct,
//! and each but the root was put there once, by the thread that took its parent; no file goes
//! through the buffer of files twice; no file is covered by two pieces that go through the buffer
//! of pieces, and the thread that made a file's piece took the file. Each release keeps this; when
//! the package is closed it holds of all shares together. Built on the package's notion of a use,
//! and on buffers. Nothing is promised about anything being taken, listed or read.
#![tactic(auto)]

mod buffers;
mod dirs;
mod uses;
mod value;

pub use dirs::{NextDir, PutDirs, dirs_in, put_found, take_dir};
pub use uses::{DidMove, DidPut, DidShut, DidTake, IndexShare, IndexUses};
pub use value::{DirsInWork, FoundCounts, IndexItem, IndexValue, WaitingDirs};
