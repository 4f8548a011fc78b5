//! Sources that give bytes, sinks that take them and trees of files, each with a count of its faults.
//!
//! Promises: a call fails only where that count rose. Sources, sinks and trees in memory say exactly which calls fail. Those of the system
//! stand on std's readers, writers and files, and report what these report. It does not know what the bytes mean.
#![tactic(auto)]

mod dir_tree;
mod mem_tree;
mod names;
mod paths;
mod place;
mod real;
mod samples;
mod sink;
mod source;
mod text;
mod tree;
mod window;

pub use dir_tree::DirTree;
pub use mem_tree::MemTree;
pub use real::{ReaderSource, WriterSink};
pub use samples::sample_tree;
pub use sink::{MemSink, Sink, SinkFault, put_all};
pub use source::{Failed, MemSource, Source};
pub use text::Text;
pub use tree::{Entry, FileBytes, Kind, Tree, TreeError};
pub use window::{WINDOW_ROOM, Window};
