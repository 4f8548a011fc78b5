//! The index of all files under a root, made by threads: walkers list the directories, parsers read
//! the files and make pieces of the index, and mergers put pieces together, all at once. A closing
//! walk on a further tree does what they left.
//!
//! Promises: `index` returns the index of a tree whose contents are known, whatever the number of
//! workers, with the closed package of its run, or the reason why there is none, each by its cause;
//! the trees come back. If there is an index, no tree's count rose; a walker's tree was only listed
//! and a parser's only read, no more often than its thread released the list of directories or the
//! buffer of files; and over all trees together each directory was listed once and each file read
//! once. Built on the package with a list and two buffers, a crew of threads, and the closing walk.
//! Nothing is promised about workers that list or read anything or run beside each other, nor about
//! parsers that call `before_start`. A run may wait for ever.
#![tactic(auto)]

mod answer;
mod calls;
mod job;
mod plan;
mod run;
mod work;
mod work_end;
mod workers;

pub use answer::IndexAnswer;
pub use index_rule::{
    DidMove, DidPut, DidShut, DidTake, DirsInWork, FoundCounts, IndexItem, IndexUses, IndexValue,
    WaitingDirs,
};
pub use package_crew::{BeforeStart, BeginsAtOnce};
pub use plan::{Plan, index_layout};
pub use run::entry::{index, index_with};
