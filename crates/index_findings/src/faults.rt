//! The fault that a worker met, and whether it is shown.
ghost use Rattle.std.specs.Prelude.{◌≡◌, ◌↔◌, IsTrue, Contains};
ghost use Rattle.walker.specs.Walk.{files_of};
ghost use Rattle.index_findings.specs.Faults.{IsFoundFault, ReportsFault};

use crate::findings::Fault;
use walker::{WalkAnswer, Walked, below};

// Whether a file was found at the path below the root.
fn finds_name(walked: &Walked, name: &str) -> bool
    ensures { IsTrue result ↔ Contains walked.now.files name.now }
{
    for at in 0..walked.files_found() as usize {
        if walked.file_at(at) == name {
            return true;
        }
    }
    false
}

// Whether a file was found at the whole path.
fn finds_file(walked: &Walked, path: &str) -> bool
    ensures { IsTrue result ↔ Contains (files_of walked.now) path.now }
{
    match below(walked.root(), path) {
        Some(name) => finds_name(walked, name),
        None => false,
    }
}

/// The path that failed, where the walk has found it and doesn't show it as listed. Where it hasn't, the listing that names it was lost
/// for want of memory.
pub fn fault_answer(walked: &Walked, fault: Fault) -> WalkAnswer
    ensures { ReportsFault walked.now fault result }
{
    match fault {
        Fault::Dir(path) => {
            if walked.is_unlisted(path.as_str()) {
                WalkAnswer::ReadFault(path)
            } else {
                WalkAnswer::Memory
            }
        }
        Fault::File(path) => {
            if finds_file(walked, path.as_str()) {
                WalkAnswer::ReadFault(path)
            } else {
                WalkAnswer::Memory
            }
        }
    }
}
