//! Trees of files.
ghost use Rattle.std.specs.Prelude.{◌≡◌, List, ℕ, IfOk, IfSome};
ghost use Rattle.std.specs.declared.option.Option.{Option};
ghost use Rattle.firefly_outside.specs.Trees.{IsShown};

use crate::Text;
use std::alloc::{AllocError, Global};
use thiserror::Error;

/// A child of a directory.
#[derive(Debug, Drop)]
pub struct Entry {
    pub name: Text,
    pub kind: Kind,
}

impl Clone for Entry {
    ghost is_clone = { λ x y. y ≡ x };

    fn clone(&self) -> Result<Entry, AllocError> {
        Ok(Entry {
            name: self.name.clone()?,
            kind: self.kind,
        })
    }
}

/// What a child of a directory is.
#[derive(Clone, Copy, Debug, PartialEq, Eq)]
pub enum Kind {
    File,
    Dir,
}

/// The bytes of a file. Of more than 4,194,304 bytes none are shown.
#[derive(Debug, Drop)]
pub struct FileBytes {
    pub bytes: Vec<u8>,
    pub long: bool,
}

/// Why a tree doesn't answer.
#[derive(Clone, Copy, Debug, PartialEq, Eq, Error)]
pub enum TreeError {
    #[error("out of memory")]
    Memory,
    #[error("the path could not be read")]
    Failed,
}

/// Directories and files by their paths. A child's path is the directory's path, `/` and the child's name.
pub trait Tree: Send + Drop {
    ghost use Rattle.firefly_outside.specs.Trees.{Contents, Path, Calls, Lists, Reads, AreEntries, IsWithin, Counts};

    /// What is at each path, where the tree shows it.
    ghost tree: { Self → Option Contents };

    /// The paths listed, read and failed, where the tree shows its contents.
    ghost calls: { Self → Calls };

    /// The paths that may fail, where the tree shows its contents.
    ghost may_fail: { Self → List Path };

    /// How often the tree has failed. It never falls.
    ghost faults: { Self → ℕ };

    /// Gives the entries of a directory, in any order.
    fn list(&mut self, alloc: Global, dir: &str) -> Result<Vec<Entry>, TreeError>
        ensures tree_stays { tree self.new ≡ tree self.old }
        ensures weak_stays { may_fail self.new ≡ may_fail self.old }
        ensures count { Counts (faults self.old) (faults self.new) result }
        ensures lawful { IfOk result (λ v. AreEntries v.items) }
        ensures reported { IfSome (tree self.old) (Lists (λ v. v.items) (may_fail self.old) dir.now (calls self.old) (calls self.new) result) };

    /// Gives the bytes of a file, or says that it is too long.
    fn read(&mut self, alloc: Global, path: &str) -> Result<FileBytes, TreeError>
        ensures tree_stays { tree self.new ≡ tree self.old }
        ensures weak_stays { may_fail self.new ≡ may_fail self.old }
        ensures count { Counts (faults self.old) (faults self.new) result }
        ensures lawful { IfOk result IsWithin }
        ensures reported { IfSome (tree self.old) (Reads (may_fail self.old) path.now (calls self.old) (calls self.new) result) };
}

/// The most bytes of a file that is shown.
pub const MOST_BYTES: usize = 4_194_304;

/// What a file of these bytes shows.
pub fn shown(alloc: Global, bytes: &Vec<u8>) -> Result<FileBytes, AllocError>
    ensures { IfOk result (IsShown bytes.now.items) }
{
    if bytes.len() > MOST_BYTES {
        return Ok(FileBytes {
            bytes: Vec::new(alloc),
            long: true,
        });
    }
    Ok(FileBytes {
        bytes: Vec::from_slice(alloc, bytes)?,
        long: false,
    })
}
