//! What a walk answers.
use firefly_outside::Text;
use std::fmt;
use word_index::Piece;

/// The index of all files, or why there is none.
#[derive(Drop)]
pub enum WalkAnswer {
    /// The index of all files under the root.
    Done(Piece),
    /// So many files were found, one more than are allowed.
    Stopped(u64),
    /// This path could not be listed or read.
    ReadFault(Text),
    /// So many directories were found, one more than are allowed.
    TooMany(u64),
    /// Memory wants.
    Memory,
}

impl fmt::Display for WalkAnswer {
    fn fmt<W: fmt::Write>(&self, f: &mut fmt::Formatter<W>) -> fmt::Result {
        match self {
            WalkAnswer::Done(_) => write!(f, "done"),
            WalkAnswer::Stopped(many) => write!(f, "{many} files, one more than are allowed"),
            WalkAnswer::ReadFault(path) => write!(
                f,
                "{} could not be listed or read",
                path.as_str()
            ),
            WalkAnswer::TooMany(many) => write!(f, "{many} directories, one more than are allowed"),
            WalkAnswer::Memory => write!(f, "out of memory"),
        }
    }
}
