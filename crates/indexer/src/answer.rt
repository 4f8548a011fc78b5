//! The answer of an index run.
use firefly_outside::Text;
use index_rule::IndexUses;
use nub::Closed;
use std::fmt;
use word_index::Piece;

/// The index of all files, with the closed package of its run; or the reason why there is none.
#[derive(Drop)]
pub enum IndexAnswer {
    /// The index of all files under the root.
    Done(Piece, Closed<IndexUses>),
    /// This many files were found, one more than are allowed.
    Stopped(u64),
    /// This path couldn't be listed or read.
    ReadFault(Text),
    /// This many directories were found, one more than are allowed.
    TooMany(u64),
    /// Memory ran out.
    Memory,
}

impl fmt::Display for IndexAnswer {
    fn fmt<W: fmt::Write>(&self, f: &mut fmt::Formatter<W>) -> fmt::Result {
        match self {
            IndexAnswer::Done(_, _) => write!(f, "done"),
            IndexAnswer::Stopped(many) => write!(f, "{many} files, one more than are allowed"),
            IndexAnswer::ReadFault(path) => write!(
                f,
                "{} could not be listed or read",
                path.as_str()
            ),
            IndexAnswer::TooMany(many) => write!(
                f,
                "{many} directories, one more than are allowed"
            ),
            IndexAnswer::Memory => write!(f, "out of memory"),
        }
    }
}
