//! The ways in which the work of a worker ends.
use index_findings::Fault;

/// Why a worker stops.
#[derive(Drop)]
pub enum WorkEnd {
    /// There is nothing left for it, or all workers are to end.
    Over,
    /// Memory ran out, and something that it had listed, read or taken may be lost.
    Lost,
    /// The tree failed at this path.
    Failed(Fault),
}

impl WorkEnd {
    ghost use Rattle.std.specs.Prelude.{◌≡◌};
    ghost use Rattle.indexer.specs.Walks.{fault_in, is_lost};

    /// Returns the path that failed, if one did, and whether something may be lost.
    pub fn parts(self) -> (Option<Fault>, bool)
        ensures fault { result.0 ≡ fault_in self }
        ensures lost { result.1 ≡ is_lost self }
    {
        match self {
            WorkEnd::Over => (None, false),
            WorkEnd::Lost => (None, true),
            WorkEnd::Failed(fault) => (Some(fault), false),
        }
    }
}
