//! How many threads make an index.
ghost use Rattle.std.specs.Prelude.{◌≡◌};
ghost use Rattle.larch_actions.specs.Layout.{IsLawful};
ghost use Rattle.larch_actions.specs.declared.event.Version.TheVariants.{One};
ghost use Rattle.indexer.specs.Plans.{IsPlan, layout_of};

use larch_actions::Layout;

/// How many workers of each kind there are, after how many files the work is to stop, and whether
/// the whole history is kept.
#[derive(Clone, Copy, Debug)]
pub struct Plan {
    pub walkers: u32,
    pub parsers: u32,
    pub mergers: u32,
    pub stop_after: Option<u64>,
    pub traced: bool,
}

/// Returns the layout of the package of a plan.
///
/// Thread 0 is the caller; then come the walkers, the parsers and the mergers. Mutex 0 protects the
/// directories in work, with condition 0. Mutexes 1 and 2 protect the buffers of files and of
/// pieces. Their conditions are 1 and 2, and 3 and 4: room first, then more.
pub fn index_layout(plan: &Plan) -> Layout
    requires { IsPlan plan.now }
    ensures layout { result ≡ layout_of plan.now }
    ensures lawful { IsLawful result }
    ensures version { result.version ≡ One }
{
    Layout::of(1 + plan.walkers + plan.parsers + plan.mergers, 3, 5, 0)
}
