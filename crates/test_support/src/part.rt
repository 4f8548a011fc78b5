//! The work of the threads of a test.
ghost use Rattle.std.specs.Prelude.{[]};
ghost use Rattle.larch_actions.specs.Layout.{IsLawful};
ghost use Rattle.nub.specs.Ended.{IsDone};
ghost use Rattle.nub.specs.Idle.{IsIdle};
ghost use Rattle.test_support.specs.Layouts.{HasFew};

use nub::{Package, Thread};
use std::sync::Wait;
use sum_uses::SumUses;

/// The work of each thread of a package in a test.
pub trait Part: Sync {
    /// Does the work of this thread.
    fn act<R: Wait>(&self, rt: &R, pkg: &Package<SumUses>, me: Thread<SumUses>) -> Thread<SumUses>
        requires lawful { IsLawful pkg.now.layout }
        requires few { HasFew pkg.now.layout }
        requires idle { IsIdle pkg.now me.number [] me }
        ensures { IsDone pkg.now me.number result };
}
