//! The calls of readers and writers at the one state of a test.
ghost use Rattle.std.specs.Prelude.{ℕ};
ghost use Rattle.readers_writers.specs.declared.role.Role.TheVariants.{Idle, Reading, Writing};
ghost use Rattle.test_condition.specs.Acting.{IsActing, HasState};

use nub::{CondId, MutexId, Package, Thread};
use readers_writers::{RwAt, RwUses, begin_read, begin_write, end_read, end_write};
use std::sync::Wait;

/// Where the state is.
const AT: RwAt = RwAt {
    mutex: MutexId(0),
    changed: CondId(0),
};

/// Begins to read.
pub fn start_read<R: Wait>(rt: &R, pkg: &Package<RwUses>, me: &mut Thread<RwUses>)
    requires named { HasState pkg.now.layout }
    requires acts { (n : ℕ) × IsActing pkg.now n Idle me.old }
    ensures acts { (n : ℕ) → IsActing pkg.now n Idle me.old → IsActing pkg.now n Reading me.new }
{
    begin_read(rt, pkg, me, &AT);
}

/// Ends reading.
pub fn stop_read<R: Wait>(rt: &R, pkg: &Package<RwUses>, me: &mut Thread<RwUses>)
    requires named { HasState pkg.now.layout }
    requires acts { (n : ℕ) × IsActing pkg.now n Reading me.old }
    ensures acts { (n : ℕ) → IsActing pkg.now n Reading me.old → IsActing pkg.now n Idle me.new }
{
    end_read(rt, pkg, me, &AT);
}

/// Begins to write.
pub fn start_write<R: Wait>(rt: &R, pkg: &Package<RwUses>, me: &mut Thread<RwUses>)
    requires named { HasState pkg.now.layout }
    requires acts { (n : ℕ) × IsActing pkg.now n Idle me.old }
    ensures acts { (n : ℕ) → IsActing pkg.now n Idle me.old → IsActing pkg.now n Writing me.new }
{
    begin_write(rt, pkg, me, &AT);
}

/// Ends writing.
pub fn stop_write<R: Wait>(rt: &R, pkg: &Package<RwUses>, me: &mut Thread<RwUses>)
    requires named { HasState pkg.now.layout }
    requires acts { (n : ℕ) × IsActing pkg.now n Writing me.old }
    ensures acts { (n : ℕ) → IsActing pkg.now n Writing me.old → IsActing pkg.now n Idle me.new }
{
    end_write(rt, pkg, me, &AT);
}
