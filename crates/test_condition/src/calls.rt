//! The calls at the one buffer of a test.
ghost use Rattle.std.specs.Prelude.{ℕ};
ghost use Rattle.test_condition.specs.Free.{IsFree, HasBuffer};

use bounded_buffer::{BufferAt, PlainBuffers, PutEnd, TakeEnd, put, shut, take};
use nub::{CondId, MutexId, Package, Thread};
use std::sync::Wait;

/// The use of the package by all these tests.
pub type Numbers = PlainBuffers<u32>;

/// Where the buffer is.
const AT: BufferAt = BufferAt {
    mutex: MutexId(0),
    room: CondId(0),
    more: CondId(1),
};

/// The result of a put.
pub type PutAnswer = Result<u64, (PutEnd, u32)>;

/// The result of a take.
pub type TakeAnswer = Result<(u64, u32), TakeEnd>;

/// Puts the item into the buffer of the test.
pub fn put_one<R: Wait>(
    rt: &R,
    pkg: &Package<Numbers>,
    me: &mut Thread<Numbers>,
    item: u32,
) -> PutAnswer
    requires named { HasBuffer pkg.now.layout }
    requires free { (n : ℕ) × IsFree pkg.now n me.old }
    ensures free { (n : ℕ) → IsFree pkg.now n me.old → IsFree pkg.now n me.new }
{
    put(rt, pkg, me, &AT, item)
}

/// Takes an item from the buffer of the test.
pub fn take_one<R: Wait>(rt: &R, pkg: &Package<Numbers>, me: &mut Thread<Numbers>) -> TakeAnswer
    requires named { HasBuffer pkg.now.layout }
    requires free { (n : ℕ) × IsFree pkg.now n me.old }
    ensures free { (n : ℕ) → IsFree pkg.now n me.old → IsFree pkg.now n me.new }
{
    take(rt, pkg, me, &AT)
}

/// Shuts the buffer of the test.
pub fn shut_it<R: Wait>(rt: &R, pkg: &Package<Numbers>, me: &mut Thread<Numbers>)
    requires named { HasBuffer pkg.now.layout }
    requires free { (n : ℕ) × IsFree pkg.now n me.old }
    ensures free { (n : ℕ) → IsFree pkg.now n me.old → IsFree pkg.now n me.new }
{
    shut(rt, pkg, me, &AT);
}
