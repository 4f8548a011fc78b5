//! Taking an item.
ghost use Rattle.std.specs.Prelude.{◌≡◌, ◌<◌, ℕ, None, Some, Err, IfOk, true};
ghost use Rattle.std.specs.List.{All};
ghost use mathlib.Core.Option.{some};
ghost use lib.ListN.{get_elem?};
ghost use Rattle.nub.specs.Idle.{IsIdle};
ghost use Rattle.nub.specs.Rest.{AtRest, IsSame};
ghost use Rattle.bounded_buffer.specs.declared.ends.TakeEnd.TheVariants.{ClosedEmpty};
ghost use Rattle.bounded_buffer.specs.At.{IsNamed};
ghost use Rattle.bounded_buffer.specs.Calls.{Ran, take_did};
ghost use Rattle.bounded_buffer.specs.Parts.{more_empty};

use crate::at::BufferAt;
use crate::buffer_use::BufferUse;
use crate::ends::TakeEnd;
use crate::entry::enter;
use crate::exit::leave;
use crate::side::Side;
use nub_rule::{Package, Thread};
use std::sync::Wait;

/// Takes the first item of the ring, and returns the number under which it was put, and the item.
///
/// Blocks while another thread holds the mutex, and in the condition `more` while the ring is empty
/// and open: for ever if no thread puts an item, shuts the ring or alerts this thread. If this
/// thread has shut the ring, or has seen it shut, it doesn't wait there.
///
/// Fails with `ClosedEmpty` if the ring is shut and empty, and with `Alerted` if the thread was
/// alerted while it waited.
///
/// ```rust
/// match take(rt, p, me, at) {
///     Ok(taken) => return Ok(taken),
///     Err(TakeEnd::ClosedEmpty) => return Err(Over),
///     Err(TakeEnd::Alerted) => {}
/// }
/// ```
pub fn take<B: BufferUse, R: Wait>(
    rt: &R,
    p: &Package<B>,
    me: &mut Thread<B>,
    at: &BufferAt,
) -> Result<(u64, B::Item), TakeEnd>
    requires rest { AtRest p.now me.old }
    requires named { IsNamed p.now.layout at.now }
    requires buffer { B.is_buffer p.now.world at.now }
    requires lacks { get_elem? me.old.held at.now.mutex.0 ≡ some None }
    requires world { me.old.world ≡ Some p.now.world }
    requires share { (s : B.Share) × (me.old.share ≡ Some s) }
    ensures rest { AtRest p.now me.new }
    ensures same { IsSame me.old me.new }
    ensures held { me.new.held ≡ me.old.held }
    ensures idle { (n : ℕ) (s r : B.Share) → IsIdle p.now n s me.old → me.new.share ≡ Some r → IsIdle p.now n r me.new }
    ensures over { (s : B.Share) → me.old.share ≡ Some s → (B.part s at.now.mutex.0).seen_end ≡ true → result ≡ Err ClosedEmpty }
    ensures ran { (s : B.Share) → me.old.share ≡ Some s
        → Ran B.ring_in B.part B.Take.after B.alike p.now.world at.now.mutex.0 at.now.more.0 at.now.room.0 me.old.number more_empty
        (take_did result) s me.old me.new }
    ensures rises { IfOk result (λ r. (s : B.Share) → me.old.share ≡ Some s → All (λ p. p.0 < r.0) (B.part s at.now.mutex.0).takes) }
    ensures fits { IfOk result (λ r. (s : B.Share) → me.old.share ≡ Some s → B.item_fits p.now.world at.now.mutex.0 me.old.number r.1 s) }
{
    let entered = enter::<B, B::Take, R>(rt, p, me, at, Side::Taking, at.more);
    let Some(mut ring) = entered else {
        return Err(TakeEnd::Alerted);
    };
    let answer = ring.poll();
    leave::<B, B::Take, R>(rt, p, me, at.mutex, at.room, answer.is_ok(), ring);
    answer
}
