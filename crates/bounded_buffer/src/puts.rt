//! Putting an item.
ghost use Rattle.std.specs.Prelude.{◌≡◌, ◌<◌, ℕ, None, Some, Err, IfOk, IfErr};
ghost use Rattle.std.specs.List.{All};
ghost use mathlib.Core.Option.{some};
ghost use lib.ListN.{get_elem?};
ghost use Rattle.nub.specs.Idle.{IsIdle};
ghost use Rattle.nub.specs.Rest.{AtRest, IsSame};
ghost use Rattle.bounded_buffer.specs.declared.ends.PutEnd.TheVariants.{Closed};
ghost use Rattle.bounded_buffer.specs.At.{IsNamed};
ghost use Rattle.bounded_buffer.specs.Calls.{Ran, put_did};
ghost use Rattle.bounded_buffer.specs.Parts.{KnowsShut, more_full};

use crate::at::BufferAt;
use crate::buffer_use::BufferUse;
use crate::ends::PutEnd;
use crate::entry::enter;
use crate::exit::{give, keep, leave};
use crate::side::Side;
use nub_rule::{NoChange, Package, Thread};
use std::sync::Wait;

/// Puts the item last into the ring, and returns its number, counted from 0 in order of puts.
///
/// Blocks while another thread holds the mutex, and in the condition `room` while the ring is full
/// and open: for ever if no thread takes an item, shuts the ring or alerts this thread. A ring into
/// which 18446744073709551615 items were put takes no more, and the call then blocks for ever.
///
/// Fails with `Closed` if the ring is shut, and with `Alerted` if the thread was alerted while it
/// waited; either way the item comes back. If this thread has shut the ring, or has seen it shut,
/// the call fails with `Closed`.
///
/// ```rust
/// match put(rt, p, me, at, item) {
///     Ok(number) => return Ok(number),
///     Err((PutEnd::Closed, back)) => return Err(back),
///     Err((PutEnd::Alerted, back)) => item = back,
/// }
/// ```
pub fn put<B: BufferUse, R: Wait>(
    rt: &R,
    p: &Package<B>,
    me: &mut Thread<B>,
    at: &BufferAt,
    item: B::Item,
) -> Result<u64, (PutEnd, B::Item)>
    requires rest { AtRest p.now me.old }
    requires named { IsNamed p.now.layout at.now }
    requires buffer { B.is_buffer p.now.world at.now }
    requires lacks { get_elem? me.old.held at.now.mutex.0 ≡ some None }
    requires world { me.old.world ≡ Some p.now.world }
    requires may { (s : B.Share) × (me.old.share ≡ Some s) × B.may_put p.now.world at.now.mutex.0 me.old.number item s }
    ensures rest { AtRest p.now me.new }
    ensures same { IsSame me.old me.new }
    ensures held { me.new.held ≡ me.old.held }
    ensures idle { (n : ℕ) (s r : B.Share) → IsIdle p.now n s me.old → me.new.share ≡ Some r → IsIdle p.now n r me.new }
    ensures closed { (s : B.Share) → me.old.share ≡ Some s → KnowsShut (B.part s at.now.mutex.0) → result ≡ Err (Closed, item) }
    ensures back { IfErr result (λ e. e.1 ≡ item) }
    ensures ran { (s : B.Share) → me.old.share ≡ Some s
        → Ran B.ring_in B.part B.Put.after B.alike p.now.world at.now.mutex.0 at.now.room.0 at.now.more.0 me.old.number more_full
        (put_did item result) s me.old me.new }
    ensures rises { IfOk result (λ n. (s : B.Share) → me.old.share ≡ Some s → All (λ p. p.0 < n) (B.part s at.now.mutex.0).puts) }
{
    let entered = enter::<B, B::Put, R>(rt, p, me, at, Side::Putting, at.room);
    let Some(mut ring) = entered else {
        return Err((PutEnd::Alerted, item));
    };
    if ring.is_at_end() {
        give::<B, NoChange, R>(rt, p, me, at.mutex, None, ring);
        let _item = keep(rt, item);
        unreachable!()
    }
    let answer = ring.offer(item);
    leave::<B, B::Put, R>(rt, p, me, at.mutex, at.more, answer.is_ok(), ring);
    answer
}
