//! Gets the ring out of a value, and releases a mutex with a ring.
ghost use Rattle.std.specs.Prelude.{◌≡◌, ◌<◌, ℕ, List, None, Some, IfSome, slice_set};
ghost use Rattle.nub_rule.specs.Known.{Holds, Known};
ghost use Rattle.nub_rule.specs.Plays.{release_event};
ghost use Rattle.nub.specs.Rest.{AtRest, Adds, IsSame};
ghost use Rattle.bounded_buffer.specs.declared.did.Did.{Did};
ghost use Rattle.bounded_buffer.specs.declared.side.Side.{Side};
ghost use Rattle.bounded_buffer.specs.Calls.{exit_events};
ghost use Rattle.bounded_buffer.specs.Rings.{Held};
ghost use Rattle.bounded_buffer.specs.Waiting.{Ended, Visits};

use crate::buffer_use::BufferUse;
use crate::ring::Ring;
use condition::signal;
use larch_actions::{CondId, MutexId};
use nub_rule::{Change, Package, Thread};
use std::sync::Wait;
use user_mutex::release;

/// Returns the ring that the value is.
#[inline(always)]
pub(crate) fn ring_of<B: BufferUse>(value: B::Value) -> Ring<B::Item>
    requires { (q : Held B.Item) × (B.ring_in value ≡ Some q) }
    ensures { B.ring_in value ≡ Some result }
{
    B::into_ring(value)
}

/// Never returns. Keeps the item meanwhile, which has no number left to be put under.
pub(crate) fn keep<T, R: Wait>(rt: &R, item: T) -> T
    ensures { ⊥ }
{
    for _ in rt.forever() {}
    item
}

/// Signals the condition, if there is one, and releases the mutex with the ring.
///
/// The signal comes before the release: a woken thread is unparked once the mutex has been
/// released, and finds it free.
pub(crate) fn give<B: BufferUse, C: Change<B>, R: Wait>(
    rt: &R,
    p: &Package<B>,
    me: &mut Thread<B>,
    mutex: MutexId,
    signalled: Option<CondId>,
    ring: Ring<B::Item>,
)
    requires rest { AtRest p.now me.old }
    requires named { (mutex.0 < p.now.layout.mutexes) × IfSome signalled (λ c. c.0 < p.now.layout.conditions) }
    requires world { me.old.world ≡ Some p.now.world }
    requires may { (x : B.Value) × Holds me.old mutex.0 x
        × ((s : B.Share) (y : B.Value) → me.old.share ≡ Some s → B.ring_in y ≡ Some ring
        → B.allows p.now.world mutex.0 me.old.number x y s (C.after p.now.world mutex.0 me.old.number x y s)) }
    ensures rest { AtRest p.now me.new }
    ensures same { IsSame me.old me.new }
    ensures held { me.new.held ≡ slice_set me.old.held mutex.0 None }
    ensures event { (left : List ℕ) × Adds (exit_events me.old.number left signalled) (release_event me.old.number mutex.0) me.old me.new }
    ensures share { (y : B.Value) × (B.ring_in y ≡ Some ring) × ((s : B.Share) (x : B.Value) → me.old.share ≡ Some s
        → Holds me.old mutex.0 x → me.new.share ≡ Some (C.after p.now.world mutex.0 me.old.number x y s)) }
{
    let value = B::from_ring(ring);
    match signalled {
        Some(condition) => {
            signal(rt, p, me, condition);
            release::<B, C, R>(rt, p, me, mutex, value);
        }
        None => release::<B, C, R>(rt, p, me, mutex, value),
    }
}

/// Ends a call at a ring: signals the condition of the other side if `signalled` is true, and releases
/// the mutex with the ring.
pub(crate) fn leave<B: BufferUse, C: Change<B>, R: Wait>(
    rt: &R,
    p: &Package<B>,
    me: &mut Thread<B>,
    mutex: MutexId,
    other: CondId,
    signalled: bool,
    ring: Ring<B::Item>,
)
    requires named { (mutex.0 < p.now.layout.mutexes) × (other.0 < p.now.layout.conditions) }
    requires world { me.old.world ≡ Some p.now.world }
    requires visits { (c : ℕ) × (side : Side) × (s : B.Share) × (q : Held B.Item) × (d : Did B.Item)
        × (a : Known B.Value B.Share B.World) × Visits B.ring_in B.part B.alike B.fits p.now mutex.0 c side B.allows C.after signalled s q
        ring d a me.old }
    ensures rest { AtRest p.now me.new }
    ensures same { IsSame me.old me.new }
    ensures ended { (c : ℕ) (side : Side) (s : B.Share) (q : Held B.Item) (d : Did B.Item) (a : Known B.Value B.Share B.World)
        → Visits B.ring_in B.part B.alike B.fits p.now mutex.0 c side B.allows C.after signalled s q ring d a me.old
        → Ended B.ring_in B.part B.alike p.now mutex.0 c other.0 side C.after (Some d) s a me.new }
{
    give::<B, C, R>(rt, p, me, mutex, signalled.then_some(other), ring);
}
