//! Acquires the mutex of a ring, and waits there.
ghost use Rattle.std.specs.Prelude.{◌≡◌, ◌<◌, ℕ, [], None, Some, MatchOption, slice_set};
ghost use mathlib.Core.Option.{some};
ghost use lib.ListN.{get_elem?};
ghost use Rattle.nub_rule.specs.Known.{Holds, Known};
ghost use Rattle.nub_rule.specs.Plays.{acquire_event};
ghost use Rattle.nub.specs.Rest.{Adds, AtRest, IsSame};
ghost use Rattle.bounded_buffer.specs.declared.side.Side.{Side};
ghost use Rattle.bounded_buffer.specs.At.{IsNamed};
ghost use Rattle.bounded_buffer.specs.Rings.{Does};
ghost use Rattle.bounded_buffer.specs.Sides.{MayGo, wait_of};
ghost use Rattle.bounded_buffer.specs.Waiting.{Ended, HasEntered, Lawful};

use crate::at::BufferAt;
use crate::buffer_use::BufferUse;
use crate::exit::{give, ring_of};
use crate::ring::Ring;
use crate::side::{Side, must_wait};
use alert_wait::{Outcome, alert_wait};
use larch_actions::CondId;
use nub_rule::{Change, NoChange, Package, Thread};
use std::sync::Wait;
use user_mutex::acquire;

/// Acquires the mutex, and returns the ring.
pub(crate) fn acquire_ring<B: BufferUse, R: Wait>(
    rt: &R,
    p: &Package<B>,
    me: &mut Thread<B>,
    at: &BufferAt,
) -> Ring<B::Item>
    requires rest { AtRest p.now me.old }
    requires named { IsNamed p.now.layout at.now }
    requires buffer { B.is_buffer p.now.world at.now }
    requires lacks { get_elem? me.old.held at.now.mutex.0 ≡ some None }
    requires world { me.old.world ≡ Some p.now.world }
    requires share { (s : B.Share) × (me.old.share ≡ Some s) }
    ensures rest { AtRest p.now me.new }
    ensures same { IsSame me.old me.new }
    ensures event { Adds [] (acquire_event me.old.number at.now.mutex.0) me.old me.new }
    ensures share { me.new.share ≡ me.old.share }
    ensures has { (x : B.Value) × Holds me.new at.now.mutex.0 x × (me.new.held ≡ slice_set me.old.held at.now.mutex.0 (Some x))
        × (B.ring_in x ≡ Some result) }
    ensures entered { (c : ℕ) (side : Side) (s : B.Share) → me.old.share ≡ Some s → HasEntered B.ring_in B.part B.alike B.fits p.now
        at.now.mutex.0 c side s result me.old me.new }
{
    ring_of::<B>(acquire(rt, p, me, at.mutex))
}

/// Waits in the condition, and returns the ring as it is then. If an alert ended the wait, releases
/// the mutex with the ring unchanged, and returns `None`.
fn wait_once<B: BufferUse, C: Change<B>, R: Wait>(
    rt: &R,
    p: &Package<B>,
    me: &mut Thread<B>,
    at: &BufferAt,
    side: Side,
    c: CondId,
    ring: Ring<B::Item>,
) -> Option<Ring<B::Item>>
    requires named { IsNamed p.now.layout at.now × (c.0 < p.now.layout.conditions) }
    requires buffer { B.is_buffer p.now.world at.now }
    requires world { me.old.world ≡ Some p.now.world }
    requires entered { (a : Known B.Value B.Share B.World) × (s : B.Share) × HasEntered B.ring_in B.part B.alike B.fits p.now
        at.now.mutex.0 c.0 side s ring a me.old }
    requires waits { Does (wait_of side) ring ring }
    requires lawful { (t : ℕ) (s : B.Share) → Lawful B.ring_in B.part B.alike B.allows C.after p.now.world at.now.mutex.0 t
        (wait_of side) s }
    ensures rest { AtRest p.now me.new }
    ensures same { IsSame me.old me.new }
    ensures waited { (a : Known B.Value B.Share B.World) (s : B.Share) → get_elem? a.held at.now.mutex.0 ≡ some None
        → HasEntered B.ring_in B.part B.alike B.fits p.now at.now.mutex.0 c.0 side s ring a me.old → MatchOption result
        ((o : ℕ) → Ended B.ring_in B.part B.alike p.now at.now.mutex.0 c.0 o side C.after None s a me.new)
        (λ q. HasEntered B.ring_in B.part B.alike B.fits p.now at.now.mutex.0 c.0 side s q a me.new) }
{
    let (outcome, value) = alert_wait::<B, C, R>(rt, p, me, at.mutex, c, B::from_ring(ring));
    let again = ring_of::<B>(value);
    match outcome {
        Outcome::Returned => Some(again),
        Outcome::Alerted => {
            give::<B, NoChange, R>(rt, p, me, at.mutex, None, again);
            None
        }
    }
}

/// Acquires the mutex, waits in the condition while this side has to, and returns the ring. If an
/// alert ended a wait, releases the mutex with the ring unchanged, and returns `None`.
pub(crate) fn enter<B: BufferUse, C: Change<B>, R: Wait>(
    rt: &R,
    p: &Package<B>,
    me: &mut Thread<B>,
    at: &BufferAt,
    side: Side,
    c: CondId,
) -> Option<Ring<B::Item>>
    requires rest { AtRest p.now me.old }
    requires named { IsNamed p.now.layout at.now × (c.0 < p.now.layout.conditions) }
    requires buffer { B.is_buffer p.now.world at.now }
    requires lacks { get_elem? me.old.held at.now.mutex.0 ≡ some None }
    requires world { me.old.world ≡ Some p.now.world }
    requires share { (s : B.Share) × (me.old.share ≡ Some s) }
    requires lawful { (t : ℕ) (s : B.Share) → Lawful B.ring_in B.part B.alike B.allows C.after p.now.world at.now.mutex.0 t
        (wait_of side) s }
    ensures rest { AtRest p.now me.new }
    ensures same { IsSame me.old me.new }
    ensures ended { (s : B.Share) → me.old.share ≡ Some s → MatchOption result
        ((o : ℕ) → Ended B.ring_in B.part B.alike p.now at.now.mutex.0 c.0 o side C.after None s me.old me.new)
        (λ q. HasEntered B.ring_in B.part B.alike B.fits p.now at.now.mutex.0 c.0 side s q me.old me.new × MayGo side q) }
{
    let mut ring = acquire_ring(rt, p, me, at);
    for _ in rt.forever() {
        if !must_wait(side, &ring) {
            return Some(ring);
        }
        ring = wait_once::<B, C, R>(rt, p, me, at, side, c, ring)?;
    }
    unreachable!()
}
