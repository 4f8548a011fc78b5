//! Shutting a ring.
ghost use Rattle.std.specs.Prelude.{◌≡◌, ℕ, None, Some};
ghost use mathlib.Core.Option.{some};
ghost use lib.ListN.{get_elem?};
ghost use Rattle.nub.specs.Idle.{IsIdle};
ghost use Rattle.nub.specs.Rest.{AtRest, IsSame};
ghost use Rattle.bounded_buffer.specs.At.{IsNamed};
ghost use Rattle.bounded_buffer.specs.Calls.{HasShut};

use crate::at::BufferAt;
use crate::buffer_use::BufferUse;
use crate::entry::acquire_ring;
use crate::exit::give;
use condition::broadcast;
use nub_rule::{Package, Thread};
use std::sync::Wait;

/// Shuts the ring, and wakes all threads that wait for room or for more. If the ring is shut
/// already, it stays so.
///
/// Blocks while another thread holds the mutex.
///
/// ```rust
/// shut(rt, pkg, me, &AT);
/// ```
pub fn shut<B: BufferUse, R: Wait>(rt: &R, p: &Package<B>, me: &mut Thread<B>, at: &BufferAt)
    requires rest { AtRest p.now me.old }
    requires named { IsNamed p.now.layout at.now }
    requires buffer { B.is_buffer p.now.world at.now }
    requires lacks { get_elem? me.old.held at.now.mutex.0 ≡ some None }
    requires world { me.old.world ≡ Some p.now.world }
    requires share { (s : B.Share) × (me.old.share ≡ Some s) }
    ensures rest { AtRest p.now me.new }
    ensures same { IsSame me.old me.new }
    ensures held { me.new.held ≡ me.old.held }
    ensures idle { (n : ℕ) (s r : B.Share) → IsIdle p.now n s me.old → me.new.share ≡ Some r → IsIdle p.now n r me.new }
    ensures shut { (s : B.Share) → me.old.share ≡ Some s
        → HasShut B.ring_in B.part B.Shut.after p.now.world at.now.mutex.0 at.now.room.0 at.now.more.0 me.old.number s me.old me.new }
{
    let mut ring = acquire_ring(rt, p, me, at);
    ring.shut();
    broadcast(rt, p, me, at.room);
    broadcast(rt, p, me, at.more);
    give::<B, B::Shut, R>(rt, p, me, at.mutex, None, ring);
}
