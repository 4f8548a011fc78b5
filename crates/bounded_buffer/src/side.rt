//! The two sides of a ring.
ghost use Rattle.std.specs.Prelude.{◌≡◌, true, false};
ghost use Rattle.bounded_buffer.specs.Rings.{Does};
ghost use Rattle.bounded_buffer.specs.Sides.{MayGo, wait_of};

use crate::ring::Ring;

/// Whether a thread comes to a ring to put or to take.
#[derive(Clone, Copy)]
pub(crate) enum Side {
    Putting,
    Taking,
}

/// Returns whether a thread of this side has to wait at the ring.
pub(crate) fn must_wait<T>(side: Side, ring: &Ring<T>) -> bool
    ensures waits { result ≡ true → Does (wait_of side) ring.now ring.now }
    ensures goes { result ≡ false → MayGo side ring.now }
{
    if ring.is_shut() {
        return false;
    }
    match side {
        Side::Putting => ring.is_full(),
        Side::Taking => ring.is_empty(),
    }
}
