//! Plain buffers: a ring under every mutex.
ghost use Rattle.std.specs.Prelude.{◌≡◌, ◌<◌, ◌^◌, [], ◌∷◌, Some};
ghost use Rattle.std.proofs.Common.{refl, ◌∙◌};
ghost use Rattle.bounded_buffer.specs.declared.did.Did.TheVariants.{Shut};
ghost use Rattle.bounded_buffer.specs.Parts.{IsWithin};
ghost use Rattle.bounded_buffer.specs.Plain.{IsPlain, Keeps, Allowed, part_of, kept, note, put_did, take_did};
ghost use Rattle.bounded_buffer.specs.PlainLaws.{fits_plain, keeps_after, ring_fits, plain_put, plain_take, plain_shut, plain_stay, plain_waits};

use crate::at::BufferAt;
use crate::buffer_use::BufferUse;
use crate::note::Note;
use crate::ring::Ring;
use larch_actions::{CondId, MutexId};
use nub_rule::{Change, Uses};
use std::collections::LinkedList;
use std::marker::PhantomData;

/// Returns the names of the buffer under the mutex with this number.
///
/// ```rust
/// let numbers = plain_buffer(0);
/// ```
pub fn plain_buffer(number: u32) -> BufferAt
    requires { number < 2 ^ 31 }
    ensures plain { IsPlain result }
    ensures mutex { result.mutex.0 ≡ number }
{
    BufferAt {
        mutex: MutexId(number),
        room: CondId(2 * number),
        more: CondId(2 * number + 1),
    }
}

/// The use of the package in which each mutex m protects a ring, with the conditions 2 m for room
/// and 2 m + 1 for more. A share is the list of all that its thread did, the last first.
pub struct PlainBuffers<T> {
    of: PhantomData<T>,
}

impl<T: Send + Drop> Uses for PlainBuffers<T> {
    type Value = Ring<T>;

    type World = ();

    type Share = LinkedList<Note<T>>;

    ghost begin = { λ w t. [] };

    ghost holds = { λ w values shares. Keeps values shares };

    ghost fits = { λ w m x t s. IsWithin (part_of s m) x };

    ghost allows = { λ w m t x y s r. Allowed m x y s r };

    ghost holds_fits = { fits_plain };

    ghost holds_after = { keeps_after };
}

/// The share gets a note of what a put did.
pub struct PlainPut;

/// The share gets a note of what a take did.
pub struct PlainTake;

/// The share gets a note that its thread shut the ring.
pub struct PlainShut;

impl<T: Send + Drop> Change<PlainBuffers<T>> for PlainPut {
    ghost after = { λ w m t x y s. note m (put_did x y) ∷ s };
}

impl<T: Send + Drop> Change<PlainBuffers<T>> for PlainTake {
    ghost after = { λ w m t x y s. note m (take_did x) ∷ s };
}

impl<T: Send + Drop> Change<PlainBuffers<T>> for PlainShut {
    ghost after = { λ w m t x y s. note m Shut ∷ s };
}

impl<T: Send + Drop> BufferUse for PlainBuffers<T> {
    type Item = T;

    type Put = PlainPut;

    type Take = PlainTake;

    type Shut = PlainShut;

    ghost is_buffer = { λ w at. IsPlain at };

    ghost ring_in = { λ x. Some x };

    ghost part = { part_of };

    ghost alike = { λ s r. kept s ≡ kept r };

    ghost may_put = { λ w m t i s. Unit {0} };

    ghost item_fits = { λ w m t i s. Unit {0} };

    fn into_ring(value: Ring<T>) -> Ring<T> {
        value
    }

    fn from_ring(ring: Ring<T>) -> Ring<T>
        ensures { Some result ≡ Some ring }
    {
        ring
    }

    ghost fits_ring = { ring_fits };

    ghost fits_first = { λ w at is t x s fits q e i rest first. tt };

    ghost alike_self = { λ s. refl };

    ghost alike_on = { λ s r u a b. a ∙ b };

    ghost alike_may_put = { λ w m t i s r same. ((λ h. h), (λ h. h)) };

    ghost alike_item_fits = { λ w m t i s r same. ((λ h. h), (λ h. h)) };

    ghost put_allowed = { plain_put };

    ghost take_allowed = { plain_take };

    ghost shut_allowed = { plain_shut };

    ghost stay_allowed = { plain_stay };

    ghost waits_counted = { plain_waits };
}
