//! A use of the package that has buffers.
ghost use Rattle.std.specs.Prelude.{◌≡◌, ◌↔◌, ℕ, eqb, Option, Some, List, ◌∷◌};
ghost use Rattle.bounded_buffer.specs.declared.at.BufferAt.{BufferAt};
ghost use Rattle.bounded_buffer.specs.declared.did.Did.{Did};
ghost use Rattle.bounded_buffer.specs.declared.did.Did.TheVariants.{Shut, WaitedFull, WaitedEmpty};
ghost use Rattle.bounded_buffer.specs.Rings.{Held, Does};
ghost use Rattle.bounded_buffer.specs.Parts.{Used, HasDone, IsOfPut, IsOfTake, IsWait, IsWithin, Waits};

use crate::ring::Ring;
use nub_rule::{Change, Uses};

/// A use of the package in which some of the mutexes protect rings. Its laws say which changes of a
/// ring and of a share are allowed.
pub trait BufferUse: Uses + Sized {
    type Item;

    type Put: Change<Self>;

    type Take: Change<Self>;

    type Shut: Change<Self>;

    // Whether the world says that this is a buffer.
    ghost is_buffer: { Self.World → BufferAt → Type 0 };

    // The ring that a value is, if it is one.
    ghost ring_in: { Self.Value → Option (Held Self.Item) };

    // What a share says of the buffer under a mutex.
    ghost part: { Self.Share → ℕ → Used Self.Item };

    // Whether two shares differ only in their counts of waits.
    ghost alike: { Self.Share → Self.Share → Type 0 };

    // Whether a thread with this share may put the item under the mutex.
    ghost may_put: { Self.World → ℕ → ℕ → Self.Item → Self.Share → Type 0 };

    // What a thread may know of an item that it takes and of its own share before.
    ghost item_fits: { Self.World → ℕ → ℕ → Self.Item → Self.Share → Type 0 };

    /// Returns the ring that the value is.
    fn into_ring(value: Self::Value) -> Ring<Self::Item>
        requires { (q : Held Self.Item) × (ring_in value ≡ Some q) }
        ensures { ring_in value ≡ Some result };

    /// Returns the value that is this ring.
    fn from_ring(ring: Ring<Self::Item>) -> Self::Value
        ensures { ring_in result ≡ Some ring };

    // The mutex of a buffer protects a ring, and the numbers of what the thread put and took there
    // are below the next ones.
    ghost fits_ring: { (w : Self.World) (at : BufferAt) → is_buffer w at → (t : ℕ) (x : Self.Value) (s : Self.Share)
        → Self.fits w at.mutex.0 x t s
        → (q : Held Self.Item) × (ring_in x ≡ Some q) × IsWithin (part s at.mutex.0) q };

    ghost fits_first: { (w : Self.World) (at : BufferAt) → is_buffer w at → (t : ℕ) (x : Self.Value) (s : Self.Share)
        → Self.fits w at.mutex.0 x t s
        → (q : Held Self.Item) → ring_in x ≡ Some q → (i : Self.Item) (rest : List Self.Item) → q.items ≡ i ∷ rest
        → item_fits w at.mutex.0 t i s };

    ghost alike_self: { (s : Self.Share) → alike s s };

    ghost alike_on: { (s r u : Self.Share) → alike s r → alike r u → alike s u };

    // Neither definition depends on the counts of waits.
    ghost alike_may_put: { (w : Self.World) (m t : ℕ) (i : Self.Item) (s r : Self.Share) → alike s r → may_put w m t i s
        ↔ may_put w m t i r };

    ghost alike_item_fits: { (w : Self.World) (m t : ℕ) (i : Self.Item) (s r : Self.Share) → alike s r → item_fits w m t i s
        ↔ item_fits w m t i r };

    // A put puts an item last into an open ring that isn't full, is refused by a shut ring, or
    // waits at a full open ring.
    ghost put_allowed: { (w : Self.World) (at : BufferAt) → is_buffer w at
        → (t : ℕ) (x y : Self.Value) (s : Self.Share) (q p : Held Self.Item) (d : Did Self.Item)
        → ring_in x ≡ Some q → ring_in y ≡ Some p → Does d q p → IsOfPut (λ i. may_put w at.mutex.0 t i s) d
        → Self.allows w at.mutex.0 t x y s (Self.Put.after w at.mutex.0 t x y s)
        × HasDone part at.mutex.0 d s (Self.Put.after w at.mutex.0 t x y s)
        × (IsWait d → alike s (Self.Put.after w at.mutex.0 t x y s)) };

    // A take takes the first item, is refused by a ring that is shut and empty, or waits at an
    // empty open ring.
    ghost take_allowed: { (w : Self.World) (at : BufferAt) → is_buffer w at
        → (t : ℕ) (x y : Self.Value) (s : Self.Share) (q p : Held Self.Item) (d : Did Self.Item)
        → ring_in x ≡ Some q → ring_in y ≡ Some p → Does d q p → IsOfTake d
        → Self.allows w at.mutex.0 t x y s (Self.Take.after w at.mutex.0 t x y s)
        × HasDone part at.mutex.0 d s (Self.Take.after w at.mutex.0 t x y s)
        × (IsWait d → alike s (Self.Take.after w at.mutex.0 t x y s)) };

    ghost shut_allowed: { (w : Self.World) (at : BufferAt) → is_buffer w at
        → (t : ℕ) (x y : Self.Value) (s : Self.Share) (q p : Held Self.Item)
        → ring_in x ≡ Some q → ring_in y ≡ Some p → Does Shut q p
        → Self.allows w at.mutex.0 t x y s (Self.Shut.after w at.mutex.0 t x y s)
        × HasDone part at.mutex.0 Shut s (Self.Shut.after w at.mutex.0 t x y s) };

    // The ring is released unchanged, and the share stays.
    ghost stay_allowed: { (w : Self.World) (at : BufferAt) → is_buffer w at
        → (t : ℕ) (x y : Self.Value) (s : Self.Share) (q : Held Self.Item)
        → ring_in x ≡ Some q → ring_in y ≡ Some q → Self.allows w at.mutex.0 t x y s s };

    // The counts of waits grow by such a wait alone.
    ghost waits_counted: { (w : Self.World) (at : BufferAt) → is_buffer w at
        → (t : ℕ) (x y : Self.Value) (s r : Self.Share) (q p : Held Self.Item)
        → ring_in x ≡ Some q → ring_in y ≡ Some p → Self.allows w at.mutex.0 t x y s r
        → (k : ℕ) → Waits WaitedFull q p (eqb k at.mutex.0) (part s k).full_waits (part r k).full_waits
        × Waits WaitedEmpty q p (eqb k at.mutex.0) (part s k).empty_waits (part r k).empty_waits };
}
