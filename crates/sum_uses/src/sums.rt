//! Sums under mutexes.
ghost use Rattle.std.specs.Prelude.{◌≡◌, ◌+◌, ◌≤◌, ℕ, List, []};
ghost use Rattle.sum_uses.specs.declared.added.Added.{Added};
ghost use Rattle.sum_uses.specs.SumLaws.{fits_sums, after_sums};
ghost use Rattle.sum_uses.specs.Sums.{AreSums, IsAbove, GrowsAlike, added, grown};

use crate::added::Added;
use nub_rule::{Change, Uses};
use std::collections::LinkedList;

/// The use in which each value is the sum of what all threads have added under its mutex, and a
/// share is what one thread has added.
pub struct SumUses;

impl Uses for SumUses {
    type Value = u64;

    type World = ();

    type Share = LinkedList<Added>;

    ghost begin = { λ w t. [] };

    ghost holds = { λ w values shares. AreSums values shares };

    ghost fits = { λ w m x t s. IsAbove m x s };

    ghost allows = { λ w m t x y s r. GrowsAlike m x y s r };

    ghost holds_fits = { fits_sums };

    ghost holds_after = { after_sums };
}

/// The change by which the share grows as much as the value.
pub struct AddChange;

impl Change<SumUses> for AddChange {
    ghost after = { λ w m t x y s. grown m x y s };
}

/// Returns the value with which the holder of a mutex releases it, after an addition to the value
/// that it got. It may be released with `AddChange` while the thread has added little, and the
/// thread's share then has this much more under the mutex.
///
/// ```rust
/// locked::<SumUses, AddChange, (), _, R>(rt, pkg, &mut me, m, |x| *x = add_to(*x, 1));
/// ```
#[inline]
pub fn add_to(got: u64, amount: u64) -> u64
    requires got { got ≤ 25600000000000 }
    requires amount { amount ≤ 100000000000 }
    ensures sum { result ≡ got + amount }
    ensures allowed { (m t : ℕ) (s : List Added) → added m s + amount ≤ 100000000000
        → ⟦<SumUses as Uses>⟧.allows tt m t got result s (⟦<AddChange as Change<SumUses>>⟧.after tt m t got result s) }
    ensures share { (m t : ℕ) (s : List Added) → added m (⟦<AddChange as Change<SumUses>>⟧.after tt m t got result s) ≡ added m s + amount }
{
    got + amount
}
