//! Sets of mutexes.
ghost use Rattle.std.specs.Prelude.{◌≡◌, ◌<◌, ◌&&◌, ◌||◌, cond, eqb, not, ℕ, true, false};

use larch_actions::MutexId;

/// A set of mutex numbers below 64.
#[derive(Clone, Copy, Debug, PartialEq, Eq)]
pub struct MutexSet {
    bits: u64,
}

impl MutexSet {
    ghost use Rattle.lock_order.specs.Sets.{in_mutexes};

    /// The set of no mutex.
    pub fn empty() -> MutexSet
        ensures { (m : ℕ) → in_mutexes result m ≡ false }
    {
        MutexSet { bits: 0 }
    }

    /// The set of all numbers below 64.
    pub fn all() -> MutexSet
        ensures { (m : ℕ) → m < 64 → in_mutexes result m ≡ true }
    {
        MutexSet { bits: u64::MAX }
    }

    /// Whether no mutex is in the set.
    pub fn is_empty(self) -> bool
        ensures none { result ≡ true → (m : ℕ) → in_mutexes self m ≡ false }
        ensures some { result ≡ false → (m : ℕ) × (in_mutexes self m ≡ true) }
    {
        self.bits == 0
    }

    /// Whether the mutex is in the set.
    pub fn has(self, m: MutexId) -> bool
        requires { m.0 < 64 }
        ensures { result ≡ in_mutexes self m.0 }
    {
        (self.bits >> m.0) & 1 == 1
    }

    /// The set and one mutex more.
    pub fn with(self, m: MutexId) -> MutexSet
        requires { m.0 < 64 }
        ensures { (k : ℕ) → in_mutexes result k ≡ cond (eqb m.0 k) true (in_mutexes self k) }
    {
        MutexSet {
            bits: self.bits | (1 << m.0),
        }
    }

    /// The set without the mutex.
    pub fn without(self, m: MutexId) -> MutexSet
        requires { m.0 < 64 }
        ensures members { (k : ℕ) → in_mutexes result k ≡ cond (eqb m.0 k) false (in_mutexes self k) }
        ensures fewer { in_mutexes self m.0 ≡ true → result.bits < self.bits }
    {
        MutexSet {
            bits: self.bits & !(1 << m.0),
        }
    }

    /// The mutexes of both sets.
    pub fn and(self, other: MutexSet) -> MutexSet
        ensures { (k : ℕ) → in_mutexes result k ≡ (in_mutexes self k && in_mutexes other k) }
    {
        MutexSet {
            bits: self.bits & other.bits,
        }
    }

    /// The mutexes of this set that aren't in the other.
    pub fn minus(self, other: MutexSet) -> MutexSet
        ensures { (k : ℕ) → in_mutexes result k ≡ (in_mutexes self k && not (in_mutexes other k)) }
    {
        MutexSet {
            bits: self.bits & !other.bits,
        }
    }

    /// The mutexes of either set.
    pub fn or(self, other: MutexSet) -> MutexSet
        ensures { (k : ℕ) → in_mutexes result k ≡ (in_mutexes self k || in_mutexes other k) }
    {
        MutexSet {
            bits: self.bits | other.bits,
        }
    }

    /// The least mutex of a set that has one.
    pub fn first(self) -> MutexId
        requires { (m : ℕ) × (in_mutexes self m ≡ true) }
        ensures here { in_mutexes self result.0 ≡ true }
        ensures low { result.0 < 64 }
    {
        MutexId(self.bits.trailing_zeros())
    }
}
