//! The value that the mutex protects: the sum of what the threads have added.
ghost use Rattle.std.specs.Prelude.{◌+◌, ◌-◌, ◌≤◌, ◌^◌};
ghost use Rattle.example_sum.specs.SumLaws.{fits_sum, after_sum};
ghost use Rattle.example_sum.specs.Sums.{AreSums, IsAdded};

use nub::{Change, Uses};

/// The use of the package: numbers that threads add up. A share is what one thread has added.
pub struct Numbers;

impl Uses for Numbers {
    type Value = u64;

    type World = ();

    type Share = u64;

    ghost begin = { λ w t. 0 };

    ghost holds = { λ w values shares. AreSums values shares };

    ghost fits = { λ w m x t s. x ≤ 2 ^ 63 };

    ghost allows = { λ w m t x y s r. IsAdded x y s r };

    ghost holds_fits = { fits_sum };

    ghost holds_after = { after_sum };
}

/// The change by which the share grows as much as the sum.
pub struct Adds;

impl Change<Numbers> for Adds {
    ghost after = { λ w m t x y s. s + (y - x) };
}
