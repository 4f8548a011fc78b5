//! The use of the package by a barrier, a sum and a once cell.
ghost use Rattle.std.specs.Prelude.{◌+◌};
ghost use Rattle.barrier_once.specs.RoundLaws.{fits_known, rounds_after};
ghost use Rattle.barrier_once.specs.Rounds.{Allowed, AreRounds, IsKnown, agreed_share, fresh_share};

use crate::cell::Cell;
use crate::share::{RoundShare, RoundWorld};
use nub_rule::{Change, Uses};

/// The use in which one mutex protects the bar, one the sum, and one the once cell. A share says
/// how far its thread is.
pub struct RoundUses;

impl Uses for RoundUses {
    type Value = Cell;

    type World = RoundWorld;

    type Share = RoundShare;

    ghost begin = { λ w t. fresh_share };

    ghost holds = { λ w values shares. AreRounds w values shares };

    ghost fits = { λ w m x t s. IsKnown w m x t s };

    ghost allows = { λ w m t x y s r. Allowed w m t x y s r };

    ghost holds_fits = { fits_known };

    ghost holds_after = { rounds_after };
}

/// The change by which a thread arrives, but not as the last.
pub struct Arrives;

/// The change by which a thread arrives as the last, and leaves at once.
pub struct Passes;

/// The change by which a thread leaves the barrier.
pub struct Leaves;

/// The change by which a thread adds its number and 1.
pub struct AddsOwn;

/// The thread agrees on the value in the once cell, and has offered it if the cell was empty.
pub struct Agrees;

impl Change<RoundUses> for Arrives {
    ghost after = { λ w m t x y s. record s { arrivals = s.arrivals + 1 } };
}

impl Change<RoundUses> for Passes {
    ghost after = { λ w m t x y s. record s { arrivals = s.arrivals + 1; left = s.left + 1 } };
}

impl Change<RoundUses> for Leaves {
    ghost after = { λ w m t x y s. record s { left = s.left + 1 } };
}

impl Change<RoundUses> for AddsOwn {
    ghost after = { λ w m t x y s. record s { added = s.added + (t + 1) } };
}

impl Change<RoundUses> for Agrees {
    ghost after = { λ w m t x y s. agreed_share x y s };
}
