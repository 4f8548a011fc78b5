//! What the mutex protects, and what a thread has done with it.
ghost use Rattle.firefly_threads.specs.Guarded.{OneValue};
ghost use Rattle.firefly_threads.specs.Laws.{one_fits, one_kept};
ghost use Rattle.example_race.specs.Races.{IsKept, IsKnown, Moves, arrived, begins, saw};
ghost use Rattle.example_race.specs.RaceLaws.{kept, known};

use firefly_threads::{Change, Uses};

/// Whether the race has begun, and how many runners haven't arrived yet.
#[derive(Clone, Copy, Drop)]
pub struct Track {
    pub begun: bool,
    pub left: u32,
}

/// Whether a thread has yet to arrive, has arrived, and has seen that all have: 1 where it is so, or 0.
pub struct Part {
    pub runs: u32,
    pub arrived: u32,
    pub seen: u32,
}

/// The use of the package: a track that one mutex protects.
pub struct Race;

impl Uses for Race {
    type Value = Track;

    type World = ();

    type Share = Part;

    ghost begin = { λ w t. begins t };

    ghost holds = { λ w. OneValue IsKept };

    ghost fits = { λ w m x t s. IsKnown x s };

    ghost allows = { λ w m t x y s r. Moves x y s r };

    ghost holds_fits = { λ w. one_fits IsKept IsKnown known };

    ghost holds_after = { λ w. one_kept IsKept Moves kept };
}

/// The runner has arrived.
pub struct Arrives;

/// The thread has seen that all have arrived.
pub struct Sees;

impl Change<Race> for Arrives {
    ghost after = { λ w m t x y s. arrived };
}

impl Change<Race> for Sees {
    ghost after = { λ w m t x y s. saw };
}
