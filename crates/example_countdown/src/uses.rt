//! What the mutex protects, and what a thread has done with it.
ghost use Rattle.std.specs.Prelude.{◌≤◌};
ghost use Rattle.firefly_threads.specs.Guarded.{OneValue};
ghost use Rattle.firefly_threads.specs.Laws.{one_fits, one_kept};
ghost use Rattle.example_countdown.specs.Counts.{IsLeft, IsPart, Moves};
ghost use Rattle.example_countdown.specs.CountLaws.{kept, known};

use firefly_threads::{Change, Uses};

/// The use of the package: its one mutex protects how many threads haven't counted down yet.
pub struct Countdown;

impl Uses for Countdown {
    type Value = u32;

    type World = ();

    // 1 until the thread has counted down, and then 0
    type Share = u32;

    ghost begin = { λ w t. 1 };

    ghost holds = { λ w. OneValue IsLeft };

    ghost fits = { λ w m x t s. IsPart x s };

    ghost allows = { λ w m t x y s r. Moves x y s r };

    ghost holds_fits = { λ w. one_fits IsLeft IsPart known };

    ghost holds_after = { λ w. one_kept IsLeft Moves kept };
}

/// The thread has counted down.
pub struct CountsDown;

impl Change<Countdown> for CountsDown {
    ghost after = { λ w m t x y s. 0 };
}
