//! What each thread of a run calls before it begins.
ghost use Rattle.std.specs.Prelude.{ℕ};

/// A call that each thread makes once before it begins, so that a test can let threads wait for one
/// another.
pub trait BeforeStart: Sync {
    // That the thread with this number has made the call. Code that is generic in the implementor
    // can know it only by the call.
    ghost begun: { Self → ℕ → Type 0 };

    /// Is called by the thread with this number.
    fn begins(&self, number: u32)
        ensures { begun self.now number };
}

/// A call that lets each thread begin at once.
pub struct BeginsAtOnce;

impl BeforeStart for BeginsAtOnce {
    ghost begun = { λ b n. Unit };

    fn begins(&self, _number: u32) {}
}
