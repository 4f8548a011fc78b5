//! The threads of a run of version two, before, in and after their parts.
ghost use Rattle.std.specs.Prelude.{◌≡◌, ◌<◌, ℕ, take, length};
ghost use Rattle.script_run.specs.Slots.{EndsLive, is_live, slot_number};

use nub_rule::{Ended, Thread, Unborn};
use sum_uses::SumUses;

/// A thread that plays, and the numbers of the mutexes that it holds.
#[derive(Drop)]
pub struct Playing {
    pub me: Thread<SumUses>,
    pub numbers: [u64; 64],
}

/// A thread before its fork, in its part, and after its end.
#[derive(Drop)]
pub enum Slot {
    Unborn(Unborn<SumUses>),
    Live {
        playing: Playing,
        /// The number of lines of the script before the one with which it goes on.
        next: usize,
        /// Whether it has yet to begin.
        is_new: bool,
    },
    Ended(Ended<SumUses>),
    /// What was here was taken out; the next is put in at once.
    Taken,
}

impl Slot {
    /// Returns the number of the thread.
    pub fn number(&self) -> u32
        ensures { result ≡ slot_number self.now }
    {
        match self {
            Slot::Unborn(right) => right.number(),
            Slot::Live {
                playing,
                next: _,
                is_new: _,
            } => playing.me.number(),
            Slot::Ended(end) => end.number(),
            Slot::Taken => 0,
        }
    }

    /// Returns whether the thread may go on.
    pub fn is_live(&self) -> bool
        ensures { result ≡ is_live self.now }
    {
        match self {
            Slot::Live {
                playing: _,
                next: _,
                is_new: _,
            } => true,
            _ => false,
        }
    }
}

/// Returns the place after the last thread that may go on, not counting the one in the last slot,
/// and 0 if there is none.
pub fn boundary(slots: &[Slot]) -> usize
    ensures within { 0 < result → result < length slots.now }
    ensures live { 0 < result → EndsLive (take result slots.now) }
    ensures last { (n : ℕ) → result < n → n < length slots.now → EndsLive (take n slots.now) → ⊥ }
{
    let mut found = 0;
    for end in 1..slots.len() {
        if slots[end - 1].is_live() {
            found = end;
        }
    }
    found
}
