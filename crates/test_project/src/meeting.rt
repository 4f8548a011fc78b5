//! A place where two threads meet.
ghost use Rattle.std.specs.Prelude.{◌<◌};

use package_crew::BeforeStart;
use std::sync::atomic::{AtomicBool, Ordering};

/// A place where two threads wait for each other, for at most 50,000,000 turns.
#[derive(Drop)]
pub struct Meeting {
    // The number of the first of the two that pass; the other's is the next.
    first: u32,
    here: [AtomicBool; 2],
    missed: AtomicBool,
}

impl Meeting {
    pub fn new(first: u32) -> Meeting {
        Meeting {
            first,
            here: [AtomicBool::new(false), AtomicBool::new(false)],
            missed: AtomicBool::new(false),
        }
    }

    /// Waits for the other thread, and returns whether it came in time.
    pub fn meet(&self, me: usize) -> bool
        requires { me < 2 }
    {
        self.here[me].store(true, Ordering::SeqCst);
        for _ in 0..50_000_000u64 {
            if self.here[1 - me].load(Ordering::SeqCst) {
                return true;
            }
        }
        false
    }

    /// Returns whether both have come, and each has seen the other.
    pub fn was_kept(&self) -> bool {
        self.here[0].load(Ordering::SeqCst)
            && self.here[1].load(Ordering::SeqCst)
            && !self.missed.load(Ordering::SeqCst)
    }
}

impl BeforeStart for Meeting {
    ghost begun = { λ m n. Unit };

    fn begins(&self, number: u32) {
        let me = number.wrapping_sub(self.first) as usize;
        if me < 2 && !self.meet(me) {
            self.missed.store(true, Ordering::SeqCst);
        }
    }
}
