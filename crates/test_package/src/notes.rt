//! Notes that threads leave for one another, and for a test to see.
ghost use Rattle.std.specs.Prelude.{◌≤◌};

use std::sync::atomic::{AtomicU64, Ordering};

// How often a thread looks at a note before it gives up.
const LOOKS: u32 = 50_000_000;

/// Numbers that are 0 at first.
#[derive(Drop)]
pub struct Notes {
    pub first: AtomicU64,
    pub second: AtomicU64,
    pub third: AtomicU64,
}

impl Notes {
    pub fn new() -> Notes {
        Notes {
            first: AtomicU64::new(0),
            second: AtomicU64::new(0),
            third: AtomicU64::new(0),
        }
    }

    /// Returns the three numbers.
    pub fn numbers(&self) -> [u64; 3] {
        [
            self.first.load(Ordering::SeqCst),
            self.second.load(Ordering::SeqCst),
            self.third.load(Ordering::SeqCst),
        ]
    }
}

/// Returns 1 if the note was seen set in time, and 0 otherwise.
pub fn seen_in_time(note: &AtomicU64) -> u64
    ensures { result ≤ 1 }
{
    for _i in 0..LOOKS {
        if note.load(Ordering::SeqCst) != 0 {
            return 1;
        }
    }
    0
}

/// Sets the first note, and returns whether the second was seen set in time.
pub fn stand(notes: &Notes) -> u64
    ensures { result ≤ 1 }
{
    notes.first.store(1, Ordering::SeqCst);
    seen_in_time(&notes.second)
}
