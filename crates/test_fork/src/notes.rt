//! Notes that threads leave for one another, and for a test to see.
use std::sync::atomic::{AtomicU64, Ordering};
use std::thread;
use std::time::{Clock, Duration};

// How often a thread looks at a note before it gives up, and how many ms it sleeps in between.
const LOOKS: u32 = 10_000;

const A_LOOK: u64 = 1;

/// Numbers that are 0 at first.
#[derive(Drop)]
pub struct Notes {
    /// How many are about to join.
    pub joining: AtomicU64,
    /// How many have found that they were alerted.
    pub alerted: AtomicU64,
    /// Whether all is over.
    pub over: AtomicU64,
}

impl Notes {
    pub fn new() -> Notes {
        Notes {
            joining: AtomicU64::new(0),
            alerted: AtomicU64::new(0),
            over: AtomicU64::new(0),
        }
    }
}

/// Adds 1 to the note.
pub fn count(note: &AtomicU64) {
    let _ = note.fetch_add(1, Ordering::SeqCst);
}

/// Returns whether the note was seen at this number or above, in ten seconds.
pub fn seen_in_time<R: Clock>(rt: &R, note: &AtomicU64, number: u64) -> bool {
    for _i in 0..LOOKS {
        if note.load(Ordering::SeqCst) >= number {
            return true;
        }
        thread::sleep(rt, Duration::from_millis(A_LOOK));
    }
    false
}
