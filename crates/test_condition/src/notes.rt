//! Notes that threads leave for one another, and for a test to see.
use std::sync::Wait;
use std::sync::atomic::{AtomicU64, Ordering};

/// How many threads have begun to wait, how many have gone on, both 0 at first, and a ring.
#[derive(Drop)]
pub struct Notes {
    pub begun: AtomicU64,
    pub gone_on: AtomicU64,
    pub ring: Ring,
}

impl Notes {
    pub fn new() -> Notes {
        Notes {
            begun: AtomicU64::new(0),
            gone_on: AtomicU64::new(0),
            ring: Ring::new(),
        }
    }
}

/// A ring of one place, and what came of its items: a maker has number 0 or 1 and puts 0, 1, 2 and so on.
#[derive(Drop)]
pub struct Ring {
    maker: AtomicU64,
    item: AtomicU64,
    /// How many items of each maker were taken, each in its turn.
    taken: [AtomicU64; 2],
    /// How many were taken out of turn, or twice.
    wrong: AtomicU64,
}

impl Ring {
    fn new() -> Ring {
        Ring {
            maker: AtomicU64::new(2),
            item: AtomicU64::new(0),
            taken: [AtomicU64::new(0), AtomicU64::new(0)],
            wrong: AtomicU64::new(0),
        }
    }

    /// Puts the item of this maker into the place.
    pub fn put(&self, maker: u64, item: u64) {
        self.maker.store(maker, Ordering::SeqCst);
        self.item.store(item, Ordering::SeqCst);
    }

    /// Returns how many items of each of the two makers were taken, each in its turn, and how many
    /// out of turn, or twice.
    pub fn came(&self) -> [u64; 3] {
        let [first, second] = &self.taken;
        [
            first.load(Ordering::SeqCst),
            second.load(Ordering::SeqCst),
            self.wrong.load(Ordering::SeqCst),
        ]
    }

    /// Takes what is in the place, and counts it if it is the next item of its maker.
    pub fn take(&self) {
        let maker = self.maker.swap(2, Ordering::SeqCst);
        let item = self.item.load(Ordering::SeqCst);
        match self.taken.get(maker as usize) {
            Some(taken) if taken.load(Ordering::SeqCst) == item => {
                taken.store(item.wrapping_add(1), Ordering::SeqCst);
            }
            _ => {
                let _ = self.wrong.fetch_add(1, Ordering::SeqCst);
            }
        }
    }
}

/// Waits until the note has come to this number.
pub fn await_count<R: Wait>(rt: &R, note: &AtomicU64, count: u64) {
    for _ in rt.forever() {
        if note.load(Ordering::SeqCst) >= count {
            return;
        }
    }
}

/// Looks at the note `times` times sixteen times.
pub fn linger(note: &AtomicU64, times: u32) {
    for _i in 0..times {
        for _j in 0..16 {
            let _ = note.load(Ordering::SeqCst);
        }
    }
}
