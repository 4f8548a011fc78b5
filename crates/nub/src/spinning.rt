//! Decides whether a thread looks at a word for a while before it sleeps.
//!
//! Looking pays only if another processor meanwhile does what the thread waits for. No call says
//! whether one does, so a thread goes by its own latest looks: if few were in time it sleeps at
//! once, and tries a look now and then.
ghost use Rattle.std.specs.Prelude.{◌≡◌, ◌<◌};

use nub_rule::{Thread, Uses};

/// What a thread looks at.
#[derive(Clone, Copy)]
pub enum Look {
    /// The bit of a mutex or semaphore.
    Bit,
    /// The thread's own ready word.
    Ready,
}

// A thread with this many more misses than hits (a hit counts twice) stops looking,
const MOST_MISSES: u64 = 8;

// except at the last of this many waits.
const LAST: u64 = 135;

// Every tally is below this.
const TALLIES: u64 = 256;

/// Returns whether the thread is to look for a while.
pub fn may_spin<U: Uses>(me: &Thread<U>, look: Look) -> bool {
    let tally = tally_of(me.spin_tallies(), look);
    tally < MOST_MISSES || tally == LAST
}

/// Learns whether what the thread waited for came while it looked: `Some(true)` if it did,
/// `Some(false)` if the thread slept, and `None` if the wait says nothing about that.
pub fn learn<U: Uses>(me: &mut Thread<U>, look: Look, in_time: Option<bool>)
    ensures { me.new ≡ me.old }
{
    let Some(in_time) = in_time else {
        return;
    };
    let (bit, ready) = (
        tally_of(me.spin_tallies(), Look::Bit),
        tally_of(me.spin_tallies(), Look::Ready),
    );
    let (bit, ready) = match look {
        Look::Bit => (after(bit, in_time), ready),
        Look::Ready => (bit, after(ready, in_time)),
    };
    me.set_spin_tallies(bit + TALLIES * ready);
}

fn tally_of(spin_tallies: u64, look: Look) -> u64
    ensures { result < 256 }
{
    match look {
        Look::Bit => spin_tallies % TALLIES,
        Look::Ready => spin_tallies / TALLIES % TALLIES,
    }
}

fn after(tally: u64, in_time: bool) -> u64
    requires { tally < 256 }
    ensures { result < 256 }
{
    if in_time {
        tally.min(MOST_MISSES).saturating_sub(2)
    } else if tally < LAST {
        tally + 1
    } else {
        MOST_MISSES
    }
}
