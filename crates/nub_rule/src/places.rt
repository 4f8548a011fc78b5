//! The greatest sizes of a package, and the places of its words and slots, as specs/Places.antt
//! names them.
ghost use Rattle.std.specs.Prelude.{◌≡◌};
ghost use Rattle.nub_rule.specs.Places.{alert_at, bit_at, count_at, life_at, sem_object, cond_object, ready_at, thread_at, waits_at};

use larch_actions::{CondId, MutexId, SemId};

/// The greatest number of threads.
pub const MOST_THREADS: usize = 256;

/// The greatest number of mutexes.
pub const MUTEXES: u32 = 64;

/// The number of the first semaphore among objects.
pub const SEMAPHORES: usize = 64;

/// The number of the first condition among objects.
pub const CONDITIONS: usize = 128;

/// The number of queues, whose slots come before those of the values.
pub const QUEUES: usize = 192;

/// The slot of the first mutex's value.
pub const VALUES: u16 = 192;

/// The place of the pen.
pub const PEN: usize = 3072;

/// The place of the number of the next event.
pub const NUMBER: usize = 3073;

/// The number of words.
pub const WORDS: usize = 3088 + 16 * 64;

/// Returns the place of the bit of a mutex.
#[inline]
pub fn mutex_bit(m: MutexId) -> usize
    ensures { result ≡ bit_at m.0 }
{
    16 * m.0 as usize
}

/// Returns the place of the bit of a semaphore.
#[inline]
pub fn semaphore_bit(s: SemId) -> usize
    ensures { result ≡ bit_at (sem_object s.0) }
{
    16 * (SEMAPHORES + s.0 as usize)
}

/// Returns the place of the count of a condition.
#[inline]
pub fn count_word(c: CondId) -> usize
    ensures { result ≡ count_at (cond_object c.0) }
{
    16 * (CONDITIONS + c.0 as usize) + 3
}

/// Returns the place of the waiters count of a condition.
#[inline]
pub fn waits_word(c: CondId) -> usize
    ensures { result ≡ waits_at (cond_object c.0) }
{
    16 * (CONDITIONS + c.0 as usize) + 4
}

/// Returns the place of the first word of a thread. Up to 64 threads have a cache line each; in a
/// larger package four share one, so that a small package is no larger.
#[inline]
fn thread_words(t: u32) -> usize
    ensures { result ≡ thread_at t }
{
    16 * (t as usize % 64) + 4 * (t as usize / 64) + 3088
}

/// Returns the place of the alert word of a thread.
#[inline]
pub fn alert_word(t: u32) -> usize
    ensures { result ≡ alert_at t }
{
    thread_words(t)
}

/// Returns the place of the ready word of a thread.
#[inline]
pub fn ready_word(t: u32) -> usize
    ensures { result ≡ ready_at t }
{
    thread_words(t) + 1
}

/// Returns the place of the life word of a thread.
#[inline]
pub fn life_word(t: u32) -> usize
    ensures { result ≡ life_at t }
{
    thread_words(t) + 2
}
