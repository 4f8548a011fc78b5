//! Unparking the threads that were made ready: outside the Nub, and after the release of a mutex
//! without which they can't go on.
//!
//! Nothing here is an atomic step of the rule, and no clause says that a thread is unparked: an
//! unparked thread reads its ready word or the life word that it waits for, which decides.
ghost use Rattle.std.specs.Prelude.{◌≡◌};
ghost use Rattle.larch_actions.specs.declared.event.Life.TheVariants.{Ended};
ghost use Rattle.nub_rule.specs.declared.view.Pen.TheVariants.{No};

use crate::package::{Package, Thread};
use crate::rule::Queue;
use crate::uses::Uses;
use crossbeam_utils::sync::Unparker;
use larch_actions::{MutexId, ThreadId};
use std::sync::atomic::{AtomicU64, Ordering};

/// What other threads have of a thread, to wake it.
#[derive(Drop)]
pub(crate) struct Waker {
    unparker: Unparker,
    /// The number of the mutex of the thread's present or latest wait.
    mutex: AtomicU64,
}

impl Waker {
    pub(crate) fn new(unparker: Unparker) -> Waker {
        Waker {
            unparker,
            mutex: AtomicU64::new(0),
        }
    }
}

/// Unparks the thread t.
pub fn unpark<U: Uses>(p: &Package<U>, t: ThreadId) {
    if let Some(waker) = p.unparkers.get(t.0 as usize) {
        waker.unparker.unpark();
    }
}

/// Unparks every thread, after the end of this one: a thread that waits for it reads the life word
/// again, in a traced package with the pen. So the word says so already, and the pen was given back.
pub fn unpark_all<U: Uses>(p: &Package<U>, me: &Thread<U>)
    requires of { me.now.table_id ≡ p.now.table_id }
    requires ended { me.now.life ≡ Ended }
    requires out { me.now.pen ≡ No }
{
    let _me = me;
    for waker in &p.unparkers {
        waker.unparker.unpark();
    }
}

/// Notes the mutex of the wait that the thread begins, for the thread that takes it out of the
/// condition.
pub fn note_mutex<U: Uses>(p: &Package<U>, me: &Thread<U>, m: MutexId) {
    if let Some(waker) = p.unparkers.get(me.number as usize) {
        // Most threads always wait with the same mutex, and a store would take the cache line from
        // others.
        if waker.mutex.load(Ordering::Relaxed) != u64::from(m.0) {
            waker.mutex.store(u64::from(m.0), Ordering::Relaxed);
        }
    }
}

/// Notes the thread t, which was taken out of a condition, to be unparked by `unpark_noted`. If the
/// list is full, unparks it at once.
pub fn note_woken<U: Uses>(p: &Package<U>, me: &mut Thread<U>, t: ThreadId)
    ensures { me.new ≡ me.old }
{
    match u8::try_from(t.0) {
        Ok(number) if !me.later.is_full() => me.later.push(number),
        _ => unpark(p, t),
    }
}

/// Returns whether this thread has the mutex without which t, taken out of a condition, can't go
/// on.
fn has_mutex_of<U: Uses>(p: &Package<U>, me: &Thread<U>, t: ThreadId) -> bool {
    match p.unparkers.get(t.0 as usize) {
        Some(waker) => {
            // The number of a mutex always fits.
            let mutex = u32::try_from(waker.mutex.load(Ordering::Relaxed)).unwrap_or(u32::MAX);
            me.has(MutexId(mutex))
        }
        None => false,
    }
}

/// Returns whether a thread is noted.
#[inline]
pub fn owes_unparking<U: Uses>(me: &Thread<U>) -> bool {
    !me.later.is_empty()
}

/// Unparks each noted thread, unless this thread has the mutex of its wait: until that is released,
/// the other can't go on.
pub fn unpark_noted<U: Uses>(p: &Package<U>, me: &mut Thread<U>)
    ensures { me.new ≡ me.old }
{
    let mut kept = Queue::new();
    for i in 0..me.later.len() {
        let number = me.later[i];
        let t = ThreadId(u32::from(number));
        if has_mutex_of(p, me, t) && !kept.is_full() {
            kept.push(number);
        } else {
            unpark(p, t);
        }
    }
    me.later = kept;
}
