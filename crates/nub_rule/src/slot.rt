//! A queue in its slot.
ghost use Rattle.std.specs.Prelude.{◌≡◌, ◌≢◌, ◌+◌, ◌<◌, ◌≤◌, ℕ, List, [], ◌∷◌, ◌++◌, length, get_or, take, Some, None, true, false};
ghost use Rattle.larch_actions.specs.declared.event.ThreadId.{ThreadId};
ghost use Rattle.larch_actions.specs.Sets.{mem, set_of};
ghost use Rattle.nub_rule.specs.declared.rule.Slot.TheVariants.{Queue};
ghost use Rattle.nub_rule.specs.Items.{queue_of, Small};
ghost use Rattle.nub_rule.specs.Places.{most_threads};
ghost use Rattle.nub_rule.specs.Plays.{tail_of, less};

use crate::rule::{Queue, Slot};
use larch_actions::{ThreadId, ThreadSet};

/// Puts t at the end, and returns the new length.
pub fn push_slot<T>(slot: &mut Slot<T>, t: u32) -> u64
    requires few { t < most_threads }
    requires room { (xs : List ℕ) × (slot.old ≡ Queue (queue_of xs)) × (length xs < most_threads) }
    ensures { (xs : List ℕ) → slot.old ≡ Queue (queue_of xs) → (slot.new ≡ Queue (queue_of (xs ++ t ∷ [])))
        × (result ≡ length (xs ++ t ∷ [])) }
{
    let Slot::Queue(queue) = slot else {
        unreachable!()
    };
    queue.push(t as u8);
    queue.len() as u64
}

/// Takes the first thread out, if there is one, and returns it with the new length.
pub fn pop_slot<T>(slot: &mut Slot<T>) -> (Option<ThreadId>, u64)
    requires { (xs : List ℕ) × (slot.old ≡ Queue (queue_of xs)) }
    ensures { (xs : List ℕ) → slot.old ≡ Queue (queue_of xs) → (slot.new ≡ Queue (queue_of (tail_of xs))) × (result.1 ≡ length (tail_of xs))
        × (result.0 ≡ None → xs ≡ []) × ((t : ThreadId) → result.0 ≡ Some t → xs ≡ t.0 ∷ tail_of xs) }
{
    let Slot::Queue(queue) = slot else {
        unreachable!()
    };
    if queue.is_empty() {
        return (None, 0);
    }
    let first = queue.remove(0);
    (Some(ThreadId(u32::from(first))), queue.len() as u64)
}

// Returns the first place of t.
fn place_in(queue: &Queue, t: u32) -> Option<usize>
    ensures none { result ≡ None → mem t queue.now.items ≡ false }
    ensures fits { length queue.now.items ≤ most_threads }
    ensures first { (i : ℕ) → result ≡ Some i → (i < length queue.now.items) × (get_or queue.now.items i 0 ≡ t)
        × (mem t (take i queue.now.items) ≡ false) }
{
    for i in 0..queue.len() {
        if u32::from(queue[i]) == t {
            return Some(i);
        }
    }
    None
}

/// Takes t out, and returns the new length, if t was there.
pub fn leave_slot<T>(slot: &mut Slot<T>, t: u32) -> Option<u64>
    requires { (xs : List ℕ) × (slot.old ≡ Queue (queue_of xs)) }
    ensures none { (xs : List ℕ) → slot.old ≡ Queue (queue_of xs) → result ≡ None → (mem t xs ≡ false) × (slot.new ≡ slot.old) }
    ensures out { (xs : List ℕ) (n : ℕ) → slot.old ≡ Queue (queue_of xs) → result ≡ Some n → (mem t xs ≡ true)
        × (slot.new ≡ Queue (queue_of (less t xs))) × (n ≡ length (less t xs)) × (n < most_threads) }
{
    let Slot::Queue(queue) = slot else {
        unreachable!()
    };
    let i = place_in(queue, t)?;
    queue.remove(i);
    Some(queue.len() as u64)
}

// Returns the set of the threads after the first.
fn after_set(queue: &Queue) -> ThreadSet
    requires { Small most_threads queue.now.items }
    ensures { result ≡ set_of (tail_of queue.now.items) }
{
    let mut set = ThreadSet::empty();
    let mut i = queue.len();
    while i > 1 {
        i -= 1;
        set.insert(ThreadId(u32::from(queue[i])));
    }
    set
}

/// Returns the set of the threads after the first.
pub fn set_past<T>(slot: &Slot<T>) -> ThreadSet
    requires { (xs : List ℕ) × (slot.now ≡ Queue (queue_of xs)) × Small most_threads xs }
    ensures { (xs : List ℕ) → slot.now ≡ Queue (queue_of xs) → result ≡ set_of (tail_of xs) }
{
    let Slot::Queue(queue) = slot else {
        unreachable!()
    };
    after_set(queue)
}
