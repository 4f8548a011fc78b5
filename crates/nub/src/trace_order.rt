//! Puts the events that threads have stored in order of their numbers.
ghost use Rattle.std.specs.Prelude.{◌≡◌, ℕ, ◌<◌, true, false, length, List, sum_by, vec_len, IfOk};
ghost use Rattle.std.specs.List.{All};
ghost use Rattle.std.specs.Option.{IfSome};
ghost use Rattle.larch_actions.specs.declared.event.Event.{Event};
ghost use Rattle.nub.specs.History.{AreStored, IsOf, SameAt};

use larch_actions::{Action, Event, ThreadId};
use nub_rule::{Entry, Stored};
use std::alloc::{AllocError, Global};

// Fills a place until its event is written there.
const NO_EVENT: Event = Event {
    thread: ThreadId(0),
    action: Action::TestAlert { yes: false },
};

/// Writes each event of the list to its place.
fn place_all(places: &mut Vec<Event>, list: &Vec<Entry>)
    requires { All (λ x. x.number < vec_len places.old) list.now.items }
    ensures length { vec_len places.new ≡ vec_len places.old }
    ensures keeps { (h : List Event) → All (IsOf h) list.now.items → (k : ℕ) → SameAt h places.old.items k → SameAt h places.new.items k }
    ensures fills { (h : List Event) → All (IsOf h) list.now.items → All (λ x. SameAt h places.new.items x.number) list.now.items }
{
    for x in list {
        places[x.number as usize] = x.event;
    }
}

/// Returns how many entries the lists have together, unless that is more than a `usize` holds.
fn count(stored: &[Stored]) -> Option<usize>
    ensures { IfSome result (λ n. n ≡ sum_by (λ s. length s.entries.items) stored.now) }
{
    let mut total: usize = 0;
    for s in stored {
        total = total.checked_add(s.entries.len())?;
    }
    Some(total)
}

/// Returns whether no list lost an entry.
fn are_whole(stored: &[Stored]) -> bool
    ensures { result ≡ true → All (λ s. s.lost ≡ false) stored.now }
{
    for s in stored {
        if s.lost {
            return false;
        }
    }
    true
}

/// Returns the history of which the threads have stored these lists, in linear time. Fails only if
/// there is no memory, now or when a list lost an entry.
pub fn in_order(alloc: Global, stored: &[Stored]) -> Result<Vec<Event>, AllocError>
    requires { (h : List Event) × AreStored h stored.now }
    ensures { (h : List Event) → AreStored h stored.now → IfOk result (λ v. v.items ≡ h) }
{
    if !are_whole(stored) {
        return Err(AllocError);
    }
    let Some(total) = count(stored) else {
        return Err(AllocError);
    };
    let mut places = vec![in alloc; NO_EVENT; total]?;
    for s in stored {
        place_all(&mut places, &s.entries);
    }
    Ok(places)
}
