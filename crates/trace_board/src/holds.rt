//! For how long each mutex was held at the longest.
ghost use Rattle.std.specs.Prelude.{◌≡◌, ◌<◌, ℕ, None};
ghost use Rattle.larch_actions.specs.Actions.{put};
ghost use Rattle.larch_actions.specs.Layout.{most_threads};
ghost use Rattle.trace_board.specs.History.{entry_of, IsWithin};
ghost use Rattle.trace_board.specs.Holds.{held_for, hold_to, longer, lengthened, longest_of};

use crate::history::{Change, Origin, Table};

/// That a mutex was held from an event up to the event `last`, which gave it back if it `ended`.
#[derive(Clone, Copy)]
pub struct Hold {
    pub since: Origin,
    pub last: u64,
    pub ended: bool,
}

impl Hold {
    /// By how many events the last is after the first.
    pub fn length(&self) -> u64
        ensures { result ≡ held_for self.now }
    {
        self.last.saturating_sub(self.since.place)
    }
}

/// The hold up to the event `last`, where the mutex is held.
pub fn hold_to(ended: bool, last: u64, since: Option<Origin>) -> Option<Hold>
    ensures { result ≡ hold_to ended last since }
{
    match since {
        Some(since) => Some(Hold { since, last, ended }),
        None => None,
    }
}

/// The longer of two holds, and the first where neither is longer.
pub fn longer(one: Option<Hold>, other: Option<Hold>) -> Option<Hold>
    ensures { result ≡ longer one other }
{
    match one {
        None => other,
        Some(a) => match other {
            None => Some(a),
            Some(b) => {
                if a.length() < b.length() {
                    Some(b)
                } else {
                    Some(a)
                }
            }
        },
    }
}

/// The longest hold of each mutex that was given back.
#[derive(Drop)]
pub struct Longest {
    entries: [Option<Hold>; 256],
}

impl Longest {
    /// None was given back.
    pub fn new() -> Longest
        ensures { longest_of result ≡ (λ (k : ℕ). None) }
    {
        Longest {
            entries: [None; 256],
        }
    }

    /// The longest hold of the mutex.
    pub fn at(&self, m: u32) -> Option<Hold>
        requires { m < most_threads }
        ensures { result ≡ longest_of self.now m }
    {
        self.entries[m as usize]
    }

    // Sets the longest hold of the mutex.
    fn put(&mut self, m: u32, now: Option<Hold>)
        requires { m < most_threads }
        ensures { longest_of self.new ≡ put (longest_of self.old) m now }
    {
        self.entries[m as usize] = now;
    }

    /// Notes the effect on a mutex by the event at this place.
    pub fn note(&mut self, effect: Change, place: u64, held: &Table)
        requires { IsWithin effect }
        ensures { longest_of self.new ≡ lengthened effect place (entry_of held.now) (longest_of self.old) }
    {
        match effect {
            Change::Ends(m) => {
                let was = self.at(m);
                let now = longer(was, hold_to(true, place, held.at(m)));
                self.put(m, now);
            }
            Change::Begins(_) => {}
            Change::Stays => {}
        }
    }
}
