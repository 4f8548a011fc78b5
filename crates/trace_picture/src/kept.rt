//! The events of the band under way.
ghost use Rattle.std.specs.Prelude.{◌≡◌, ◌<◌, ◌≤◌, ◌++◌, ◌∷◌, ◌||◌, [], ℕ, List, length, take, slice_index_or};
ghost use Rattle.std.specs.List.{AllByRecursion};
ghost use Rattle.larch_actions.specs.Sets.{in_set};
ghost use Rattle.larch_actions.specs.declared.event.Event.{Event};
ghost use Rattle.trace_board.specs.History.{IsWithin};
ghost use Rattle.trace_board.specs.Marks.{marks};
ghost use Rattle.trace_board.specs.Tracked.{IsNoted};
ghost use Rattle.trace_picture.specs.Plan.{acts, begins_it, forks_it};

use larch_actions::{Action, Event, ThreadId, ThreadSet};
use std::marker::Model;
use trace_board::history::Change;
use trace_board::marks::marks_of;

/// At most 50 events, whose threads they are, and which threads they fork.
#[derive(Drop)]
pub struct Kept {
    events: [Event; 50],
    len: usize,
    busy: ThreadSet,
    forked: ThreadSet,
}

impl Model for Kept {
    ghost use Rattle.std.specs.Prelude.{◌≡◌, ◌≤◌, ℕ, List, length, take};
    ghost use Rattle.std.specs.List.{AllByRecursion};
    ghost use Rattle.larch_actions.specs.Sets.{in_set};
    ghost use Rattle.larch_actions.specs.declared.event.Event.{Event};
    ghost use Rattle.trace_board.specs.Tracked.{IsNoted};
    ghost use Rattle.trace_picture.specs.Plan.{acts, forks_it};

    ghost Value = { List Event };

    ghost view = { λ c. take c.len c.events };

    ghost invariant = { λ c. (c.len ≤ 50) × (length c.events ≡ 50) × AllByRecursion IsNoted (take c.len c.events)
        × ((t : ℕ) → in_set c.busy t ≡ acts (take c.len c.events) t) × ((t : ℕ) → in_set c.forked t ≡ forks_it (take c.len c.events) t) };
}

// Adds the thread that the event forks.
fn insert_forked(forked: &mut ThreadSet, life: Change)
    requires { IsWithin life }
    ensures { (t : ℕ) → in_set forked.new t ≡ (begins_it life t || in_set forked.old t) }
{
    match life {
        Change::Begins(u) => forked.insert(ThreadId(u)),
        Change::Ends(_) => {}
        Change::Stays => {}
    }
}

impl Kept {
    /// None.
    pub fn new() -> Kept
        ensures { result ≡ [] }
    {
        let none = Event {
            thread: ThreadId(0),
            action: Action::End,
        };
        Kept {
            events: [none; 50],
            len: 0,
            busy: ThreadSet::empty(),
            forked: ThreadSet::empty(),
        }
    }

    /// One more.
    pub fn push(&mut self, e: &Event)
        requires room { length self.old < 50 }
        requires noted { IsNoted e.now }
        ensures { self.new ≡ self.old ++ e.now ∷ [] }
    {
        let shown = marks_of(e.thread, &e.action);
        self.events[self.len] = *e;
        self.len += 1;
        self.busy.insert(e.thread);
        insert_forked(&mut self.forked, shown.life);
    }

    /// None from now on.
    pub fn clear(&mut self)
        ensures { self.new ≡ [] }
    {
        self.len = 0;
        self.busy = ThreadSet::empty();
        self.forked = ThreadSet::empty();
    }

    /// How many there are.
    pub fn len(&self) -> usize
        ensures count { result ≡ length self.now }
        ensures few { result ≤ 50 }
    {
        self.len
    }

    /// The one at this place, counted from 0.
    pub fn at(&self, i: usize) -> Event
        requires { i < length self.now }
        ensures is { result ≡ slice_index_or self.now i result }
        ensures noted { IsNoted result }
    {
        let events = &self.events;
        events[i]
    }

    /// Whether one is the thread's.
    pub fn acts(&self, t: u32) -> bool
        requires { t < 256 }
        ensures { result ≡ acts self.now t }
    {
        self.busy.has(ThreadId(t))
    }

    /// Whether one forks the thread.
    pub fn forks(&self, t: u32) -> bool
        requires { t < 256 }
        ensures { result ≡ forks_it self.now t }
    {
        self.forked.has(ThreadId(t))
    }
}
