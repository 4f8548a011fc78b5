//! What the events of a trace nest.
ghost use Rattle.std.specs.Prelude.{◌≡◌, ◌<◌, ℕ, List, ◌∷◌, [], ◌++◌, length, true, false};
ghost use Rattle.larch_actions.specs.declared.event.Version.{Version};
ghost use Rattle.larch_actions.specs.declared.event.Event.{Event};
ghost use Rattle.larch_actions.specs.Actions.{Spec, Acts, at_first};

use crate::answer::Edge;
use crate::mutex_set::MutexSet;
use larch_actions::{Action, Event, MutexId, ThreadId};

// The event by which one mutex was first got while another was held.
#[derive(Clone, Copy)]
pub struct First {
    thread: ThreadId,
    place: u64,
}

/// Which mutexes each thread holds, and which mutexes were got while which others were held.
#[derive(Drop)]
pub struct LockGraph {
    // by the thread
    held: [MutexSet; 256],
    // by the inner mutex: the outer ones
    outers: [MutexSet; 64],
    // by the inner mutex, and then by the outer one, where it is among the outer ones
    firsts: [First; 4096],
}

impl LockGraph {
    ghost use Rattle.lock_order.specs.Sets.{in_mutexes};
    ghost use Rattle.lock_order.specs.Kept.{HasPlace, has_held, stands, first_thread, first_place, IsKept, HasGot, HasGiven, HasEdge};
    ghost use Rattle.lock_order.specs.Circles.{first_of};

    /// Of no event.
    pub fn new() -> LockGraph
        ensures { (v : Version) → IsKept [] (at_first v) result }
    {
        let none = MutexSet::empty();
        let nothing = First {
            thread: ThreadId(0),
            place: 0,
        };
        LockGraph {
            held: [none; 256],
            outers: [none; 64],
            firsts: [nothing; 4096],
        }
    }

    /// Notes one more event, which may come next, and its place.
    #[inline(always)]
    pub fn note(&mut self, e: &Event, place: u64)
        requires { HasPlace e.now }
        ensures { (es : List Event) (now next : Spec) → place ≡ length es → Acts now e.now next → IsKept es now self.old
            → IsKept (es ++ e.now ∷ []) next self.new }
    {
        match e.action {
            Action::Acquire { mutex } => self.get(e.thread, mutex, place),
            Action::Resume { mutex, cond: _ } => self.get(e.thread, mutex, place),
            Action::AlertReturn { mutex, cond: _ } => self.get(e.thread, mutex, place),
            Action::AlertRaise { mutex, cond: _ } => self.get(e.thread, mutex, place),
            Action::Release { mutex } => self.give(e.thread, mutex),
            Action::Enqueue { mutex, cond: _ } => self.give(e.thread, mutex),
            Action::AlertEnqueue { mutex, cond: _ } => self.give(e.thread, mutex),
            _ => {}
        }
    }

    #[inline(always)]
    fn get(&mut self, t: ThreadId, m: MutexId, place: u64)
        requires thread { t.0 < 256 }
        requires mutex { m.0 < 64 }
        ensures { HasGot self.old t.0 m.0 place self.new }
    {
        let held = self.held[t.0 as usize];
        let new = held.minus(self.outers[m.0 as usize]);
        if !new.is_empty() {
            self.nest(new, t, m, place);
        }
        self.held[t.0 as usize] = held.with(m);
    }

    #[inline(always)]
    fn give(&mut self, t: ThreadId, m: MutexId)
        requires thread { t.0 < 256 }
        requires mutex { m.0 < 64 }
        ensures { HasGiven self.old t.0 m.0 self.new }
    {
        let held = self.held[t.0 as usize];
        let rest = held.without(m);
        self.held[t.0 as usize] = rest;
    }

    // Notes the event as the first by which the mutex was got while these were held.
    #[cold]
    #[inline(never)]
    fn nest(&mut self, new: MutexSet, thread: ThreadId, inner: MutexId, place: u64)
        requires { inner.0 < 64 }
        ensures { HasEdge self.old new thread.0 inner.0 place self.new }
    {
        let mut rest = new;
        while !rest.is_empty() {
            let outer = rest.first();
            self.firsts[inner.0 as usize * 64 + outer.0 as usize] = First { thread, place };
            rest = rest.without(outer);
        }
        let outers = self.outers[inner.0 as usize];
        self.outers[inner.0 as usize] = outers.or(new);
    }

    /// The mutexes that stand before this one.
    pub fn before(&self, inner: MutexId) -> MutexSet
        requires { inner.0 < 64 }
        ensures { (m : ℕ) → in_mutexes result m ≡ stands self.now m inner.0 }
    {
        self.outers[inner.0 as usize]
    }

    /// The first edge of the two.
    pub fn first(&self, outer: MutexId, inner: MutexId) -> Edge
        requires outer { outer.0 < 64 }
        requires inner { inner.0 < 64 }
        ensures { result ≡ first_of self.now outer.0 inner.0 }
    {
        let first = self.firsts[inner.0 as usize * 64 + outer.0 as usize];
        Edge {
            outer,
            inner,
            thread: first.thread,
            place: first.place,
        }
    }
}
