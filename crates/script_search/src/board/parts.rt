//! One part of a scene at a time: what it says, and how it changes.
ghost use Rattle.std.specs.Prelude.{◌≡◌, ◌≢◌, ◌↔◌, ◌<◌, ℕ, IsTrue, true, false, length, vec_len, IfOk};
ghost use mathlib.Core.Option.{none, some};
ghost use Rattle.larch_actions.specs.Actions.{put};
ghost use Rattle.larch_actions.specs.State.{HasBegun, shown_at};
ghost use Rattle.larch_actions.specs.declared.event.Life.TheVariants as Life;
ghost use Rattle.larch_actions.specs.declared.event.Pending.TheVariants.{Nothing};
ghost use Rattle.script_search.specs.Boards.{moment_of, spec_of, played_of, pending_of, life_of, is_inside, holder_of, Keeps, SameSize};

use super::{Board, Place};
use larch_actions::{CondId, MutexId, Pending};
use std::alloc::{AllocError, Global};

// What a thread there has begun.
fn pending(place: Place) -> Pending
    ensures { result ≡ pending_of place }
{
    match place {
        Place::Waiting { mutex, cond, .. } => Pending::Waiting {
            mutex: MutexId(mutex),
            cond: CondId(cond),
        },
        Place::AlertWaiting { mutex, cond, .. } => Pending::AlertWaiting {
            mutex: MutexId(mutex),
            cond: CondId(cond),
        },
        _ => Pending::Nothing,
    }
}

fn lives(place: Place) -> bool
    ensures { IsTrue result ↔ (life_of place ≡ Life.Live) }
{
    match place {
        Place::Unborn => false,
        Place::Ended => false,
        _ => true,
    }
}

fn is_same(a: Pending, b: Pending) -> bool
    ensures { IsTrue result ↔ (a ≡ b) }
{
    a == b
}

// Whether a thread there lives and has begun this.
fn has_begun(place: Place, what: Pending) -> bool
    ensures { IsTrue result ↔ ((life_of place ≡ Life.Live) × (pending_of place ≡ what)) }
{
    lives(place) && is_same(pending(place), what)
}

fn is_unborn(place: Place) -> bool
    ensures { IsTrue result ↔ (life_of place ≡ Life.Unborn) }
{
    match place {
        Place::Unborn => true,
        _ => false,
    }
}

fn has_ended(place: Place) -> bool
    ensures { IsTrue result ↔ (life_of place ≡ Life.Ended) }
{
    match place {
        Place::Ended => true,
        _ => false,
    }
}

pub(super) fn is_inside(place: Place, cond: u32) -> bool
    ensures { result ≡ is_inside cond place }
{
    match place {
        Place::Waiting {
            cond: own,
            inside,
            ..
        } => cond == own && inside,
        Place::AlertWaiting {
            cond: own,
            inside,
            ..
        } => cond == own && inside,
        _ => false,
    }
}

fn is_nobody(holder: Option<u32>) -> bool
    ensures { IsTrue result ↔ (holder_of holder ≡ none) }
{
    match holder {
        None => true,
        Some(_) => false,
    }
}

fn is_thread(holder: Option<u32>, t: u32) -> bool
    ensures { IsTrue result ↔ (holder_of holder ≡ some t) }
{
    match holder {
        None => false,
        Some(h) => h == t,
    }
}

// Whether the thread is none of these holders.
fn is_nowhere(holders: &[Option<u32>], t: u32) -> bool
    ensures { IsTrue result ↔ ((m : ℕ) → shown_at holder_of none holders.now m ≢ some t) }
{
    for m in 0..holders.len() {
        if is_thread(holders[m], t) {
            return false;
        }
    }
    true
}

impl Board {
    /// A copy of the board.
    pub fn copy(&self, alloc: Global) -> Result<Board, AllocError>
        ensures { IfOk result (λ b. moment_of b ≡ moment_of self.now) }
    {
        Ok(Board {
            second: self.second,
            threads: Vec::from_slice(alloc, self.threads.as_slice())?,
            holders: Vec::from_slice(alloc, self.holders.as_slice())?,
            available: Vec::from_slice(alloc, self.available.as_slice())?,
        })
    }

    // Whether the thread lives and has begun this.
    pub(super) fn has_begun(&self, t: u32, what: Pending) -> bool
        requires { t < vec_len self.now.threads }
        ensures { IsTrue result ↔ HasBegun (spec_of (moment_of self.now)) t what }
    {
        has_begun(self.threads[t as usize].place, what)
    }

    pub(super) fn is_unborn(&self, t: u32) -> bool
        requires { t < vec_len self.now.threads }
        ensures { IsTrue result ↔ ((spec_of (moment_of self.now)).life t ≡ Life.Unborn) }
    {
        is_unborn(self.threads[t as usize].place)
    }

    pub(crate) fn has_ended(&self, t: u32) -> bool
        requires { t < vec_len self.now.threads }
        ensures { IsTrue result ↔ ((spec_of (moment_of self.now)).life t ≡ Life.Ended) }
    {
        has_ended(self.threads[t as usize].place)
    }

    pub(crate) fn is_alerted(&self, t: u32) -> bool
        requires { t < vec_len self.now.threads }
        ensures { result ≡ (spec_of (moment_of self.now)).alerts t }
    {
        self.threads[t as usize].alerted
    }

    /// Whether the thread is in the condition.
    pub fn is_inside(&self, cond: u32, t: u32) -> bool
        requires { t < vec_len self.now.threads }
        ensures { result ≡ (spec_of (moment_of self.now)).members cond t }
    {
        is_inside(self.threads[t as usize].place, cond)
    }

    pub(super) fn is_free(&self, mutex: u32) -> bool
        requires { mutex < vec_len self.now.holders }
        ensures { IsTrue result ↔ ((spec_of (moment_of self.now)).holder mutex ≡ none) }
    {
        is_nobody(self.holders[mutex as usize])
    }

    pub(super) fn is_holder(&self, t: u32, mutex: u32) -> bool
        requires { mutex < vec_len self.now.holders }
        ensures { IsTrue result ↔ ((spec_of (moment_of self.now)).holder mutex ≡ some t) }
    {
        is_thread(self.holders[mutex as usize], t)
    }

    // Whether the thread holds no mutex.
    pub(super) fn holds_none(&self, t: u32) -> bool
        ensures { IsTrue result ↔ ((m : ℕ) → (spec_of (moment_of self.now)).holder m ≢ some t) }
    {
        is_nowhere(self.holders.as_slice(), t)
    }

    pub(super) fn is_available(&self, sem: u32) -> bool
        requires { sem < vec_len self.now.available }
        ensures { result ≡ (spec_of (moment_of self.now)).avail sem }
    {
        self.available[sem as usize]
    }

    // How many lines of the thread are played.
    pub(crate) fn played(&self, t: u32) -> u32
        requires { t < vec_len self.now.threads }
        ensures { result ≡ played_of (moment_of self.now) t }
    {
        self.threads[t as usize].played
    }

    // Changes of one part.

    pub(super) fn set_holder(&mut self, mutex: u32, holder: Option<u32>)
        requires { mutex < vec_len self.old.holders }
        ensures keeps { Keeps (moment_of self.old) (moment_of self.new) }
        ensures spec { spec_of (moment_of self.new) ≡
            record (spec_of (moment_of self.old)) {
              holder = put (spec_of (moment_of self.old)).holder mutex (holder_of holder);
            } }
    {
        self.holders[mutex as usize] = holder;
    }

    pub(super) fn set_available(&mut self, sem: u32, available: bool)
        requires { sem < vec_len self.old.available }
        ensures keeps { Keeps (moment_of self.old) (moment_of self.new) }
        ensures spec { spec_of (moment_of self.new) ≡
            record (spec_of (moment_of self.old)) {
              avail = put (spec_of (moment_of self.old)).avail sem available;
            } }
    {
        self.available[sem as usize] = available;
    }

    pub(super) fn set_alerted(&mut self, t: u32, alerted: bool)
        requires { t < vec_len self.old.threads }
        ensures keeps { Keeps (moment_of self.old) (moment_of self.new) }
        ensures spec { spec_of (moment_of self.new) ≡
            record (spec_of (moment_of self.old)) {
              alerts = put (spec_of (moment_of self.old)).alerts t alerted;
            } }
    {
        let mut thread = self.threads[t as usize];
        thread.alerted = alerted;
        self.threads[t as usize] = thread;
    }

    pub(super) fn set_place(&mut self, t: u32, place: Place)
        requires { t < vec_len self.old.threads }
        ensures keeps { Keeps (moment_of self.old) (moment_of self.new) }
        ensures spec { spec_of (moment_of self.new) ≡
            record (spec_of (moment_of self.old)) {
              members = λ c. put ((spec_of (moment_of self.old)).members c) t (is_inside c place);
              pending = put (spec_of (moment_of self.old)).pending t (pending_of place);
              life = put (spec_of (moment_of self.old)).life t (life_of place);
            } }
    {
        let mut thread = self.threads[t as usize];
        thread.place = place;
        self.threads[t as usize] = thread;
    }

    // The thread has played so many lines.
    pub(crate) fn set_played(&mut self, t: u32, played: u32)
        requires { t < vec_len self.old.threads }
        ensures sizes { SameSize (moment_of self.old) (moment_of self.new) }
        ensures spec { spec_of (moment_of self.new) ≡ spec_of (moment_of self.old) }
        ensures played { played_of (moment_of self.new) ≡ put (played_of (moment_of self.old)) t played }
    {
        let mut thread = self.threads[t as usize];
        thread.played = played;
        self.threads[t as usize] = thread;
    }
}
