//! One part of the state at a time: what it says, and how it changes.
ghost use Rattle.std.specs.Prelude.{◌≡◌, ◌≢◌, ℕ, ◌<◌, ◌↔◌, IsTrue, true, false};
ghost use mathlib.Core.Option.{none, some};
ghost use Rattle.larch_actions.specs.Layout.{most_objects, most_threads};
ghost use Rattle.larch_actions.specs.Sets.{in_set};
ghost use Rattle.larch_actions.specs.Actions.{put};
ghost use Rattle.larch_actions.specs.State.{spec_of, shown_at, holder_of, pending_of, life_of, begun, is_begun, HasBegun};
ghost use Rattle.larch_actions.specs.declared.event.Life.TheVariants as Life;
ghost use Rattle.larch_actions.specs.declared.event.Pending.TheVariants.{Nothing};

use super::{State, ThreadState};
use crate::{CondId, Life, MutexId, Pending, SemId, ThreadId, ThreadSet};

impl State {
    // Whether the thread lives and has begun this.
    pub(super) fn has_begun(&self, t: ThreadId, what: Pending) -> bool
        requires { t.0 < most_threads }
        ensures { IsTrue result ↔ HasBegun (spec_of self.now) t.0 what }
    {
        is_same(self.threads[t.0 as usize], live_state(what))
    }

    pub(super) fn is_waiting(&self, t: ThreadId) -> bool
        requires { t.0 < most_threads }
        ensures { result ≡ is_begun ((spec_of self.now).pending t.0) }
    {
        waits(self.threads[t.0 as usize])
    }

    pub(super) fn is_unborn(&self, t: ThreadId) -> bool
        requires { t.0 < most_threads }
        ensures unborn { IsTrue result ↔ ((spec_of self.now).life t.0 ≡ Life.Unborn) }
        ensures idle { IsTrue result → (spec_of self.now).pending t.0 ≡ Nothing }
    {
        waits_for_its_fork(self.threads[t.0 as usize])
    }

    pub(super) fn has_ended(&self, t: ThreadId) -> bool
        requires { t.0 < most_threads }
        ensures { IsTrue result ↔ ((spec_of self.now).life t.0 ≡ Life.Ended) }
    {
        is_over(self.threads[t.0 as usize])
    }

    pub(super) fn is_free(&self, mutex: MutexId) -> bool
        requires { mutex.0 < most_objects }
        ensures { IsTrue result ↔ ((spec_of self.now).holder mutex.0 ≡ none) }
    {
        is_nobody(self.holders[mutex.0 as usize])
    }

    pub(super) fn is_holder(&self, t: ThreadId, mutex: MutexId) -> bool
        requires { mutex.0 < most_objects }
        ensures { IsTrue result ↔ ((spec_of self.now).holder mutex.0 ≡ some t.0) }
    {
        is_thread(self.holders[mutex.0 as usize], t)
    }

    // Whether the thread holds no mutex.
    pub(super) fn holds_none(&self, t: ThreadId) -> bool
        ensures { IsTrue result ↔ ((m : ℕ) → (spec_of self.now).holder m ≢ some t.0) }
    {
        is_nowhere(&self.holders, t)
    }

    pub(super) fn members_of(&self, cond: CondId) -> ThreadSet
        requires { cond.0 < most_objects }
        ensures { in_set result ≡ (spec_of self.now).members cond.0 }
    {
        self.members[cond.0 as usize]
    }

    pub(super) fn is_available(&self, sem: SemId) -> bool
        requires { sem.0 < most_objects }
        ensures { result ≡ (spec_of self.now).avail sem.0 }
    {
        self.available[sem.0 as usize]
    }

    pub(super) fn is_alerted(&self, t: ThreadId) -> bool
        requires { t.0 < most_threads }
        ensures { result ≡ (spec_of self.now).alerts t.0 }
    {
        self.alerts.has(t)
    }

    // Changes of one part of the state.

    pub(super) fn set_holder(&mut self, mutex: MutexId, holder: Option<ThreadId>)
        requires { mutex.0 < most_objects }
        ensures layout { self.new.layout ≡ self.old.layout }
        ensures spec { spec_of self.new ≡
            record (spec_of self.old) {
              holder = put (spec_of self.old).holder mutex.0 (holder_of holder);
            } }
    {
        self.holders[mutex.0 as usize] = holder;
    }

    pub(super) fn set_members(&mut self, cond: CondId, members: ThreadSet)
        requires { cond.0 < most_objects }
        ensures layout { self.new.layout ≡ self.old.layout }
        ensures spec { spec_of self.new ≡
            record (spec_of self.old) {
              members = put (spec_of self.old).members cond.0 (in_set members);
            } }
    {
        self.members[cond.0 as usize] = members;
    }

    pub(super) fn set_available(&mut self, sem: SemId, available: bool)
        requires { sem.0 < most_objects }
        ensures layout { self.new.layout ≡ self.old.layout }
        ensures spec { spec_of self.new ≡
            record (spec_of self.old) {
              avail = put (spec_of self.old).avail sem.0 available;
            } }
    {
        self.available[sem.0 as usize] = available;
    }

    pub(super) fn set_alert(&mut self, t: ThreadId)
        requires { t.0 < most_threads }
        ensures layout { self.new.layout ≡ self.old.layout }
        ensures spec { spec_of self.new ≡
            record (spec_of self.old) {
              alerts = put (spec_of self.old).alerts t.0 true;
            } }
    {
        self.alerts.insert(t);
    }

    pub(super) fn clear_alert(&mut self, t: ThreadId)
        requires { t.0 < most_threads }
        ensures layout { self.new.layout ≡ self.old.layout }
        ensures spec { spec_of self.new ≡
            record (spec_of self.old) {
              alerts = put (spec_of self.old).alerts t.0 false;
            } }
    {
        self.alerts.remove(t);
    }

    // What a thread that lives has begun.
    pub(super) fn set_pending(&mut self, t: ThreadId, what: Pending)
        requires thread { t.0 < most_threads }
        requires live { (spec_of self.old).life t.0 ≡ Life.Live }
        ensures layout { self.new.layout ≡ self.old.layout }
        ensures spec { spec_of self.new ≡
            record (spec_of self.old) {
              pending = put (spec_of self.old).pending t.0 what;
            } }
    {
        self.threads[t.0 as usize] = live_state(what);
    }

    // The life of a thread that has begun nothing.
    pub(super) fn set_life(&mut self, t: ThreadId, life: Life)
        requires thread { t.0 < most_threads }
        requires idle { (spec_of self.old).pending t.0 ≡ Nothing }
        ensures layout { self.new.layout ≡ self.old.layout }
        ensures spec { spec_of self.new ≡
            record (spec_of self.old) {
              life = put (spec_of self.old).life t.0 life;
            } }
    {
        self.threads[t.0 as usize] = idle(life);
    }
}

#[inline(always)]
fn live_state(what: Pending) -> ThreadState
    ensures { result ≡ begun what }
{
    match what {
        Pending::Nothing => ThreadState::Running,
        Pending::Waiting { mutex, cond } => ThreadState::Waiting { mutex, cond },
        Pending::AlertWaiting { mutex, cond } => ThreadState::AlertWaiting { mutex, cond },
    }
}

#[inline(always)]
fn idle(life: Life) -> ThreadState
    ensures life { life_of result ≡ life }
    ensures pending { pending_of result ≡ Nothing }
{
    match life {
        Life::Unborn => ThreadState::Unborn,
        Life::Live => ThreadState::Running,
        Life::Ended => ThreadState::Ended,
    }
}

#[inline(always)]
fn is_same(a: ThreadState, b: ThreadState) -> bool
    ensures { IsTrue result ↔ (a ≡ b) }
{
    a == b
}

fn waits(thread: ThreadState) -> bool
    ensures { result ≡ is_begun (pending_of thread) }
{
    match thread {
        ThreadState::Waiting { .. } => true,
        ThreadState::AlertWaiting { .. } => true,
        _ => false,
    }
}

fn waits_for_its_fork(thread: ThreadState) -> bool
    ensures unborn { IsTrue result ↔ (life_of thread ≡ Life.Unborn) }
    ensures idle { IsTrue result → pending_of thread ≡ Nothing }
{
    match thread {
        ThreadState::Unborn => true,
        _ => false,
    }
}

fn is_over(thread: ThreadState) -> bool
    ensures { IsTrue result ↔ (life_of thread ≡ Life.Ended) }
{
    match thread {
        ThreadState::Ended => true,
        _ => false,
    }
}

fn is_nobody(holder: Option<ThreadId>) -> bool
    ensures { IsTrue result ↔ (holder_of holder ≡ none) }
{
    match holder {
        None => true,
        Some(_) => false,
    }
}

fn is_thread(holder: Option<ThreadId>, t: ThreadId) -> bool
    ensures { IsTrue result ↔ (holder_of holder ≡ some t.0) }
{
    match holder {
        None => false,
        Some(h) => h.0 == t.0,
    }
}

// Whether the thread is none of these holders.
fn is_nowhere(holders: &[Option<ThreadId>], t: ThreadId) -> bool
    ensures { IsTrue result ↔ ((m : ℕ) → shown_at holder_of none holders.now m ≢ some t.0) }
{
    for m in 0..holders.len() {
        if is_thread(holders[m], t) {
            return false;
        }
    }
    true
}
