//! The state of the specification, and the step of each action on it.
ghost use Rattle.std.specs.Prelude.{◌≡◌, ◌<◌, ◌↔◌, IsTrue, OnOk, OnErr, IfErr, true, false};
ghost use mathlib.Core.Option.{none, some};
ghost use Rattle.larch_actions.specs.Layout.{IsLawful, HasNames};
ghost use Rattle.larch_actions.specs.Sets.{in_set};
ghost use Rattle.larch_actions.specs.Actions.{at_first, lives_at_first, Acts, Fails, put};
ghost use Rattle.larch_actions.specs.State.{Moment, spec_of, shown_at, pending_of, life_of, life_beyond, Answers, held, waiting, alerted};
ghost use Rattle.larch_actions.specs.declared.event.Life.TheVariants as Life;
ghost use Rattle.larch_actions.specs.declared.event.Pending.TheVariants.{Nothing};

mod parts;
mod steps;

use crate::{Action, Broken, CondId, Event, Layout, MutexId, ThreadId, ThreadSet, Version};
use std::marker::Model;

/// How many mutexes are held, how many threads are between the two parts of a wait, and how many are alerted.
#[derive(Clone, Copy, Debug, PartialEq, Eq)]
pub struct Totals {
    pub held: u64,
    pub waiting: u64,
    pub alerted: u64,
}

/// Where a thread stands: its life, and while it lives what it has begun. One word for both, so that one comparison decides the order.
#[derive(Clone, Copy, PartialEq, Eq)]
pub enum ThreadState {
    Unborn,
    /// It lives, and is in no wait.
    Running,
    Waiting { mutex: MutexId, cond: CondId },
    AlertWaiting { mutex: MutexId, cond: CondId },
    Ended,
}

/// The state of the specification for one layout.
#[derive(Drop)]
pub struct State {
    layout: Layout,
    holders: [Option<ThreadId>; 64],
    members: [ThreadSet; 64],
    available: [bool; 64],
    alerts: ThreadSet,
    threads: [ThreadState; 256],
}

impl Model for State {
    ghost use Rattle.larch_actions.specs.Layout.{IsLawful};
    ghost use Rattle.larch_actions.specs.State.{Moment};

    ghost Value = { Moment };

    ghost view = { λ s. record {
      layout = s.layout;
      holders = s.holders;
      members = s.members;
      available = s.available;
      alerts = s.alerts;
      threads = s.threads;
    } };

    ghost invariant = { λ s. IsLawful s.layout };
}

impl State {
    /// The first state: nothing is held, waited for or alerted, and each semaphore is available. In version one each thread lives, and
    /// in version two thread 0 alone.
    pub fn new(layout: Layout) -> State
        requires { IsLawful layout }
        ensures layout { result.layout ≡ layout }
        ensures first { spec_of result ≡ at_first layout.version }
    {
        State {
            layout,
            holders: [None; 64],
            members: [ThreadSet::empty(); 64],
            available: [true; 64],
            alerts: ThreadSet::empty(),
            threads: first_threads(layout.version),
        }
    }

    /// Makes the step of the event where it keeps the order and its action's row. Else it says which of Order, Requires,
    /// When and Ensures the event fails first, and the state stays as it was.
    pub fn apply(&mut self, e: &Event) -> Result<(), Broken>
        requires { HasNames self.old.layout e.now }
        ensures ok { OnOk result (Acts (spec_of self.old) e.now (spec_of self.new)) }
        ensures refused { IfErr result (Fails (spec_of self.old) e.now) }
        ensures same { OnErr result (self.new ≡ self.old) }
        ensures layout { self.new.layout ≡ self.old.layout }
    {
        self.act(e)
    }

    // The same, said by one clause for all actions.
    #[inline(always)]
    fn act(&mut self, e: &Event) -> Result<(), Broken>
        requires { HasNames self.old.layout e.now }
        ensures { Answers self.old self.new e.now result }
    {
        // This brings the invariant of the state, that its layout is lawful, into the proof.
        let _ = &self.layout;
        let t = e.thread;
        match e.action {
            Action::Acquire { mutex } => self.acquire(t, mutex),
            Action::Release { mutex } => self.release(t, mutex),
            Action::Enqueue { mutex, cond } => self.enqueue(t, mutex, cond),
            Action::Resume { mutex, cond } => self.resume(t, mutex, cond),
            Action::AlertEnqueue { mutex, cond } => self.alert_enqueue(t, mutex, cond),
            Action::AlertReturn { mutex, cond } => self.alert_return(t, mutex, cond),
            Action::AlertRaise { mutex, cond } => self.alert_raise(t, mutex, cond),
            Action::Signal { cond, left } => self.signal(t, cond, left),
            Action::Broadcast { cond } => self.broadcast(t, cond),
            Action::P { sem } => self.p(t, sem),
            Action::V { sem } => self.v(t, sem),
            Action::Alert { who } => self.alert(t, who),
            Action::TestAlert { yes } => self.test_alert(t, yes),
            Action::AlertPReturn { sem } => self.alert_p_return(t, sem),
            Action::AlertPRaise { sem } => self.alert_p_raise(t, sem),
            Action::Fork { who } => self.fork(t, who),
            Action::End => self.end(t),
            Action::Join { who } => self.join(t, who),
        }
    }

    /// Counts what is held, waited for and alerted.
    pub fn summary(&self) -> Totals
        ensures held { result.held ≡ held self.now.layout (spec_of self.now) }
        ensures waiting { result.waiting ≡ waiting self.now.layout (spec_of self.now) }
        ensures alerted { result.alerted ≡ alerted self.now.layout (spec_of self.now) }
    {
        Totals {
            held: self.count_held(),
            waiting: self.count_waiting(),
            alerted: self.count_alerted(),
        }
    }

    fn count_held(&self) -> u64
        ensures { result ≡ held self.now.layout (spec_of self.now) }
    {
        let mut count = 0;
        for m in 0..self.layout.mutexes {
            if !self.is_free(MutexId(m)) {
                count += 1;
            }
        }
        count
    }

    fn count_waiting(&self) -> u64
        ensures { result ≡ waiting self.now.layout (spec_of self.now) }
    {
        let mut count = 0;
        for t in 0..self.layout.threads {
            if self.is_waiting(ThreadId(t)) {
                count += 1;
            }
        }
        count
    }

    fn count_alerted(&self) -> u64
        ensures { result ≡ alerted self.now.layout (spec_of self.now) }
    {
        let mut count = 0;
        for t in 0..self.layout.threads {
            if self.is_alerted(ThreadId(t)) {
                count += 1;
            }
        }
        count
    }
}

// Where each thread stands at first.
fn first_threads(version: Version) -> [ThreadState; 256]
    ensures pending { shown_at pending_of Nothing result ≡ λ _. Nothing }
    ensures life { shown_at life_of (life_beyond version) result ≡ lives_at_first version }
{
    match version {
        Version::One => [ThreadState::Running; 256],
        Version::Two => one_lives(),
    }
}

fn one_lives() -> [ThreadState; 256]
    ensures pending { shown_at pending_of Nothing result ≡ λ _. Nothing }
    ensures life { shown_at life_of Life.Unborn result ≡ put (λ _. Life.Unborn) 0 Life.Live }
{
    let mut threads = [ThreadState::Unborn; 256];
    threads[0] = ThreadState::Running;
    threads
}
