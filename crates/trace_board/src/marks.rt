//! The table of actions: which mark each has, and what it does to what is kept of the events before.
//!
//! A further action is a row here and in specs/Marks.antt.
ghost use Rattle.std.specs.Prelude.{◌≡◌};
ghost use Rattle.trace_board.specs.Marks.{plain, begun, ended, raised, semaphore_taken, heard, marks_of};

use crate::board::Reason;
use crate::causes::CauseChange;
use crate::history::Change;
use larch_actions::{Action, CondId, MutexId, SemId, ThreadId, ThreadSet};

/// The mark of an event.
#[derive(Clone, Copy)]
pub enum Mark {
    Acquire,
    Release,
    Enqueue,
    Resume,
    Signal,
    Broadcast,
    P,
    V,
    Alert,
    TestAlert,
    AlertEnqueue,
    AlertReturn,
    AlertRaise,
    AlertPReturn,
    AlertPRaise,
    Fork,
    End,
    Join,
    /// Of an event that fails.
    Failed,
}

/// What an action shows and does.
#[derive(Clone, Copy)]
pub struct Effects {
    /// Which mark it has.
    pub mark: Mark,
    /// The number of its mutex or semaphore, of the condition of a wait, a signal or a broadcast, of the thread that is alerted, forked or joined, that
    /// asks or ends.
    pub object: u32,
    /// Which mutex it takes or gives back.
    pub mutex: Change,
    /// Which semaphore it takes or makes available.
    pub semaphore: Change,
    /// Whether it begins or ends a wait of its thread.
    pub wait: Change,
    /// Which thread it forks or ends.
    pub life: Change,
    /// What it does to those who stand in conditions.
    pub stand: CauseChange,
    /// What it does to semaphores.
    pub avail: CauseChange,
    /// What it does to alerts.
    pub alert: CauseChange,
    /// What it goes on by.
    pub waker: Reason,
}

// A mark of an object, and nothing done.
#[inline(always)]
fn plain(mark: Mark, object: u32) -> Effects
    ensures { result ≡ plain mark object }
{
    Effects {
        mark,
        object,
        mutex: Change::Stays,
        semaphore: Change::Stays,
        wait: Change::Stays,
        life: Change::Stays,
        stand: CauseChange::Stays,
        avail: CauseChange::Stays,
        alert: CauseChange::Stays,
        waker: Reason::Nobody,
    }
}

// The first part of a wait.
#[inline(always)]
fn begins(mark: Mark, t: ThreadId, held: MutexId, cond: CondId) -> Effects
    ensures { result ≡ begun mark t.0 held.0 cond.0 }
{
    Effects {
        mutex: Change::Ends(held.0),
        wait: Change::Begins(t.0),
        stand: CauseChange::Awaits(t.0, cond.0),
        ..plain(mark, cond.0)
    }
}

// The second part of a wait that returns.
#[inline(always)]
fn ends(mark: Mark, t: ThreadId, mutex: MutexId, cond: CondId) -> Effects
    ensures { result ≡ ended mark t.0 mutex.0 cond.0 }
{
    Effects {
        mutex: Change::Begins(mutex.0),
        wait: Change::Ends(t.0),
        stand: CauseChange::Ends(t.0),
        waker: Reason::Condition(t.0),
        ..plain(mark, cond.0)
    }
}

// The second part of a wait that raises.
#[inline(always)]
fn raises(mark: Mark, t: ThreadId, mutex: MutexId, cond: CondId) -> Effects
    ensures { result ≡ raised mark t.0 mutex.0 cond.0 }
{
    Effects {
        mutex: Change::Begins(mutex.0),
        wait: Change::Ends(t.0),
        stand: CauseChange::Ends(t.0),
        alert: CauseChange::Ends(t.0),
        waker: Reason::Alerted(t.0),
        ..plain(mark, cond.0)
    }
}

// A semaphore is taken.
#[inline(always)]
fn taking(mark: Mark, sem: SemId) -> Effects
    ensures { result ≡ semaphore_taken mark sem.0 }
{
    Effects {
        semaphore: Change::Begins(sem.0),
        avail: CauseChange::Awaits(sem.0, sem.0),
        waker: Reason::Semaphore(sem.0),
        ..plain(mark, sem.0)
    }
}

// The own alert is taken.
#[inline(always)]
fn heard(mark: Mark, t: ThreadId, object: u32) -> Effects
    ensures { result ≡ heard mark t.0 object }
{
    Effects {
        alert: CauseChange::Ends(t.0),
        waker: Reason::Alerted(t.0),
        ..plain(mark, object)
    }
}

/// What an action by the thread shows and does.
#[inline(always)]
pub fn marks_of(t: ThreadId, action: &Action) -> Effects
    ensures { result ≡ marks_of t.0 action.now }
{
    match *action {
        Action::Acquire { mutex } => Effects {
            mutex: Change::Begins(mutex.0),
            ..plain(Mark::Acquire, mutex.0)
        },
        Action::Release { mutex } => Effects {
            mutex: Change::Ends(mutex.0),
            ..plain(Mark::Release, mutex.0)
        },
        Action::Enqueue { mutex, cond } => begins(Mark::Enqueue, t, mutex, cond),
        Action::Resume { mutex, cond } => ends(Mark::Resume, t, mutex, cond),
        Action::AlertEnqueue { mutex, cond } => begins(Mark::AlertEnqueue, t, mutex, cond),
        Action::AlertReturn { mutex, cond } => ends(Mark::AlertReturn, t, mutex, cond),
        Action::AlertRaise { mutex, cond } => raises(Mark::AlertRaise, t, mutex, cond),
        Action::Signal { cond, left } => Effects {
            stand: CauseChange::Frees(cond.0, left),
            ..plain(Mark::Signal, cond.0)
        },
        Action::Broadcast { cond } => Effects {
            stand: CauseChange::Frees(cond.0, ThreadSet::empty()),
            ..plain(Mark::Broadcast, cond.0)
        },
        Action::P { sem } => taking(Mark::P, sem),
        Action::V { sem } => Effects {
            semaphore: Change::Ends(sem.0),
            avail: CauseChange::Opens(sem.0),
            ..plain(Mark::V, sem.0)
        },
        Action::Alert { who } => Effects {
            alert: CauseChange::Comes(who.0),
            ..plain(Mark::Alert, who.0)
        },
        Action::TestAlert { yes: _ } => heard(Mark::TestAlert, t, t.0),
        Action::AlertPReturn { sem } => taking(Mark::AlertPReturn, sem),
        Action::AlertPRaise { sem } => heard(Mark::AlertPRaise, t, sem.0),
        Action::Fork { who } => Effects {
            life: Change::Begins(who.0),
            ..plain(Mark::Fork, who.0)
        },
        Action::End => Effects {
            life: Change::Ends(t.0),
            ..plain(Mark::End, t.0)
        },
        Action::Join { who } => Effects {
            waker: Reason::Ended(who.0),
            ..plain(Mark::Join, who.0)
        },
    }
}
