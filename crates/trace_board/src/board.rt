//! What is kept of the events before.
ghost use Rattle.std.specs.Prelude.{◌≡◌, ◌<◌};
ghost use Rattle.larch_actions.specs.Actions.{lives_at_first};
ghost use Rattle.larch_actions.specs.Layout.{most_threads};
ghost use Rattle.trace_board.specs.Tracked.{nothing_tracked, tracked_after, tracked_of, came, let_on_by, is_from, has_run, was_held, life_by, life_in, IsNoted, IsNear};

use crate::causes::{Cause, Causes};
use crate::history::{Change, Lives, Origin, Table, ended_by};
use crate::holds::Longest;
use crate::marks::marks_of;
use crate::rows::Rows;
use larch_actions::{Event, Life, Version};

/// Since which event each mutex is held, each semaphore is taken and each thread waits, which event lets each thread go on, which lane each bar has,
/// which event last gave each mutex back, for how long each mutex was held at the longest, which is the latest event of each thread, and which forked and
/// which ended it.
#[derive(Drop)]
pub struct TraceState {
    pub held: Table,
    pub waits: Table,
    pub stands: Causes,
    pub opens: Causes,
    pub alerts: Causes,
    pub rows: Rows,
    pub given: Table,
    pub taken: Table,
    pub longest: Longest,
    pub latest: Table,
    pub lives: Lives,
}

/// What a thread goes on by: that it was taken out of its condition, that a semaphore is available, that it is alerted, or that another thread has ended.
#[derive(Clone, Copy)]
pub enum Reason {
    Condition(u32),
    Semaphore(u32),
    Alerted(u32),
    Ended(u32),
    Nobody,
}

// The event that the cause is.
fn event_of(cause: Cause) -> Option<Origin>
    ensures { result ≡ came cause }
{
    match cause {
        Cause::Never => None,
        Cause::Awaited(_) => None,
        Cause::By(o) => Some(o),
    }
}

// Whether it is so since the event `start` or a later one.
fn is_from(start: u64, since: Option<Origin>) -> bool
    ensures { result ≡ is_from start since }
{
    match since {
        Some(o) => start <= o.place,
        None => false,
    }
}

// The life of the thread at first.
fn first_life(version: Version, t: u32) -> Life
    ensures { result ≡ lives_at_first version t }
{
    match version {
        Version::One => Life::Live,
        Version::Two => { if t == 0 { Life::Live } else { Life::Unborn } }
    }
}

// Its life after these events that forked and ended it.
fn life_by(first: Life, born: Option<Origin>, over: Option<Origin>) -> Life
    ensures { result ≡ life_by first born over }
{
    match over {
        Some(_) => Life::Ended,
        None => match born {
            Some(_) => Life::Live,
            None => first,
        },
    }
}

impl TraceState {
    /// Nothing is held, and nobody waits.
    pub fn new() -> TraceState
        ensures { tracked_of result ≡ nothing_tracked }
    {
        let held = Table::new();
        let waits = Table::new();
        let stands = Causes::new();
        let opens = Causes::new();
        let alerts = Causes::new();
        let rows = Rows::new();
        let given = Table::new();
        let taken = Table::new();
        let longest = Longest::new();
        let latest = Table::new();
        let lives = Lives::new();
        TraceState {
            held,
            waits,
            stands,
            opens,
            alerts,
            rows,
            given,
            taken,
            longest,
            latest,
            lives,
        }
    }

    /// The event by which a thread goes on.
    pub fn waker(&self, waker: Reason) -> Option<Origin>
        requires { IsNear waker }
        ensures { result ≡ let_on_by (tracked_of self.now) waker }
    {
        match waker {
            Reason::Condition(t) => event_of(self.stands.at(t)),
            Reason::Semaphore(s) => event_of(self.opens.at(s)),
            Reason::Alerted(t) => event_of(self.alerts.at(t)),
            Reason::Ended(t) => self.lives.over.at(t),
            Reason::Nobody => None,
        }
    }

    /// Whether the thread had an event from the event `start` on.
    pub fn has_run(&self, start: u64, t: u32) -> bool
        requires { t < most_threads }
        ensures { result ≡ has_run (tracked_of self.now) start t }
    {
        is_from(start, self.latest.at(t))
    }

    /// Whether the thread is unborn, lives or has ended, in a trace of this version.
    pub fn life(&self, version: Version, t: u32) -> Life
        requires { t < most_threads }
        ensures { result ≡ life_in version (tracked_of self.now) t }
    {
        life_by(
            first_life(version, t),
            self.lives.born.at(t),
            self.lives.over.at(t),
        )
    }

    /// Whether the mutex is held, or was given back from the event `start` on.
    pub fn was_held(&self, start: u64, m: u32) -> bool
        requires { m < most_threads }
        ensures { result ≡ was_held (tracked_of self.now) start m }
    {
        match self.held.at(m) {
            Some(_) => true,
            None => is_from(start, self.given.at(m)),
        }
    }

    /// Notes what the event takes, gives back, awaits and lets go on.
    pub fn note(&mut self, place: u64, e: &Event)
        requires { IsNoted e.now }
        ensures { tracked_of self.new ≡ tracked_after place e.now (tracked_of self.old) }
    {
        let marks = marks_of(e.thread, &e.action);
        let by = Origin {
            thread: e.thread,
            object: marks.object,
            place,
        };
        self.longest.note(marks.mutex, place, &self.held);
        self.rows.note(marks.mutex, e.thread.0);
        self.rows
            .note_semaphore(marks.semaphore, e.thread.0, &self.taken);
        self.held.note(marks.mutex, by);
        self.waits.note(marks.wait, by);
        self.stands.note(marks.stand, by);
        self.opens.note(marks.avail, by);
        self.alerts.note(marks.alert, by);
        self.given.note(ended_by(marks.mutex), by);
        self.taken.note(marks.semaphore, by);
        self.latest.note(Change::Begins(e.thread.0), by);
        self.lives.note(marks.life, by);
    }
}
