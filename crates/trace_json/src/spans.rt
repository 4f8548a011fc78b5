//! Which spans an action begins and ends.
ghost use Rattle.std.specs.Prelude.{◌≡◌};
ghost use Rattle.trace_json.specs.Spans as spans;

use larch_actions::{Action, CondId, MutexId, SemId};

/// What lasts from one event to another: a mutex is held, a thread waits in a condition, a semaphore is taken.
#[derive(Clone, Copy, Debug, PartialEq, Eq)]
pub enum Span {
    Mutex(MutexId),
    Wait(CondId),
    Semaphore(SemId),
}

/// The span that an action ends.
pub fn ended_by(action: &Action) -> Option<Span>
    ensures { result ≡ spans.ended_by action.now }
{
    match *action {
        Action::Release { mutex } => Some(Span::Mutex(mutex)),
        Action::Enqueue { mutex, cond: _ } => Some(Span::Mutex(mutex)),
        Action::AlertEnqueue { mutex, cond: _ } => Some(Span::Mutex(mutex)),
        Action::Resume { mutex: _, cond } => Some(Span::Wait(cond)),
        Action::AlertReturn { mutex: _, cond } => Some(Span::Wait(cond)),
        Action::AlertRaise { mutex: _, cond } => Some(Span::Wait(cond)),
        Action::V { sem } => Some(Span::Semaphore(sem)),
        _ => None,
    }
}

/// The span that an action begins.
pub fn begun_by(action: &Action) -> Option<Span>
    ensures { result ≡ spans.begun_by action.now }
{
    match *action {
        Action::Acquire { mutex } => Some(Span::Mutex(mutex)),
        Action::Resume { mutex, cond: _ } => Some(Span::Mutex(mutex)),
        Action::AlertReturn { mutex, cond: _ } => Some(Span::Mutex(mutex)),
        Action::AlertRaise { mutex, cond: _ } => Some(Span::Mutex(mutex)),
        Action::Enqueue { mutex: _, cond } => Some(Span::Wait(cond)),
        Action::AlertEnqueue { mutex: _, cond } => Some(Span::Wait(cond)),
        Action::P { sem } => Some(Span::Semaphore(sem)),
        Action::AlertPReturn { sem } => Some(Span::Semaphore(sem)),
        _ => None,
    }
}
