//! Checks of what a package leaves.
use nub::{Action, Closed, Event, ThreadId};
use std::test::Fail;
use sum_uses::SumUses;

/// Returns the event of this action by the thread.
pub fn event(thread: u32, action: Action) -> Event {
    Event {
        thread: ThreadId(thread),
        action,
    }
}

/// Checks that these numbers are as expected. Tests compare them here, where nothing else is alive,
/// so that the proof takes far less time.
pub fn has_numbers(found: &[u64], expected: &[u64]) -> Result<(), Fail> {
    if found == expected {
        return Ok(());
    }
    Err(Fail::new(format_args!("{found:?} in place of {expected:?}")))
}

/// Checks that there is a trace of this many events, or none.
fn has_length(closed: &Closed<SumUses>, expected: Option<usize>) -> Result<(), Fail> {
    let length = match closed.trace() {
        Some(events) => Some(events.len()),
        None => None,
    };
    if length == expected {
        return Ok(());
    }
    Err(Fail::new(format_args!("{length:?} events in place of {expected:?}")))
}

/// Checks that the mutexes have these numbers, and that there is a trace of this many events, or
/// none.
pub fn has_left(
    closed: &Closed<SumUses>,
    values: &[u64],
    events: Option<usize>,
) -> Result<(), Fail> {
    has_numbers(closed.values(), values)?;
    has_length(closed, events)
}

/// Checks that there is a trace of these events.
pub fn has_played(closed: &Closed<SumUses>, expected: &[Event]) -> Result<(), Fail> {
    match closed.trace() {
        Some(events) if events == expected => Ok(()),
        _ => Err(Fail::from("other events")),
    }
}
