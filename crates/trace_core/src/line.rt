//! The lines of a trace text.
ghost use Rattle.std.specs.Prelude.{◌≡◌, ◌+◌, ◌≤◌, ◌<◌, length, codes};
ghost use Rattle.larch_actions.specs.Layout.{IsLawful, most_objects};
ghost use Rattle.exact_text.specs.Reading.{Gives, both, as_value};
ghost use Rattle.trace_core.specs.Lines.{IsPossible, named_at, event_at, end_at, event_or_end_at, head_at, layout_from, counts_at, value_at, line_at};

use crate::action::action;
use crate::names::number_from;
use crate::token::{place_and_t, word_and_name};
use exact_text::{Stop, flag, long_number, number, word};
use itoa::Buffer;
use larch_actions::{Event, Layout, MOST_OBJECTS, ThreadId, Version};

/// A line of a trace text.
#[derive(Clone, Copy)]
pub enum Line {
    Head(Version),
    Counts(Layout),
    Event(Event),
    End,
    Value { mutex: u32, value: u64 },
}

/// Which line comes next.
#[derive(Clone, Copy)]
pub enum Expect {
    Head,
    Counts(Version),
    Events { layout: Layout, place: u64 },
    Values { layout: Layout, least: u32 },
}

// Reads the line of the event in this place.
#[tactic(auto, unfolding(crate::specs::Lines::event_at))]
fn event<'b>(bytes: &'b [u8], layout: &Layout, place: u64) -> Result<(Event, &'b [u8]), Stop>
    requires { IsLawful layout.now }
    ensures { Gives (λ x. (x.0, x.1.now)) result (event_at layout.now place bytes.now) }
{
    let rest = match place_and_t(bytes, place) {
        Ok(rest) => rest,
        Err(stop) => return Err(stop),
    };
    let (t, rest) = match number(rest, 0, layout.threads, b' ') {
        Ok(read) => read,
        Err(stop) => return Err(stop),
    };
    let thread = ThreadId(t);
    match action(rest, layout) {
        Ok((action, rest)) => Ok((Event { thread, action }, rest)),
        Err(stop) => Err(stop),
    }
}

// Reads the end line of so many events.
fn end(bytes: &[u8], count: u64) -> Result<(Line, &[u8]), Stop>
    ensures { Gives (λ x. (x.0, x.1.now)) result (end_at count bytes.now) }
{
    let mut buffer = Buffer::new();
    let rest = match word(bytes, b"end ") {
        Ok(rest) => rest,
        Err(stop) => return Err(stop),
    };
    let rest = match word(rest, buffer.format(count).as_bytes()) {
        Ok(rest) => rest,
        Err(stop) => return Err(stop),
    };
    match word(rest, b"\n") {
        Ok(rest) => Ok((Line::End, rest)),
        Err(stop) => Err(stop),
    }
}

// Reads the line of the event in this place, or the end line.
fn event_or_end<'b>(bytes: &'b [u8], layout: &Layout, place: u64) -> Result<(Line, &'b [u8]), Stop>
    requires { IsLawful layout.now }
    ensures { Gives (λ x. (x.0, x.1.now)) result (event_or_end_at layout.now place bytes.now) }
{
    match event(bytes, layout, place) {
        Err(Stop::Dead) => end(bytes, place),
        Err(Stop::More) => Err(Stop::More),
        Ok((event, rest)) => Ok((Line::Event(event), rest)),
    }
}

// Reads the first line, which has the version.
fn head(bytes: &[u8]) -> Result<(Line, &[u8]), Stop>
    ensures { Gives (λ x. (x.0, x.1.now)) result (head_at bytes.now) }
{
    match flag(bytes, b"firefly-trace 1\n", b"firefly-trace 2\n") {
        Ok((true, rest)) => Ok((Line::Head(Version::One), rest)),
        Ok((false, rest)) => Ok((Line::Head(Version::Two), rest)),
        Err(stop) => Err(stop),
    }
}

// Reads the counts after that of the threads, up to the end of the layout line.
fn last_counts(bytes: &[u8], version: Version, threads: u32) -> Result<(Layout, &[u8]), Stop>
    ensures { Gives (λ x. (x.0, x.1.now)) result (as_value (λ p. layout_from version (threads, p))
        (both (named_at (codes "mutexes ") (most_objects + 1) 32) (λ _. both (named_at (codes "conditions ") (most_objects + 1) 32)
        (λ _. named_at (codes "semaphores ") (most_objects + 1) 10))) bytes.now) }
{
    let (mutexes, rest) = match word_and_name(bytes, b"mutexes ", MOST_OBJECTS + 1, b' ') {
        Ok(read) => read,
        Err(stop) => return Err(stop),
    };
    let (conditions, rest) = match word_and_name(rest, b"conditions ", MOST_OBJECTS + 1, b' ') {
        Ok(read) => read,
        Err(stop) => return Err(stop),
    };
    let (semaphores, rest) = match word_and_name(rest, b"semaphores ", MOST_OBJECTS + 1, b'\n') {
        Ok(read) => read,
        Err(stop) => return Err(stop),
    };
    let layout = Layout::of_version(version, threads, mutexes, conditions, semaphores);
    Ok((layout, rest))
}

/// Reads the layout line of a text of the version, and returns what follows it.
pub fn layout_line(bytes: &[u8], version: Version) -> Result<(Layout, &[u8]), Stop>
    ensures { Gives (λ x. (x.0, x.1.now)) result (counts_at version bytes.now) }
{
    let rest = match word(bytes, b"threads ") {
        Ok(rest) => rest,
        Err(stop) => return Err(stop),
    };
    let (threads, rest) = match number(rest, 1, version.most_threads() + 1, b' ') {
        Ok(read) => read,
        Err(stop) => return Err(stop),
    };
    last_counts(rest, version, threads)
}

// The same as a line.
fn counts(bytes: &[u8], version: Version) -> Result<(Line, &[u8]), Stop>
    ensures { Gives (λ x. (x.0, x.1.now)) result (as_value Line.Counts (counts_at version) bytes.now) }
{
    match layout_line(bytes, version) {
        Ok((layout, rest)) => Ok((Line::Counts(layout), rest)),
        Err(stop) => Err(stop),
    }
}

// Reads the value line of a mutex from `least` on.
fn value<'b>(bytes: &'b [u8], layout: &Layout, least: u32) -> Result<(Line, &'b [u8]), Stop>
    requires { IsLawful layout.now }
    ensures { Gives (λ x. (x.0, x.1.now)) result (value_at layout.now least bytes.now) }
{
    let rest = match word(bytes, b"value m") {
        Ok(rest) => rest,
        Err(stop) => return Err(stop),
    };
    let name = match number_from(rest, false, least, layout.mutexes) {
        Ok(name) => name,
        Err(stop) => return Err(stop),
    };
    let mutex = name.value;
    match long_number(name.rest, 0, b'\n') {
        Ok((value, rest)) => Ok((Line::Value { mutex, value }, rest)),
        Err(stop) => Err(stop),
    }
}

/// Reads the line that comes next, and gives the bytes after it.
pub fn line_of<'b>(bytes: &'b [u8], expect: &Expect) -> Result<(Line, &'b [u8]), Stop>
    requires { IsPossible expect.now }
    ensures { Gives (λ x. (x.0, x.1.now)) result (line_at expect.now bytes.now) }
{
    match expect {
        Expect::Head => head(bytes),
        Expect::Counts(version) => counts(bytes, *version),
        Expect::Events { layout, place } => event_or_end(bytes, layout, *place),
        Expect::Values { layout, least } => value(bytes, layout, *least),
    }
}
