//! The texts of events, written into a buffer after its first `at` bytes. Each call returns where it ended.
ghost use Rattle.std.specs.Prelude.{◌≡◌, ◌+◌, ◌*◌, ◌≤◌, ◌++◌, ◌∷◌, [], length, take, codes};
ghost use Rattle.larch_actions.specs.Layout.{IsLawful};
ghost use Rattle.trace_core.specs.Text.{action_text};
ghost use Rattle.trace_json.specs.Spans as spans;
ghost use Rattle.trace_json.specs.Texts.{with_number, opening_text, row_text, rows_text, head_text, place_text, instant_text, span_name, turn_text, turn_if, event_text};

use crate::spans::{Span, begun_by, ended_by};
use larch_actions::{Event, Layout, ThreadId};
use trace_core::{add, add_event, add_number};

// Adds words and a number. Where it is called the words are known, so they are stored and not copied.
#[inline(always)]
fn add_with_number(buf: &mut [u8], at: usize, words: &[u8], n: u64) -> usize
    requires { at + length words.now + 20 ≤ length buf.old }
    ensures text { take result buf.new ≡ take at buf.old ++ with_number words.now n }
    ensures near { result ≤ at + length words.now + 20 }
{
    let at = add(buf, at, words);
    add_number(buf, at, n)
}

// The same of the number of a thread, a mutex, a condition or a semaphore.
#[inline(always)]
fn add_named(buf: &mut [u8], at: usize, words: &[u8], n: u32) -> usize
    requires { at + length words.now + 20 ≤ length buf.old }
    ensures text { take result buf.new ≡ take at buf.old ++ with_number words.now n }
    ensures near { result ≤ at + length words.now + 20 }
{
    add_with_number(buf, at, words, u64::from(n))
}

// Adds the row of a thread.
#[tactic(auto, unfolding(crate::specs::Texts::row_text))]
fn add_row(buf: &mut [u8], at: usize, thread: u32) -> usize
    requires { at + 250 ≤ length buf.old }
    ensures text { take result buf.new ≡ take at buf.old ++ row_text thread }
    ensures near { result ≤ at + 250 }
{
    let at = add_named(buf, at, b",\n{\"ph\":\"M\",\"pid\":0,\"tid\":", thread);
    let at = add_named(
        buf,
        at,
        b",\"name\":\"thread_name\",\"args\":{\"name\":\"t",
        thread,
    );
    let at = add_named(buf, at, b"\"}},\n{\"ph\":\"M\",\"pid\":0,\"tid\":", thread);
    let at = add_named(
        buf,
        at,
        b",\"name\":\"thread_sort_index\",\"args\":{\"sort_index\":",
        thread,
    );
    add(buf, at, b"}}")
}

// Adds the rows of the threads below a bound.
fn add_rows(buf: &mut [u8], at: usize, threads: u32) -> usize
    requires room { at + 250 * threads ≤ length buf.old }
    ensures text { take result buf.new ≡ take at buf.old ++ rows_text threads }
    ensures near { result ≤ at + 250 * threads }
{
    let mut last = at;
    for t in 0..threads {
        last = add_row(buf, last, t);
    }
    last
}

/// Adds what stands before the events.
#[tactic(auto, using(larch_actions::proofs::Names::few_threads), unfolding(crate::specs::Texts::head_text, crate::specs::Texts::opening_text))]
pub fn add_head(buf: &mut [u8], at: usize, layout: &Layout) -> usize
    requires lawful { IsLawful layout.now }
    requires room { at + 65000 ≤ length buf.old }
    ensures text { take result buf.new ≡ take at buf.old ++ head_text layout.now }
    ensures near { result ≤ at + 65000 }
{
    let at = add(
        buf,
        at,
        b"{\"displayTimeUnit\":\"ms\",\"traceEvents\":[\n{\"ph\":\"M\",\"pid\":0,\"name\":\"process_name\",\"args\":{\"name\":\"firefly\"}}",
    );
    add_rows(buf, at, layout.threads)
}

// Adds on which row an event stands, and when.
#[tactic(auto, unfolding(crate::specs::Texts::place_text))]
fn add_place(buf: &mut [u8], at: usize, place: u64, thread: ThreadId) -> usize
    requires { at + 70 ≤ length buf.old }
    ensures text { take result buf.new ≡ take at buf.old ++ place_text place thread.0 }
    ensures near { result ≤ at + 70 }
{
    let at = add_named(buf, at, b",\"pid\":0,\"tid\":", thread.0);
    add_with_number(buf, at, b",\"ts\":", place)
}

// Adds the action as it stands on its line.
fn add_action(buf: &mut [u8], at: usize, place: u64, e: &Event) -> usize
    requires { at + 1400 ≤ length buf.old }
    ensures text { take result buf.new ≡ take at buf.old ++ action_text e.now.action }
    ensures near { result ≤ at + 1400 }
{
    let mut line = [0; 1430];
    // the numbers of the event and of its thread alone, so how long they are
    let numbers = add_number(&mut line, 0, place);
    let numbers = add_number(&mut line, numbers, u64::from(e.thread.0));
    let end = add_event(&mut line, 0, place, e);
    // before the action stand the numbers and `t` between two spaces, and after it a newline
    add(buf, at, &line[numbers + 3..end - 1])
}

// Adds an event as an instant.
#[tactic(auto, unfolding(crate::specs::Texts::instant_text))]
fn add_instant(buf: &mut [u8], at: usize, place: u64, e: &Event) -> usize
    requires { at + 1510 ≤ length buf.old }
    ensures text { take result buf.new ≡ take at buf.old ++ instant_text place e.now }
    ensures near { result ≤ at + 1510 }
{
    let at = add(buf, at, b",\n{\"ph\":\"i\",\"s\":\"t\"");
    let at = add_place(buf, at, place, e.thread);
    let at = add(buf, at, b",\"name\":\"");
    let at = add_action(buf, at, place, e);
    add(buf, at, b"\"}")
}

// Adds two names.
#[inline(always)]
fn add_two(buf: &mut [u8], at: usize, words: &[u8], n: u32, more: &[u8], k: u32) -> usize
    requires { at + length words.now + length more.now + 40 ≤ length buf.old }
    ensures text { take result buf.new ≡ take at buf.old ++ (with_number words.now n ++ with_number more.now k) }
    ensures near { result ≤ at + length words.now + length more.now + 40 }
{
    let at = add_named(buf, at, words, n);
    add_named(buf, at, more, k)
}

// Adds which span of which kind it is.
#[tactic(auto, unfolding(crate::specs::Texts::span_name))]
fn add_span_name(buf: &mut [u8], at: usize, thread: ThreadId, span: Span) -> usize
    requires { at + 100 ≤ length buf.old }
    ensures text { take result buf.new ≡ take at buf.old ++ span_name thread.0 span }
    ensures near { result ≤ at + 100 }
{
    match span {
        Span::Mutex(m) => {
            add_two(
                buf,
                at,
                b"\",\"cat\":\"mutex\",\"id\":\"m",
                m.0,
                b"\",\"name\":\"m",
                m.0,
            )
        }
        Span::Wait(c) => {
            add_two(
                buf,
                at,
                b"\",\"cat\":\"wait\",\"id\":\"t",
                thread.0,
                b"\",\"name\":\"c",
                c.0,
            )
        }
        Span::Semaphore(s) => {
            add_two(
                buf,
                at,
                b"\",\"cat\":\"semaphore\",\"id\":\"s",
                s.0,
                b"\",\"name\":\"s",
                s.0,
            )
        }
    }
}

// Adds the thread of a span's begin or end.
fn add_thread(buf: &mut [u8], at: usize, thread: ThreadId) -> usize
    requires { at + 50 ≤ length buf.old }
    ensures text { take result buf.new ≡ take at buf.old ++ (with_number (codes ",\"args\":{\"thread\":\"t") thread.0 ++ codes "\"}}") }
    ensures near { result ≤ at + 50 }
{
    let at = add_named(buf, at, b",\"args\":{\"thread\":\"t", thread.0);
    add(buf, at, b"\"}}")
}

// Adds on which row a span begins or ends, and when.
fn add_side_place(buf: &mut [u8], at: usize, place: u64, thread: ThreadId) -> usize
    requires { at + 75 ≤ length buf.old }
    ensures text { take result buf.new ≡ take at buf.old ++ (codes "\"" ++ place_text place thread.0) }
    ensures near { result ≤ at + 75 }
{
    let at = add(buf, at, b"\"");
    add_place(buf, at, place, thread)
}

// Adds on which side of a span the event is.
fn add_side(buf: &mut [u8], at: usize, side: u8) -> usize
    requires { at + 10 ≤ length buf.old }
    ensures text { take result buf.new ≡ take at buf.old ++ (codes ",\n{\"ph\":\"" ++ side ∷ []) }
    ensures near { result ≤ at + 10 }
{
    let at = add(buf, at, b",\n{\"ph\":\"");
    add(buf, at, &[side])
}

// Adds that a span begins or ends, where there is one.
#[tactic(auto, unfolding(crate::specs::Texts::turn_text))]
fn add_turn(
    buf: &mut [u8],
    at: usize,
    side: u8,
    place: u64,
    thread: ThreadId,
    span: Option<Span>,
) -> usize
    requires { at + 240 ≤ length buf.old }
    ensures text { take result buf.new ≡ take at buf.old ++ turn_if side place thread.0 span }
    ensures near { result ≤ at + 240 }
{
    match span {
        Some(span) => {
            let at = add_side(buf, at, side);
            let at = add_span_name(buf, at, thread, span);
            let at = add_side_place(buf, at, place, thread);
            add_thread(buf, at, thread)
        }
        None => at,
    }
}

/// Adds an event.
#[tactic(auto, unfolding(crate::specs::Texts::event_text))]
pub fn add_items(buf: &mut [u8], at: usize, place: u64, e: &Event) -> usize
    requires { at + 2000 ≤ length buf.old }
    ensures text { take result buf.new ≡ take at buf.old ++ event_text place e.now }
    ensures near { result ≤ at + 2000 }
{
    let at = add_instant(buf, at, place, e);
    let at = add_turn(buf, at, b'e', place, e.thread, ended_by(&e.action));
    add_turn(buf, at, b'b', place, e.thread, begun_by(&e.action))
}
