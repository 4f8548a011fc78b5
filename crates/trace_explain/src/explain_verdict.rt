//! The text for what a check finds, written into a buffer after its first `at` bytes. Each call returns where it ended.
ghost use Rattle.std.specs.Prelude.{◌≡◌, ◌+◌, ◌≤◌, ◌++◌, length, take, [], OnOk, OnErr, IfOk};
ghost use Rattle.std.specs.Io.KnownBytes.{Appends};
ghost use Rattle.firefly_outside.specs.Causes.{HasCause, AppendsPrefix};
ghost use Rattle.trace_board.specs.Tracked.{tracked_of, IsNoted};
ghost use Rattle.trace_explain.specs.Words.{legal_text, failed_text, illegal_text, later_text, expected, bad_text, text_found};
ghost use Rattle.trace_explain.specs.Explained.{IsExplainable};

use crate::facts::add_facts;
use crate::rules::rule;
use firefly_outside::{Sink, SinkFault, put_all};
use larch_actions::{Broken, Event, Version};
use trace_board::board::TraceState;
use trace_check::{Found, Summary, Verdict};
use trace_core::add;
use trace_shapes::shapes::word_of;
use trace_shapes::tags::{add_line, add_with_number};

// Adds the counts of a legal trace.
#[tactic(auto, unfolding(crate::specs::Words::legal_text))]
fn add_legal(buf: &mut [u8], at: usize, s: &Summary) -> usize
    requires room { at + 200 ≤ length buf.old }
    ensures text { take result buf.new ≡ take at buf.old ++ legal_text s.now }
    ensures near { result ≤ at + 200 }
{
    let at = add_with_number(buf, at, b"legal ", s.events);
    let at = add_with_number(buf, at, b" held ", s.held);
    let at = add_with_number(buf, at, b" waiting ", s.waiting);
    let at = add_with_number(buf, at, b" alerted ", s.alerted);
    add(buf, at, b"\n")
}

// Adds which clause an event fails, and its line.
#[tactic(auto, unfolding(crate::specs::Words::failed_text))]
fn add_failed(buf: &mut [u8], at: usize, place: u64, e: &Event, why: Broken) -> usize
    requires room { at + 1600 ≤ length buf.old }
    ensures text { take result buf.new ≡ take at buf.old ++ failed_text place e.now why }
    ensures near { result ≤ at + 1600 }
{
    let at = add_with_number(buf, at, b"illegal ", place);
    let at = add(buf, at, b" ");
    let at = add(buf, at, word_of(why));
    let at = add(buf, at, b"\nevent: ");
    add_line(buf, at, place, e)
}

// Adds what an event fails, and the state before it.
#[tactic(auto, unfolding(crate::specs::Words::illegal_text))]
fn add_illegal(
    buf: &mut [u8],
    at: usize,
    version: Version,
    board: &TraceState,
    place: u64,
    e: &Event,
    why: Broken,
) -> usize
    requires noted { IsNoted e.now }
    requires room { at + 16384 ≤ length buf.old }
    ensures text { take result buf.new ≡ take at buf.old ++ illegal_text version (tracked_of board.now) place e.now why }
    ensures near { result ≤ at + 16384 }
{
    let at = add_failed(buf, at, place, e, why);
    let at = add(buf, at, b"\nrule: ");
    let at = add(buf, at, rule(version, why, &e.action));
    let at = add(buf, at, b"\n");
    add_facts(buf, at, version, board, e)
}

// Adds what may stand on the line of an event.
fn add_later(buf: &mut [u8], at: usize, n: u64) -> usize
    requires room { at + 400 ≤ length buf.old }
    ensures text { take result buf.new ≡ take at buf.old ++ later_text n }
    ensures near { result ≤ at + 400 }
{
    let at = add_with_number(buf, at, b": here stands event ", n);
    add(
        buf,
        at,
        b", as its number, the name of a thread, an action and names below the layout's counts; or `end` and that number; or, behind such a line, `value`, a mutex above those before it and a number\n",
    )
}

// Adds what may stand on a line.
fn add_expected(buf: &mut [u8], at: usize, line: u64) -> usize
    requires room { at + 400 ≤ length buf.old }
    ensures text { take result buf.new ≡ take at buf.old ++ expected line }
    ensures near { result ≤ at + 400 }
{
    if line == 1 {
        return add(
            buf,
            at,
            b": the first line is `firefly-trace 1` or `firefly-trace 2`\n",
        );
    }
    if line == 2 {
        return add(
            buf,
            at,
            b": the second line is `threads T mutexes M conditions C semaphores S`, T from 1 to 64, behind `firefly-trace 2` to 256, the others from 0 to 64\n",
        );
    }
    add_later(buf, at, line.saturating_sub(3))
}

// Adds which line is bad, and what may stand there.
#[tactic(auto, unfolding(crate::specs::Words::bad_text))]
fn add_bad(buf: &mut [u8], at: usize, line: u64) -> usize
    requires room { at + 500 ≤ length buf.old }
    ensures text { take result buf.new ≡ take at buf.old ++ bad_text line }
    ensures near { result ≤ at + 500 }
{
    let at = add_with_number(buf, at, b"bad line ", line);
    add_expected(buf, at, line)
}

// Adds the text for what was found.
fn add_found(buf: &mut [u8], at: usize, board: &TraceState, found: &Found) -> usize
    requires explainable { IsExplainable found.now.verdict found.now.layout found.now.failed }
    requires room { at + 16384 ≤ length buf.old }
    ensures text { take result buf.new ≡ take at buf.old ++ text_found (tracked_of board.now) found.now }
    ensures near { result ≤ at + 16384 }
{
    match found.verdict {
        Verdict::Legal(summary) => add_legal(buf, at, &summary),
        Verdict::Illegal { place, why } => match (&found.layout, &found.failed) {
            (Some(layout), Some(event)) => {
                add_illegal(buf, at, layout.version, board, place, event, why)
            }
            _ => unreachable!(),
        },
        Verdict::BadLine(line) => add_bad(buf, at, line),
        Verdict::TooLong => at,
        Verdict::ReadFault => at,
    }
}

// Sends the text by way of the buffer.
fn explain_with<O: Sink>(
    buf: &mut [u8],
    found: &Found,
    board: &TraceState,
    out: &mut O,
) -> Result<Verdict, SinkFault>
    requires explainable { IsExplainable found.now.verdict found.now.layout found.now.failed }
    requires large { 16384 ≤ length buf.old }
    ensures verdict { IfOk result (λ v. v ≡ found.now.verdict) }
    ensures ok { OnOk result (Appends (O.held out.old) (O.held out.new) (text_found (tracked_of board.now) found.now)) }
    ensures err { OnErr result (AppendsPrefix (O.held out.old) (O.held out.new) (text_found (tracked_of board.now) found.now)) }
    ensures cause { HasCause (O.faults out.old) (O.faults out.new) result }
{
    let end = add_found(buf, 0, board, found);
    match put_all(out, &buf[..end]) {
        Ok(()) => Ok(found.verdict),
        Err(fault) => Err(fault),
    }
}

/// Sends the text for what was found, and gives the verdict.
pub fn explain_verdict<O: Sink>(
    found: &Found,
    board: &TraceState,
    out: &mut O,
) -> Result<Verdict, SinkFault>
    requires { IsExplainable found.now.verdict found.now.layout found.now.failed }
    ensures verdict { IfOk result (λ v. v ≡ found.now.verdict) }
    ensures ok { OnOk result (Appends (O.held out.old) (O.held out.new) (text_found (tracked_of board.now) found.now)) }
    ensures err { OnErr result (AppendsPrefix (O.held out.old) (O.held out.new) (text_found (tracked_of board.now) found.now)) }
    ensures cause { HasCause (O.faults out.old) (O.faults out.new) result }
{
    let mut buf = [0; 16384];
    explain_with(&mut buf, found, board, out)
}
