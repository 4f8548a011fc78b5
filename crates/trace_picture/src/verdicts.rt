//! What stands at the top of a picture, written into a buffer after its first `at` bytes. Each call returns where it ended.
ghost use Rattle.std.specs.Prelude.{◌≡◌, ◌+◌, ◌*◌, ◌<◌, ◌≤◌, ◌^◌, ◌++◌, length, take};
ghost use Rattle.trace_board.specs.Tracked.{tracked_of, IsNoted};
ghost use Rattle.trace_explain.specs.Facts.{facts};
ghost use Rattle.trace_picture.specs.Verdicts.{part_text, left_words, left_text, left_if, counted_line, failed_line, spelled, sentences, rule_line, facts_line, refusal};

use larch_actions::{Broken, Event, Version};
use trace_board::board::TraceState;
use trace_check::Summary;
use trace_core::add;
use trace_explain::{add_facts, rule};
use trace_shapes::DrawnRange;
use trace_shapes::shapes::word_of;
use trace_shapes::tags::{add_line, add_with_number};

/// How high the words at the top are: a line, a line and a cycle, or a line, a rule and what stood before.
pub const ONE_LINE: u64 = 26;

pub const TWO_LINES: u64 = 44;

pub const THREE_LINES: u64 = 62;

// Adds which events were drawn.
#[tactic(auto, unfolding(crate::specs::Verdicts::part_text))]
fn add_part(buf: &mut [u8], at: usize, view: &DrawnRange, count: u64) -> usize
    requires { at + 100 ≤ length buf.old }
    ensures text { take result buf.new ≡ take at buf.old ++ part_text view.now count }
    ensures near { result ≤ at + 100 }
{
    let end = count.min(view.end);
    if view.first < end {
        let at = add_with_number(buf, at, b", drawn: ", view.first);
        add_with_number(buf, at, b" to ", end - 1)
    } else {
        add(buf, at, b", drawn: none")
    }
}

// How the words of what is left begin.
fn words_of_left(s: &Summary) -> &'static [u8]
    ensures words { result.now ≡ left_words s.now }
    ensures short { length result.now ≤ 50 }
{
    if s.held == 0 && s.waiting == 0 {
        b"; <tspan>at the end held: "
    } else {
        b"; <tspan class='at'>at the end held: "
    }
}

// Adds what is left at the end.
#[tactic(auto, unfolding(crate::specs::Verdicts::left_text))]
fn add_left(buf: &mut [u8], at: usize, s: &Summary) -> usize
    requires { at + 200 ≤ length buf.old }
    ensures text { take result buf.new ≡ take at buf.old ++ left_text s.now }
    ensures near { result ≤ at + 200 }
{
    let at = add_with_number(buf, at, words_of_left(s), s.held);
    let at = add_with_number(buf, at, b", waiting: ", s.waiting);
    let at = add_with_number(buf, at, b", alerted: ", s.alerted);
    add(buf, at, b"</tspan>")
}

// The same, where it is known.
fn add_left_if(buf: &mut [u8], at: usize, left: Option<Summary>) -> usize
    requires { at + 200 ≤ length buf.old }
    ensures text { take result buf.new ≡ take at buf.old ++ left_if left }
    ensures near { result ≤ at + 200 }
{
    match left {
        Some(s) => add_left(buf, at, &s),
        None => at,
    }
}

/// Adds words, the count of the events, which of them were drawn, and what is left.
#[tactic(auto, unfolding(crate::specs::Verdicts::counted_line))]
pub fn add_counted_line(
    buf: &mut [u8],
    at: usize,
    view: &DrawnRange,
    count: u64,
    words: &[u8],
    left: Option<Summary>,
) -> usize
    requires short { length words.now ≤ 120 }
    requires room { at + 460 ≤ length buf.old }
    ensures text { take result buf.new ≡ take at buf.old ++ counted_line view.now count words.now left }
    ensures near { result ≤ at + 460 }
{
    let at = add_with_number(buf, at, words, count);
    let at = add_part(buf, at, view, count);
    let at = add_left_if(buf, at, left);
    add(buf, at, b"</text>\n")
}

// Adds what the failing event fails, and its line.
#[tactic(auto, unfolding(crate::specs::Verdicts::failed_line))]
fn add_failed_line(
    buf: &mut [u8],
    at: usize,
    view: &DrawnRange,
    place: u64,
    e: &Event,
    why: Broken,
) -> usize
    requires few { place < 2 ^ 41 }
    requires room { at + 1650 ≤ length buf.old }
    ensures text { take result buf.new ≡ take at buf.old ++ failed_line view.now place e.now why }
    ensures near { result ≤ at + 1650 }
{
    let at = add(
        buf,
        at,
        b"<text class='hd' x='44' y='18'><tspan class='no'>illegal</tspan>, fails ",
    );
    let at = add(buf, at, word_of(why));
    let at = add(buf, at, b": ");
    let at = add_line(buf, at, place, e);
    add_part(buf, at, view, place + 1)
}

// Adds the rule that the event fails.
#[tactic(auto, unfolding(crate::specs::Verdicts::rule_line))]
fn add_rule_line(buf: &mut [u8], at: usize, version: Version, e: &Event, why: Broken) -> usize
    requires { at + 300 ≤ length buf.old }
    ensures text { take result buf.new ≡ take at buf.old ++ rule_line version e.now why }
    ensures near { result ≤ at + 300 }
{
    let at = add(buf, at, b"</text>\n<text x='44' y='36'>rule: ");
    let at = add(buf, at, rule(version, why, &e.action));
    add(buf, at, b"</text>\n")
}

// Adds a byte, or the stop that stands for the end of a line.
fn add_spelled(buf: &mut [u8], at: usize, byte: u8) -> usize
    requires { at + 2 ≤ length buf.old }
    ensures text { take result buf.new ≡ take at buf.old ++ spelled byte }
    ensures near { result ≤ at + 2 }
{
    if byte == b'\n' {
        add(buf, at, b". ")
    } else {
        add(buf, at, &[byte])
    }
}

// Adds lines as sentences.
fn add_sentences(buf: &mut [u8], at: usize, lines: &[u8]) -> usize
    requires { at + 2 * length lines.now ≤ length buf.old }
    ensures text { take result buf.new ≡ take at buf.old ++ sentences lines.now }
    ensures near { result ≤ at + 2 * length lines.now }
{
    let mut last = at;
    for byte in lines {
        last = add_spelled(buf, last, *byte);
    }
    last
}

// Adds what stood before the event, by way of another buffer.
fn add_facts_by(
    lines: &mut [u8],
    buf: &mut [u8],
    at: usize,
    version: Version,
    board: &TraceState,
    e: &Event,
) -> usize
    requires noted { IsNoted e.now }
    requires large { 14500 ≤ length lines.old }
    requires room { at + 29000 ≤ length buf.old }
    ensures text { take result buf.new ≡ take at buf.old ++ sentences (facts version (tracked_of board.now) e.now) }
    ensures near { result ≤ at + 29000 }
{
    let end = add_facts(lines, 0, version, board, e);
    add_sentences(buf, at, &lines[..end])
}

// Adds what stood before the event.
fn add_state(buf: &mut [u8], at: usize, version: Version, board: &TraceState, e: &Event) -> usize
    requires noted { IsNoted e.now }
    requires room { at + 29000 ≤ length buf.old }
    ensures text { take result buf.new ≡ take at buf.old ++ sentences (facts version (tracked_of board.now) e.now) }
    ensures near { result ≤ at + 29000 }
{
    let mut lines = [0; 14500];
    add_facts_by(&mut lines, buf, at, version, board, e)
}

// Adds what stood before the event, as a line.
#[tactic(auto, unfolding(crate::specs::Verdicts::facts_line))]
fn add_facts_line(
    buf: &mut [u8],
    at: usize,
    version: Version,
    board: &TraceState,
    e: &Event,
) -> usize
    requires noted { IsNoted e.now }
    requires room { at + 29100 ≤ length buf.old }
    ensures text { take result buf.new ≡ take at buf.old ++ facts_line version (tracked_of board.now) e.now }
    ensures near { result ≤ at + 29100 }
{
    let at = add(buf, at, b"<text x='44' y='54'>before it: ");
    let at = add_state(buf, at, version, board, e);
    add(buf, at, b"</text>\n")
}

/// Adds what the event fails, the rule, and what stood before it.
#[tactic(auto, unfolding(crate::specs::Verdicts::refusal))]
pub fn add_refusal(
    buf: &mut [u8],
    at: usize,
    version: Version,
    view: &DrawnRange,
    board: &TraceState,
    place: u64,
    e: &Event,
    why: Broken,
) -> usize
    requires noted { IsNoted e.now }
    requires few { place < 2 ^ 41 }
    requires room { at + 31100 ≤ length buf.old }
    ensures text { take result buf.new ≡ take at buf.old ++ refusal version view.now (tracked_of board.now) place e.now why }
    ensures near { result ≤ at + 31100 }
{
    let at = add_failed_line(buf, at, view, place, e, why);
    let at = add_rule_line(buf, at, version, e, why);
    add_facts_line(buf, at, version, board, e)
}
