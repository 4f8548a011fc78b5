//! How a picture ends.
ghost use Rattle.std.specs.Prelude.{◌≡◌, ◌+◌, ◌<◌, ◌≤◌, ◌^◌, ◌++◌, length, take, codes, if◌then◌else◌, [], ℕ, List, OnOk, OnErr};
ghost use Rattle.std.specs.Io.KnownBytes.{Appends};
ghost use Rattle.firefly_outside.specs.Causes.{HasCause, AppendsPrefix};
ghost use Rattle.larch_actions.specs.Layout.{IsLawful};
ghost use Rattle.trace_board.specs.History.{entry_of};
ghost use Rattle.trace_board.specs.Tracked.{tracked_of, IsNoted};
ghost use Rattle.trace_shapes.specs.Places.{is_open, band_of};
ghost use Rattle.trace_shapes.specs.Shapes.{with_number};
ghost use Rattle.trace_shapes.specs.Legend.{legend_text};
ghost use Rattle.trace_picture.specs.Bands.{closing};
ghost use Rattle.trace_picture.specs.Longest.{holds_text, holds_height};
ghost use Rattle.trace_picture.specs.Overview.{over_height, over_style};
ghost use Rattle.trace_picture.specs.Verdicts.{counted_line, refusal};
ghost use Rattle.trace_picture.specs.Shown.{drawn_of, drawn_failed};
ghost use Rattle.trace_picture.specs.Picture.{moved_down, last_tags, end_text, closing_if, ending, failed_ending};
ghost use Rattle.trace_picture.specs.Rings.{ringed_line};

use crate::bands::{add_closing, add_failing};
use crate::cycles::add_ringed_line;
use crate::longest::{add_holds, height_of_holds};
use crate::overview::{add_over_style, height_of_overview};
use crate::shown::{Drawing, note_failing};
use crate::verdicts::{ONE_LINE, THREE_LINES, TWO_LINES, add_counted_line, add_refusal};
use firefly_outside::{Sink, SinkFault, put_all};
use larch_actions::{Broken, Event, Layout};
use lock_order::Cycle;
use trace_board::board::TraceState;
use trace_board::history::{Origin, Table};
use trace_board::marks::marks_of;
use trace_check::Summary;
use trace_core::add;
use trace_shapes::legend::{add_legend, height_of_legend};
use trace_shapes::tags::add_with_number;
use trace_shapes::view::{DrawnRange, Plan, band_of, is_band_open};

/// Adds the end of the last band, where it is not full.
#[tactic(auto, unfolding(crate::specs::Picture::closing_if))]
pub fn add_last_closing(
    buf: &mut [u8],
    at: usize,
    layout: &Layout,
    view: &DrawnRange,
    plan: &Plan,
    board: &TraceState,
    count: u64,
) -> usize
    requires lawful { IsLawful layout.now }
    requires few { count < 2 ^ 42 }
    requires room { at + 330000 ≤ length buf.old }
    ensures text { take result buf.new ≡ take at buf.old ++ closing_if layout.now view.now plan.now (tracked_of board.now) count }
    ensures near { result ≤ at + 330000 }
{
    if is_band_open(view, count) {
        let band = band_of(layout, view, plan, count);
        add_closing(buf, at, layout, view, &band, board, count)
    } else {
        at
    }
}

// By how much the legend and the overview move the bands down.
fn height_above(layout: &Layout, view: &DrawnRange, shown: &Table, count: u64) -> u64
    requires lawful { IsLawful layout.now }
    requires few { count < 2 ^ 42 }
    ensures height { result ≡ moved_down layout.now view.now (entry_of shown.now) count }
    ensures small { result < 2 ^ 61 }
{
    height_of_legend(shown) + height_of_overview(layout, view, count)
}

// Adds the height, by how much the words at the top move the rest down and what stands above the bands moves them, what shows the overview, and the last tag.
fn add_last_tags(
    buf: &mut [u8],
    at: usize,
    layout: &Layout,
    view: &DrawnRange,
    shown: &Table,
    count: u64,
    low: u64,
    high: u64,
) -> usize
    requires lawful { IsLawful layout.now }
    requires few { count < 2 ^ 42 }
    requires low { low < 2 ^ 60 }
    requires high { high < 2 ^ 60 }
    requires room { at + 310 ≤ length buf.old }
    ensures text { take result buf.new ≡ take at buf.old ++ last_tags layout.now view.now (entry_of shown.now) count low high }
    ensures near { result ≤ at + 310 }
{
    let moved = height_above(layout, view, shown, count);
    let whole = low + 14 + height_of_holds(layout) + moved + high;
    let at = add_with_number(buf, at, b"<style>:root{height:", whole);
    let at = add_with_number(buf, at, b"px}.s{transform:translate(0,", high);
    let at = add_with_number(buf, at, b"px)}.w{transform:translate(0,", moved);
    add_over_style(buf, at, layout, view, count)
}

// Adds the legend, between the ends of what it moves down and of what the words at the top move down.
fn add_legend_after(buf: &mut [u8], at: usize, shown: &Table) -> usize
    requires { at + 9700 ≤ length buf.old }
    ensures text { take result buf.new ≡ take at buf.old ++ (codes "</g>\n" ++ legend_text (entry_of shown.now) ++ codes "</g>\n") }
    ensures near { result ≤ at + 9700 }
{
    let at = add(buf, at, b"</g>\n");
    let at = add_legend(buf, at, shown);
    add(buf, at, b"</g>\n")
}

// Adds the lines of the mutexes, and the legend.
fn add_lines(
    buf: &mut [u8],
    at: usize,
    layout: &Layout,
    view: &DrawnRange,
    drawing: &Drawing,
    count: u64,
) -> usize
    requires lawful { IsLawful layout.now }
    requires low { drawing.now.page.next < 2 ^ 60 }
    requires few { count < 2 ^ 42 }
    requires room { at + 45600 ≤ length buf.old }
    ensures text { take result buf.new ≡ take at buf.old ++ (holds_text layout.now.mutexes (tracked_of drawing.now.board) count
        drawing.now.page.next ++ (codes "</g>\n" ++ legend_text (entry_of drawing.now.shown) ++ codes "</g>\n")) }
    ensures near { result ≤ at + 45600 }
{
    let low = drawing.page.next;
    let at = add_holds(buf, at, layout.mutexes, &drawing.board, count, low);
    add_legend_after(buf, at, &drawing.shown)
}

// Adds the lines of the mutexes, words and a count for the top of the picture, and what follows them.
#[tactic(auto, unfolding(crate::specs::Picture::end_text))]
fn add_end(
    buf: &mut [u8],
    at: usize,
    layout: &Layout,
    view: &DrawnRange,
    drawing: &Drawing,
    count: u64,
    words: &[u8],
    left: Option<Summary>,
) -> usize
    requires lawful { IsLawful layout.now }
    requires low { drawing.now.page.next < 2 ^ 60 }
    requires few { count < 2 ^ 42 }
    requires short { length words.now ≤ 120 }
    requires room { at + 46500 ≤ length buf.old }
    ensures text { take result buf.new ≡ take at buf.old ++ end_text layout.now view.now (drawn_of drawing.now) count ONE_LINE
        (counted_line view.now count words.now left) }
    ensures near { result ≤ at + 46500 }
{
    let at = add_lines(buf, at, layout, view, drawing, count);
    let at = add_counted_line(buf, at, view, count, words, left);
    add_last_tags(
        buf,
        at,
        layout,
        view,
        &drawing.shown,
        count,
        drawing.page.next,
        ONE_LINE,
    )
}

/// The same with a cycle in words.
#[tactic(auto, unfolding(crate::specs::Picture::end_text))]
pub fn add_ringed_end(
    buf: &mut [u8],
    at: usize,
    layout: &Layout,
    view: &DrawnRange,
    drawing: &Drawing,
    count: u64,
    left: Summary,
    cycle: &Cycle,
) -> usize
    requires lawful { IsLawful layout.now }
    requires low { drawing.now.page.next < 2 ^ 60 }
    requires few { count < 2 ^ 42 }
    requires room { at + 62000 ≤ length buf.old }
    ensures text { take result buf.new ≡ take at buf.old ++ end_text layout.now view.now (drawn_of drawing.now) count TWO_LINES
        (ringed_line view.now count left cycle.now) }
    ensures near { result ≤ at + 62000 }
{
    let at = add_lines(buf, at, layout, view, drawing, count);
    let at = add_ringed_line(buf, at, view, count, left, cycle);
    add_last_tags(
        buf,
        at,
        layout,
        view,
        &drawing.shown,
        count,
        drawing.page.next,
        TWO_LINES,
    )
}

/// Adds the end of a picture of so many events, with these words at its top.
pub fn add_ending(
    buf: &mut [u8],
    at: usize,
    layout: &Layout,
    view: &DrawnRange,
    drawing: &Drawing,
    count: u64,
    words: &[u8],
    left: Option<Summary>,
) -> usize
    requires lawful { IsLawful layout.now }
    requires low { drawing.now.page.next < 2 ^ 60 }
    requires few { count < 2 ^ 42 }
    requires short { length words.now ≤ 120 }
    requires room { at + 379000 ≤ length buf.old }
    ensures text { take result buf.new ≡ take at buf.old ++ ending layout.now view.now (drawn_of drawing.now) count words.now left }
    ensures near { result ≤ at + 379000 }
{
    let at = add_last_closing(
        buf,
        at,
        layout,
        view,
        &drawing.page.plan,
        &drawing.board,
        count,
    );
    add_end(buf, at, layout, view, drawing, count, words, left)
}

// Adds the lines of the mutexes, what an event fails for the top of the picture, and what follows it.
#[tactic(auto, unfolding(crate::specs::Picture::end_text))]
fn add_failed_end(
    buf: &mut [u8],
    at: usize,
    layout: &Layout,
    view: &DrawnRange,
    drawing: &Drawing,
    place: u64,
    e: &Event,
    why: Broken,
) -> usize
    requires lawful { IsLawful layout.now }
    requires low { drawing.now.page.next < 2 ^ 60 }
    requires noted { IsNoted e.now }
    requires few { place < 2 ^ 41 }
    requires room { at + 77100 ≤ length buf.old }
    ensures text { take result buf.new ≡ take at buf.old ++ end_text layout.now view.now (drawn_of drawing.now) (place + 1) THREE_LINES
        (refusal layout.now.version view.now (tracked_of drawing.now.board) place e.now why) }
    ensures near { result ≤ at + 77100 }
{
    let at = add_lines(buf, at, layout, view, drawing, place + 1);
    let at = add_refusal(buf, at, layout.version, view, &drawing.board, place, e, why);
    add_last_tags(
        buf,
        at,
        layout,
        view,
        &drawing.shown,
        place + 1,
        drawing.page.next,
        THREE_LINES,
    )
}

/// Adds the event that fails, and the end of the picture.
pub fn add_failed_ending(
    buf: &mut [u8],
    at: usize,
    layout: &Layout,
    view: &DrawnRange,
    drawing: &mut Drawing,
    place: u64,
    e: &Event,
    why: Broken,
) -> usize
    requires lawful { IsLawful layout.now }
    requires low { drawing.old.page.next < 2 ^ 60 }
    requires noted { IsNoted e.now }
    requires few { place < 2 ^ 41 }
    requires room { at + 479000 ≤ length buf.old }
    ensures text { take result buf.new ≡ take at buf.old ++ failed_ending layout.now view.now (drawn_of drawing.old) place e.now why }
    ensures near { result ≤ at + 479000 }
{
    let at = add_failing(
        buf,
        at,
        layout,
        view,
        &drawing.page,
        &drawing.board,
        place,
        e,
        why,
    );
    let by = Origin {
        thread: e.thread,
        object: marks_of(e.thread, &e.action).object,
        place,
    };
    note_failing(&mut drawing.shown, layout, view, &drawing.board, by);
    add_failed_end(buf, at, layout, view, drawing, place, e, why)
}

/// Sends what the buffer holds and the end of a picture of so many events, with these words at its top.
pub fn end_with<O: Sink>(
    buf: &mut [u8],
    at: usize,
    layout: &Layout,
    view: &DrawnRange,
    drawing: &Drawing,
    count: u64,
    words: &[u8],
    left: Option<Summary>,
    out: &mut O,
) -> Result<(), SinkFault>
    requires lawful { IsLawful layout.now }
    requires low { drawing.now.page.next < 2 ^ 60 }
    requires few { count < 2 ^ 42 }
    requires short { length words.now ≤ 120 }
    requires room { at + 379000 ≤ length buf.old }
    ensures ok { OnOk result (Appends (O.held out.old) (O.held out.new)
        (take at buf.old ++ ending layout.now view.now (drawn_of drawing.now) count words.now left)) }
    ensures err { OnErr result (AppendsPrefix (O.held out.old) (O.held out.new)
        (take at buf.old ++ ending layout.now view.now (drawn_of drawing.now) count words.now left)) }
    ensures cause { HasCause (O.faults out.old) (O.faults out.new) result }
{
    let end = add_ending(buf, at, layout, view, drawing, count, words, left);
    put_all(out, &buf[..end])
}

/// Sends what the buffer holds, the event that fails, and the end of the picture.
pub fn end_failed<O: Sink>(
    buf: &mut [u8],
    at: usize,
    layout: &Layout,
    view: &DrawnRange,
    drawing: &mut Drawing,
    place: u64,
    e: &Event,
    why: Broken,
    out: &mut O,
) -> Result<(), SinkFault>
    requires lawful { IsLawful layout.now }
    requires low { drawing.old.page.next < 2 ^ 60 }
    requires noted { IsNoted e.now }
    requires few { place < 2 ^ 41 }
    requires room { at + 479000 ≤ length buf.old }
    ensures ok { OnOk result (Appends (O.held out.old) (O.held out.new)
        (take at buf.old ++ failed_ending layout.now view.now (drawn_of drawing.old) place e.now why)) }
    ensures err { OnErr result (AppendsPrefix (O.held out.old) (O.held out.new)
        (take at buf.old ++ failed_ending layout.now view.now (drawn_of drawing.old) place e.now why)) }
    ensures cause { HasCause (O.faults out.old) (O.faults out.new) result }
{
    let end = add_failed_ending(buf, at, layout, view, drawing, place, e, why);
    put_all(out, &buf[..end])
}
