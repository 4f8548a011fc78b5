//! The rows of threads that begin and end, written into a buffer after its first `at` bytes. Each call returns where it ended.
ghost use Rattle.std.specs.Prelude.{◌≡◌, ◌+◌, ◌-◌, ◌*◌, ◌<◌, ◌≤◌, ◌^◌, ◌++◌, length, take, codes};
ghost use Rattle.trace_board.specs.Tracked.{tracked_of};
ghost use Rattle.larch_actions.specs.Layout.{IsLawful};
ghost use Rattle.trace_shapes.specs.Shapes.{each_below};
ghost use Rattle.trace_picture.specs.Lives.{row_if, row_box, row_from, row_until, life_row};

use crate::plan::{is_absent, stands};
use larch_actions::Layout;
use trace_board::board::TraceState;
use trace_board::history::Change;
use trace_core::add;
use trace_shapes::geometry::{COLUMN, ROW_RIGHT};
use trace_shapes::places::{event_x, kind_in, row_height, row_y};
use trace_shapes::shapes::{add_row, add_row_name};
use trace_shapes::tags::{add_place, add_with_number};
use trace_shapes::view::Band;

// Adds the row of the thread, where it has one.
fn add_row_if(
    buf: &mut [u8],
    at: usize,
    layout: &Layout,
    band: &Band,
    board: &TraceState,
    t: u32,
) -> usize
    requires few { t < 256 }
    requires room { at + 170 ≤ length buf.old }
    ensures text { take result buf.new ≡ take at buf.old ++ row_if layout.now.version band.now (tracked_of board.now) t }
    ensures near { result ≤ at + 170 }
{
    let absent = is_absent(kind_in(band, t));
    if stands(layout.version, board, t) && !absent {
        add_row(buf, at, band, t)
    } else {
        at
    }
}

/// Adds the rows of all threads that have one.
#[tactic(auto, using(larch_actions::proofs::Names::few_threads))]
pub fn add_rows(
    buf: &mut [u8],
    at: usize,
    layout: &Layout,
    band: &Band,
    board: &TraceState,
) -> usize
    requires lawful { IsLawful layout.now }
    requires room { at + 43600 ≤ length buf.old }
    ensures text { take result buf.new ≡ take at buf.old ++
        each_below (row_if layout.now.version band.now (tracked_of board.now)) layout.now.threads }
    ensures near { result ≤ at + 43600 }
{
    let mut last = at;
    for t in 0..layout.threads {
        last = add_row_if(buf, last, layout, band, board, t);
    }
    last
}

// Adds the box of a row from this point on.
#[tactic(auto, unfolding(crate::specs::Lives::row_box))]
fn add_row_box(buf: &mut [u8], at: usize, band: &Band, x: u64, t: u32) -> usize
    requires { at + 130 ≤ length buf.old }
    ensures text { take result buf.new ≡ take at buf.old ++ row_box band.now x t }
    ensures near { result ≤ at + 130 }
{
    let height = row_height(band, t);
    let at = add_with_number(buf, at, b"' height='", height);
    let at = add_with_number(buf, at, b"' width='", ROW_RIGHT.saturating_sub(x));
    add_place(buf, at, x, row_y(band, t))
}

// Adds the row of a thread from this point on.
#[tactic(auto, unfolding(crate::specs::Lives::row_from))]
fn add_row_from(buf: &mut [u8], at: usize, band: &Band, x: u64, t: u32) -> usize
    requires { at + 300 ≤ length buf.old }
    ensures text { take result buf.new ≡ take at buf.old ++ row_from band.now x t }
    ensures near { result ≤ at + 300 }
{
    let at = add(buf, at, b"<rect class='r");
    let at = add_row_box(buf, at, band, x, t);
    add_row_name(buf, at, band, t)
}

// Adds what is no more of the row of a thread, from this point on.
#[tactic(auto, unfolding(crate::specs::Lives::row_until))]
fn add_row_until(buf: &mut [u8], at: usize, band: &Band, x: u64, t: u32) -> usize
    requires { at + 300 ≤ length buf.old }
    ensures text { take result buf.new ≡ take at buf.old ++ row_until band.now x t }
    ensures near { result ≤ at + 300 }
{
    let at = add(buf, at, b"<rect class='z");
    let at = add_row_box(buf, at, band, x, t);
    let at = add_with_number(buf, at, b"'><title>t", u64::from(t));
    add(buf, at, b" has ended</title></rect>\n")
}

/// Adds what the event does to a row.
pub fn add_life_row(buf: &mut [u8], at: usize, band: &Band, place: u64, effect: Change) -> usize
    requires place { place < 2 ^ 42 }
    requires room { at + 300 ≤ length buf.old }
    ensures text { take result buf.new ≡ take at buf.old ++ life_row band.now place effect }
    ensures near { result ≤ at + 300 }
{
    match effect {
        Change::Begins(t) => add_row_from(buf, at, band, event_x(band, place), t),
        Change::Ends(t) => add_row_until(buf, at, band, event_x(band, place) + COLUMN, t),
        Change::Stays => at,
    }
}
