//! The last lines of a picture: the longest hold of each mutex, written into a buffer after its first `at` bytes. Each call returns where it ended.
ghost use Rattle.std.specs.Prelude.{◌≡◌, ◌+◌, ◌*◌, ◌/◌, ◌%◌, ◌<◌, ◌≤◌, ◌^◌, ◌++◌, length, take, codes};
ghost use Rattle.larch_actions.specs.Layout.{IsLawful};
ghost use Rattle.trace_board.specs.Tracked.{tracked_of, longest_in};
ghost use Rattle.trace_shapes.specs.Shapes.{with_number, each_below, place_text};
ghost use Rattle.trace_picture.specs.Longest.{hold_end, hold_text, reported_hold, line_x, line_y, sample_text, hold_line, holds_text, holds_height};

use larch_actions::Layout;
use trace_board::board::TraceState;
use trace_board::holds::{Hold, hold_to, longer};
use trace_core::add;
use trace_shapes::geometry::{LEFT, LINE, NAME_LEFT, NAME_LINE};
use trace_shapes::tags::{add_place, add_with_number};

// Adds where a hold ended.
#[tactic(auto, unfolding(crate::specs::Longest::hold_end))]
fn add_hold_end(buf: &mut [u8], at: usize, hold: &Hold) -> usize
    requires { at + 30 ≤ length buf.old }
    ensures text { take result buf.new ≡ take at buf.old ++ hold_end hold.now }
    ensures near { result ≤ at + 30 }
{
    if hold.ended {
        add_with_number(buf, at, b" to ", hold.last)
    } else {
        add(buf, at, b" on")
    }
}

// Adds by whom and from which event to which a mutex was held.
#[tactic(auto, unfolding(crate::specs::Longest::hold_text))]
fn add_hold(buf: &mut [u8], at: usize, hold: &Hold) -> usize
    requires { at + 130 ≤ length buf.old }
    ensures text { take result buf.new ≡ take at buf.old ++ hold_text hold.now }
    ensures near { result ≤ at + 130 }
{
    let at = add_with_number(buf, at, b"longest: t", u64::from(hold.since.thread.0));
    let at = add_with_number(buf, at, b", events: ", hold.length());
    let at = add_with_number(buf, at, b", ", hold.since.place);
    add_hold_end(buf, at, hold)
}

// Adds the hold, or that there is none.
fn add_reported(buf: &mut [u8], at: usize, hold: Option<Hold>) -> usize
    requires { at + 130 ≤ length buf.old }
    ensures text { take result buf.new ≡ take at buf.old ++ reported_hold hold }
    ensures near { result ≤ at + 130 }
{
    match hold {
        Some(hold) => add_hold(buf, at, &hold),
        None => add(buf, at, b"never held"),
    }
}

// Where the line of a mutex stands.
fn line_x(m: u32) -> u64
    requires { m < 64 }
    ensures x { result ≡ line_x m }
    ensures small { result < 2 ^ 20 }
{
    LEFT + 400 * (u64::from(m) % 3)
}

fn line_y(low: u64, m: u32) -> u64
    requires low { low < 2 ^ 60 }
    requires few { m < 64 }
    ensures y { result ≡ line_y low m }
    ensures small { result < 2 ^ 61 }
{
    low + 8 + LINE * (u64::from(m) / 3)
}

// Adds the place of a text and the start of its tag.
fn add_text_place(buf: &mut [u8], at: usize, start: &[u8], x: u64, y: u64) -> usize
    requires short { length start.now ≤ 30 }
    requires room { at + 90 ≤ length buf.old }
    ensures text { take result buf.new ≡ take at buf.old ++ (start.now ++ place_text x y) }
    ensures near { result ≤ at + 90 }
{
    let at = add(buf, at, start);
    add_place(buf, at, x, y)
}

// Adds a bar of the mutex, as it looks.
#[tactic(auto, unfolding(crate::specs::Longest::sample_text))]
fn add_sample(buf: &mut [u8], at: usize, low: u64, mutex: u32) -> usize
    requires low { low < 2 ^ 60 }
    requires few { mutex < 64 }
    requires room { at + 270 ≤ length buf.old }
    ensures text { take result buf.new ≡ take at buf.old ++ sample_text low mutex }
    ensures near { result ≤ at + 270 }
{
    let m = u64::from(mutex);
    let x = line_x(mutex);
    let y = line_y(low, mutex);
    let at = add_with_number(buf, at, b"<rect width='34' height='12' rx='2' class='m", m);
    let at = add_place(buf, at, x, y);
    let at = add_text_place(buf, at, b"'/><text class='x", x + NAME_LEFT, y + NAME_LINE);
    let at = add_with_number(buf, at, b"'>m", m);
    add(buf, at, b"</text>")
}

// Adds the name of a mutex as a title.
fn add_name_title(buf: &mut [u8], at: usize, mutex: u32) -> usize
    requires { at + 50 ≤ length buf.old }
    ensures text { take result buf.new ≡ take at buf.old ++ (with_number (codes "'><title>m") mutex ++ codes "</title>") }
    ensures near { result ≤ at + 50 }
{
    let at = add_with_number(buf, at, b"'><title>m", u64::from(mutex));
    add(buf, at, b"</title>")
}

// Adds the line of a mutex.
#[tactic(auto, unfolding(crate::specs::Longest::hold_line))]
fn add_hold_line(buf: &mut [u8], at: usize, low: u64, mutex: u32, hold: Option<Hold>) -> usize
    requires low { low < 2 ^ 60 }
    requires few { mutex < 64 }
    requires room { at + 560 ≤ length buf.old }
    ensures text { take result buf.new ≡ take at buf.old ++ hold_line low mutex hold }
    ensures near { result ≤ at + 560 }
{
    let x = line_x(mutex) + 40;
    let y = line_y(low, mutex) + NAME_LINE;
    let at = add_sample(buf, at, low, mutex);
    let at = add_text_place(buf, at, b"<text class='t", x, y);
    let at = add_name_title(buf, at, mutex);
    let at = add_reported(buf, at, hold);
    add(buf, at, b"</text>\n")
}

// The longest hold of the mutex; one that is under way counts up to the event before `count`.
fn longest_in(board: &TraceState, count: u64, mutex: u32) -> Option<Hold>
    requires { mutex < 64 }
    ensures { result ≡ longest_in (tracked_of board.now) count mutex }
{
    longer(
        board.longest.at(mutex),
        hold_to(false, count.saturating_sub(1), board.held.at(mutex)),
    )
}

/// Adds the lines of all mutexes, below this height.
pub fn add_holds(
    buf: &mut [u8],
    at: usize,
    mutexes: u32,
    board: &TraceState,
    count: u64,
    low: u64,
) -> usize
    requires low { low < 2 ^ 60 }
    requires few { mutexes ≤ 64 }
    requires room { at + 560 * mutexes ≤ length buf.old }
    ensures text { take result buf.new ≡ take at buf.old ++ holds_text mutexes (tracked_of board.now) count low }
    ensures near { result ≤ at + 560 * mutexes }
{
    let mut last = at;
    for m in 0..mutexes {
        last = add_hold_line(buf, last, low, m, longest_in(board, count, m));
    }
    last
}

/// How high the lines of all mutexes are.
pub fn height_of_holds(layout: &Layout) -> u64
    requires { IsLawful layout.now }
    ensures height { result ≡ holds_height layout.now.mutexes }
    ensures small { result < 2 ^ 20 }
{
    (u64::from(layout.mutexes) + 2) / 3 * LINE
}
