//! The overview of a long trace: a column for each band, written into a buffer after its first `at` bytes. Each call returns where it ended.
ghost use Rattle.std.specs.Prelude.{◌≡◌, ◌+◌, ◌-◌, ◌*◌, ◌/◌, ◌%◌, ◌<◌, ◌≤◌, ◌^◌, ◌++◌, length, take, codes};
ghost use Rattle.larch_actions.specs.Layout.{IsLawful};
ghost use Rattle.trace_board.specs.Tracked.{tracked_of};
ghost use Rattle.trace_shapes.specs.Shapes.{with_number, each_below, place_text};
ghost use Rattle.trace_picture.specs.Overview.{columns_height, over_x, over_y, cell_text, waiting_cell, ran_cell, held_cell, link_text, column_text, over_height, over_style};

use larch_actions::Layout;
use trace_board::board::TraceState;
use trace_board::history::Origin;
use trace_core::add;
use trace_shapes::tags::{add_place, add_with_number};
use trace_shapes::view::{DrawnRange, count_bands};

// How high a row of a hundred columns is.
#[tactic(auto, using(larch_actions::proofs::Names::few_threads))]
fn height_of_columns(layout: &Layout) -> u64
    requires { IsLawful layout.now }
    ensures height { result ≡ columns_height layout.now }
    ensures small { result < 2 ^ 12 }
{
    6 * u64::from(layout.threads) + 6 * u64::from(layout.mutexes) + 30
}

// Adds a cell of a column.
#[tactic(auto, unfolding(crate::specs::Overview::cell_text))]
fn add_cell(buf: &mut [u8], at: usize, x: u64, y: u64) -> usize
    requires { at + 90 ≤ length buf.old }
    ensures text { take result buf.new ≡ take at buf.old ++ cell_text x y }
    ensures near { result ≤ at + 90 }
{
    let at = add_place(buf, at, x, y);
    add(buf, at, b"' width='11' height='5'/>\n")
}

// Adds the cell of a thread that only waits.
fn add_waiting(buf: &mut [u8], at: usize, since: Option<Origin>, x: u64, y: u64) -> usize
    requires { at + 120 ≤ length buf.old }
    ensures text { take result buf.new ≡ take at buf.old ++ waiting_cell since x y }
    ensures near { result ≤ at + 120 }
{
    match since {
        Some(_) => {
            let at = add(buf, at, b"<rect class='u1");
            add_cell(buf, at, x, y)
        }
        None => at,
    }
}

// Adds the cell of a thread: where it had an event from the event `start` on, or where it only waits.
fn add_ran(
    buf: &mut [u8],
    at: usize,
    board: &TraceState,
    start: u64,
    x: u64,
    y: u64,
    t: u32,
) -> usize
    requires few { t < 256 }
    requires low { y < 2 ^ 60 }
    requires room { at + 120 ≤ length buf.old }
    ensures text { take result buf.new ≡ take at buf.old ++ ran_cell (tracked_of board.now) start x y t }
    ensures near { result ≤ at + 120 }
{
    if board.has_run(start, t) {
        let at = add(buf, at, b"<rect class='u0");
        add_cell(buf, at, x, y + 6 * u64::from(t))
    } else {
        add_waiting(buf, at, board.waits.at(t), x, y + 6 * u64::from(t))
    }
}

// Adds the cell of a mutex, where it was held from the event `start` on.
fn add_held(
    buf: &mut [u8],
    at: usize,
    board: &TraceState,
    start: u64,
    x: u64,
    y: u64,
    m: u32,
) -> usize
    requires few { m < 64 }
    requires low { y < 2 ^ 60 }
    requires room { at + 140 ≤ length buf.old }
    ensures text { take result buf.new ≡ take at buf.old ++ held_cell (tracked_of board.now) start x y m }
    ensures near { result ≤ at + 140 }
{
    if board.was_held(start, m) {
        let at = add_with_number(buf, at, b"<rect class='m", u64::from(m));
        add_cell(buf, at, x, y + 6 * u64::from(m))
    } else {
        at
    }
}

// Adds the cells of the threads.
fn add_each_ran(
    buf: &mut [u8],
    at: usize,
    board: &TraceState,
    start: u64,
    x: u64,
    y: u64,
    threads: u32,
) -> usize
    requires few { threads ≤ 256 }
    requires low { y < 2 ^ 60 }
    requires room { at + 120 * threads ≤ length buf.old }
    ensures text { take result buf.new ≡ take at buf.old ++ each_below (ran_cell (tracked_of board.now) start x y) threads }
    ensures near { result ≤ at + 120 * threads }
{
    let mut last = at;
    for t in 0..threads {
        last = add_ran(buf, last, board, start, x, y, t);
    }
    last
}

// Adds the cells of the mutexes.
fn add_each_held(
    buf: &mut [u8],
    at: usize,
    board: &TraceState,
    start: u64,
    x: u64,
    y: u64,
    mutexes: u32,
) -> usize
    requires few { mutexes ≤ 64 }
    requires low { y < 2 ^ 60 }
    requires room { at + 140 * mutexes ≤ length buf.old }
    ensures text { take result buf.new ≡ take at buf.old ++ each_below (held_cell (tracked_of board.now) start x y) mutexes }
    ensures near { result ≤ at + 140 * mutexes }
{
    let mut last = at;
    for m in 0..mutexes {
        last = add_held(buf, last, board, start, x, y, m);
    }
    last
}

// Adds the link of a column to its band.
#[tactic(auto, unfolding(crate::specs::Overview::link_text))]
fn add_link(buf: &mut [u8], at: usize, band: u64, start: u64, to: u64) -> usize
    requires { at + 130 ≤ length buf.old }
    ensures text { take result buf.new ≡ take at buf.old ++ link_text band start to }
    ensures near { result ≤ at + 130 }
{
    let at = add_with_number(buf, at, b"<a class='u' href='#b", band);
    let at = add_with_number(buf, at, b"'><title>events ", start);
    let at = add_with_number(buf, at, b" to ", to.saturating_sub(1));
    add(buf, at, b"</title>\n")
}

/// Adds the column of the band that begins at the event `start`, up to the event before `to`.
#[tactic(auto, using(larch_actions::proofs::Names::few_threads))]
pub fn add_column(
    buf: &mut [u8],
    at: usize,
    layout: &Layout,
    board: &TraceState,
    band: u64,
    start: u64,
    to: u64,
) -> usize
    requires lawful { IsLawful layout.now }
    requires few { band < 2 ^ 42 }
    requires room { at + 40000 ≤ length buf.old }
    ensures text { take result buf.new ≡ take at buf.old ++ column_text layout.now (tracked_of board.now) band start to }
    ensures near { result ≤ at + 40000 }
{
    let x = 44 + 12 * (band % 100);
    let y = band / 100 * height_of_columns(layout);
    let low = y + 6 * u64::from(layout.threads) + 6;
    let at = add_link(buf, at, band, start, to);
    let at = add_each_ran(buf, at, board, start, x, y, layout.threads);
    let at = add_each_held(buf, at, board, start, x, low, layout.mutexes);
    add(buf, at, b"</a>\n")
}

/// How much higher the overview makes the picture.
pub fn height_of_overview(layout: &Layout, view: &DrawnRange, count: u64) -> u64
    requires lawful { IsLawful layout.now }
    requires few { count < 2 ^ 42 }
    ensures height { result ≡ over_height layout.now view.now count }
    ensures small { result < 2 ^ 60 }
{
    let bands = count_bands(view, count);
    if 10 < bands {
        (bands + 99) / 100 * height_of_columns(layout) + 24
    } else {
        0
    }
}

/// Adds what shows the overview, and the last tag.
pub fn add_over_style(
    buf: &mut [u8],
    at: usize,
    layout: &Layout,
    view: &DrawnRange,
    count: u64,
) -> usize
    requires lawful { IsLawful layout.now }
    requires few { count < 2 ^ 42 }
    requires room { at + 160 ≤ length buf.old }
    ensures text { take result buf.new ≡ take at buf.old ++ over_style layout.now view.now count }
    ensures near { result ≤ at + 160 }
{
    if 10 < count_bands(view, count) {
        let at = add_with_number(
            buf,
            at,
            b"px)}.u{display:inline;transform:translate(0,8px) translate(0,-",
            height_of_overview(layout, view, count),
        );
        add(buf, at, b"px)}</style>\n</svg>\n")
    } else {
        add(buf, at, b"px)}</style>\n</svg>\n")
    }
}
