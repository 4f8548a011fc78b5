//! What each event adds to the picture.
ghost use Rattle.std.specs.Prelude.{◌≡◌, ◌+◌, ◌-◌, ◌*◌, ◌<◌, ◌≤◌, ◌^◌, ◌++◌, ◌&&◌, nat_lt, if◌then◌else◌, [], length, take, codes, true, false, ℕ, None};
ghost use Rattle.larch_actions.specs.Layout.{IsLawful};
ghost use Rattle.trace_board.specs.History.{entry_of, origin_of, IsWithin};
ghost use Rattle.trace_board.specs.Causes.{cause_of};
ghost use Rattle.trace_board.specs.Tracked.{tracked_of, tracked_after, came, IsNoted, IsNear};
ghost use Rattle.trace_board.specs.Marks.{marks};
ghost use Rattle.larch_actions.specs.State.{count_below};
ghost use Rattle.trace_shapes.specs.declared.geometry.TheConstants.{IDLE_NAMES};
ghost use Rattle.trace_shapes.specs.Places.{in_view, column, is_open, band_of};
ghost use Rattle.trace_shapes.specs.Shapes.{with_number, each_below, number_text, object_if, failed_text};
ghost use Rattle.trace_picture.specs.Bands.{band_number, lines_height, lines_text, band_tag, idle_name, more_idle, idle_line, idle_text, opening, on_to, up_to, strip_of, taken_strip, bar_if, taken_if, wait_if, bars_on, band_end, closing, bar_ended, taken_ended, wait_ended, closing_after, bars_ended, event_marks, event_shapes, arrows_at, step_text, failing_text};
ghost use Rattle.trace_picture.specs.Shown.{drawn_of, has_arrows, opened, shown_by, drawn_after};
ghost use Rattle.trace_picture.specs.Plan.{is_idle, idle_count};

use crate::arrows::add_arrows;
use crate::lives::{add_life_row, add_rows};
use crate::overview::add_column;
use crate::plan::{Page, count_idle, is_idle};
use crate::shown::{Drawing, note_event, note_opening};
use larch_actions::{Broken, Event, Layout};
use trace_board::board::{Reason, TraceState};
use trace_board::history::{Change, Origin};
use trace_board::marks::{Effects, marks_of};
use trace_board::rows::Bar;
use trace_core::add;
use trace_shapes::geometry::{BAND, IDLE_NAMES, LINES_TOP, NAME_LINE};
use trace_shapes::shapes::{
    add_bar, add_failed, add_label, add_mark, add_object_if, add_taken_bar, add_wait_bar,
};
use trace_shapes::tags::add_with_number;
use trace_shapes::view::{
    Band, DrawnRange, Plan, Reach, Strip, band_of, column_of, is_band_open, is_in_view,
};

// The number of a band.
fn number_of(view: &DrawnRange, band: &Band) -> u64
    ensures number { result ≡ band_number view.now band.now }
    ensures small { result ≤ band.now.start }
{
    band.start.saturating_sub(view.first) / BAND
}

// Adds the first tag of a band.
#[tactic(auto, unfolding(crate::specs::Bands::band_tag))]
fn add_band(buf: &mut [u8], at: usize, top: u64, band: u64) -> usize
    requires { at + 100 ≤ length buf.old }
    ensures text { take result buf.new ≡ take at buf.old ++ band_tag top band }
    ensures near { result ≤ at + 100 }
{
    let at = add_with_number(buf, at, b"<g id='b", band);
    let at = add_with_number(buf, at, b"' transform='translate(0 ", top);
    add(buf, at, b")'>\n")
}

// Adds the lines at each tenth column.
#[tactic(auto, unfolding(crate::specs::Bands::lines_text))]
fn add_lines(buf: &mut [u8], at: usize, height: u64) -> usize
    requires { at + 200 ≤ length buf.old }
    ensures text { take result buf.new ≡ take at buf.old ++ lines_text height }
    ensures near { result ≤ at + 200 }
{
    let at = add_with_number(buf, at, b"<path class='l' d='M283 17v", height);
    let at = add_with_number(buf, at, b"M523 17v", height);
    let at = add_with_number(buf, at, b"M763 17v", height);
    let at = add_with_number(buf, at, b"M1003 17v", height);
    add(buf, at, b"'/>\n")
}

// How far the lines go down.
fn lines_height(plan: &Plan) -> u64
    ensures { result ≡ lines_height plan.now }
{
    u64::from(plan.end).saturating_sub(LINES_TOP)
}

// Adds the name of the thread where it is one of the first that live and have no row, and says whether it is one.
fn add_idle_name(buf: &mut [u8], at: usize, idle: bool, before: u32, t: u32) -> usize
    requires { at + 22 ≤ length buf.old }
    ensures text { take result buf.new ≡ take at buf.old ++ (if idle && nat_lt before IDLE_NAMES then with_number (codes " t") t else []) }
    ensures near { result ≤ at + 22 }
{
    if idle && before < IDLE_NAMES {
        add_with_number(buf, at, b" t", u64::from(t))
    } else {
        at
    }
}

// One, if so.
fn one_if(so: bool) -> u32
    ensures { result ≡ (if so then 1 else 0) }
{
    if so { 1 } else { 0 }
}

// Adds the names of the first threads that live and have no row.
fn add_idle_names(
    buf: &mut [u8],
    at: usize,
    layout: &Layout,
    plan: &Plan,
    board: &TraceState,
) -> usize
    requires lawful { layout.now.threads ≤ 256 }
    requires room { at + 5700 ≤ length buf.old }
    ensures text { take result buf.new ≡ take at buf.old ++
        each_below (idle_name layout.now.version plan.now (tracked_of board.now)) layout.now.threads }
    ensures near { result ≤ at + 5700 }
{
    let mut last = at;
    let mut before = 0;
    for t in 0..layout.threads {
        let idle = is_idle(layout.version, plan, board, t);
        last = add_idle_name(buf, last, idle, before, t);
        let more = one_if(idle);
        before += more;
    }
    last
}

// Adds how many more there are.
fn add_more_idle(buf: &mut [u8], at: usize, idle: u32) -> usize
    requires { at + 40 ≤ length buf.old }
    ensures text { take result buf.new ≡ take at buf.old ++ more_idle idle }
    ensures near { result ≤ at + 40 }
{
    if IDLE_NAMES < idle {
        let at = add_with_number(buf, at, b" and ", u64::from(idle - IDLE_NAMES));
        add(buf, at, b" more")
    } else {
        at
    }
}

// Adds the line that names them, of whom there are so many.
#[tactic(auto, using(larch_actions::proofs::Names::few_threads), unfolding(crate::specs::Bands::idle_line))]
fn add_idle_line(
    buf: &mut [u8],
    at: usize,
    layout: &Layout,
    plan: &Plan,
    board: &TraceState,
    idle: u32,
) -> usize
    requires lawful { IsLawful layout.now }
    requires count { idle ≡ idle_count layout.now plan.now (tracked_of board.now) }
    requires room { at + 5900 ≤ length buf.old }
    ensures text { take result buf.new ≡ take at buf.old ++ idle_line layout.now plan.now (tracked_of board.now) }
    ensures near { result ≤ at + 5900 }
{
    let line = u64::from(plan.end) + NAME_LINE;
    let at = add_with_number(buf, at, b"<text class='c' x='6' y='", line);
    let at = add(buf, at, b"'>idle:");
    let at = add_idle_names(buf, at, layout, plan, board);
    let at = add_more_idle(buf, at, idle);
    add(buf, at, b"</text>\n")
}

// The same, where there are any.
fn add_idle(buf: &mut [u8], at: usize, layout: &Layout, plan: &Plan, board: &TraceState) -> usize
    requires lawful { IsLawful layout.now }
    requires room { at + 5900 ≤ length buf.old }
    ensures text { take result buf.new ≡ take at buf.old ++ idle_text layout.now plan.now (tracked_of board.now) }
    ensures near { result ≤ at + 5900 }
{
    let idle = count_idle(layout, plan, board);
    if 0 < idle {
        add_idle_line(buf, at, layout, plan, board, idle)
    } else {
        at
    }
}

// Adds a new band where the event begins one.
#[tactic(auto, unfolding(crate::specs::Bands::opening))]
fn add_opening(
    buf: &mut [u8],
    at: usize,
    layout: &Layout,
    view: &DrawnRange,
    page: &Page,
    board: &TraceState,
    place: u64,
) -> usize
    requires lawful { IsLawful layout.now }
    requires room { at + 50000 ≤ length buf.old }
    ensures text { take result buf.new ≡ take at buf.old ++ opening layout.now view.now page.now (tracked_of board.now) place }
    ensures near { result ≤ at + 50000 }
{
    if column_of(view, place) == 0 {
        let band = band_of(layout, view, &page.plan, place);
        let at = add_band(buf, at, page.top, number_of(view, &band));
        let at = add_rows(buf, at, layout, &band, board);
        let at = add_lines(buf, at, lines_height(&page.plan));
        add_idle(buf, at, layout, &page.plan, board)
    } else {
        at
    }
}

// Adds the bar of a mutex where it is held.
fn add_bar_if(buf: &mut [u8], at: usize, reach: &Reach, board: &TraceState, mutex: u32) -> usize
    requires few { mutex < 256 }
    requires room { at + 550 ≤ length buf.old }
    requires place { reach.now.to < 2 ^ 42 }
    ensures text { take result buf.new ≡ take at buf.old ++ bar_if reach.now (tracked_of board.now) mutex (entry_of board.now.held mutex) }
    ensures near { result ≤ at + 550 }
{
    match board.held.at(mutex) {
        Some(since) => {
            let strip = Strip {
                number: mutex,
                lane: board.rows.lane(since.thread, Bar::Mutex(mutex)),
                since,
                given: board.given.at(mutex),
            };
            add_bar(buf, at, reach, &strip)
        }
        None => at,
    }
}

// Adds the bar of a semaphore where it is taken.
fn add_taken_if(buf: &mut [u8], at: usize, reach: &Reach, board: &TraceState, sem: u32) -> usize
    requires few { sem < 256 }
    requires room { at + 550 ≤ length buf.old }
    requires place { reach.now.to < 2 ^ 42 }
    ensures text { take result buf.new ≡ take at buf.old ++ taken_if reach.now (tracked_of board.now) sem (entry_of board.now.taken sem) }
    ensures near { result ≤ at + 550 }
{
    match board.taken.at(sem) {
        Some(since) => {
            let strip = Strip {
                number: sem,
                lane: board.rows.lane(since.thread, Bar::Semaphore(sem)),
                since,
                given: None,
            };
            add_taken_bar(buf, at, reach, &strip)
        }
        None => at,
    }
}

// Adds the wait of a thread where it waits, which this event let go on.
fn add_wait_if(
    buf: &mut [u8],
    at: usize,
    reach: &Reach,
    since: Option<Origin>,
    by: Option<Origin>,
) -> usize
    requires room { at + 710 ≤ length buf.old }
    requires place { reach.now.to < 2 ^ 42 }
    ensures text { take result buf.new ≡ take at buf.old ++ wait_if reach.now by since }
    ensures near { result ≤ at + 710 }
{
    match since {
        Some(o) => add_wait_bar(buf, at, reach, &o, by),
        None => at,
    }
}

// Adds the bars of the mutexes that are held.
fn add_bars(buf: &mut [u8], at: usize, reach: &Reach, board: &TraceState, mutexes: u32) -> usize
    requires few { mutexes ≤ 64 }
    requires place { reach.now.to < 2 ^ 42 }
    requires room { at + 550 * mutexes ≤ length buf.old }
    ensures text { take result buf.new ≡ take at buf.old ++ each_below (λ m. bar_if reach.now (tracked_of board.now) m
        (entry_of board.now.held m)) mutexes }
    ensures near { result ≤ at + 550 * mutexes }
{
    let mut last = at;
    for m in 0..mutexes {
        last = add_bar_if(buf, last, reach, board, m);
    }
    last
}

// Adds the bars of the semaphores that are taken.
fn add_takings(
    buf: &mut [u8],
    at: usize,
    reach: &Reach,
    board: &TraceState,
    semaphores: u32,
) -> usize
    requires few { semaphores ≤ 64 }
    requires place { reach.now.to < 2 ^ 42 }
    requires room { at + 550 * semaphores ≤ length buf.old }
    ensures text { take result buf.new ≡ take at buf.old ++ each_below (λ s. taken_if reach.now (tracked_of board.now) s
        (entry_of board.now.taken s)) semaphores }
    ensures near { result ≤ at + 550 * semaphores }
{
    let mut last = at;
    for s in 0..semaphores {
        last = add_taken_if(buf, last, reach, board, s);
    }
    last
}

// Adds the threads that wait.
fn add_waits(buf: &mut [u8], at: usize, reach: &Reach, board: &TraceState, threads: u32) -> usize
    requires few { threads ≤ 256 }
    requires place { reach.now.to < 2 ^ 42 }
    requires room { at + 710 * threads ≤ length buf.old }
    ensures text { take result buf.new ≡ take at buf.old ++ each_below (λ t. wait_if reach.now (came (cause_of board.now.stands t))
        (entry_of board.now.waits t)) threads }
    ensures near { result ≤ at + 710 * threads }
{
    let mut last = at;
    for t in 0..threads {
        let by = board.waker(Reason::Condition(t));
        last = add_wait_if(buf, last, reach, board.waits.at(t), by);
    }
    last
}

// Adds the bars that go on.
#[tactic(auto, using(larch_actions::proofs::Names::few_threads), unfolding(crate::specs::Bands::bars_on))]
fn add_bars_on(
    buf: &mut [u8],
    at: usize,
    layout: &Layout,
    reach: &Reach,
    board: &TraceState,
) -> usize
    requires lawful { IsLawful layout.now }
    requires place { reach.now.to < 2 ^ 42 }
    requires room { at + 252200 ≤ length buf.old }
    ensures text { take result buf.new ≡ take at buf.old ++ bars_on layout.now reach.now (tracked_of board.now) }
    ensures near { result ≤ at + 252200 }
{
    let at = add_bars(buf, at, reach, board, layout.mutexes);
    let at = add_takings(buf, at, reach, board, layout.semaphores);
    add_waits(buf, at, reach, board, layout.threads)
}

// Adds the last tag of a band, and its column of the overview up to the event before `to`.
#[tactic(auto, unfolding(crate::specs::Bands::band_end))]
fn add_band_end(
    buf: &mut [u8],
    at: usize,
    layout: &Layout,
    view: &DrawnRange,
    band: &Band,
    board: &TraceState,
    to: u64,
) -> usize
    requires lawful { IsLawful layout.now }
    requires start { band.now.start < 2 ^ 42 }
    requires room { at + 40010 ≤ length buf.old }
    ensures text { take result buf.new ≡ take at buf.old ++ band_end layout.now view.now band.now (tracked_of board.now) to }
    ensures near { result ≤ at + 40010 }
{
    let at = add(buf, at, b"</g>\n");
    let number = number_of(view, band);
    add_column(buf, at, layout, board, number, band.start, to)
}

/// Adds the end of a band, before the event `to`.
#[tactic(auto, unfolding(crate::specs::Bands::closing))]
pub fn add_closing(
    buf: &mut [u8],
    at: usize,
    layout: &Layout,
    view: &DrawnRange,
    band: &Band,
    board: &TraceState,
    to: u64,
) -> usize
    requires lawful { IsLawful layout.now }
    requires start { band.now.start < 2 ^ 42 }
    requires place { to < 2 ^ 42 }
    requires room { at + 292300 ≤ length buf.old }
    ensures text { take result buf.new ≡ take at buf.old ++ closing layout.now view.now band.now (tracked_of board.now) to }
    ensures near { result ≤ at + 292300 }
{
    let reach = Reach {
        band: *band,
        to,
        ended: false,
    };
    let at = add_bars_on(buf, at, layout, &reach, board);
    add_band_end(buf, at, layout, view, band, board, to)
}

// Adds the end of a band after the event, where it is full or the part that is drawn ends.
#[tactic(auto, unfolding(crate::specs::Bands::closing_after))]
fn add_closing_after(
    buf: &mut [u8],
    at: usize,
    layout: &Layout,
    view: &DrawnRange,
    plan: &Plan,
    board: &TraceState,
    place: u64,
) -> usize
    requires lawful { IsLawful layout.now }
    requires few { place < 2 ^ 41 }
    requires room { at + 292300 ≤ length buf.old }
    ensures text { take result buf.new ≡ take at buf.old ++ closing_after layout.now view.now plan.now (tracked_of board.now) place }
    ensures near { result ≤ at + 292300 }
{
    if is_band_open(view, place + 1) {
        at
    } else {
        let band = band_of(layout, view, plan, place);
        add_closing(buf, at, layout, view, &band, board, place + 1)
    }
}

// Adds the bar that ends with the event.
fn add_bar_ended(
    buf: &mut [u8],
    at: usize,
    reach: &Reach,
    board: &TraceState,
    effect: Change,
) -> usize
    requires within { IsWithin effect }
    requires few { reach.now.to < 2 ^ 42 }
    requires room { at + 550 ≤ length buf.old }
    ensures text { take result buf.new ≡ take at buf.old ++ bar_ended reach.now (tracked_of board.now) effect }
    ensures near { result ≤ at + 550 }
{
    match effect {
        Change::Ends(m) => add_bar_if(buf, at, reach, board, m),
        Change::Begins(_) => at,
        Change::Stays => at,
    }
}

// Adds the bar of the semaphore that the event makes available.
fn add_taken_ended(
    buf: &mut [u8],
    at: usize,
    reach: &Reach,
    board: &TraceState,
    effect: Change,
) -> usize
    requires within { IsWithin effect }
    requires few { reach.now.to < 2 ^ 42 }
    requires room { at + 550 ≤ length buf.old }
    ensures text { take result buf.new ≡ take at buf.old ++ taken_ended reach.now (tracked_of board.now) effect }
    ensures near { result ≤ at + 550 }
{
    match effect {
        Change::Ends(s) => add_taken_if(buf, at, reach, board, s),
        Change::Begins(_) => at,
        Change::Stays => at,
    }
}

// Adds the wait that ends with the event, which this other let go on.
fn add_wait_ended(
    buf: &mut [u8],
    at: usize,
    reach: &Reach,
    board: &TraceState,
    by: Option<Origin>,
    effect: Change,
) -> usize
    requires within { IsWithin effect }
    requires few { reach.now.to < 2 ^ 42 }
    requires room { at + 710 ≤ length buf.old }
    ensures text { take result buf.new ≡ take at buf.old ++ wait_ended reach.now (tracked_of board.now) by effect }
    ensures near { result ≤ at + 710 }
{
    match effect {
        Change::Ends(t) => add_wait_if(buf, at, reach, board.waits.at(t), by),
        Change::Begins(_) => at,
        Change::Stays => at,
    }
}

// Adds the bars that end with the event that shows this.
fn add_bars_ended(
    buf: &mut [u8],
    at: usize,
    reach: &Reach,
    board: &TraceState,
    shown: &Effects,
) -> usize
    requires held { IsWithin shown.now.mutex }
    requires taken { IsWithin shown.now.semaphore }
    requires waits { IsWithin shown.now.wait }
    requires waker { IsNear shown.now.waker }
    requires few { reach.now.to < 2 ^ 42 }
    requires room { at + 2000 ≤ length buf.old }
    ensures text { take result buf.new ≡ take at buf.old ++ bars_ended reach.now (tracked_of board.now) shown.now }
    ensures near { result ≤ at + 2000 }
{
    let at = add_bar_ended(buf, at, reach, board, shown.mutex);
    let at = add_taken_ended(buf, at, reach, board, shown.semaphore);
    let by = board.waker(shown.waker);
    add_wait_ended(buf, at, reach, board, by, shown.wait)
}

// Adds the number of an event, the row that it begins or ends, its mark and the number of its object, and the bars that it ends.
fn add_event_marks(
    buf: &mut [u8],
    at: usize,
    reach: &Reach,
    board: &TraceState,
    place: u64,
    e: &Event,
    shown: &Effects,
    ordered: bool,
) -> usize
    requires noted { IsNoted e.now }
    requires same { shown.now ≡ marks e.now }
    requires few { place < 2 ^ 41 }
    requires reach { reach.now ≡ up_to reach.now.band place }
    requires room { at + 5000 ≤ length buf.old }
    ensures text { take result buf.new ≡ take at buf.old ++ event_marks ordered reach.now.band (tracked_of board.now) place e.now }
    ensures near { result ≤ at + 5000 }
{
    let at = add_label(buf, at, &reach.band, place);
    let at = add_life_row(buf, at, &reach.band, place, shown.life);
    let at = add_mark(buf, at, ordered, &reach.band, place, e, shown);
    let at = add_object_if(buf, at, &reach.band, place, e, shown);
    add_bars_ended(buf, at, reach, board, shown)
}

// Adds these and the arrows from the event and to it, and notes what was drawn.
#[tactic(auto, using(larch_actions::proofs::Names::few_threads), unfolding(crate::specs::Bands::event_shapes))]
fn add_event_shapes(
    buf: &mut [u8],
    at: usize,
    layout: &Layout,
    view: &DrawnRange,
    drawing: &mut Drawing,
    place: u64,
    e: &Event,
) -> usize
    requires lawful { IsLawful layout.now }
    requires noted { IsNoted e.now }
    requires few { place < 2 ^ 41 }
    requires room { at + 99300 ≤ length buf.old }
    ensures text { take result buf.new ≡ take at buf.old ++
        event_shapes view.now.ordered (band_of layout.now view.now drawing.old.page.plan place) (tracked_of drawing.old.board) place e.now }
    ensures kept { tracked_of drawing.new.board ≡ tracked_of drawing.old.board }
    ensures page { drawing.new.page ≡ drawing.old.page }
    ensures shown { entry_of drawing.new.shown ≡ shown_by (origin_of place e.now) (marks e.now)
        (has_arrows layout.now (tracked_of drawing.old.board) (origin_of place e.now) (marks e.now))
        (opened layout.now view.now (tracked_of drawing.old.board) (origin_of place e.now) (entry_of drawing.old.shown)) }
    ensures near { result ≤ at + 99300 }
{
    let band = band_of(layout, view, &drawing.page.plan, place);
    let reach = Reach {
        band,
        to: place + 1,
        ended: true,
    };
    let shown = marks_of(e.thread, &e.action);
    let by = Origin {
        thread: e.thread,
        object: shown.object,
        place,
    };
    let marked = add_event_marks(
        buf,
        at,
        &reach,
        &drawing.board,
        place,
        e,
        &shown,
        view.ordered,
    );
    let end = add_arrows(buf, marked, &reach.band, &drawing.board, &by, &shown);
    note_opening(&mut drawing.shown, layout, view, &drawing.board, by);
    note_event(&mut drawing.shown, &shown, marked < end, by);
    end
}

// Adds what the event shows, and the end of its band, where it is drawn.
fn add_drawn(
    buf: &mut [u8],
    at: usize,
    layout: &Layout,
    view: &DrawnRange,
    drawing: &mut Drawing,
    place: u64,
    e: &Event,
) -> usize
    requires lawful { IsLawful layout.now }
    requires noted { IsNoted e.now }
    requires few { place < 2 ^ 41 }
    requires seen { in_view view.now place ≡ true }
    requires room { at + 446000 ≤ length buf.old }
    ensures text { take result buf.new ≡ take at buf.old ++
        (opening layout.now view.now drawing.old.page (tracked_of drawing.old.board) place
        ++ event_shapes view.now.ordered (band_of layout.now view.now drawing.old.page.plan place) (tracked_of drawing.old.board) place e.now
        ++ closing_after layout.now view.now drawing.old.page.plan (tracked_of drawing.new.board) place) }
    ensures kept { drawn_of drawing.new ≡ drawn_after layout.now view.now place e.now (drawn_of drawing.old) }
    ensures near { result ≤ at + 446000 }
{
    let at = add_opening(buf, at, layout, view, &drawing.page, &drawing.board, place);
    let at = add_event_shapes(buf, at, layout, view, drawing, place, e);
    drawing.board.note(place, e);
    add_closing_after(
        buf,
        at,
        layout,
        view,
        &drawing.page.plan,
        &drawing.board,
        place,
    )
}

/// Adds all that an event adds, and notes what it takes and gives back.
#[tactic(auto, unfolding(crate::specs::Bands::step_text))]
pub fn add_step(
    buf: &mut [u8],
    at: usize,
    layout: &Layout,
    view: &DrawnRange,
    drawing: &mut Drawing,
    place: u64,
    e: &Event,
) -> usize
    requires lawful { IsLawful layout.now }
    requires noted { IsNoted e.now }
    requires few { place < 2 ^ 41 }
    requires room { at + 446000 ≤ length buf.old }
    ensures text { take result buf.new ≡ take at buf.old ++
        step_text layout.now view.now drawing.old.page (tracked_of drawing.old.board) place e.now }
    ensures kept { drawn_of drawing.new ≡ drawn_after layout.now view.now place e.now (drawn_of drawing.old) }
    ensures near { result ≤ at + 446000 }
{
    if is_in_view(view, place) {
        add_drawn(buf, at, layout, view, drawing, place, e)
    } else {
        drawing.board.note(place, e);
        at
    }
}

// Adds the number of an event and the mark of its failure.
fn add_failed_shapes(
    buf: &mut [u8],
    at: usize,
    band: &Band,
    place: u64,
    e: &Event,
    why: Broken,
) -> usize
    requires place { place < 2 ^ 42 }
    requires room { at + 1900 ≤ length buf.old }
    ensures text { take result buf.new ≡ take at buf.old ++ (number_text band.now place ++ failed_text band.now place e.now why) }
    ensures near { result ≤ at + 1900 }
{
    let at = add_label(buf, at, band, place);
    add_failed(buf, at, band, place, e, why)
}

/// Adds all that an event that fails adds.
#[tactic(auto, unfolding(crate::specs::Bands::failing_text))]
pub fn add_failing(
    buf: &mut [u8],
    at: usize,
    layout: &Layout,
    view: &DrawnRange,
    page: &Page,
    board: &TraceState,
    place: u64,
    e: &Event,
    why: Broken,
) -> usize
    requires lawful { IsLawful layout.now }
    requires few { place < 2 ^ 41 }
    requires room { at + 400000 ≤ length buf.old }
    ensures text { take result buf.new ≡ take at buf.old
        ++ failing_text layout.now view.now page.now (tracked_of board.now) place e.now why }
    ensures near { result ≤ at + 400000 }
{
    if is_in_view(view, place) {
        let band = band_of(layout, view, &page.plan, place);
        let reach = Reach {
            band,
            to: place,
            ended: false,
        };
        let at = add_opening(buf, at, layout, view, page, board, place);
        let at = add_bars_on(buf, at, layout, &reach, board);
        let at = add_failed_shapes(buf, at, &band, place, e, why);
        add_band_end(buf, at, layout, view, &band, board, place + 1)
    } else {
        at
    }
}
