//! Marks, bars and rows, written into a buffer after its first `at` bytes. Each call returns where it ended.
ghost use Rattle.std.specs.Prelude.{◌≡◌, ◌+◌, ◌-◌, ◌*◌, ◌%◌, ◌<◌, ◌≤◌, ◌^◌, ◌++◌, ◌∷◌, [], length, take, codes};
ghost use Rattle.trace_board.specs.Marks.{marks};
ghost use Rattle.trace_shapes.specs.Looks.{look_of};
ghost use Rattle.trace_shapes.specs.Places.{bar_from, bar_width, bar_x, event_x, lane_y, mark_y, kind_in, row_y, row_height, wait_top, wait_line, name_line, wait_x, wait_end};
ghost use Rattle.trace_shapes.specs.Shapes.{with_number, line_of, place_text, box_text, clause_word, clause_name, strike_text, flag_place, flag_text, begins, mark_id, mark_text, failed_mark, failed_text, end_words, span_text, giver_text, given_text, bar_box, bar_name, bar_text, taken_text, wait_y, wait_name, wait_name_if, wait_tag, wait_part, in_text, in_if, let_go_x, out_text, out_if, parts_text, wait_text, name_tag, row_name, row_text, number_text, digits_of, number_left, object_text, object_if};

use crate::geometry::{
    BAR_GAP, COLUMN, DIGIT_LEFT, DIGITS_END, FLAG_GAP, FLAG_TURN, LEFT, LETTER_LINE, MIDDLE,
    NAME_LEFT, NAME_LINE, NAMED_WAIT,
};
use crate::legend::{has_number, look_of};
use crate::places::{
    event_x, kind_in, lane_y, mark_y, name_line, row_height, row_y, wait_line, wait_top,
};
use crate::tags::{add_box, add_line, add_place, add_with_number};
use crate::view::{Band, Reach, RowKind, Strip, is_thin};
use larch_actions::{Broken, Event};
use trace_board::history::{Change, Origin};
use trace_board::marks::{Effects, Mark};
use trace_core::add;

/// The word of a clause.
pub fn word_of(why: Broken) -> &'static [u8]
    ensures word { result.now ≡ clause_word why }
    ensures short { length result.now ≤ 8 }
{
    match why {
        Broken::Order => b"order",
        Broken::Requires => b"requires",
        Broken::When => b"when",
        Broken::Ensures => b"ensures",
    }
}

// Adds the start of a mark.
fn add_use(buf: &mut [u8], at: usize, mark: Mark) -> usize
    requires { at + 20 ≤ length buf.old }
    ensures text { take result buf.new ≡ take at buf.old ++ (codes "<use href='#" ++ (look_of mark).letter ∷ []) }
    ensures near { result ≤ at + 20 }
{
    let at = add(buf, at, b"<use href='#");
    let look = look_of(mark);
    add(buf, at, &[look.letter])
}

// Adds the line of an event as a title.
fn add_title(buf: &mut [u8], at: usize, place: u64, e: &Event) -> usize
    requires { at + 1450 ≤ length buf.old }
    ensures text { take result buf.new ≡ take at buf.old ++ (codes "'><title>" ++ line_of place e.now) }
    ensures near { result ≤ at + 1420 }
{
    let at = add(buf, at, b"'><title>");
    add_line(buf, at, place, e)
}

// Adds the place of an event's mark.
fn add_mark_place(buf: &mut [u8], at: usize, band: &Band, place: u64, e: &Event) -> usize
    requires place { place < 2 ^ 42 }
    requires room { at + 50 ≤ length buf.old }
    ensures text { take result buf.new ≡ take at buf.old ++ place_text (event_x band.now place) (mark_y band.now e.now.thread.0) }
    ensures near { result ≤ at + 50 }
{
    add_place(buf, at, event_x(band, place), mark_y(band, e.thread.0))
}

/// Whether the effect begins something.
pub fn begins(effect: Change) -> bool
    ensures { result ≡ begins effect }
{
    match effect {
        Change::Begins(_) => true,
        Change::Ends(_) => false,
        Change::Stays => false,
    }
}

// Adds how the mark of an event that takes a mutex is called, where the lock order is wanted.
fn add_mark_id(
    buf: &mut [u8],
    at: usize,
    ordered: bool,
    place: u64,
    e: &Event,
    shown: &Effects,
) -> usize
    requires same { shown.now ≡ marks e.now }
    requires room { at + 30 ≤ length buf.old }
    ensures text { take result buf.new ≡ take at buf.old ++ mark_id ordered place e.now }
    ensures near { result ≤ at + 30 }
{
    if ordered && begins(shown.mutex) {
        add_with_number(buf, at, b"' id='e", place)
    } else {
        at
    }
}

/// Adds the mark of an event, which shows this; where the lock order is wanted, with the name that a ring is set by.
#[tactic(auto, unfolding(crate::specs::Shapes::mark_text))]
pub fn add_mark(
    buf: &mut [u8],
    at: usize,
    ordered: bool,
    band: &Band,
    place: u64,
    e: &Event,
    shown: &Effects,
) -> usize
    requires same { shown.now ≡ marks e.now }
    requires place { place < 2 ^ 42 }
    requires room { at + 1630 ≤ length buf.old }
    ensures text { take result buf.new ≡ take at buf.old ++ mark_text ordered band.now place e.now }
    ensures near { result ≤ at + 1630 }
{
    let at = add_use(buf, at, shown.mark);
    let at = add_mark_place(buf, at, band, place, e);
    let at = add_mark_id(buf, at, ordered, place, e, shown);
    let at = add_title(buf, at, place, e);
    add(buf, at, b"</title></use>\n")
}

// How many digits a small number has.
fn digits_of(k: u32) -> u64
    ensures { result ≡ digits_of k }
{
    if k < 10 {
        1
    } else if k < 100 {
        2
    } else {
        3
    }
}

// Where a number stands in its mark.
fn number_left(k: u32) -> u64
    ensures left { result ≡ number_left k }
    ensures small { result < 100 }
{
    if k < 10 { DIGIT_LEFT } else { DIGITS_END }
}

// Adds the number of an event's object.
#[tactic(auto, unfolding(crate::specs::Shapes::object_text))]
fn add_object(
    buf: &mut [u8],
    at: usize,
    band: &Band,
    place: u64,
    e: &Event,
    shown: &Effects,
) -> usize
    requires same { shown.now ≡ marks e.now }
    requires place { place < 2 ^ 42 }
    requires room { at + 140 ≤ length buf.old }
    ensures text { take result buf.new ≡ take at buf.old ++ object_text band.now place e.now }
    ensures near { result ≤ at + 140 }
{
    let x = event_x(band, place) + number_left(shown.object);
    let y = row_y(band, e.thread.0) + LETTER_LINE;
    let at = add_with_number(buf, at, b"<text class='s", digits_of(shown.object));
    let at = add_place(buf, at, x, y);
    let at = add_with_number(buf, at, b"'>", u64::from(shown.object));
    add(buf, at, b"</text>\n")
}

/// Adds the number of an event's object, where its mark has one.
pub fn add_object_if(
    buf: &mut [u8],
    at: usize,
    band: &Band,
    place: u64,
    e: &Event,
    shown: &Effects,
) -> usize
    requires same { shown.now ≡ marks e.now }
    requires place { place < 2 ^ 42 }
    requires room { at + 140 ≤ length buf.old }
    ensures text { take result buf.new ≡ take at buf.old ++ object_if band.now place e.now }
    ensures near { result ≤ at + 140 }
{
    if has_number(shown.mark) {
        add_object(buf, at, band, place, e, shown)
    } else {
        at
    }
}

// Adds what an event fails.
fn add_why(buf: &mut [u8], at: usize, why: Broken) -> usize
    requires { at + 20 ≤ length buf.old }
    ensures text { take result buf.new ≡ take at buf.old ++ (codes " fails " ++ clause_word why) }
    ensures near { result ≤ at + 20 }
{
    let at = add(buf, at, b" fails ");
    add(buf, at, word_of(why))
}

// The name of a clause.
fn clause_name(why: Broken) -> &'static [u8]
    ensures name { result.now ≡ clause_name why }
    ensures short { length result.now ≤ 8 }
{
    match why {
        Broken::Order => b"ORDER",
        Broken::Requires => b"REQUIRES",
        Broken::When => b"WHEN",
        Broken::Ensures => b"ENSURES",
    }
}

// Adds a line through the band at an event that fails.
#[tactic(auto, unfolding(crate::specs::Shapes::strike_text))]
fn add_strike(buf: &mut [u8], at: usize, band: &Band, place: u64) -> usize
    requires place { place < 2 ^ 42 }
    requires room { at + 80 ≤ length buf.old }
    ensures text { take result buf.new ≡ take at buf.old ++ strike_text band.now place }
    ensures near { result ≤ at + 80 }
{
    let x = event_x(band, place) + MIDDLE;
    let at = add_with_number(buf, at, b"<path class='fl' d='M", x);
    let at = add_with_number(buf, at, b" 19V", u64::from(band.plan.end));
    add(buf, at, b"'/>\n")
}

// Adds where its flag stands.
#[tactic(auto, unfolding(crate::specs::Shapes::flag_place))]
fn add_flag_place(buf: &mut [u8], at: usize, band: &Band, place: u64) -> usize
    requires place { place < 2 ^ 42 }
    requires room { at + 60 ≤ length buf.old }
    ensures text { take result buf.new ≡ take at buf.old ++ flag_place band.now place }
    ensures near { result ≤ at + 60 }
{
    let x = event_x(band, place) + MIDDLE;
    if place.saturating_sub(band.start) < FLAG_TURN {
        add_with_number(buf, at, b"<text class='ft' y='13' x='", x + FLAG_GAP)
    } else {
        add_with_number(buf, at, b"<text class='fe' y='13' x='", x - FLAG_GAP)
    }
}

// Adds the name of the clause that an event fails.
fn add_clause(buf: &mut [u8], at: usize, why: Broken) -> usize
    requires { at + 20 ≤ length buf.old }
    ensures text { take result buf.new ≡ take at buf.old ++ (codes " fails " ++ clause_name why) }
    ensures near { result ≤ at + 20 }
{
    let at = add(buf, at, b" fails ");
    add(buf, at, clause_name(why))
}

// Adds the flag of an event that fails.
#[tactic(auto, unfolding(crate::specs::Shapes::flag_text))]
fn add_flag(buf: &mut [u8], at: usize, band: &Band, place: u64, why: Broken) -> usize
    requires place { place < 2 ^ 42 }
    requires room { at + 140 ≤ length buf.old }
    ensures text { take result buf.new ≡ take at buf.old ++ flag_text band.now place why }
    ensures near { result ≤ at + 140 }
{
    let at = add_flag_place(buf, at, band, place);
    let at = add_with_number(buf, at, b"'>event ", place);
    let at = add_clause(buf, at, why);
    add(buf, at, b"</text>\n")
}

// Adds the mark of an event that fails.
#[tactic(auto, unfolding(crate::specs::Shapes::failed_mark))]
fn add_failed_mark(
    buf: &mut [u8],
    at: usize,
    band: &Band,
    place: u64,
    e: &Event,
    why: Broken,
) -> usize
    requires place { place < 2 ^ 42 }
    requires room { at + 1580 ≤ length buf.old }
    ensures text { take result buf.new ≡ take at buf.old ++ failed_mark band.now place e.now why }
    ensures near { result ≤ at + 1580 }
{
    let at = add(buf, at, b"<use href='#F");
    let at = add_mark_place(buf, at, band, place, e);
    let at = add_title(buf, at, place, e);
    let at = add_why(buf, at, why);
    add(buf, at, b"</title></use>\n")
}

/// Adds an event that fails: a line through the band, its mark and a flag.
#[tactic(auto, unfolding(crate::specs::Shapes::failed_text))]
pub fn add_failed(
    buf: &mut [u8],
    at: usize,
    band: &Band,
    place: u64,
    e: &Event,
    why: Broken,
) -> usize
    requires place { place < 2 ^ 42 }
    requires room { at + 1800 ≤ length buf.old }
    ensures text { take result buf.new ≡ take at buf.old ++ failed_text band.now place e.now why }
    ensures near { result ≤ at + 1800 }
{
    let at = add_strike(buf, at, band, place);
    let at = add_failed_mark(buf, at, band, place, e, why);
    add_flag(buf, at, band, place, why)
}

// Adds where a bar ends.
#[tactic(auto, unfolding(crate::specs::Shapes::end_words))]
fn add_end_words(buf: &mut [u8], at: usize, ended: bool, to: u64) -> usize
    requires { at + 30 ≤ length buf.old }
    ensures text { take result buf.new ≡ take at buf.old ++ end_words ended to }
    ensures near { result ≤ at + 30 }
{
    if ended {
        add_with_number(buf, at, b" to event ", to.saturating_sub(1))
    } else {
        add(buf, at, b" on")
    }
}

// Adds of which thread, and from which event to which, a bar is.
#[tactic(auto, unfolding(crate::specs::Shapes::span_text))]
fn add_span(buf: &mut [u8], at: usize, of: &[u8], reach: &Reach, o: &Origin) -> usize
    requires short { length of.now ≤ 20 }
    requires room { at + 105 ≤ length buf.old }
    ensures text { take result buf.new ≡ take at buf.old ++ span_text of.now reach.now o.now }
    ensures near { result ≤ at + 105 }
{
    let at = add_with_number(buf, at, of, u64::from(o.thread.0));
    let at = add_with_number(buf, at, b" from event ", o.place);
    add_end_words(buf, at, reach.ended, reach.to)
}

// Adds which event gave the mutex back before.
#[tactic(auto, unfolding(crate::specs::Shapes::giver_text))]
fn add_giver(buf: &mut [u8], at: usize, o: &Origin) -> usize
    requires { at + 80 ≤ length buf.old }
    ensures text { take result buf.new ≡ take at buf.old ++ giver_text o.now }
    ensures near { result ≤ at + 80 }
{
    let at = add_with_number(buf, at, b", after event ", o.place);
    let at = add_with_number(buf, at, b" of t", u64::from(o.thread.0));
    add(buf, at, b" gave it back")
}

// The same, where it was one of another thread than this.
fn add_given(buf: &mut [u8], at: usize, t: u32, given: Option<Origin>) -> usize
    requires { at + 80 ≤ length buf.old }
    ensures text { take result buf.new ≡ take at buf.old ++ given_text t given }
    ensures near { result ≤ at + 80 }
{
    match given {
        Some(o) => {
            if o.thread.0 == t {
                at
            } else {
                add_giver(buf, at, &o)
            }
        }
        None => at,
    }
}

// The first event of a bar that its band shows.
fn from_of(reach: &Reach, o: &Origin) -> u64
    ensures from { result ≡ bar_from reach.now o.now }
    ensures before { result ≤ reach.now.to }
{
    o.place.max(reach.band.start).min(reach.to)
}

// The left edge of a bar.
fn left_of(reach: &Reach, o: &Origin) -> u64
    requires { reach.now.to < 2 ^ 42 }
    ensures left { result ≡ bar_x reach.now o.now }
    ensures small { result < 2 ^ 48 }
{
    event_x(&reach.band, from_of(reach, o))
}

// The width of a bar.
fn width_of(reach: &Reach, o: &Origin) -> u64
    requires { reach.now.to < 2 ^ 42 }
    ensures { result ≡ bar_width reach.now o.now }
{
    let after = if reach.ended { BAR_GAP } else { 0 };
    (COLUMN * (reach.to - from_of(reach, o))).saturating_sub(after)
}

// Adds where a bar stands.
#[tactic(auto, unfolding(crate::specs::Shapes::bar_box))]
fn add_bar_box(buf: &mut [u8], at: usize, reach: &Reach, strip: &Strip) -> usize
    requires place { reach.now.to < 2 ^ 42 }
    requires room { at + 80 ≤ length buf.old }
    ensures text { take result buf.new ≡ take at buf.old ++ bar_box reach.now strip.now }
    ensures near { result ≤ at + 80 }
{
    let x = left_of(reach, &strip.since);
    let y = lane_y(&reach.band, strip.since.thread.0, strip.lane);
    let width = width_of(reach, &strip.since);
    add_box(buf, at, x, y, width)
}

// Adds the end of a bar's tag, and its name.
#[tactic(auto, unfolding(crate::specs::Shapes::bar_name))]
fn add_bar_name(buf: &mut [u8], at: usize, name: &[u8], reach: &Reach, strip: &Strip) -> usize
    requires place { reach.now.to < 2 ^ 42 }
    requires short { length name.now ≤ 4 }
    requires room { at + 130 ≤ length buf.old }
    ensures text { take result buf.new ≡ take at buf.old ++ bar_name name.now reach.now strip.now }
    ensures near { result ≤ at + 130 }
{
    let x = left_of(reach, &strip.since) + NAME_LEFT;
    let y = lane_y(&reach.band, strip.since.thread.0, strip.lane) + NAME_LINE;
    let at = add(buf, at, b"</title></rect><text class='x");
    let at = add_place(buf, at, x, y);
    let at = add_with_number(buf, at, name, u64::from(strip.number));
    add(buf, at, b"</text>\n")
}

/// Adds the bar of a mutex.
#[tactic(auto, unfolding(crate::specs::Shapes::bar_text))]
pub fn add_bar(buf: &mut [u8], at: usize, reach: &Reach, strip: &Strip) -> usize
    requires place { reach.now.to < 2 ^ 42 }
    requires room { at + 550 ≤ length buf.old }
    ensures text { take result buf.new ≡ take at buf.old ++ bar_text reach.now strip.now }
    ensures near { result ≤ at + 550 }
{
    let m = u64::from(strip.number);
    let at = add_with_number(buf, at, b"<rect class='m", m);
    let at = add_bar_box(buf, at, reach, strip);
    let at = add_with_number(buf, at, b"' height='12' rx='2'><title>m", m);
    let at = add_span(buf, at, b" held by t", reach, &strip.since);
    let at = add_given(buf, at, strip.since.thread.0, strip.given);
    add_bar_name(buf, at, b"'>m", reach, strip)
}

/// Adds the bar of a semaphore.
#[tactic(auto, unfolding(crate::specs::Shapes::taken_text))]
pub fn add_taken_bar(buf: &mut [u8], at: usize, reach: &Reach, strip: &Strip) -> usize
    requires place { reach.now.to < 2 ^ 42 }
    requires room { at + 550 ≤ length buf.old }
    ensures text { take result buf.new ≡ take at buf.old ++ taken_text reach.now strip.now }
    ensures near { result ≤ at + 550 }
{
    let s = u64::from(strip.number);
    let at = add(buf, at, b"<rect class='e");
    let at = add_bar_box(buf, at, reach, strip);
    let at = add_with_number(buf, at, b"' height='12' rx='2'><title>s", s);
    let at = add_span(buf, at, b" taken by t", reach, &strip.since);
    add_bar_name(buf, at, b"'>s", reach, strip)
}

// The left edge of a wait.
fn wait_x(reach: &Reach, o: &Origin) -> u64
    requires { reach.now.to < 2 ^ 42 }
    ensures x { result ≡ wait_x reach.now o.now }
    ensures small { result < 2 ^ 49 }
{
    if reach.band.start <= o.place {
        event_x(&reach.band, o.place.min(reach.to)) + COLUMN
    } else {
        LEFT - BAR_GAP
    }
}

// The right edge of a wait.
fn wait_end(reach: &Reach) -> u64
    requires { reach.now.to < 2 ^ 42 }
    ensures { result ≡ wait_end reach.now }
{
    if reach.ended {
        event_x(&reach.band, reach.to.saturating_sub(1)) - 1
    } else {
        event_x(&reach.band, reach.to)
    }
}

// The upper edge of a wait.
fn wait_y(reach: &Reach, o: &Origin) -> u64
    ensures y { result ≡ wait_y reach.now o.now }
    ensures small { result < 2 ^ 17 }
{
    let kind = kind_in(&reach.band, o.thread.0);
    row_y(&reach.band, o.thread.0) + wait_top(kind)
}

// Adds the name of the condition of a wait.
#[tactic(auto, unfolding(crate::specs::Shapes::wait_name))]
fn add_wait_name(buf: &mut [u8], at: usize, reach: &Reach, o: &Origin) -> usize
    requires place { reach.now.to < 2 ^ 42 }
    requires room { at + 100 ≤ length buf.old }
    ensures text { take result buf.new ≡ take at buf.old ++ wait_name reach.now o.now }
    ensures near { result ≤ at + 100 }
{
    let x = wait_x(reach, o) + NAME_LEFT;
    let y = wait_y(reach, o) + wait_line(kind_in(&reach.band, o.thread.0));
    let at = add(buf, at, b"<text class='hx");
    let at = add_place(buf, at, x, y);
    let at = add_with_number(buf, at, b"'>c", u64::from(o.object));
    add(buf, at, b"</text>\n")
}

// The same, where there is room for it.
fn add_wait_name_if(buf: &mut [u8], at: usize, reach: &Reach, o: &Origin) -> usize
    requires place { reach.now.to < 2 ^ 42 }
    requires room { at + 100 ≤ length buf.old }
    ensures text { take result buf.new ≡ take at buf.old ++ wait_name_if reach.now o.now }
    ensures near { result ≤ at + 100 }
{
    let width = wait_end(reach).saturating_sub(wait_x(reach, o));
    if width < NAMED_WAIT {
        at
    } else {
        add_wait_name(buf, at, reach, o)
    }
}

// How high a wait is, before the number of its condition.
fn wait_tag(kind: RowKind) -> &'static [u8]
    ensures tag { result.now ≡ wait_tag kind }
    ensures short { length result.now ≤ 29 }
{
    if is_thin(kind) {
        b"' height='8'><title>wait on c"
    } else {
        b"' height='9'><title>wait on c"
    }
}

// Adds a part of a wait.
#[tactic(auto, unfolding(crate::specs::Shapes::wait_part))]
fn add_wait_part(
    buf: &mut [u8],
    at: usize,
    tag: &[u8],
    reach: &Reach,
    o: &Origin,
    x: u64,
    end: u64,
) -> usize
    requires short { length tag.now ≤ 20 }
    requires room { at + 255 ≤ length buf.old }
    ensures text { take result buf.new ≡ take at buf.old ++ wait_part tag.now reach.now o.now x end }
    ensures near { result ≤ at + 255 }
{
    let height = wait_tag(kind_in(&reach.band, o.thread.0));
    let y = wait_y(reach, o);
    let at = add(buf, at, tag);
    let at = add_box(buf, at, x, y, end.saturating_sub(x));
    let at = add_with_number(buf, at, height, u64::from(o.object));
    add_span(buf, at, b" of t", reach, o)
}

// Adds that it is in its condition, up to this point.
#[tactic(auto, unfolding(crate::specs::Shapes::in_text))]
fn add_in(buf: &mut [u8], at: usize, reach: &Reach, o: &Origin, end: u64) -> usize
    requires place { reach.now.to < 2 ^ 42 }
    requires room { at + 271 ≤ length buf.old }
    ensures text { take result buf.new ≡ take at buf.old ++ in_text reach.now o.now end }
    ensures near { result ≤ at + 271 }
{
    let x = wait_x(reach, o);
    let at = add_wait_part(buf, at, b"<rect class='h", reach, o, x, end);
    add(buf, at, b"</title></rect>\n")
}

fn add_in_if(buf: &mut [u8], at: usize, reach: &Reach, o: &Origin, end: u64) -> usize
    requires place { reach.now.to < 2 ^ 42 }
    requires room { at + 271 ≤ length buf.old }
    ensures text { take result buf.new ≡ take at buf.old ++ in_if reach.now o.now end }
    ensures near { result ≤ at + 271 }
{
    if wait_x(reach, o) < end {
        add_in(buf, at, reach, o, end)
    } else {
        at
    }
}

// From where on the wait was let go on by this event.
fn let_go_x(reach: &Reach, o: &Origin, p: &Origin) -> u64
    requires { reach.now.to < 2 ^ 42 }
    ensures { result ≡ let_go_x reach.now o.now p.now }
{
    let x = wait_x(reach, o);
    let from = if reach.band.start <= p.place {
        event_x(&reach.band, p.place.min(reach.to)) + MIDDLE
    } else {
        0
    };
    x.max(from)
}

// Adds that the wait was let go on.
#[tactic(auto, unfolding(crate::specs::Shapes::out_text))]
fn add_out(buf: &mut [u8], at: usize, reach: &Reach, o: &Origin, p: &Origin) -> usize
    requires place { reach.now.to < 2 ^ 42 }
    requires room { at + 337 ≤ length buf.old }
    ensures text { take result buf.new ≡ take at buf.old ++ out_text reach.now o.now p.now }
    ensures near { result ≤ at + 337 }
{
    let x = let_go_x(reach, o, p);
    let end = wait_end(reach);
    let at = add_wait_part(buf, at, b"<rect class='d", reach, o, x, end);
    let at = add_with_number(buf, at, b", let go on by event ", p.place);
    let at = add_with_number(buf, at, b" of t", u64::from(p.thread.0));
    add(buf, at, b"</title></rect>\n")
}

fn add_out_if(buf: &mut [u8], at: usize, reach: &Reach, o: &Origin, p: &Origin) -> usize
    requires place { reach.now.to < 2 ^ 42 }
    requires room { at + 337 ≤ length buf.old }
    ensures text { take result buf.new ≡ take at buf.old ++ out_if reach.now o.now p.now }
    ensures near { result ≤ at + 337 }
{
    if let_go_x(reach, o, p) < wait_end(reach) {
        add_out(buf, at, reach, o, p)
    } else {
        at
    }
}

// Adds the parts of a wait.
fn add_parts(buf: &mut [u8], at: usize, reach: &Reach, o: &Origin, p: Option<Origin>) -> usize
    requires place { reach.now.to < 2 ^ 42 }
    requires room { at + 608 ≤ length buf.old }
    ensures text { take result buf.new ≡ take at buf.old ++ parts_text reach.now o.now p }
    ensures near { result ≤ at + 608 }
{
    match p {
        Some(p) => {
            let at = add_in_if(buf, at, reach, o, let_go_x(reach, o, &p));
            add_out_if(buf, at, reach, o, &p)
        }
        None => add_in_if(buf, at, reach, o, wait_end(reach)),
    }
}

/// Adds a wait, which this event let go on.
#[tactic(auto, unfolding(crate::specs::Shapes::wait_text))]
pub fn add_wait_bar(
    buf: &mut [u8],
    at: usize,
    reach: &Reach,
    o: &Origin,
    p: Option<Origin>,
) -> usize
    requires place { reach.now.to < 2 ^ 42 }
    requires room { at + 710 ≤ length buf.old }
    ensures text { take result buf.new ≡ take at buf.old ++ wait_text reach.now o.now p }
    ensures near { result ≤ at + 710 }
{
    let at = add_parts(buf, at, reach, o, p);
    add_wait_name_if(buf, at, reach, o)
}

// The start of the tag of a thread's name, after the end of its row's tag.
fn name_tag(kind: RowKind) -> &'static [u8]
    ensures tag { result.now ≡ name_tag kind }
    ensures short { length result.now ≤ 30 }
{
    if is_thin(kind) {
        b"'/><text class='c' x='6' y='"
    } else {
        b"'/><text class='y' x='6' y='"
    }
}

/// Adds the end of a row's tag, and its name.
#[tactic(auto, unfolding(crate::specs::Shapes::row_name))]
pub fn add_row_name(buf: &mut [u8], at: usize, band: &Band, thread: u32) -> usize
    requires { at + 80 ≤ length buf.old }
    ensures text { take result buf.new ≡ take at buf.old ++ row_name band.now thread }
    ensures near { result ≤ at + 80 }
{
    let kind = kind_in(band, thread);
    let y = row_y(band, thread) + name_line(kind);
    let at = add_with_number(buf, at, name_tag(kind), y);
    let at = add_with_number(buf, at, b"'>t", u64::from(thread));
    add(buf, at, b"</text>\n")
}

/// Adds the row of a thread.
#[tactic(auto, unfolding(crate::specs::Shapes::row_text))]
pub fn add_row(buf: &mut [u8], at: usize, band: &Band, thread: u32) -> usize
    requires { at + 170 ≤ length buf.old }
    ensures text { take result buf.new ≡ take at buf.old ++ row_text band.now thread }
    ensures near { result ≤ at + 170 }
{
    let height = row_height(band, thread);
    let at = add_with_number(
        buf,
        at,
        b"<rect class='r' x='40' width='1208' height='",
        height,
    );
    let at = add_with_number(buf, at, b"' y='", row_y(band, thread));
    add_row_name(buf, at, band, thread)
}

/// Adds the number of each fifth event.
#[tactic(auto, unfolding(crate::specs::Shapes::number_text))]
pub fn add_label(buf: &mut [u8], at: usize, band: &Band, place: u64) -> usize
    requires place { place < 2 ^ 42 }
    requires room { at + 100 ≤ length buf.old }
    ensures text { take result buf.new ≡ take at buf.old ++ number_text band.now place }
    ensures near { result ≤ at + 100 }
{
    if place.saturating_sub(band.start) % 5 == 0 {
        let x = event_x(band, place) + MIDDLE;
        let at = add_with_number(buf, at, b"<text class='n' y='11' x='", x);
        let at = add_with_number(buf, at, b"'>", place);
        add(buf, at, b"</text>\n")
    } else {
        at
    }
}
