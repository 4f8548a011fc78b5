//! Arrows from the events that let a thread go on, and from forks, written into a buffer after its first `at` bytes. Each call returns where it ended.
ghost use Rattle.std.specs.Prelude.{◌≡◌, ◌+◌, ◌-◌, ◌<◌, ◌≤◌, ◌^◌, ◌++◌, length, take, codes, min};
ghost use Rattle.trace_shapes.specs.Places.{kind_in, event_x, row_y, mark_y};
ghost use Rattle.trace_shapes.specs.Shapes.{with_number};
ghost use Rattle.trace_shapes.specs.Arrows.{link, turn_text, way_text, origin_text, tags_text, lets_go, forks, leaves, head_above, head_below, straight, bent, from_end, hook, way_or_hook, arrow_text, arrow_if, wake_text, fork_text, is_freed, wake_if};

use crate::geometry::{
    COLUMN, EARLIER, HEAD_ABOVE, HEAD_BELOW, HOOK, LEVEL, MARK_HEIGHT, MARK_MIDDLE, MIDDLE,
    THIN_HEAD_ABOVE, THIN_HEAD_BELOW,
};
use crate::places::{event_x, kind_in, mark_y, row_y};
use crate::tags::add_with_number;
use crate::view::{Band, Freeing, Link, RowKind, Shape, Turn, Way, is_thin};
use larch_actions::{ThreadId, ThreadSet};
use trace_board::causes::Cause;
use trace_board::history::Origin;
use trace_core::add;

// Adds where a way turns.
fn add_turn(buf: &mut [u8], at: usize, turn: Option<Turn>) -> usize
    requires { at + 42 ≤ length buf.old }
    ensures text { take result buf.new ≡ take at buf.old ++ turn_text turn }
    ensures near { result ≤ at + 42 }
{
    match turn {
        Some(turn) => {
            let at = add_with_number(buf, at, b"V", turn.level);
            add_with_number(buf, at, b"H", turn.across)
        }
        None => at,
    }
}

// Adds a way.
#[tactic(auto, unfolding(crate::specs::Arrows::way_text))]
fn add_way(buf: &mut [u8], at: usize, way: &Way) -> usize
    requires { at + 105 ≤ length buf.old }
    ensures text { take result buf.new ≡ take at buf.old ++ way_text way.now }
    ensures near { result ≤ at + 105 }
{
    let at = add_with_number(buf, at, b"M", way.x);
    let at = add_with_number(buf, at, b" ", way.y);
    let at = add_turn(buf, at, way.turn);
    add_with_number(buf, at, b"V", way.end)
}

// Adds an event, by its place and its thread.
fn add_origin(buf: &mut [u8], at: usize, o: &Origin) -> usize
    requires { at + 60 ≤ length buf.old }
    ensures text { take result buf.new ≡ take at buf.old ++ origin_text o.now }
    ensures near { result ≤ at + 60 }
{
    let at = add_with_number(buf, at, b"'><title>event ", o.place);
    add_with_number(buf, at, b" of t", u64::from(o.thread.0))
}

// Adds the tags of an arrow, over a white line, and the event that it comes from.
#[tactic(auto, unfolding(crate::specs::Arrows::tags_text))]
fn add_tags(buf: &mut [u8], at: usize, way: &Way, o: &Origin) -> usize
    requires { at + 312 ≤ length buf.old }
    ensures text { take result buf.new ≡ take at buf.old ++ tags_text way.now o.now }
    ensures near { result ≤ at + 312 }
{
    let at = add(buf, at, b"<path class='q' d='");
    let at = add_way(buf, at, way);
    let at = add(buf, at, b"'/><path class='a' d='");
    let at = add_way(buf, at, way);
    add_origin(buf, at, o)
}

// Adds that an event lets the thread go on.
#[tactic(auto, unfolding(crate::specs::Arrows::lets_go))]
fn add_lets_go(buf: &mut [u8], at: usize, t: u32) -> usize
    requires { at + 50 ≤ length buf.old }
    ensures text { take result buf.new ≡ take at buf.old ++ lets_go t }
    ensures near { result ≤ at + 50 }
{
    let at = add_with_number(buf, at, b" lets t", u64::from(t));
    add(buf, at, b" go on</title></path>\n")
}

// Adds that an event forks the thread.
#[tactic(auto, unfolding(crate::specs::Arrows::forks))]
fn add_forks(buf: &mut [u8], at: usize, t: u32) -> usize
    requires { at + 50 ≤ length buf.old }
    ensures text { take result buf.new ≡ take at buf.old ++ forks t }
    ensures near { result ≤ at + 50 }
{
    let at = add_with_number(buf, at, b" forks t", u64::from(t));
    add(buf, at, b"</title></path>\n")
}

// Where an arrow leaves its event.
fn leaves(link: &Link) -> u64
    ensures { result ≡ leaves link.now }
{
    let y = mark_y(&link.band, link.from.thread.0);
    if link.from.thread.0 < link.to {
        y + MARK_HEIGHT
    } else {
        y
    }
}

// The middle of the mark that an arrow goes to.
fn across(link: &Link) -> u64
    requires { link.now.place < 2 ^ 42 }
    ensures across { result ≡ event_x link.now.band link.now.place + MIDDLE }
    ensures large { 11 ≤ result }
{
    event_x(&link.band, link.place) + MIDDLE
}

// The left edge of the event that an arrow comes from.
fn origin_x(link: &Link) -> u64
    requires { link.now.place < 2 ^ 42 }
    ensures x { result ≡ event_x link.now.band (min link.now.from.place link.now.place) }
    ensures small { result < 2 ^ 48 }
{
    event_x(&link.band, link.from.place.min(link.place))
}

// From the upper edge of a row to the head of an arrow from above and from below.
fn head_above(kind: RowKind) -> u64
    ensures head { result ≡ head_above kind }
    ensures small { result < 100 }
{
    if is_thin(kind) {
        THIN_HEAD_ABOVE
    } else {
        HEAD_ABOVE
    }
}

fn head_below(kind: RowKind) -> u64
    ensures head { result ≡ head_below kind }
    ensures small { result < 100 }
{
    if is_thin(kind) {
        THIN_HEAD_BELOW
    } else {
        HEAD_BELOW
    }
}

// Straight from its event into the row of the thread.
fn straight(link: &Link) -> Way
    requires { link.now.place < 2 ^ 42 }
    ensures { result ≡ straight link.now }
{
    let row = row_y(&link.band, link.to);
    let kind = kind_in(&link.band, link.to);
    let end = if link.from.thread.0 < link.to {
        row + head_above(kind)
    } else {
        row + head_below(kind)
    };
    Way {
        x: origin_x(link) + MIDDLE,
        y: leaves(link),
        turn: None,
        end,
    }
}

// From its event along the row of the thread, into the mark there.
fn bent(link: &Link) -> Way
    requires { link.now.place < 2 ^ 42 }
    ensures { result ≡ bent link.now }
{
    let turn = Turn {
        level: row_y(&link.band, link.to) + LEVEL,
        across: across(link),
    };
    Way {
        x: origin_x(link) + MIDDLE,
        y: leaves(link),
        turn: Some(turn),
        end: mark_y(&link.band, link.to) - 1,
    }
}

// From the end of a thread along its row, into the mark of the join.
fn from_end(link: &Link) -> Way
    requires { link.now.place < 2 ^ 42 }
    ensures { result ≡ from_end link.now }
{
    let level = mark_y(&link.band, link.from.thread.0) + MARK_MIDDLE;
    let mark = mark_y(&link.band, link.to);
    let turn = Turn {
        level,
        across: across(link),
    };
    let end = if link.from.thread.0 < link.to {
        mark - 1
    } else {
        mark + MARK_HEIGHT + 1
    };
    Way {
        x: origin_x(link) + (COLUMN - 1),
        y: level,
        turn: Some(turn),
        end,
    }
}

// From an earlier band.
fn hook(link: &Link) -> Way
    requires { link.now.place < 2 ^ 42 }
    ensures { result ≡ hook link.now }
{
    let level = row_y(&link.band, link.to).saturating_sub(EARLIER);
    let across = across(link);
    let turn = Turn { level, across };
    Way {
        x: across - HOOK,
        y: level,
        turn: Some(turn),
        end: mark_y(&link.band, link.to) - 1,
    }
}

// The way of an arrow to the event by which its thread goes on.
fn way_of(shape: Shape, link: &Link) -> Way
    requires { link.now.place < 2 ^ 42 }
    ensures { result ≡ way_or_hook shape link.now }
{
    if link.band.start <= link.from.place {
        match shape {
            Shape::Straight => straight(link),
            Shape::Bent => bent(link),
            Shape::FromEnd => from_end(link),
        }
    } else {
        hook(link)
    }
}

// Adds that arrow.
#[tactic(auto, unfolding(crate::specs::Arrows::arrow_text))]
fn add_arrow(buf: &mut [u8], at: usize, shape: Shape, link: &Link) -> usize
    requires room { at + 365 ≤ length buf.old }
    requires place { link.now.place < 2 ^ 42 }
    ensures text { take result buf.new ≡ take at buf.old ++ arrow_text shape link.now }
    ensures near { result ≤ at + 365 }
{
    let way = way_of(shape, link);
    let at = add_tags(buf, at, &way, &link.from);
    add_lets_go(buf, at, link.to)
}

/// Adds the arrow to the event, where another let its thread go on, and that was one of another thread.
pub fn add_arrow_if(
    buf: &mut [u8],
    at: usize,
    band: &Band,
    shape: Shape,
    by: Origin,
    o: Option<Origin>,
) -> usize
    requires room { at + 365 ≤ length buf.old }
    requires place { by.place < 2 ^ 42 }
    ensures text { take result buf.new ≡ take at buf.old ++ arrow_if shape band.now by.place by.thread.0 o }
    ensures near { result ≤ at + 365 }
{
    match o {
        Some(from) => {
            if from.thread.0 == by.thread.0 {
                at
            } else {
                let link = Link {
                    band: *band,
                    place: by.place,
                    to: by.thread.0,
                    from,
                };
                add_arrow(buf, at, shape, &link)
            }
        }
        None => at,
    }
}

// The arrow at the event to the thread.
fn link_at(band: &Band, o: &Origin, u: u32) -> Link
    ensures { result ≡ link band.now o.now.place u o.now }
{
    Link {
        band: *band,
        place: o.place,
        to: u,
        from: *o,
    }
}

// Adds the arrow to a thread that the event takes out of its condition.
#[tactic(auto, unfolding(crate::specs::Arrows::wake_text))]
fn add_wake(buf: &mut [u8], at: usize, band: &Band, o: &Origin, u: u32) -> usize
    requires room { at + 365 ≤ length buf.old }
    requires place { o.now.place < 2 ^ 42 }
    ensures text { take result buf.new ≡ take at buf.old ++ wake_text band.now o.now u }
    ensures near { result ≤ at + 365 }
{
    let link = link_at(band, o, u);
    let way = straight(&link);
    let at = add_tags(buf, at, &way, o);
    add_lets_go(buf, at, u)
}

/// Adds the arrow to a thread that the event forks.
#[tactic(auto, unfolding(crate::specs::Arrows::fork_text))]
pub fn add_fork(buf: &mut [u8], at: usize, band: &Band, o: &Origin, u: u32) -> usize
    requires room { at + 365 ≤ length buf.old }
    requires place { o.now.place < 2 ^ 42 }
    ensures text { take result buf.new ≡ take at buf.old ++ fork_text band.now o.now u }
    ensures near { result ≤ at + 365 }
{
    let link = link_at(band, o, u);
    let way = straight(&link);
    let at = add_tags(buf, at, &way, o);
    add_forks(buf, at, u)
}

// Whether the thread is taken out, of which it is known how it stands with its condition.
fn is_freed(freeing: &Freeing, u: u32, cause: Cause) -> bool
    requires { u < 256 }
    ensures { result ≡ is_freed freeing.now u cause }
{
    match cause {
        Cause::Never => false,
        Cause::Awaited(k) => {
            let stays = freeing.left.has(ThreadId(u));
            k == freeing.cond && !stays
        }
        Cause::By(_) => false,
    }
}

/// Adds the arrow to the thread, where it is taken out.
pub fn add_wake_if(buf: &mut [u8], at: usize, freeing: &Freeing, u: u32, cause: Cause) -> usize
    requires few { u < 256 }
    requires room { at + 365 ≤ length buf.old }
    requires place { freeing.now.by.place < 2 ^ 42 }
    ensures text { take result buf.new ≡ take at buf.old ++ wake_if freeing.now u cause }
    ensures near { result ≤ at + 365 }
{
    if is_freed(freeing, u, cause) {
        add_wake(buf, at, &freeing.band, &freeing.by, u)
    } else {
        at
    }
}
