//! The arrows of an event, written into a buffer after its first `at` bytes. Each call returns where it ended.
ghost use Rattle.std.specs.Prelude.{◌≡◌, ◌+◌, ◌-◌, ◌*◌, ◌<◌, ◌≤◌, ◌^◌, ◌++◌, length, take};
ghost use Rattle.trace_board.specs.Causes.{cause_of};
ghost use Rattle.trace_board.specs.Tracked.{tracked_of, IsNear};
ghost use Rattle.trace_shapes.specs.Arrows.{wake_if};
ghost use Rattle.trace_shapes.specs.Shapes.{each_below};
ghost use Rattle.trace_picture.specs.Bands.{way_from_alert, arrow_by, freeing, thread_at, wake_at, wakes, wakes_by, fork_by, arrows_at};

use trace_board::board::{Reason, TraceState};
use trace_board::causes::{CauseChange, Causes};
use trace_board::history::{Change, Origin};
use trace_board::marks::Effects;
use trace_shapes::arrows::{add_arrow_if, add_fork, add_wake_if};
use trace_shapes::view::{Band, Freeing, Shape};

// The way of the arrow from an alert.
fn way_from_alert(wait: Change) -> Shape
    ensures { result ≡ way_from_alert wait }
{
    match wait {
        Change::Ends(_) => Shape::Straight,
        Change::Begins(_) => Shape::Bent,
        Change::Stays => Shape::Bent,
    }
}

// Adds the arrow to the event, where another thread let its thread go on.
fn add_arrow_by(
    buf: &mut [u8],
    at: usize,
    band: &Band,
    board: &TraceState,
    o: &Origin,
    shown: &Effects,
) -> usize
    requires near { IsNear shown.now.waker }
    requires place { o.now.place < 2 ^ 42 }
    requires room { at + 365 ≤ length buf.old }
    ensures text { take result buf.new ≡ take at buf.old ++ arrow_by band.now (tracked_of board.now) o.now shown.now.wait shown.now.waker }
    ensures near { result ≤ at + 365 }
{
    match shown.waker {
        Reason::Condition(_) => at,
        Reason::Semaphore(s) => {
            let by = board.waker(Reason::Semaphore(s));
            add_arrow_if(buf, at, band, Shape::Bent, *o, by)
        }
        Reason::Alerted(t) => {
            let by = board.waker(Reason::Alerted(t));
            add_arrow_if(buf, at, band, way_from_alert(shown.wait), *o, by)
        }
        Reason::Ended(t) => {
            let by = board.waker(Reason::Ended(t));
            add_arrow_if(buf, at, band, Shape::FromEnd, *o, by)
        }
        Reason::Nobody => at,
    }
}

// Which thread's arrow comes then.
fn thread_at(freeing: &Freeing, i: u32) -> u32
    requires { i < freeing.now.band.threads }
    ensures thread { result ≡ thread_at freeing.now i }
    ensures within { result < freeing.now.band.threads }
{
    let own = freeing.by.thread.0;
    if i < own {
        i
    } else {
        own + (freeing.band.threads - 1 - i)
    }
}

// Adds the arrows to the threads that are taken out of their condition.
fn add_wakes(buf: &mut [u8], at: usize, freeing: &Freeing, stands: &Causes) -> usize
    requires few { freeing.now.band.threads ≤ 256 }
    requires place { freeing.now.by.place < 2 ^ 42 }
    requires room { at + 365 * freeing.now.band.threads ≤ length buf.old }
    ensures text { take result buf.new ≡ take at buf.old ++ wakes freeing.now (cause_of stands.now) }
    ensures near { result ≤ at + 365 * freeing.now.band.threads }
{
    let mut last = at;
    for i in 0..freeing.band.threads {
        let u = thread_at(freeing, i);
        last = add_wake_if(buf, last, freeing, u, stands.at(u));
    }
    last
}

// Adds the arrows to the threads that the event takes out of their condition.
fn add_wakes_by(
    buf: &mut [u8],
    at: usize,
    band: &Band,
    o: &Origin,
    stands: &Causes,
    change: CauseChange,
) -> usize
    requires few { band.now.threads ≤ 256 }
    requires place { o.now.place < 2 ^ 42 }
    requires room { at + 93440 ≤ length buf.old }
    ensures text { take result buf.new ≡ take at buf.old ++ wakes_by band.now o.now (cause_of stands.now) change }
    ensures near { result ≤ at + 93440 }
{
    match change {
        CauseChange::Frees(cond, left) => {
            let freeing = Freeing {
                band: *band,
                by: *o,
                cond,
                left,
            };
            add_wakes(buf, at, &freeing, stands)
        }
        CauseChange::Awaits(_, _) => at,
        CauseChange::Ends(_) => at,
        CauseChange::Opens(_) => at,
        CauseChange::Comes(_) => at,
        CauseChange::Stays => at,
    }
}

// Adds the arrow to the thread that the event forks.
fn add_fork_by(buf: &mut [u8], at: usize, band: &Band, o: &Origin, effect: Change) -> usize
    requires place { o.now.place < 2 ^ 42 }
    requires room { at + 365 ≤ length buf.old }
    ensures text { take result buf.new ≡ take at buf.old ++ fork_by band.now o.now effect }
    ensures near { result ≤ at + 365 }
{
    match effect {
        Change::Begins(u) => add_fork(buf, at, band, o, u),
        Change::Ends(_) => at,
        Change::Stays => at,
    }
}

/// Adds the arrows from the event and to it.
#[tactic(auto, unfolding(crate::specs::Bands::arrows_at))]
pub fn add_arrows(
    buf: &mut [u8],
    at: usize,
    band: &Band,
    board: &TraceState,
    o: &Origin,
    shown: &Effects,
) -> usize
    requires near { IsNear shown.now.waker }
    requires few { band.now.threads ≤ 256 }
    requires place { o.now.place < 2 ^ 42 }
    requires room { at + 94200 ≤ length buf.old }
    ensures text { take result buf.new ≡ take at buf.old ++ arrows_at band.now (tracked_of board.now) o.now shown.now }
    ensures near { result ≤ at + 94200 }
{
    let at = add_arrow_by(buf, at, band, board, o, shown);
    let at = add_wakes_by(buf, at, band, o, &board.stands, shown.stand);
    add_fork_by(buf, at, band, o, shown.life)
}
