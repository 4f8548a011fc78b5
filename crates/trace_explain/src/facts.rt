//! What is said of the state before an event, written into a buffer after its first `at` bytes. Each call returns where it ended.
ghost use Rattle.std.specs.Prelude.{◌≡◌, ◌+◌, ◌*◌, ◌<◌, ◌≤◌, ◌++◌, length, take};
ghost use Rattle.trace_board.specs.Causes.{cause_of, IsSmall};
ghost use Rattle.trace_board.specs.History.{entry_of, IsWithin};
ghost use Rattle.trace_board.specs.Tracked.{tracked_of, IsNear, IsNoted};
ghost use Rattle.trace_shapes.specs.Shapes.{each_below};
ghost use Rattle.trace_explain.specs.Facts.{wait_text, held_text, open_text, alert_text, stander, standers, first_text, life_text, held_by, holdings, own_fact, life_fact, mutex_fact, stand_fact, open_fact, waker_fact, facts};

use crate::sentences::{add_ended, add_plain, add_since, add_standing};
use larch_actions::{Event, Version};
use trace_board::board::{Reason, TraceState};
use trace_board::causes::{Cause, CauseChange, Causes};
use trace_board::history::{Change, Origin, Table};
use trace_board::marks::marks_of;
use trace_core::add;
use trace_shapes::tags::add_with_number;

// Adds how it stands with the thread's wait.
fn add_wait(buf: &mut [u8], at: usize, t: u32, cause: Cause) -> usize
    requires room { at + 160 ≤ length buf.old }
    ensures text { take result buf.new ≡ take at buf.old ++ wait_text t cause }
    ensures near { result ≤ at + 160 }
{
    match cause {
        Cause::Never => add_plain(buf, at, b"t", t, b" is in no wait"),
        Cause::Awaited(c) => add_standing(buf, at, t, c),
        Cause::By(o) => add_since(buf, at, b"t", t, b" was taken out by t", &o),
    }
}

// Adds who has a mutex.
fn add_held(buf: &mut [u8], at: usize, m: u32, since: Option<Origin>) -> usize
    requires room { at + 160 ≤ length buf.old }
    ensures text { take result buf.new ≡ take at buf.old ++ held_text m since }
    ensures near { result ≤ at + 160 }
{
    match since {
        Some(o) => add_since(buf, at, b"m", m, b" is held by t", &o),
        None => add_plain(buf, at, b"m", m, b" is held by nobody"),
    }
}

// Adds whether a semaphore is available.
fn add_open(buf: &mut [u8], at: usize, s: u32, cause: Cause) -> usize
    requires room { at + 160 ≤ length buf.old }
    ensures text { take result buf.new ≡ take at buf.old ++ open_text s cause }
    ensures near { result ≤ at + 160 }
{
    match cause {
        Cause::Never => add_plain(buf, at, b"s", s, b" is available"),
        Cause::Awaited(_) => add_plain(buf, at, b"s", s, b" is not available"),
        Cause::By(o) => add_since(buf, at, b"s", s, b" is available by t", &o),
    }
}

// Adds whether a thread is alerted.
fn add_alert(buf: &mut [u8], at: usize, t: u32, cause: Cause) -> usize
    requires room { at + 160 ≤ length buf.old }
    ensures text { take result buf.new ≡ take at buf.old ++ alert_text t cause }
    ensures near { result ≤ at + 160 }
{
    match cause {
        Cause::Never => add_plain(buf, at, b"t", t, b" is not alerted"),
        Cause::Awaited(_) => add_plain(buf, at, b"t", t, b" is not alerted"),
        Cause::By(o) => add_since(buf, at, b"t", t, b" is alerted by t", &o),
    }
}

// Adds the thread where it stands in the condition.
fn add_stander(buf: &mut [u8], at: usize, c: u32, t: u32, cause: Cause) -> usize
    requires room { at + 40 ≤ length buf.old }
    ensures text { take result buf.new ≡ take at buf.old ++ stander c t cause }
    ensures near { result ≤ at + 40 }
{
    match cause {
        Cause::Never => at,
        Cause::Awaited(d) => {
            if d == c {
                add_with_number(buf, at, b" t", u64::from(t))
            } else {
                at
            }
        }
        Cause::By(_) => at,
    }
}

// Adds the threads that stand in the condition.
fn add_each_stander(buf: &mut [u8], at: usize, c: u32, stands: &Causes) -> usize
    requires room { at + 40 * 256 ≤ length buf.old }
    ensures text { take result buf.new ≡ take at buf.old ++ each_below (λ t. stander c t (cause_of stands.now t)) 256 }
    ensures near { result ≤ at + 40 * 256 }
{
    let mut last = at;
    for t in 0..256 {
        last = add_stander(buf, last, c, t, stands.at(t));
    }
    last
}

// Adds who stands in the condition, as a line.
#[tactic(auto, unfolding(crate::specs::Facts::standers))]
fn add_standers(buf: &mut [u8], at: usize, c: u32, board: &TraceState) -> usize
    requires room { at + 10400 ≤ length buf.old }
    ensures text { take result buf.new ≡ take at buf.old ++ standers (tracked_of board.now) c }
    ensures near { result ≤ at + 10400 }
{
    let at = add_with_number(buf, at, b"in c", u64::from(c));
    let at = add(buf, at, b":");
    let at = add_each_stander(buf, at, c, &board.stands);
    add(buf, at, b"\n")
}

// Adds the life of a thread at first.
fn add_first(buf: &mut [u8], at: usize, t: u32) -> usize
    requires room { at + 160 ≤ length buf.old }
    ensures text { take result buf.new ≡ take at buf.old ++ first_text t }
    ensures near { result ≤ at + 160 }
{
    if t == 0 {
        add_plain(buf, at, b"t", t, b" is live from the start")
    } else {
        add_plain(buf, at, b"t", t, b" is not forked")
    }
}

// Adds whether a thread is unborn, lives or has ended.
fn add_life(buf: &mut [u8], at: usize, t: u32, born: Option<Origin>, over: Option<Origin>) -> usize
    requires room { at + 160 ≤ length buf.old }
    ensures text { take result buf.new ≡ take at buf.old ++ life_text t born over }
    ensures near { result ≤ at + 160 }
{
    match over {
        Some(o) => add_ended(buf, at, t, &o),
        None => match born {
            Some(o) => add_since(buf, at, b"t", t, b" is forked by t", &o),
            None => add_first(buf, at, t),
        },
    }
}

// Adds how it stands with the life of this thread.
fn add_life_of(buf: &mut [u8], at: usize, board: &TraceState, t: u32) -> usize
    requires few { t < 256 }
    requires room { at + 160 ≤ length buf.old }
    ensures text { take result buf.new ≡ take at buf.old ++ life_text t ((tracked_of board.now).born t) ((tracked_of board.now).over t) }
    ensures near { result ≤ at + 160 }
{
    add_life(buf, at, t, board.lives.born.at(t), board.lives.over.at(t))
}

// Adds the mutex where the thread holds it.
fn add_held_by(buf: &mut [u8], at: usize, t: u32, m: u32, since: Option<Origin>) -> usize
    requires room { at + 40 ≤ length buf.old }
    ensures text { take result buf.new ≡ take at buf.old ++ held_by t m since }
    ensures near { result ≤ at + 40 }
{
    match since {
        Some(o) => {
            if o.thread.0 == t {
                add_with_number(buf, at, b" m", u64::from(m))
            } else {
                at
            }
        }
        None => at,
    }
}

// Adds the mutexes that the thread holds.
fn add_each_held(buf: &mut [u8], at: usize, t: u32, held: &Table) -> usize
    requires room { at + 40 * 64 ≤ length buf.old }
    ensures text { take result buf.new ≡ take at buf.old ++ each_below (λ m. held_by t m (entry_of held.now m)) 64 }
    ensures near { result ≤ at + 40 * 64 }
{
    let mut last = at;
    for m in 0..64 {
        last = add_held_by(buf, last, t, m, held.at(m));
    }
    last
}

// Adds what the thread holds, as a line.
#[tactic(auto, unfolding(crate::specs::Facts::holdings))]
fn add_holdings(buf: &mut [u8], at: usize, t: u32, board: &TraceState) -> usize
    requires room { at + 3000 ≤ length buf.old }
    ensures text { take result buf.new ≡ take at buf.old ++ holdings (tracked_of board.now) t }
    ensures near { result ≤ at + 3000 }
{
    let at = add_with_number(buf, at, b"held by t", u64::from(t));
    let at = add(buf, at, b":");
    let at = add_each_held(buf, at, t, &board.held);
    add(buf, at, b"\n")
}

// Adds the life of the thread that makes the event, in the version where not all live.
fn add_own(buf: &mut [u8], at: usize, version: Version, board: &TraceState, t: u32) -> usize
    requires few { t < 256 }
    requires room { at + 160 ≤ length buf.old }
    ensures text { take result buf.new ≡ take at buf.old ++ own_fact version (tracked_of board.now) t }
    ensures near { result ≤ at + 160 }
{
    match version {
        Version::One => at,
        Version::Two => add_life_of(buf, at, board, t),
    }
}

// Adds how it stands with the thread that is forked, or what the one that ends holds.
fn add_life_fact(buf: &mut [u8], at: usize, board: &TraceState, effect: Change) -> usize
    requires within { IsWithin effect }
    requires room { at + 3000 ≤ length buf.old }
    ensures text { take result buf.new ≡ take at buf.old ++ life_fact (tracked_of board.now) effect }
    ensures near { result ≤ at + 3000 }
{
    match effect {
        Change::Begins(t) => add_life_of(buf, at, board, t),
        Change::Ends(t) => add_holdings(buf, at, t, board),
        Change::Stays => at,
    }
}

// Adds who has the mutex that is taken or given back.
fn add_mutex_fact(buf: &mut [u8], at: usize, board: &TraceState, effect: Change) -> usize
    requires within { IsWithin effect }
    requires room { at + 160 ≤ length buf.old }
    ensures text { take result buf.new ≡ take at buf.old ++ mutex_fact (tracked_of board.now) effect }
    ensures near { result ≤ at + 160 }
{
    match effect {
        Change::Begins(m) => add_held(buf, at, m, board.held.at(m)),
        Change::Ends(m) => add_held(buf, at, m, board.held.at(m)),
        Change::Stays => at,
    }
}

// Adds who stands in the condition that threads are let out of.
fn add_stand_fact(buf: &mut [u8], at: usize, board: &TraceState, change: CauseChange) -> usize
    requires room { at + 10400 ≤ length buf.old }
    ensures text { take result buf.new ≡ take at buf.old ++ stand_fact (tracked_of board.now) change }
    ensures near { result ≤ at + 10400 }
{
    match change {
        CauseChange::Frees(c, _) => add_standers(buf, at, c, board),
        CauseChange::Awaits(_, _) => at,
        CauseChange::Ends(_) => at,
        CauseChange::Opens(_) => at,
        CauseChange::Comes(_) => at,
        CauseChange::Stays => at,
    }
}

// Adds how it stands with the semaphore.
fn add_open_fact(buf: &mut [u8], at: usize, board: &TraceState, change: CauseChange) -> usize
    requires small { IsSmall change }
    requires room { at + 160 ≤ length buf.old }
    ensures text { take result buf.new ≡ take at buf.old ++ open_fact (tracked_of board.now) change }
    ensures near { result ≤ at + 160 }
{
    match change {
        CauseChange::Awaits(s, _) => add_open(buf, at, s, board.opens.at(s)),
        CauseChange::Opens(s) => add_open(buf, at, s, board.opens.at(s)),
        CauseChange::Frees(_, _) => at,
        CauseChange::Ends(_) => at,
        CauseChange::Comes(_) => at,
        CauseChange::Stays => at,
    }
}

// Adds how it stands with the alert that the action goes on by, or with the thread that it joins.
fn add_waker_fact(buf: &mut [u8], at: usize, board: &TraceState, waker: Reason) -> usize
    requires near { IsNear waker }
    requires room { at + 160 ≤ length buf.old }
    ensures text { take result buf.new ≡ take at buf.old ++ waker_fact (tracked_of board.now) waker }
    ensures near { result ≤ at + 160 }
{
    match waker {
        Reason::Alerted(t) => add_alert(buf, at, t, board.alerts.at(t)),
        Reason::Ended(t) => add_life_of(buf, at, board, t),
        Reason::Condition(_) => at,
        Reason::Semaphore(_) => at,
        Reason::Nobody => at,
    }
}

/// Adds all that the order and the action's row speak of.
#[tactic(auto, unfolding(crate::specs::Facts::facts))]
pub fn add_facts(
    buf: &mut [u8],
    at: usize,
    version: Version,
    board: &TraceState,
    e: &Event,
) -> usize
    requires noted { IsNoted e.now }
    requires room { at + 14500 ≤ length buf.old }
    ensures text { take result buf.new ≡ take at buf.old ++ facts version (tracked_of board.now) e.now }
    ensures near { result ≤ at + 14500 }
{
    let at = add_own(buf, at, version, board, e.thread.0);
    let at = add_wait(buf, at, e.thread.0, board.stands.at(e.thread.0));
    let marks = marks_of(e.thread, &e.action);
    let at = add_life_fact(buf, at, board, marks.life);
    let at = add_mutex_fact(buf, at, board, marks.mutex);
    let at = add_stand_fact(buf, at, board, marks.stand);
    let at = add_open_fact(buf, at, board, marks.avail);
    add_waker_fact(buf, at, board, marks.waker)
}
