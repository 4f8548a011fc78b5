//! The rows of a band.
ghost use Rattle.std.specs.Prelude.{◌≡◌, ◌+◌, ◌<◌, ◌≤◌, ◌^◌, ◌||◌, max, nat_lt, is_some, true, false};
ghost use Rattle.larch_actions.specs.Layout.{IsLawful};
ghost use Rattle.larch_actions.specs.State.{count_below};
ghost use Rattle.trace_board.specs.History.{entry_of};
ghost use Rattle.trace_board.specs.Tracked.{tracked_of};
ghost use Rattle.trace_board.specs.Laws.{is_live};
ghost use Rattle.trace_board.specs.declared.rows.Bar.TheVariants.{Mutex, Semaphore};
ghost use Rattle.trace_shapes.specs.Places.{row_in};
ghost use Rattle.trace_picture.specs.Plan.{lanes_to, most_below, depth_of, thin_kind, forks_it, acts, high, gap_below, row_with, step_of, row_of, plan_of, has_row, is_absent, is_idle, idle_count, idle_height, no_rows, no_page, page_of};

use crate::kept::Kept;
use larch_actions::{Layout, Life, ThreadId, Version};
use trace_board::board::TraceState;
use trace_board::history::Origin;
use trace_board::rows::Bar;
use trace_shapes::geometry::{AXIS, BAND_GAP, IDLE, LANE, ROW_GAP, THIN_GAP};
use trace_shapes::places::busy_height;
use trace_shapes::view::{BandRow, Plan, RowKind, lanes_of};

/// The band under way: its rows, its upper edge, and that of the next.
#[derive(Clone, Copy)]
pub struct Page {
    pub plan: Plan,
    pub top: u64,
    pub next: u64,
}

// How many lanes of the thread's row the bar needs, where it is in that row.
fn lanes_to(board: &TraceState, t: u32, bar: Bar, since: Option<Origin>) -> u32
    ensures lanes { result ≡ lanes_to (tracked_of board.now) t bar since }
    ensures few { result ≤ 4 }
{
    match since {
        Some(o) => {
            if o.thread.0 == t {
                board.rows.lane(ThreadId(t), bar) + 1
            } else {
                0
            }
        }
        None => 0,
    }
}

// The larger of two numbers.
fn larger(a: u32, b: u32) -> u32
    ensures { result ≡ max a b }
{
    a.max(b)
}

// How many lanes of the thread's row the bars of the first mutexes need.
fn most_held(board: &TraceState, t: u32, mutexes: u32) -> u32
    requires { mutexes ≤ 64 }
    ensures lanes { result ≡ most_below (λ m. lanes_to (tracked_of board.now) t (Mutex m) (entry_of board.now.held m)) mutexes }
    ensures few { result ≤ 4 }
{
    let mut most = 0;
    for m in 0..mutexes {
        let lanes = lanes_to(board, t, Bar::Mutex(m), board.held.at(m));
        most = larger(most, lanes);
    }
    most
}

// How many those of the first semaphores need.
fn most_taken(board: &TraceState, t: u32, semaphores: u32) -> u32
    requires { semaphores ≤ 64 }
    ensures lanes { result ≡ most_below (λ s. lanes_to (tracked_of board.now) t (Semaphore s) (entry_of board.now.taken s)) semaphores }
    ensures few { result ≤ 4 }
{
    let mut most = 0;
    for s in 0..semaphores {
        let lanes = lanes_to(board, t, Bar::Semaphore(s), board.taken.at(s));
        most = larger(most, lanes);
    }
    most
}

// How many lanes the bars in the thread's row need.
fn depth_of(layout: &Layout, board: &TraceState, t: u32) -> u32
    requires { IsLawful layout.now }
    ensures depth { result ≡ depth_of layout.now (tracked_of board.now) t }
    ensures few { result ≤ 4 }
{
    let held = most_held(board, t, layout.mutexes);
    let taken = most_taken(board, t, layout.semaphores);
    larger(held, taken)
}

// How a thread is shown that has no event.
fn thin_kind(waits: bool, other: bool) -> RowKind
    ensures { result ≡ thin_kind waits other }
{
    if waits {
        RowKind::Waiting
    } else if other {
        RowKind::Still
    } else {
        RowKind::Absent
    }
}

// How a thread without an event is shown, the bars in whose row need so many lanes.
fn kind_without(board: &TraceState, kept: &Kept, t: u32, depth: u32) -> RowKind
    requires few { t < 256 }
    ensures { result ≡ thin_kind (is_some ((tracked_of board.now).waits t)) (nat_lt 0 depth || forks_it kept.now t) }
{
    let waits = board.waits.at(t).is_some();
    let forked = kept.forks(t);
    thin_kind(waits, 0 < depth || forked)
}

// How high the row of a thread is that is shown so.
fn high(kind: RowKind, lanes: u8, depth: u32) -> u16
    requires lanes { lanes ≤ 4 }
    requires depth { depth ≤ 4 }
    ensures high { result ≡ high kind lanes depth }
    ensures small { result ≤ 76 }
{
    match kind {
        RowKind::Busy => busy_height(lanes) as u16,
        RowKind::Waiting => (LANE * (u64::from(depth) + 1)) as u16,
        RowKind::Still => (LANE * u64::from(depth).max(1)) as u16,
        RowKind::Absent => 0,
    }
}

// How far it is from the next.
fn gap_below(kind: RowKind) -> u16
    ensures gap { result ≡ gap_below kind }
    ensures small { result ≤ 2 }
{
    match kind {
        RowKind::Busy => ROW_GAP as u16,
        RowKind::Waiting => THIN_GAP as u16,
        RowKind::Still => THIN_GAP as u16,
        RowKind::Absent => 0,
    }
}

// The row of a thread without an event, with this upper edge.
fn row_without(layout: &Layout, board: &TraceState, kept: &Kept, t: u32, y: u16) -> BandRow
    requires lawful { IsLawful layout.now }
    requires few { t < 256 }
    requires idle { acts kept.now t ≡ false }
    requires there { t < layout.now.threads }
    ensures row { result ≡ row_with layout.now (tracked_of board.now) kept.now t y }
    ensures small { result.height ≤ 76 }
{
    let depth = depth_of(layout, board, t);
    let kind = kind_without(board, kept, t, depth);
    let height = high(kind, lanes_of(layout), depth);
    BandRow { y, height, kind }
}

// The row of a thread, with this upper edge.
fn row_at(layout: &Layout, board: &TraceState, kept: &Kept, t: u32, y: u16) -> BandRow
    requires lawful { IsLawful layout.now }
    requires few { t < 256 }
    ensures row { result ≡ row_with layout.now (tracked_of board.now) kept.now t y }
    ensures small { result.height ≤ 76 }
{
    if kept.acts(t) {
        let kind = RowKind::Busy;
        let height = high(kind, lanes_of(layout), 0);
        BandRow { y, height, kind }
    } else if t < layout.threads {
        row_without(layout, board, kept, t, y)
    } else {
        let kind = RowKind::Absent;
        BandRow { y, height: 0, kind }
    }
}

// The rows of the band of these events.
fn plan_of(layout: &Layout, board: &TraceState, kept: &Kept) -> Plan
    requires { IsLawful layout.now }
    ensures plan { result ≡ plan_of layout.now (tracked_of board.now) kept.now }
    ensures small { result.end ≤ 20020 }
{
    let mut rows = [BandRow::none(); 256];
    let mut end = AXIS as u16;
    for t in 0..256 {
        let row = row_at(layout, board, kept, t, end);
        rows[t as usize] = row;
        end += row.height + gap_below(row.kind);
    }
    Plan { rows, end }
}

// Whether this is the life of one that lives.
fn lives(life: Life) -> bool
    ensures { result ≡ is_live life }
{
    match life {
        Life::Live => true,
        Life::Unborn => false,
        Life::Ended => false,
    }
}

/// Whether the thread lives at the start of a band.
pub fn stands(version: Version, board: &TraceState, t: u32) -> bool
    requires { t < 256 }
    ensures { result ≡ has_row version (tracked_of board.now) t }
{
    match version {
        Version::One => true,
        Version::Two => lives(board.life(Version::Two, t)),
    }
}

/// Whether it has no row.
pub fn is_absent(kind: RowKind) -> bool
    ensures { result ≡ is_absent kind }
{
    match kind {
        RowKind::Absent => true,
        RowKind::Busy => false,
        RowKind::Waiting => false,
        RowKind::Still => false,
    }
}

/// Whether the thread lives and has no row.
pub fn is_idle(version: Version, plan: &Plan, board: &TraceState, t: u32) -> bool
    requires { t < 256 }
    ensures { result ≡ is_idle version plan.now (tracked_of board.now) t }
{
    let row = plan.at(t);
    let absent = is_absent(row.kind);
    stands(version, board, t) && absent
}

/// How many such threads there are.
#[tactic(auto, using(larch_actions::proofs::Names::few_threads))]
pub fn count_idle(layout: &Layout, plan: &Plan, board: &TraceState) -> u32
    requires { IsLawful layout.now }
    ensures count { result ≡ idle_count layout.now plan.now (tracked_of board.now) }
    ensures few { result ≤ 256 }
{
    let mut count = 0;
    for t in 0..layout.threads {
        if is_idle(layout.version, plan, board, t) {
            count += 1;
        }
    }
    count
}

// How high the line is that names so many.
fn idle_height(idle: u32) -> u64
    ensures height { result ≡ idle_height idle }
    ensures small { result ≤ 11 }
{
    if 0 < idle { IDLE } else { 0 }
}

impl Page {
    /// No band so far.
    #[tactic(auto, unfolding(crate::specs::Plan::no_rows))]
    pub fn none() -> Page
        ensures { result ≡ no_page }
    {
        Page {
            plan: Plan {
                rows: [BandRow::none(); 256],
                end: 0,
            },
            top: 0,
            next: 0,
        }
    }

    /// A new band of these events, with this upper edge.
    pub fn of_band(layout: &Layout, board: &TraceState, kept: &Kept, top: u64) -> Page
        requires lawful { IsLawful layout.now }
        requires low { top < 2 ^ 59 }
        ensures page { result ≡ page_of layout.now (tracked_of board.now) kept.now top }
        ensures near { result.next ≤ top + 2 ^ 16 }
    {
        let plan = plan_of(layout, board, kept);
        let idle = count_idle(layout, &plan, board);
        let next = top + (u64::from(plan.end) + idle_height(idle) + BAND_GAP);
        Page { plan, top, next }
    }
}
