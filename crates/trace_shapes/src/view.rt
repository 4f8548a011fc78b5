//! Which events are drawn, and where.
ghost use Rattle.std.specs.Prelude.{◌≡◌, ◌<◌, ◌≤◌, ◌+◌, ◌-◌, ◌^◌, ◌↔◌, IsTrue, true, false};
ghost use Rattle.larch_actions.specs.Layout.{IsLawful};
ghost use Rattle.trace_shapes.specs.Places.{in_view, column, is_open, bands, shown, lanes_of, no_row, row_in, is_thin, band_of};

use crate::geometry::{BAND, LANES};
use larch_actions::{Layout, ThreadSet};
use trace_board::history::Origin;

/// What of a trace is drawn: the events from `first` on and before `end`, and whether a cycle of its lock order is ringed.
#[derive(Clone, Copy, Debug, PartialEq, Eq)]
pub struct DrawnRange {
    pub first: u64,
    pub end: u64,
    pub ordered: bool,
}

/// How a thread is shown in a band: it has events there, or only a wait with the bars below it, or only bars or its fork, or it has no row.
#[derive(Clone, Copy, Debug, PartialEq, Eq)]
pub enum RowKind {
    Busy,
    Waiting,
    Still,
    Absent,
}

/// The row of a thread in a band: its upper edge, how high it is, and what it shows.
#[derive(Clone, Copy)]
pub struct BandRow {
    pub y: u16,
    pub height: u16,
    pub kind: RowKind,
}

/// The rows of a band, and how far they go down.
#[derive(Clone, Copy)]
pub struct Plan {
    pub rows: [BandRow; 256],
    pub end: u16,
}

impl BandRow {
    /// That of a thread that has none.
    pub fn none() -> BandRow
        ensures { result ≡ no_row }
    {
        BandRow {
            y: 0,
            height: 0,
            kind: RowKind::Absent,
        }
    }
}

impl Plan {
    /// The row of the thread.
    pub fn at(&self, t: u32) -> BandRow
        ensures { result ≡ row_in self.now t }
    {
        if t < 256 {
            self.rows[t as usize]
        } else {
            BandRow::none()
        }
    }
}

/// Whether the row is thin, since its thread has no event in the band.
pub fn is_thin(kind: RowKind) -> bool
    ensures { result ≡ is_thin kind }
{
    match kind {
        RowKind::Busy => false,
        RowKind::Waiting => true,
        RowKind::Still => true,
        RowKind::Absent => true,
    }
}

/// A band: the place of its first event, how many threads it is about, and its rows.
#[derive(Clone, Copy)]
pub struct Band {
    pub start: u64,
    pub threads: u32,
    pub plan: Plan,
}

/// How much of a bar its band shows: up to the event before `to`, where the bar ends or goes on.
#[derive(Clone, Copy)]
pub struct Reach {
    pub band: Band,
    pub to: u64,
    pub ended: bool,
}

/// What a bar shows: the number of a mutex or a semaphore, its lane, the event since which it is held or taken, and the one that gave it back before.
#[derive(Clone, Copy)]
pub struct Strip {
    pub number: u32,
    pub lane: u32,
    pub since: Origin,
    pub given: Option<Origin>,
}

/// An arrow from an event to the thread `to`, at the event `place` of this band.
#[derive(Clone, Copy)]
pub struct Link {
    pub band: Band,
    pub place: u64,
    pub to: u32,
    pub from: Origin,
}

/// What a Signal or a Broadcast does in this band: it takes the threads out of the condition, but for those left.
#[derive(Clone, Copy)]
pub struct Freeing {
    pub band: Band,
    pub by: Origin,
    pub cond: u32,
    pub left: ThreadSet,
}

/// The ways of arrows to an event by which a thread goes on: straight into its row, bent along it, and from the end of a thread.
#[derive(Clone, Copy)]
pub enum Shape {
    Straight,
    Bent,
    FromEnd,
}

/// The way of an arrow: from a point, straight or by a level and across from there, to a height.
#[derive(Clone, Copy)]
pub struct Way {
    pub x: u64,
    pub y: u64,
    pub turn: Option<Turn>,
    pub end: u64,
}

#[derive(Clone, Copy)]
pub struct Turn {
    pub level: u64,
    pub across: u64,
}

/// Whether the event is drawn.
pub fn is_in_view(view: &DrawnRange, place: u64) -> bool
    ensures { result ≡ in_view view.now place }
{
    view.first <= place && place < view.end
}

/// The column of the event in its band.
pub fn column_of(view: &DrawnRange, place: u64) -> u64
    ensures column { result ≡ column view.now place }
    ensures small { result < BAND }
    ensures before { result ≤ place }
{
    place.saturating_sub(view.first) % BAND
}

/// Whether the last band has room for more, after so many events.
pub fn is_band_open(view: &DrawnRange, count: u64) -> bool
    ensures { result ≡ is_open view.now count }
{
    count < view.end && count.saturating_sub(view.first) % BAND != 0
}

/// How many bands so many events take.
pub fn count_bands(view: &DrawnRange, count: u64) -> u64
    requires { count < 2 ^ 42 }
    ensures bands { result ≡ bands view.now count }
    ensures small { result < 2 ^ 42 }
{
    (count.min(view.end).saturating_sub(view.first) + (BAND - 1)) / BAND
}

/// How many lanes the row of a thread with events has: one for each mutex and semaphore, and at most four.
pub fn lanes_of(layout: &Layout) -> u8
    requires { IsLawful layout.now }
    ensures { result ≡ lanes_of layout.now }
{
    (u64::from(layout.mutexes) + u64::from(layout.semaphores)).min(LANES) as u8
}

/// The band of the event, with these rows.
pub fn band_of(layout: &Layout, view: &DrawnRange, plan: &Plan, place: u64) -> Band
    ensures { result ≡ band_of layout.now view.now plan.now place }
{
    Band {
        start: place - column_of(view, place),
        threads: layout.threads,
        plan: *plan,
    }
}
