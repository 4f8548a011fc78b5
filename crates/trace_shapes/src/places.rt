//! Where the rows, lanes and columns of a band lie.
ghost use Rattle.std.specs.Prelude.{◌≡◌, ◌+◌, ◌-◌, ◌*◌, ◌<◌, ◌≤◌, ◌^◌};
ghost use Rattle.trace_shapes.specs.Places.{column_x, event_x, lane_y, mark_y, kind_in, row_y, row_height, busy_height, lanes_top, wait_top, wait_line, name_line};

use crate::geometry::{
    COLUMN, LANE, LANE_TOP, LEFT, LETTER_LINE, MARK_TOP, ROW, ROW_GAP, THIN_LANE_TOP, THIN_LINE,
    THIN_WAIT_LINE, THIN_WAIT_TOP, WAIT_LINE, WAIT_TOP,
};
use crate::view::{Band, RowKind, is_thin};

/// The left edge of a column.
pub fn x_of(column: u64) -> u64
    requires { column < 2 ^ 42 }
    ensures { result ≡ column_x column }
{
    LEFT + COLUMN * column
}

/// The left edge of an event in its band.
pub fn event_x(band: &Band, place: u64) -> u64
    requires { place < 2 ^ 42 }
    ensures x { result ≡ event_x band.now place }
    ensures small { result < 2 ^ 48 }
{
    x_of(place.saturating_sub(band.start))
}

/// How high the row of a thread with events is.
pub fn busy_height(lanes: u8) -> u64
    ensures height { result ≡ busy_height lanes }
    ensures small { result < 2 ^ 12 }
{
    ROW + LANE * u64::from(lanes) - ROW_GAP
}

/// How the row of a thread is shown.
pub fn kind_in(band: &Band, thread: u32) -> RowKind
    ensures { result ≡ kind_in band.now thread }
{
    let row = band.plan.at(thread);
    row.kind
}

/// The upper edge of the row of a thread.
pub fn row_y(band: &Band, thread: u32) -> u64
    ensures y { result ≡ row_y band.now thread }
    ensures small { result < 2 ^ 16 }
{
    let row = band.plan.at(thread);
    u64::from(row.y)
}

/// How high the row of a thread is.
pub fn row_height(band: &Band, thread: u32) -> u64
    ensures height { result ≡ row_height band.now thread }
    ensures small { result < 2 ^ 16 }
{
    let row = band.plan.at(thread);
    u64::from(row.height)
}

/// The upper edge of the marks of a thread.
pub fn mark_y(band: &Band, thread: u32) -> u64
    ensures y { result ≡ mark_y band.now thread }
    ensures small { result < 2 ^ 17 }
    ensures large { 5 ≤ result }
{
    row_y(band, thread) + MARK_TOP
}

// From the upper edge of a row to its first lane.
fn lanes_top(kind: RowKind) -> u64
    ensures top { result ≡ lanes_top kind }
    ensures small { result < 100 }
{
    match kind {
        RowKind::Busy => LANE_TOP,
        RowKind::Waiting => THIN_LANE_TOP + LANE,
        RowKind::Still => THIN_LANE_TOP,
        RowKind::Absent => THIN_LANE_TOP,
    }
}

/// From the upper edge of a row to its wait.
pub fn wait_top(kind: RowKind) -> u64
    ensures top { result ≡ wait_top kind }
    ensures small { result < 100 }
{
    if is_thin(kind) {
        THIN_WAIT_TOP
    } else {
        WAIT_TOP
    }
}

/// From the upper edge of a wait to the line of its name.
pub fn wait_line(kind: RowKind) -> u64
    ensures line { result ≡ wait_line kind }
    ensures small { result < 100 }
{
    if is_thin(kind) {
        THIN_WAIT_LINE
    } else {
        WAIT_LINE
    }
}

/// From the upper edge of a row to the line of its thread's name.
pub fn name_line(kind: RowKind) -> u64
    ensures line { result ≡ name_line kind }
    ensures small { result < 100 }
{
    if is_thin(kind) {
        THIN_LINE
    } else {
        LETTER_LINE
    }
}

/// The upper edge of a lane of bars in the row of a thread.
pub fn lane_y(band: &Band, thread: u32, lane: u32) -> u64
    ensures y { result ≡ lane_y band.now thread lane }
    ensures small { result < 2 ^ 46 }
{
    row_y(band, thread) + lanes_top(kind_in(band, thread)) + LANE * u64::from(lane)
}
