//! The numbers of the picture's geometry, in points: code, definitions and laws cite them.

/// How many events a band has.
pub const BAND: u64 = 50;
/// How wide a column is.
pub const COLUMN: u64 = 24;
/// The left edge of the first column.
pub const LEFT: u64 = 44;
/// From the left edge of a column to the middle of its mark.
pub const MIDDLE: u64 = 11;
/// The right edge of a row.
pub const ROW_RIGHT: u64 = 1248;
/// How high the numbers above the rows of a band are.
pub const AXIS: u64 = 20;
/// Where the lines at each tenth column begin.
pub const LINES_TOP: u64 = 17;
/// How far apart two bands are.
pub const BAND_GAP: u64 = 12;
/// How far apart two rows without lanes would be, and by how much each lane moves them apart.
pub const ROW: u64 = 26;

pub const LANE: u64 = 13;
/// How far apart two rows are.
pub const ROW_GAP: u64 = 2;
/// How many lanes a row has at most.
pub const LANES: u64 = 4;
/// From the upper edge of a row to its marks, to the line on which their letters stand, to a wait and to the first lane.
pub const MARK_TOP: u64 = 5;

pub const LETTER_LINE: u64 = 17;

pub const WAIT_TOP: u64 = 8;

pub const LANE_TOP: u64 = 21;
/// In a thin row, from its upper edge to the line on which its name stands, to a wait, to the line of the wait's name and to the first lane below no wait,
/// and to the head of an arrow from above and from below into it.
pub const THIN_LINE: u64 = 10;

pub const THIN_WAIT_TOP: u64 = 2;

pub const THIN_WAIT_LINE: u64 = 7;

pub const THIN_LANE_TOP: u64 = 1;

pub const THIN_HEAD_ABOVE: u64 = 4;

pub const THIN_HEAD_BELOW: u64 = 11;
/// How far apart two thin rows are.
pub const THIN_GAP: u64 = 1;
/// How high the line of the threads without rows is, and how many names it has at most.
pub const IDLE: u64 = 11;

pub const IDLE_NAMES: u32 = 40;
/// How high a mark is.
pub const MARK_HEIGHT: u64 = 15;
/// From the left edge of a mark to the middle of a letter that has a number beside it, to a number of one digit, and to the end of a longer one.
pub const LETTER_LEFT: u64 = 6;

pub const DIGIT_LEFT: u64 = 13;

pub const DIGITS_END: u64 = 21;
/// From the left and the upper edge of a bar to its name, and from the upper edge of a wait.
pub const NAME_LEFT: u64 = 4;

pub const NAME_LINE: u64 = 10;

pub const WAIT_LINE: u64 = 8;
/// From the upper edge of a row to the head of an arrow from above and from below into it, and to the level of one that goes along it, if it comes
/// from an earlier band.
pub const HEAD_ABOVE: u64 = 7;

pub const HEAD_BELOW: u64 = 18;

pub const LEVEL: u64 = 1;

pub const EARLIER: u64 = 3;
/// How wide an arrow from an earlier band is.
pub const HOOK: u64 = 9;
/// From the upper edge of a mark to its middle.
pub const MARK_MIDDLE: u64 = 7;
/// How wide a wait is at least that has its name.
pub const NAMED_WAIT: u64 = 20;
/// How short of the next column a bar ends.
pub const BAR_GAP: u64 = 2;
/// How far the words of the flag of an event that fails are from the line through its band, and from which column on they stand left of it.
pub const FLAG_GAP: u64 = 6;

pub const FLAG_TURN: u64 = 25;
/// How far below one another the lines of the legend and of the longest holds stand.
pub const LINE: u64 = 18;
