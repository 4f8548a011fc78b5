//! Parts of tags, written into a buffer after its first `at` bytes. Each call returns where it ended.
ghost use Rattle.std.specs.Prelude.{◌≡◌, ◌+◌, ◌≤◌, ◌++◌, length, take, decimal};
ghost use Rattle.trace_shapes.specs.Shapes.{with_number, place_text, box_text, line_of};

use crate::numbers::add_number;
use larch_actions::Event;
use trace_core::{add, add_event};

/// Adds words and a number.
// Where it is called the words are known, so they are stored and not copied.
#[inline(always)]
pub fn add_with_number(buf: &mut [u8], at: usize, word: &[u8], n: u64) -> usize
    requires { at + length word.now + 20 ≤ length buf.old }
    ensures text { take result buf.new ≡ take at buf.old ++ with_number word.now n }
    ensures near { result ≤ at + length word.now + 20 }
{
    let at = add(buf, at, word);
    add_number(buf, at, n)
}

/// Adds a place.
#[inline(always)]
#[tactic(auto, unfolding(crate::specs::Shapes::place_text))]
pub fn add_place(buf: &mut [u8], at: usize, x: u64, y: u64) -> usize
    requires { at + 50 ≤ length buf.old }
    ensures text { take result buf.new ≡ take at buf.old ++ place_text x y }
    ensures near { result ≤ at + 50 }
{
    let at = add_with_number(buf, at, b"' x='", x);
    add_with_number(buf, at, b"' y='", y)
}

/// Adds a place and a width.
#[inline(always)]
#[tactic(auto, unfolding(crate::specs::Shapes::box_text))]
pub fn add_box(buf: &mut [u8], at: usize, x: u64, y: u64, width: u64) -> usize
    requires { at + 80 ≤ length buf.old }
    ensures text { take result buf.new ≡ take at buf.old ++ box_text x y width }
    ensures near { result ≤ at + 80 }
{
    let at = add_place(buf, at, x, y);
    add_with_number(buf, at, b"' width='", width)
}

/// Adds the line of the event, without its newline.
pub fn add_line(buf: &mut [u8], at: usize, place: u64, e: &Event) -> usize
    requires { at + 1430 ≤ length buf.old }
    ensures text { take result buf.new ≡ take at buf.old ++ line_of place e.now }
    ensures near { result ≤ at + 1400 }
{
    let end = add_event(buf, at, place, e);
    end - 1
}
