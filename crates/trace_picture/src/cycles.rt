//! A cycle of the lock order in words, written into a buffer after its first `at` bytes. Each call returns where it ended.
ghost use Rattle.std.specs.Prelude.{◌≡◌, ◌+◌, ◌*◌, ◌≤◌, ◌++◌, length, take, codes};
ghost use Rattle.std.specs.List.{flat_map};
ghost use Rattle.trace_picture.specs.Rings.{nesting_text, cycle_text, ringed_line};

use crate::verdicts::add_counted_line;
use lock_order::{Cycle, Edge};
use trace_check::Summary;
use trace_core::add;
use trace_shapes::DrawnRange;
use trace_shapes::tags::add_with_number;

// Adds a step of the cycle.
#[tactic(auto, unfolding(crate::specs::Rings::nesting_text))]
fn add_nesting(buf: &mut [u8], at: usize, edge: &Edge) -> usize
    requires { at + 160 ≤ length buf.old }
    ensures text { take result buf.new ≡ take at buf.old ++ nesting_text edge.now }
    ensures near { result ≤ at + 160 }
{
    let at = add_with_number(buf, at, b", <a href='#e", edge.place);
    let at = add_with_number(buf, at, b"'>m", u64::from(edge.outer.0));
    let at = add_with_number(buf, at, b" then m", u64::from(edge.inner.0));
    let at = add_with_number(buf, at, b" by t", u64::from(edge.thread.0));
    let at = add_with_number(buf, at, b" at event ", edge.place);
    add(buf, at, b"</a>")
}

// Adds its steps.
fn add_nestings(buf: &mut [u8], at: usize, cycle: &Cycle) -> usize
    requires { at + 160 * 64 ≤ length buf.old }
    ensures text { take result buf.new ≡ take at buf.old ++ flat_map nesting_text cycle.now }
    ensures near { result ≤ at + 160 * 64 }
{
    let mut last = at;
    for k in 0..cycle.len() {
        let edge = cycle.at(k);
        last = add_nesting(buf, last, &edge);
    }
    last
}

// Adds the cycle.
#[tactic(auto, unfolding(crate::specs::Rings::cycle_text))]
fn add_cycle(buf: &mut [u8], at: usize, cycle: &Cycle) -> usize
    requires { at + 10300 ≤ length buf.old }
    ensures text { take result buf.new ≡ take at buf.old ++ cycle_text cycle.now }
    ensures near { result ≤ at + 10300 }
{
    let at = add(buf, at, b"<text x='44' y='36'>the cycle");
    let at = add_nestings(buf, at, cycle);
    add(buf, at, b"</text>\n")
}

/// Adds the count of the events, what is left, and the cycle.
pub fn add_ringed_line(
    buf: &mut [u8],
    at: usize,
    view: &DrawnRange,
    count: u64,
    left: Summary,
    cycle: &Cycle,
) -> usize
    requires { at + 10800 ≤ length buf.old }
    ensures text { take result buf.new ≡ take at buf.old ++ ringed_line view.now count left cycle.now }
    ensures near { result ≤ at + 10800 }
{
    let at = add_counted_line(
        buf,
        at,
        view,
        count,
        b"<text class='hd' x='44' y='18'><tspan class='ok'>legal</tspan>, a lock-order cycle is ringed, events: ",
        Some(left),
    );
    add_cycle(buf, at, cycle)
}
