//! The cycle that is reported.
ghost use Rattle.std.specs.Prelude.{◌≡◌, ◌<◌, ◌≤◌, ℕ, List, true, false, length, nat_lt, slice_index, MatchOption};
ghost use Rattle.std.specs.List.{IsFirstBest};
ghost use Rattle.larch_actions.specs.Sets.{mem};
ghost use Rattle.larch_actions.specs.declared.event.Event.{Event};
ghost use Rattle.larch_actions.specs.Actions.{Spec};
ghost use Rattle.lock_order.specs.Order.{first_or, HasCycle, ReportsCycle};
ghost use Rattle.lock_order.specs.Kept.{IsKept};
ghost use Rattle.lock_order.specs.Circles.{AreLow, IsCircle, IsLeast, links};

use crate::answer::Cycle;
use crate::cyclic_core::{circle, cyclic_core};
use crate::lock_graph::LockGraph;
use arrayvec::ArrayVec;
use larch_actions::MutexId;

/// A cycle of the graph, if it has one.
pub fn cycle_in(graph: &LockGraph) -> Option<Cycle>
    requires { AreLow graph.now }
    ensures { (es : List Event) (now : Spec) → IsKept es now graph.now → MatchOption result (¬ HasCycle es) (ReportsCycle es) }
{
    let core = cyclic_core(graph);
    if core.is_empty() {
        return None;
    }
    let mut circle = circle(graph, core);
    turn(graph, &mut circle);
    Some(cycle_of(graph, circle.as_slice()))
}

// Turns the circle until its least mutex is the first.
fn turn(graph: &LockGraph, circle: &mut ArrayVec<u32, 64>)
    requires { IsCircle graph.now circle.old.items }
    ensures circle { IsCircle graph.now circle.new.items }
    ensures least { IsLeast (first_or 0 circle.new.items) circle.new.items }
{
    let turns = place_of_least(circle.as_slice());
    for _ in 0..turns {
        let m = circle.remove(0);
        circle.push(m);
    }
}

fn place_of_least(list: &[u32]) -> usize
    requires { 0 < length list.now }
    ensures { IsFirstBest nat_lt list.now (length list.now) result }
{
    let mut best = 0;
    for i in 1..list.len() {
        if list[i] < list[best] {
            best = i;
        }
    }
    best
}

// The first edge of each mutex of the circle and the next.
fn cycle_of(graph: &LockGraph, circle: &[u32]) -> Cycle
    requires some { 0 < length circle.now }
    requires few { length circle.now ≤ 64 }
    requires low { (m : ℕ) → mem m circle.now ≡ true → m < 64 }
    ensures { result ≡ links graph.now circle.now (first_or 0 circle.now) }
{
    let mut cycle = Cycle::none();
    for (k, outer) in circle.iter().enumerate() {
        let inner = if k + 1 < circle.len() {
            circle[k + 1]
        } else {
            circle[0]
        };
        cycle.push(graph.first(MutexId(*outer), MutexId(inner)));
    }
    cycle
}
