//! Mutexes that stand before one another in a circle.
ghost use Rattle.std.specs.Prelude.{◌≡◌, ◌<◌, ◌≤◌, ℕ, true, false, length, slice_index, MatchOption};
ghost use Rattle.larch_actions.specs.Sets.{mem};
ghost use Rattle.lock_order.specs.Sets.{in_mutexes};
ghost use Rattle.lock_order.specs.Circles.{AreLow, IsForemost, IsCore, HoldsCycles, IsCircle};

use crate::lock_graph::LockGraph;
use crate::mutex_set::MutexSet;
use arrayvec::ArrayVec;
use larch_actions::MutexId;

/// The mutexes that are left when each before which none of the rest stands is taken away, one after another.
pub fn cyclic_core(graph: &LockGraph) -> MutexSet
    requires { AreLow graph.now }
    ensures all { HoldsCycles graph.now result }
    ensures mutual { IsCore graph.now result }
{
    let mut rest = MutexSet::all();
    while let Some(m) = foremost(graph, rest) {
        rest = rest.without(m);
    }
    rest
}

// A mutex of the rest before which none of the rest stands.
fn foremost(graph: &LockGraph, rest: MutexSet) -> Option<MutexId>
    ensures { MatchOption result (IsCore graph.now rest) (λ m. (m.0 < 64) × (in_mutexes rest m.0 ≡ true)
        × IsForemost graph.now rest m.0) }
{
    for k in 0..64 {
        let m = MutexId(k);
        if rest.has(m) && graph.before(m).and(rest).is_empty() {
            return Some(m);
        }
    }
    None
}

/// A circle in a core: each of the list stands before the next, and the last before the first.
pub fn circle(graph: &LockGraph, core: MutexSet) -> ArrayVec<u32, 64>
    requires some { (m : ℕ) × (in_mutexes core m ≡ true) }
    requires mutual { IsCore graph.now core }
    ensures { IsCircle graph.now result.items }
{
    // each of the path stands before the next, and m before the first
    let mut path = ArrayVec::new();
    let mut m = core.first();
    loop {
        match place_in(path.as_slice(), m.0) {
            Some(k) => {
                path.truncate(k + 1);
                return path;
            }
            None => path.insert(0, m.0),
        }
        m = graph.before(m).and(core).first();
    }
}

// The first place of the number in the list.
fn place_in(list: &[u32], number: u32) -> Option<usize>
    ensures { MatchOption result (mem number list.now ≡ false) (λ k. (k < length list.now) × (slice_index list.now k ≡ number)) }
{
    for (k, x) in list.iter().enumerate() {
        if *x == number {
            return Some(k);
        }
    }
    None
}
