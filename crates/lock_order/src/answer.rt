//! What is answered on the lock order of a trace.
ghost use Rattle.std.specs.Prelude.{◌≡◌, ◌≤◌, ◌<◌, List, [], ◌∷◌, ◌++◌, length, take, slice_index_or};
ghost use Rattle.lock_order.specs.declared.answer.Edge.{Edge};

use larch_actions::{Broken, MutexId, ThreadId};
use std::marker::Model;

/// The thread got the inner mutex while it held the outer one, in the event at the place.
#[derive(Clone, Copy, Debug, PartialEq, Eq)]
pub struct Edge {
    pub outer: MutexId,
    pub inner: MutexId,
    pub thread: ThreadId,
    pub place: u64,
}

/// A cycle: 2 to 64 edges, the inner mutex of each the outer one of the next, and of the last that of the first.
#[derive(Drop)]
pub struct Cycle {
    edges: [Edge; 64],
    len: usize,
}

impl Model for Cycle {
    ghost Value = { List Edge };

    ghost view = { λ c. take c.len c.edges };

    ghost invariant = { λ c. (c.len ≤ 64) × (length c.edges ≡ 64) };
}

impl Cycle {
    // A list of none, to be filled.
    pub(crate) fn none() -> Cycle
        ensures { result ≡ [] }
    {
        let nobody = Edge {
            outer: MutexId(0),
            inner: MutexId(0),
            thread: ThreadId(0),
            place: 0,
        };
        Cycle {
            edges: [nobody; 64],
            len: 0,
        }
    }

    // One more, at the end.
    pub(crate) fn push(&mut self, edge: Edge)
        requires { length self.old < 64 }
        ensures { self.new ≡ self.old ++ edge ∷ [] }
    {
        self.edges[self.len] = edge;
        self.len += 1;
    }

    /// How many there are.
    pub fn len(&self) -> usize
        ensures count { result ≡ length self.now }
        ensures few { result ≤ 64 }
    {
        self.len
    }

    /// The one at this place, counted from 0.
    pub fn at(&self, k: usize) -> Edge
        requires { k < length self.now }
        ensures { result ≡ slice_index_or self.now k result }
    {
        let edges = &self.edges;
        edges[k]
    }
}

/// What is found of the lock order of a trace.
#[derive(Drop)]
pub enum OrderAnswer {
    /// A legal trace of so many events in which no mutexes stand before one another in a circle.
    NoCycle(u64),
    /// A legal trace, and one of its cycles.
    Found(Cycle),
    /// The place of the first event that fails, and what it fails first.
    Illegal { place: u64, why: Broken },
    /// The bad line of the input.
    BadLine(u64),
    /// The input has more bytes than the budget.
    TooLong,
    ReadFault,
}
