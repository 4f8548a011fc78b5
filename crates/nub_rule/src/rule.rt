//! The rule of the table, and how its seats are given out and taken back.
use crate::places::MOST_THREADS;
use crate::uses::Uses;
use crate::view::View;
use arrayvec::ArrayVec;
use atomic_table::{Join, Play, Split, TableRule};
use larch_actions::Layout;
use std::marker::PhantomData;
use std::snapshot::Snapshot;

/// The numbers of the threads in a queue.
pub type Queue = ArrayVec<u8, MOST_THREADS>;

/// What a slot of the table holds.
#[derive(Drop)]
pub enum Slot<T> {
    /// The value of a mutex, unless its holder has moved it out.
    Value(Option<T>),
    /// The threads that wait for an object, in order.
    Queue(Queue),
}

/// What the table is made for.
#[derive(Drop)]
pub struct About<W> {
    pub layout: Layout,
    pub traced: bool,
    pub world: Snapshot<W>,
}

pub struct Kept<U> {
    marker: PhantomData<U>,
}

impl<U: Uses> TableRule<Slot<U::Value>, View<U::Value, U::Share, U::World>, About<U::World>>
    for Kept<U> {
    ghost use Rattle.nub_rule.specs.Rule.{IsKept, opening_view};

    ghost holds = { λ k. IsKept k.layout k.traced k.world.value U.begin U.holds };

    ghost first = { λ k. opening_view k.layout.version k.world.value U.begin };
}

/// Cuts off the view of the next thread.
pub struct Cut<U> {
    marker: PhantomData<U>,
}

impl<U: Uses> Split<View<U::Value, U::Share, U::World>> for Cut<U> {
    ghost use Rattle.nub_rule.specs.Rule.{left_view, member_view};

    ghost left = { left_view };

    ghost right = { member_view U.begin };
}

/// Makes a new seat that takes threads back.
pub struct Collect;

impl<T, H, W> Play<Slot<T>, View<T, H, W>> for Collect {
    ghost use Rattle.std.specs.Prelude.{◌≡◌};
    ghost use Rattle.nub_rule.specs.Rule.{collecting};

    ghost then = { λ st me r after. after.0 ≡ collecting me.0 };
}

/// Takes a thread back.
pub struct Gather;

impl<T, H, W> Join<View<T, H, W>> for Gather {
    ghost use Rattle.nub_rule.specs.Rule.{both_views, spent_view};

    ghost both = { both_views };

    ghost spent = { spent_view };
}

/// Takes in the right to fork a thread.
pub struct TakeIn;

impl<T, H, W> Join<View<T, H, W>> for TakeIn {
    ghost use Rattle.nub_rule.specs.Rule.{taking_view, spent_view};

    ghost both = { taking_view };

    ghost spent = { spent_view };
}

/// Hands out the view of a thread that was forked.
pub struct HandOut<U> {
    marker: PhantomData<U>,
}

impl<U: Uses> Split<View<U::Value, U::Share, U::World>> for HandOut<U> {
    ghost use Rattle.nub_rule.specs.Rule.{handing_view, handed_view};

    ghost left = { handing_view };

    ghost right = { λ v. handed_view U.begin v v.child };
}
