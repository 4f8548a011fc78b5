//! A package and its threads.
ghost use Rattle.std.specs.Prelude.{◌≡◌};

use crate::places::{MUTEXES, VALUES};
use crate::rule::{About, Kept, Queue, Slot};
use crate::slots_at_hand::Hand;
use crate::steps::waking::Waker;
use crate::uses::Uses;
use crate::view::View;
use atomic_table::{Seat, Table};
use crossbeam_utils::sync::Parker;
use larch_actions::{Event, Layout, MutexId};
use std::alloc::{AllocError, Global};
use std::marker::Model;

/// A stored event, with its number.
#[derive(Clone, Copy, Debug, PartialEq, Eq)]
pub struct Entry {
    pub number: u64,
    pub event: Event,
}

/// What a thread has stored, once its package is closed.
#[derive(Drop)]
pub struct Stored {
    pub entries: Vec<Entry>,
    pub lost: bool,
}

/// A package: one table of words and slots, which its threads share.
#[derive(Drop)]
pub struct Package<U: Uses> {
    pub(crate) layout: Layout,
    pub(crate) traced: bool,
    pub(crate) table: Table<
        Slot<U::Value>,
        View<U::Value, U::Share, U::World>,
        About<U::World>,
        Kept<U>,
        Global,
    >,
    /// The way to wake each thread, by its number.
    pub(crate) unparkers: Vec<Waker>,
    /// Room for what the threads have stored.
    pub(crate) shelf: Vec<Stored>,
}

impl<U: Uses> Model for Package<U> {
    ghost use Rattle.std.specs.Prelude.{vec_capacity, vec_len};
    ghost use Rattle.nub_rule.specs.Known.{Shape, shape_of, IsPackage};

    ghost Value = { Shape U.World };

    ghost view = { λ p. shape_of p.table.shared.table_id p.table.shared.key };

    ghost invariant = { λ p. IsPackage p.table.shared.table_id p.table.shared.key p.layout p.traced p.shelf.items (vec_capacity p.shelf)
        (vec_len p.unparkers) };
}

/// The right of one thread to step with a package.
#[derive(Drop)]
pub struct Thread<U: Uses> {
    pub(crate) number: u32,
    pub(crate) hand: Hand,
    pub(crate) seat: Seat<Slot<U::Value>, View<U::Value, U::Share, U::World>>,
    /// The events of a traced run, with their numbers.
    pub(crate) entries: Vec<Entry>,
    pub(crate) lost: bool,
    /// The number that was last read with the pen.
    pub(crate) next: u64,
    pub(crate) parker: Parker,
    /// The threads that are to be unparked when this one releases a mutex.
    pub(crate) later: Queue,
    /// A number that the Nub keeps: how often of late looking before a sleep was in time.
    pub(crate) spin_tallies: u64,
    /// With the first thread: room for the values of all mutexes.
    pub(crate) room: Vec<U::Value>,
}

impl<U: Uses> Model for Thread<U> {
    ghost use Rattle.std.specs.Prelude.{vec_capacity, vec_len};
    ghost use Rattle.nub_rule.specs.Known.{Known, known_as, space_of, IsThread};

    ghost Value = { Known U.Value U.Share U.World };

    ghost view = { λ t. known_as t.seat.table_id t.number t.seat.me t.entries.items (space_of t.entries t.lost) t.next };

    ghost invariant = { λ t. IsThread t.seat.table_id t.number t.hand t.seat.me t.room.items (vec_capacity t.room) };
}

impl<U: Uses> Package<U> {
    /// Returns how many threads, mutexes, conditions and semaphores the package has.
    pub fn layout(&self) -> Layout
        ensures { result ≡ self.now.layout }
    {
        self.layout
    }

    /// Returns whether the package's events are numbered and stored.
    #[inline]
    pub fn traced(&self) -> bool
        ensures { result ≡ self.now.traced }
    {
        self.traced
    }
}

impl<U: Uses> Thread<U> {
    ghost use Rattle.std.specs.Prelude.{◌≡◌, ◌+◌, ◌<◌, ◌≤◌, length, true, false, OnOk, OnErr};
    ghost use Rattle.nub_rule.specs.Known.{Holds, with_room_for};

    /// Returns the number of the thread.
    #[inline]
    pub fn number(&self) -> u32
        ensures { result ≡ self.now.number }
    {
        self.number
    }

    /// Returns a number that the Nub keeps with the thread, 0 at first. No clause speaks of it.
    #[inline]
    pub fn spin_tallies(&self) -> u64 {
        self.spin_tallies
    }

    /// Sets the number that the Nub keeps with the thread.
    #[inline]
    pub fn set_spin_tallies(&mut self, spin_tallies: u64)
        ensures { self.new ≡ self.old }
    {
        self.spin_tallies = spin_tallies;
    }

    /// Allocates room for `further` more events, so that none of them is lost when it is stored.
    /// Fails only if there is no memory.
    ///
    /// ```rust
    /// threads[at].reserve(further)?;
    /// ```
    pub fn reserve(&mut self, further: usize) -> Result<(), AllocError>
        ensures same { self.new ≡ with_room_for self.new.capacity self.old }
        ensures grown { self.old.capacity ≤ self.new.capacity }
        ensures room { OnOk result (length self.new.entries + further ≤ self.new.capacity) }
        ensures full { OnErr result (self.old.capacity < length self.old.entries + further) }
    {
        self.entries.reserve(further)
    }

    /// Returns whether the thread has the bit of the mutex.
    pub fn has(&self, m: MutexId) -> bool
        ensures yes { result ≡ true → (x : U.Value) × Holds self.now m.0 x }
        ensures no { result ≡ false → (x : U.Value) → ¬ Holds self.now m.0 x }
    {
        m.0 < MUTEXES && self.hand.has(VALUES + m.0 as u16)
    }
}
