//! A ring of items.
ghost use Rattle.std.specs.Prelude.{◌≡◌, ◌+◌, ◌<◌, ◌≤◌, ◌^◌, ◌∷◌, true, false, [], length, IfOk, IfErr, Err, is_ok};
ghost use Rattle.bounded_buffer.specs.declared.ends.PutEnd.TheVariants.{Closed};
ghost use Rattle.bounded_buffer.specs.declared.ends.TakeEnd.TheVariants.{ClosedEmpty};
ghost use Rattle.bounded_buffer.specs.declared.side.Side.TheVariants.{Putting, Taking};
ghost use Rattle.bounded_buffer.specs.Calls.{Answers, put_did, take_did};
ghost use Rattle.bounded_buffer.specs.Parts.{IsOfPut, IsOfTake};
ghost use Rattle.bounded_buffer.specs.Rings.{Held, fresh, put_count, shut_now};
ghost use Rattle.bounded_buffer.specs.Sides.{MayGo};

use crate::ends::{PutEnd, TakeEnd};
use std::alloc::{AllocError, Global};
use std::collections::VecDeque;
use std::marker::Model;

/// Items in order of puts, with the number of items ever taken and whether the ring is shut.
#[derive(Drop)]
pub struct Ring<T> {
    items: VecDeque<T>,
    taken: u64,
    capacity: u32,
    shut: bool,
}

impl<T> Model for Ring<T> {
    ghost use Rattle.std.specs.Prelude.{◌≡◌, ◌+◌, ◌<◌, ◌≤◌, ◌^◌};
    ghost use Rattle.std.specs.VecDeque.{deque_len, deque_capacity};
    ghost use Rattle.bounded_buffer.specs.Rings.{Held};

    ghost Value = { Held T };

    ghost view = { λ r. record { items = r.items.items; taken = r.taken; capacity = r.capacity; shut = r.shut } };

    ghost invariant = { λ r. (deque_capacity r.items ≡ r.capacity) × (deque_len r.items ≤ r.capacity) × (1 ≤ r.capacity)
        × (r.capacity ≤ 4096) × (r.taken + deque_len r.items < 2 ^ 64) };
}

impl<T> Ring<T> {
    /// Returns an open and empty ring with room for `capacity` items. All its memory is allocated
    /// here. Fails only if there is no memory.
    ///
    /// ```rust
    /// rings.push(Ring::new(alloc, 16)?)?;
    /// ```
    pub fn new(alloc: Global, capacity: u32) -> Result<Ring<T>, AllocError>
        requires { (1 ≤ capacity) × (capacity ≤ 4096) }
        ensures { IfOk result (λ r. r ≡ fresh capacity) }
    {
        let items = VecDeque::with_capacity(alloc, capacity as usize)?;
        Ok(Ring {
            items,
            taken: 0,
            capacity,
            shut: false,
        })
    }

    /// Returns the number of items in the ring.
    ///
    /// ```rust
    /// let left = closed.values()[1].len();
    /// ```
    pub fn len(&self) -> u32
        ensures { result ≡ length self.now.items }
    {
        self.items.len() as u32
    }

    /// Returns whether the ring has no item.
    ///
    /// ```rust
    /// let ring = closed.values().first()?;
    /// Some(End {
    ///     traced: closed.trace().is_some(),
    ///     taken: ring.taken(),
    ///     empty: ring.is_empty(),
    /// })
    /// ```
    pub fn is_empty(&self) -> bool
        ensures empty { result ≡ true → self.now.items ≡ [] }
        ensures some { result ≡ false → 0 < length self.now.items }
    {
        self.items.is_empty()
    }

    /// Returns whether the ring has as many items as its capacity.
    ///
    /// ```rust
    /// if ring.is_shut() {
    ///     return false;
    /// }
    /// match side {
    ///     Side::Putting => ring.is_full(),
    ///     Side::Taking => ring.is_empty(),
    /// }
    /// ```
    pub fn is_full(&self) -> bool
        ensures full { result ≡ true → length self.now.items ≡ self.now.capacity }
        ensures room { result ≡ false → length self.now.items < self.now.capacity }
    {
        self.items.len() == self.capacity as usize
    }

    /// Returns the items, in order of puts.
    ///
    /// ```rust
    /// let items = ring.into_items();
    /// ```
    pub fn into_items(self) -> VecDeque<T>
        ensures { result.items ≡ self.items }
    {
        let Ring {
            items,
            taken: _,
            capacity: _,
            shut: _,
        } = self;
        items
    }

    /// Returns how many items were ever taken from the ring.
    ///
    /// ```rust
    /// let ring = closed.values().first()?;
    /// Some(End {
    ///     traced: closed.trace().is_some(),
    ///     taken: ring.taken(),
    ///     empty: ring.is_empty(),
    /// })
    /// ```
    pub fn taken(&self) -> u64
        ensures { result ≡ self.now.taken }
    {
        self.taken
    }

    /// Returns whether the ring is shut.
    ///
    /// ```rust
    /// if ring.is_shut() {
    ///     return false;
    /// }
    /// match side {
    ///     Side::Putting => ring.is_full(),
    ///     Side::Taking => ring.is_empty(),
    /// }
    /// ```
    pub fn is_shut(&self) -> bool
        ensures { result ≡ self.now.shut }
    {
        self.shut
    }

    /// Returns whether the ring is open and as many items were ever put as can be counted.
    pub(crate) fn is_at_end(&self) -> bool
        ensures end { result ≡ false → self.now.shut ≡ false → put_count self.now + 1 < 2 ^ 64 }
        ensures full { result ≡ true → (self.now.shut ≡ false) × (put_count self.now + 1 ≡ 2 ^ 64) }
    {
        !self.shut && self.taken == u64::MAX - self.items.len() as u64
    }

    /// Puts the item last and returns its number, if the ring is open.
    pub(crate) fn offer(&mut self, item: T) -> Result<u64, (PutEnd, T)>
        requires room { MayGo Putting self.old }
        requires few { self.old.shut ≡ false → put_count self.old + 1 < 2 ^ 64 }
        ensures did { Answers (put_did item result) (IsOfPut (λ i. i ≡ item)) (is_ok result) self.old self.new }
        ensures number { IfOk result (λ n. n ≡ put_count self.old) }
        ensures closed { self.old.shut ≡ true → result ≡ Err (Closed, item) }
        ensures back { IfErr result (λ e. e.1 ≡ item) }
    {
        if self.shut {
            return Err((PutEnd::Closed, item));
        }
        let number = self.taken + self.items.len() as u64;
        self.items.push_back_reserved(item);
        Ok(number)
    }

    /// Takes the first item, if there is one, and returns it with its number.
    pub(crate) fn poll(&mut self) -> Result<(u64, T), TakeEnd>
        requires { MayGo Taking self.old }
        ensures did { Answers (take_did result) IsOfTake (is_ok result) self.old self.new }
        ensures first { IfOk result (λ r. (r.0 ≡ self.old.taken) × (self.old.items ≡ r.1 ∷ self.new.items)) }
        ensures over { self.old.items ≡ [] → result ≡ Err ClosedEmpty }
    {
        let Some(item) = self.items.pop_front() else {
            return Err(TakeEnd::ClosedEmpty);
        };
        let number = self.taken;
        self.taken += 1;
        Ok((number, item))
    }

    pub(crate) fn shut(&mut self)
        ensures { self.new ≡ shut_now self.old }
    {
        self.shut = true;
    }
}
