//! The steps of the table on one word, and the slot at hand, as functions of the package's own
//! table. This way the condition of a kind of step is stated clause by clause.
ghost use Rattle.std.specs.Prelude.{◌≡◌, ◌<◌, ◌+◌, ◌-◌, ◌%◌, ◌^◌, ◌==◌, ◌∷◌, bit_and, bit_or};
ghost use mathlib.Core.Option.{none};
ghost use prog.Atomic.{either};
ghost use types.Logic.{sem};
ghost use denote.Follow.{follows};
ghost use Rattle.atomic_table.specs.contracts.shared.Seat.{the_row};
ghost use Rattle.atomic_table.specs.Lent.{seat_with};
ghost use Rattle.atomic_table.specs.Table.{step, rest, Allows};
ghost use Rattle.nub_rule.specs.Rule.{IsKept};

use crate::rule::{About, Kept, Slot};
use crate::uses::Uses;
use crate::view::View;
use atomic_table::{Play, Seat, Shared, Table, TableRule};
use std::alloc::Global;

/// Reads a word.
#[inline(always)]
pub(crate) fn load<M: Play<Slot<U::Value>, View<U::Value, U::Share, U::World>>, U: Uses>(
    table: &Table<
        Slot<U::Value>,
        View<U::Value, U::Share, U::World>,
        About<U::World>,
        Kept<U>,
        Global,
    >,
    seat: &mut Seat<Slot<U::Value>, View<U::Value, U::Share, U::World>>,
    word: usize,
) -> u64
    requires of { seat.old.table_id ≡ table.now.shared.table_id }
    requires inside { word < table.now.shared.table_id.words }
    requires allowed { Allows (IsKept table.now.shared.key.layout table.now.shared.key.traced table.now.shared.key.world.value U.begin
        U.holds)
        table.now.shared.table_id.slots seat.old.id seat.old.me word (λ n. n)
        (M.then (step table.now.shared.table_id.slots word 0 0 none) seat.old.me) }
    ensures { (seat.new.table_id ≡ seat.old.table_id) × (seat.new.id ≡ seat.old.id)
        × M.then (step table.now.shared.table_id.slots word 0 0 none) seat.old.me result seat.new.me }
{
    table.shared.load::<M>(seat, word)
}

/// Writes a word.
#[inline(always)]
pub(crate) fn store<M: Play<Slot<U::Value>, View<U::Value, U::Share, U::World>>, U: Uses>(
    table: &Table<
        Slot<U::Value>,
        View<U::Value, U::Share, U::World>,
        About<U::World>,
        Kept<U>,
        Global,
    >,
    seat: &mut Seat<Slot<U::Value>, View<U::Value, U::Share, U::World>>,
    word: usize,
    new: u64,
)
    requires of { seat.old.table_id ≡ table.now.shared.table_id }
    requires inside { word < table.now.shared.table_id.words }
    requires allowed { Allows (IsKept table.now.shared.key.layout table.now.shared.key.traced table.now.shared.key.world.value U.begin
        U.holds)
        table.now.shared.table_id.slots seat.old.id seat.old.me word (λ _. new)
        (λ _. M.then (step table.now.shared.table_id.slots word new 0 none) seat.old.me new) }
    ensures { (seat.new.table_id ≡ seat.old.table_id) × (seat.new.id ≡ seat.old.id)
        × M.then (step table.now.shared.table_id.slots word new 0 none) seat.old.me new seat.new.me }
{
    table.shared.store::<M>(seat, word, new);
}

/// Writes a word, and returns what it was.
#[inline(always)]
pub(crate) fn swap<M: Play<Slot<U::Value>, View<U::Value, U::Share, U::World>>, U: Uses>(
    table: &Table<
        Slot<U::Value>,
        View<U::Value, U::Share, U::World>,
        About<U::World>,
        Kept<U>,
        Global,
    >,
    seat: &mut Seat<Slot<U::Value>, View<U::Value, U::Share, U::World>>,
    word: usize,
    new: u64,
) -> u64
    requires of { seat.old.table_id ≡ table.now.shared.table_id }
    requires inside { word < table.now.shared.table_id.words }
    requires allowed { Allows (IsKept table.now.shared.key.layout table.now.shared.key.traced table.now.shared.key.world.value U.begin
        U.holds)
        table.now.shared.table_id.slots seat.old.id seat.old.me word (λ _. new)
        (M.then (step table.now.shared.table_id.slots word new 0 none) seat.old.me) }
    ensures { (seat.new.table_id ≡ seat.old.table_id) × (seat.new.id ≡ seat.old.id)
        × M.then (step table.now.shared.table_id.slots word new 0 none) seat.old.me result seat.new.me }
{
    table.shared.swap::<M>(seat, word, new)
}

/// Adds to a word, modulo 2^64, and returns what it was.
#[inline(always)]
pub(crate) fn fetch_add<M: Play<Slot<U::Value>, View<U::Value, U::Share, U::World>>, U: Uses>(
    table: &Table<
        Slot<U::Value>,
        View<U::Value, U::Share, U::World>,
        About<U::World>,
        Kept<U>,
        Global,
    >,
    seat: &mut Seat<Slot<U::Value>, View<U::Value, U::Share, U::World>>,
    word: usize,
    k: u64,
) -> u64
    requires of { seat.old.table_id ≡ table.now.shared.table_id }
    requires inside { word < table.now.shared.table_id.words }
    requires allowed { Allows (IsKept table.now.shared.key.layout table.now.shared.key.traced table.now.shared.key.world.value U.begin
        U.holds)
        table.now.shared.table_id.slots seat.old.id seat.old.me word (λ n. (n + k) % 2 ^ 64)
        (M.then (step table.now.shared.table_id.slots word k 0 none) seat.old.me) }
    ensures { (seat.new.table_id ≡ seat.old.table_id) × (seat.new.id ≡ seat.old.id)
        × M.then (step table.now.shared.table_id.slots word k 0 none) seat.old.me result seat.new.me }
{
    table.shared.fetch_add::<M>(seat, word, k)
}

/// Subtracts from a word, modulo 2^64, and returns what it was.
#[inline(always)]
pub(crate) fn fetch_sub<M: Play<Slot<U::Value>, View<U::Value, U::Share, U::World>>, U: Uses>(
    table: &Table<
        Slot<U::Value>,
        View<U::Value, U::Share, U::World>,
        About<U::World>,
        Kept<U>,
        Global,
    >,
    seat: &mut Seat<Slot<U::Value>, View<U::Value, U::Share, U::World>>,
    word: usize,
    k: u64,
) -> u64
    requires of { seat.old.table_id ≡ table.now.shared.table_id }
    requires inside { word < table.now.shared.table_id.words }
    requires allowed { Allows (IsKept table.now.shared.key.layout table.now.shared.key.traced table.now.shared.key.world.value U.begin
        U.holds)
        table.now.shared.table_id.slots seat.old.id seat.old.me word (λ n. (n + (2 ^ 64 - k)) % 2 ^ 64)
        (M.then (step table.now.shared.table_id.slots word k 0 none) seat.old.me) }
    ensures { (seat.new.table_id ≡ seat.old.table_id) × (seat.new.id ≡ seat.old.id)
        × M.then (step table.now.shared.table_id.slots word k 0 none) seat.old.me result seat.new.me }
{
    table.shared.fetch_sub::<M>(seat, word, k)
}

/// Keeps these bits of a word, and returns what it was.
#[inline(always)]
pub(crate) fn fetch_and<M: Play<Slot<U::Value>, View<U::Value, U::Share, U::World>>, U: Uses>(
    table: &Table<
        Slot<U::Value>,
        View<U::Value, U::Share, U::World>,
        About<U::World>,
        Kept<U>,
        Global,
    >,
    seat: &mut Seat<Slot<U::Value>, View<U::Value, U::Share, U::World>>,
    word: usize,
    k: u64,
) -> u64
    requires of { seat.old.table_id ≡ table.now.shared.table_id }
    requires inside { word < table.now.shared.table_id.words }
    requires allowed { Allows (IsKept table.now.shared.key.layout table.now.shared.key.traced table.now.shared.key.world.value U.begin
        U.holds)
        table.now.shared.table_id.slots seat.old.id seat.old.me word (λ n. bit_and n k)
        (M.then (step table.now.shared.table_id.slots word k 0 none) seat.old.me) }
    ensures { (seat.new.table_id ≡ seat.old.table_id) × (seat.new.id ≡ seat.old.id)
        × M.then (step table.now.shared.table_id.slots word k 0 none) seat.old.me result seat.new.me }
{
    table.shared.fetch_and::<M>(seat, word, k)
}

/// Sets these bits of a word, and returns what it was.
#[inline(always)]
pub(crate) fn fetch_or<M: Play<Slot<U::Value>, View<U::Value, U::Share, U::World>>, U: Uses>(
    table: &Table<
        Slot<U::Value>,
        View<U::Value, U::Share, U::World>,
        About<U::World>,
        Kept<U>,
        Global,
    >,
    seat: &mut Seat<Slot<U::Value>, View<U::Value, U::Share, U::World>>,
    word: usize,
    k: u64,
) -> u64
    requires of { seat.old.table_id ≡ table.now.shared.table_id }
    requires inside { word < table.now.shared.table_id.words }
    requires allowed { Allows (IsKept table.now.shared.key.layout table.now.shared.key.traced table.now.shared.key.world.value U.begin
        U.holds)
        table.now.shared.table_id.slots seat.old.id seat.old.me word (λ n. bit_or n k)
        (M.then (step table.now.shared.table_id.slots word k 0 none) seat.old.me) }
    ensures { (seat.new.table_id ≡ seat.old.table_id) × (seat.new.id ≡ seat.old.id)
        × M.then (step table.now.shared.table_id.slots word k 0 none) seat.old.me result seat.new.me }
{
    table.shared.fetch_or::<M>(seat, word, k)
}

/// Sets a word to `new` if it is `old`, and returns what it was.
#[inline(always)]
pub(crate) fn compare_exchange<
    M: Play<Slot<U::Value>, View<U::Value, U::Share, U::World>>,
    U: Uses,
>(
    table: &Table<
        Slot<U::Value>,
        View<U::Value, U::Share, U::World>,
        About<U::World>,
        Kept<U>,
        Global,
    >,
    seat: &mut Seat<Slot<U::Value>, View<U::Value, U::Share, U::World>>,
    word: usize,
    old: u64,
    new: u64,
) -> u64
    requires of { seat.old.table_id ≡ table.now.shared.table_id }
    requires inside { word < table.now.shared.table_id.words }
    requires allowed { Allows (IsKept table.now.shared.key.layout table.now.shared.key.traced table.now.shared.key.world.value U.begin
        U.holds)
        table.now.shared.table_id.slots seat.old.id seat.old.me word (λ n. either (n == old) new n)
        (M.then (step table.now.shared.table_id.slots word old new none) seat.old.me) }
    ensures { (seat.new.table_id ≡ seat.old.table_id) × (seat.new.id ≡ seat.old.id)
        × M.then (step table.now.shared.table_id.slots word old new none) seat.old.me result seat.new.me }
{
    table.shared.compare_exchange::<M>(seat, word, old, new)
}

/// Returns the slot that the seat took last. When the borrow ends, the seat has what was written
/// through it.
#[inline(always)]
pub(crate) fn slot_mut<'a, S, V, K, P: TableRule<S, V, K>>(
    seat: &'a mut Seat<S, V>,
    table: &'a Shared<S, V, K, P>,
    slot: usize,
) -> &'a mut S
    requires of { seat.old.table_id ≡ table.now.table_id }
    requires first { (old : S) × (seat.old.me.1 ≡ (slot, old) ∷ rest seat.old.me.1) }
    ensures* writes_back { sem 𝓛 (follows (the_row S.row V.row) S.row seat.entry.ghost_name result.ghost_name (seat_with seat.old slot)) }
    ensures value { seat.old.me.1 ≡ (slot, result.now) ∷ rest seat.old.me.1 }
{
    seat.slot_mut(table, slot)
}
