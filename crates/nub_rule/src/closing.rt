//! Closing a package: threads come back, and what they leave.
ghost use Rattle.std.specs.Prelude.{Some, None, false, slice_index_or, ◌≡◌, ◌≢◌, ℕ, ◌+◌, ◌<◌, ◌≤◌, [], ◌∷◌, ◌++◌, map};
ghost use Rattle.std.specs.Prelude.{length, vec_capacity};
ghost use Rattle.std.specs.Mem.Slots.{slots_items, slots_filled, slots_len, IsFull};
ghost use Rattle.std.specs.Mem.Slots.Ownership.{Filled};
ghost use mathlib.Core.Option.{some};
ghost use lib.ListN.{get_elem?};
ghost use Rattle.larch_actions.specs.declared.event.Version.TheVariants.{Two};
ghost use Rattle.larch_actions.specs.declared.event.Life.TheVariants.{Live};
ghost use Rattle.nub_rule.specs.declared.view.Child.TheVariants.{No};
ghost use Rattle.nub_rule.specs.declared.rule.Slot.TheVariants.{Value};
ghost use Rattle.nub_rule.specs.declared.view.Kind.TheVariants.{Collector};
ghost use Rattle.nub_rule.specs.Items.{Each};
ghost use Rattle.atomic_table.specs.Table.{Enters, Joins};
ghost use Rattle.nub_rule.specs.Rule.{IsKept, opening_view, collecting, both_views, spent_view};
ghost use Rattle.nub_rule.specs.Known.{HasNone};
ghost use Rattle.nub_rule.specs.Ends.{Leaves};

use crate::package::{Package, Stored, Thread};
use crate::places::QUEUES;
use crate::rule::{About, Collect, Gather, Kept, Slot};
use crate::uses::Uses;
use crate::view::View;
use atomic_table::{Closed, Seat, Shared};
use std::alloc::Global;

/// What a package leaves: the values last released, and what each thread has stored.
#[derive(Drop)]
pub struct Remains<U: Uses> {
    pub values: Vec<U::Value>,
    pub stored: Vec<Stored>,
}

/// What comes of the threads that have come back, in order of their numbers.
pub(crate) struct Gathered<U: Uses> {
    pub(crate) seat: Seat<Slot<U::Value>, View<U::Value, U::Share, U::World>>,
    pub(crate) stored: Vec<Stored>,
    pub(crate) room: Vec<U::Value>,
}

/// Makes a new seat that takes threads back.
pub(crate) fn collector<U: Uses>(
    shared: &Shared<Slot<U::Value>, View<U::Value, U::Share, U::World>, About<U::World>, Kept<U>>,
) -> Seat<Slot<U::Value>, View<U::Value, U::Share, U::World>>
    requires inside { 0 < shared.now.table_id.words }
    requires enters { Enters (IsKept shared.now.key.layout shared.now.key.traced shared.now.key.world.value U.begin U.holds)
        shared.now.table_id.slots 0 (λ _ v.
        v ≡ collecting (opening_view shared.now.key.layout.version shared.now.key.world.value U.begin)) }
    ensures of { result.table_id ≡ shared.now.table_id }
    ensures view { result.me.0 ≡ collecting (opening_view shared.now.key.layout.version shared.now.key.world.value U.begin) }
{
    let (_, seat) = shared.load_new_seat::<Collect>(0);
    seat
}

/// Takes a thread's seat back.
fn take_back<U: Uses>(
    shared: &Shared<Slot<U::Value>, View<U::Value, U::Share, U::World>, About<U::World>, Kept<U>>,
    seat: &mut Seat<Slot<U::Value>, View<U::Value, U::Share, U::World>>,
    other: Seat<Slot<U::Value>, View<U::Value, U::Share, U::World>>,
)
    requires of { seat.old.table_id ≡ shared.now.table_id }
    requires from { other.table_id ≡ shared.now.table_id }
    requires bare { other.me.1 ≡ [] }
    requires inside { 0 < shared.now.table_id.words }
    requires joins { Joins (IsKept shared.now.key.layout shared.now.key.traced shared.now.key.world.value U.begin U.holds)
        seat.old.id seat.old.me.0 other.id other.me.0 (both_views seat.old.me.0 other.me.0) spent_view }
    ensures of { seat.new.table_id ≡ seat.old.table_id }
    ensures view { seat.new.me.0 ≡ both_views seat.old.me.0 other.me.0 }
{
    shared.join_seat::<Gather>(seat, other);
}

/// Takes the thread with the next number back.
pub(crate) fn gather<U: Uses>(
    shared: &Shared<Slot<U::Value>, View<U::Value, U::Share, U::World>, About<U::World>, Kept<U>>,
    all: &mut Gathered<U>,
    thread: Thread<U>,
)
    requires words { 0 < shared.now.table_id.words }
    requires of { all.old.seat.table_id ≡ shared.now.table_id }
    requires kind { all.old.seat.me.0.kind ≡ Collector }
    requires next { thread.number ≡ length all.old.seat.me.0.back }
    requires thread { (thread.table_id ≡ shared.now.table_id) × (thread.spin ≡ None) × (thread.child ≡ No) × HasNone thread }
    requires shelf { length all.old.stored.items < vec_capacity all.old.stored }
    requires room { (all.old.room.items ≡ []) × (1 ≤ thread.number → shared.now.table_id.slots ≤ 192 + vec_capacity all.old.room) }
    ensures of { all.new.seat.table_id ≡ all.old.seat.table_id }
    ensures kind { all.new.seat.me.0.kind ≡ Collector }
    ensures back { all.new.seat.me.0.back ≡ all.old.seat.me.0.back ++ thread.part ∷ [] }
    ensures entries { map (λ s. s.entries.items) all.new.stored.items
        ≡ map (λ s. s.entries.items) all.old.stored.items ++ thread.entries ∷ [] }
    ensures losses { map (λ s. s.lost) all.new.stored.items ≡ map (λ s. s.lost) all.old.stored.items ++ thread.lost ∷ [] }
    ensures shelf { (length all.new.stored.items ≡ length all.old.stored.items + 1)
        × (vec_capacity all.new.stored ≡ vec_capacity all.old.stored) }
    ensures room { (all.new.room.items ≡ []) × (shared.now.table_id.slots ≤ 192 + vec_capacity all.new.room) }
{
    let Thread {
        number,
        hand: _,
        seat: own,
        entries,
        lost,
        next: _,
        parker: _,
        later: _,
        spin_tallies: _,
        room: kept,
    } = thread;
    take_back(shared, &mut all.seat, own);
    all.stored.push_reserved(Stored { entries, lost });
    if number == 0 {
        all.room = kept;
    }
}

/// Takes every thread back. Returns the seat that has taken them, and what they have stored.
fn gather_all<U: Uses>(
    alloc: Global,
    shared: &Shared<Slot<U::Value>, View<U::Value, U::Share, U::World>, About<U::World>, Kept<U>>,
    threads: Vec<Thread<U>>,
    stored: Vec<Stored>,
) -> Gathered<U>
    requires words { 0 < shared.now.table_id.words }
    requires threads { Each (λ n t. (t.number ≡ n) × (t.table_id ≡ shared.now.table_id) × (t.spin ≡ None) × (t.child ≡ No) × HasNone t)
        threads.items }
    requires some { 1 ≤ length threads.items }
    requires shelf { (stored.items ≡ []) × (length threads.items ≤ vec_capacity stored) }
    ensures of { result.seat.table_id ≡ shared.now.table_id }
    ensures kind { result.seat.me.0.kind ≡ Collector }
    ensures back { result.seat.me.0.back ≡ map (λ t. t.part) threads.items }
    ensures stored { (map (λ s. s.entries.items) result.stored.items ≡ map (λ t. t.entries) threads.items)
        × (map (λ s. s.lost) result.stored.items ≡ map (λ t. t.lost) threads.items) }
    ensures room { (result.room.items ≡ []) × (shared.now.table_id.slots ≤ 192 + vec_capacity result.room) }
{
    let mut all = Gathered {
        seat: collector(shared),
        stored,
        room: Vec::new(alloc),
    };
    for thread in threads {
        gather(shared, &mut all, thread);
    }
    all
}

/// Drops the slots of the queues.
fn drop_queues<T: Drop>(closed: &mut Closed<Slot<T>, Global>)
    requires { IsFull closed.old.slots × (192 ≤ slots_len closed.old.slots) }
    ensures len { slots_len closed.new.slots ≡ slots_len closed.old.slots }
    ensures items { slots_items closed.new.slots ≡ slots_items closed.old.slots }
    ensures filled { Filled (slots_filled closed.new.slots) 192 (slots_len closed.new.slots) × ((k : ℕ) → k < 192
        → slice_index_or (slots_filled closed.new.slots) k false ≡ false) }
{
    for i in 0..QUEUES {
        drop(closed.take(i));
    }
}

/// Returns the value in a slot that has one.
fn value_in<T: Drop>(slot: Slot<T>) -> T
    requires { (x : T) × (slot ≡ Value (Some x)) }
    ensures { slot ≡ Value (Some result) }
{
    let Slot::Value(cell) = slot else {
        unreachable!()
    };
    let Some(x) = cell else { unreachable!() };
    x
}

/// Returns the values in the slots.
pub(crate) fn values_of<T: Drop>(mut values: Vec<T>, mut closed: Closed<Slot<T>, Global>) -> Vec<T>
    requires full { IsFull closed.slots × (192 ≤ slots_len closed.slots) }
    requires room { (values.items ≡ []) × (slots_len closed.slots ≤ 192 + vec_capacity values) }
    requires values { (m : ℕ) → 192 + m < slots_len closed.slots → (x : T)
        × (get_elem? (slots_items closed.slots) (192 + m) ≡ some (Value (Some x))) }
    ensures count { 192 + length result.items ≡ slots_len closed.slots }
    ensures values { (m : ℕ) (x : T) → get_elem? (slots_items closed.slots) (192 + m) ≡ some (Value (Some x))
        → get_elem? result.items m ≡ some x }
{
    drop_queues(&mut closed);
    for i in QUEUES..closed.slot_count() {
        let x = value_in(closed.take(i));
        values.push_reserved(x);
    }
    closed.free();
    values
}

/// Closes a package whose threads have all come back, without a bit, a spin word or a wait.
/// Allocates no memory.
pub fn close_package<U: Uses>(alloc: Global, p: Package<U>, threads: Vec<Thread<U>>) -> Remains<U>
    requires count { length threads.items ≡ p.layout.threads }
    requires threads { Each (λ n t. (t.number ≡ n) × (t.table_id ≡ p.table_id) × (t.spin ≡ None) × (t.child ≡ No) × HasNone t)
        threads.items }
    requires rest { Each (λ n t. (t.wait ≡ None) × (p.layout.version ≡ Two → t.life ≢ Live)) threads.items }
    ensures values { (length result.values.items ≡ p.layout.mutexes)
        × Leaves p.layout (U.holds p.world) (map (λ t. t.part) threads.items) result.values.items }
    ensures stored { (map (λ s. s.entries.items) result.stored.items ≡ map (λ t. t.entries) threads.items)
        × (map (λ s. s.lost) result.stored.items ≡ map (λ t. t.lost) threads.items) }
{
    let Package {
        layout: _,
        traced: _,
        table,
        unparkers: _,
        shelf,
    } = p;
    let Gathered { seat, stored, room } = gather_all(alloc, &table.shared, threads, shelf);
    let values = values_of(room, table.close_with(seat));
    Remains { values, stored }
}
