//! Closing a package whose threads were forked: some have ended, the others were never forked, and
//! they come in any order.
ghost use Rattle.std.specs.Prelude.{Some, None, ◌≡◌, ◌≢◌, ℕ, ◌+◌, ◌<◌, ◌≤◌, [], ◌∷◌, ◌++◌, map, length, vec_capacity};
ghost use mathlib.Core.Option.{some};
ghost use lib.ListN.{get_elem?};
ghost use Rattle.nub_rule.specs.declared.view.Kind.TheVariants.{Collector};
ghost use Rattle.nub_rule.specs.Ends.{Leaves};
ghost use Rattle.nub_rule.specs.Forks.{AreAll, MayComeBack, in_order, with_number};
ghost use Rattle.nub_rule.specs.Items.{Each};
ghost use Rattle.nub_rule.specs.Known.{Known};

use crate::closing::{Gathered, Remains, collector, gather, values_of};
use crate::package::{Package, Stored, Thread};
use crate::rule::{About, Kept, Slot};
use crate::thread_states::{Ended, Unborn};
use crate::uses::Uses;
use crate::view::View;
use atomic_table::Shared;
use std::alloc::Global;

/// Returns the place of the thread with this number among those that have ended.
fn place_in_ended<U: Uses>(ended: &Vec<Ended<U>>, number: u32) -> Option<usize>
    ensures there { (i : ℕ) → result ≡ Some i
        → (k : Known U.Value U.Share U.World) × (get_elem? ended.now.items i ≡ some k) × (k.number ≡ number) }
    ensures none { result ≡ None → with_number number ended.now.items ≡ [] }
{
    for i in 0..ended.len() {
        if ended[i].number() == number {
            return Some(i);
        }
    }
    None
}

/// Returns the place of the thread with this number among those that were never forked.
fn place_in_unborn<U: Uses>(unborn: &Vec<Unborn<U>>, number: u32) -> Option<usize>
    ensures there { (i : ℕ) → result ≡ Some i
        → (k : Known U.Value U.Share U.World) × (get_elem? unborn.now.items i ≡ some k) × (k.number ≡ number) }
    ensures none { result ≡ None → with_number number unborn.now.items ≡ [] }
{
    for i in 0..unborn.len() {
        if unborn[i].number() == number {
            return Some(i);
        }
    }
    None
}

/// Takes the one thread with this number out of either list.
fn take_number<U: Uses>(
    ended: &mut Vec<Ended<U>>,
    unborn: &mut Vec<Unborn<U>>,
    number: u32,
) -> Thread<U>
    requires one { (k : Known U.Value U.Share U.World) × (with_number number (ended.old.items ++ unborn.old.items) ≡ k ∷ []) }
    ensures one { with_number number (ended.old.items ++ unborn.old.items) ≡ result ∷ [] }
    ensures others { (n : ℕ) → n ≢ number
        → with_number n (ended.new.items ++ unborn.new.items) ≡ with_number n (ended.old.items ++ unborn.old.items) }
    ensures back { MayComeBack result }
{
    if let Some(i) = place_in_ended(ended, number) {
        return ended.remove(i).into_thread();
    }
    if let Some(i) = place_in_unborn(unborn, number) {
        return unborn.remove(i).into_thread();
    }
    unreachable!()
}

/// Takes every thread back, in order of their numbers. Returns the seat that has taken them, and
/// what they have stored.
fn gather_forked<U: Uses>(
    alloc: Global,
    shared: &Shared<Slot<U::Value>, View<U::Value, U::Share, U::World>, About<U::World>, Kept<U>>,
    threads: u32,
    mut ended: Vec<Ended<U>>,
    mut unborn: Vec<Unborn<U>>,
    stored: Vec<Stored>,
) -> Gathered<U>
    requires words { 0 < shared.now.table_id.words }
    requires of { Each (λ _ t. t.table_id ≡ shared.now.table_id) (ended.items ++ unborn.items) }
    requires all { AreAll threads (ended.items ++ unborn.items) }
    requires some { 1 ≤ threads }
    requires shelf { (stored.items ≡ []) × (threads ≤ vec_capacity stored) }
    ensures of { result.seat.table_id ≡ shared.now.table_id }
    ensures kind { result.seat.me.0.kind ≡ Collector }
    ensures back { result.seat.me.0.back ≡ map (λ t. t.part) (in_order threads (ended.items ++ unborn.items)) }
    ensures stored { (map (λ s. s.entries.items) result.stored.items
        ≡ map (λ t. t.entries) (in_order threads (ended.items ++ unborn.items)))
        × (map (λ s. s.lost) result.stored.items ≡ map (λ t. t.lost) (in_order threads (ended.items ++ unborn.items))) }
    ensures room { (result.room.items ≡ []) × (shared.now.table_id.slots ≤ 192 + vec_capacity result.room) }
    ensures idle { Each (λ _ t. MayComeBack t) (in_order threads (ended.items ++ unborn.items)) }
{
    let mut all = Gathered {
        seat: collector(shared),
        stored,
        room: Vec::new(alloc),
    };
    for number in 0..threads {
        let thread = take_number(&mut ended, &mut unborn, number);
        gather(shared, &mut all, thread);
    }
    all
}

/// Closes a package whose threads have all come back, each once: those that have ended, and those
/// that were never forked. Allocates no memory.
pub fn close_forked<U: Uses>(
    alloc: Global,
    p: Package<U>,
    ended: Vec<Ended<U>>,
    unborn: Vec<Unborn<U>>,
) -> Remains<U>
    requires of { Each (λ _ t. t.table_id ≡ p.table_id) (ended.items ++ unborn.items) }
    requires all { AreAll p.layout.threads (ended.items ++ unborn.items) }
    ensures values { (length result.values.items ≡ p.layout.mutexes)
        × Leaves p.layout (U.holds p.world) (map (λ t. t.part) (in_order p.layout.threads (ended.items ++ unborn.items)))
        result.values.items }
    ensures stored { (map (λ s. s.entries.items) result.stored.items
        ≡ map (λ t. t.entries) (in_order p.layout.threads (ended.items ++ unborn.items)))
        × (map (λ s. s.lost) result.stored.items
        ≡ map (λ t. t.lost) (in_order p.layout.threads (ended.items ++ unborn.items))) }
{
    let Package {
        layout,
        traced: _,
        table,
        unparkers: _,
        shelf,
    } = p;
    let Gathered { seat, stored, room } = gather_forked(
        alloc,
        &table.shared,
        layout.threads,
        ended,
        unborn,
        shelf,
    );
    let values = values_of(room, table.close_with(seat));
    Remains { values, stored }
}
