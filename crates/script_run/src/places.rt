//! Puts threads into their slots before a run of version two, and takes them out after it.
ghost use Rattle.std.specs.Prelude.{◌≡◌, ◌≢◌, ℕ, ◌<◌, ◌≤◌, [], length, vec_capacity, IfOk};
ghost use mathlib.Core.Option.{some};
ghost use lib.ListN.{get_elem?};
ghost use Rattle.nub_rule.specs.Forks.{with_number};
ghost use Rattle.nub_rule.specs.Items.{Each};
ghost use Rattle.script_run.specs.Playing.{Player};
ghost use Rattle.script_run.specs.Placing.{occurs, ended_slots, ArePlaced};
ghost use Rattle.script_run.specs.declared.slots.Slot.TheVariants as slot;

use crate::slots::{Playing, Slot};
use nub_rule::{Ended, Thread, Unborn};
use std::alloc::{AllocError, Global};
use sum_uses::SumUses;

// The place of the first right to fork this thread.
fn place_of(rights: &Vec<Unborn<SumUses>>, number: u32) -> usize
    requires { with_number number rights.now.items ≢ [] }
    ensures there { (k : Player) × (get_elem? rights.now.items result ≡ some k) × (k.number ≡ number) }
    ensures first { (n : ℕ) (k : Player) → n < result → get_elem? rights.now.items n ≡ some k → k.number ≢ number }
{
    for at in 0..rights.len() {
        if rights[at].number() == number {
            return at;
        }
    }
    unreachable!()
}

/// Returns the slots of the threads in this order, followed by that of the first thread, and the
/// rights of the other threads.
pub fn place(
    alloc: Global,
    first: Thread<SumUses>,
    mut rights: Vec<Unborn<SumUses>>,
    order: &[u32],
) -> Result<(Vec<Slot>, Vec<Unborn<SumUses>>), AllocError>
    requires { (n : ℕ) → occurs n order.now ≤ length (with_number n rights.items) }
    ensures { IfOk result (λ r. ArePlaced first rights.items order.now r.0.items r.1.items) }
{
    let mut slots = Vec::with_capacity(alloc, order.len() + 1)?;
    for at in 0..order.len() {
        let place = place_of(&rights, order[at]);
        slots.push_reserved(Slot::Unborn(rights.remove(place)));
    }
    slots.push_reserved(Slot::Live {
        playing: Playing {
            me: first,
            numbers: [0; 64],
        },
        next: 0,
        is_new: true,
    });
    Ok((slots, rights))
}

/// Returns what is left of all threads, which have ended, in a list that has room.
pub fn ends(slots: Vec<Slot>, mut over: Vec<Ended<SumUses>>) -> Vec<Ended<SumUses>>
    requires over { Each (λ n s. (k : Player) × (s ≡ slot.Ended k)) slots.items }
    requires room { (over.items ≡ []) × (length slots.items ≤ vec_capacity over) }
    ensures { ended_slots result.items ≡ slots.items }
{
    for slot in slots {
        let Slot::Ended(end) = slot else {
            unreachable!()
        };
        over.push_reserved(end);
    }
    over
}
