//! Puts the batches back at their places.
ghost use Rattle.std.specs.Prelude.{◌≡◌, ◌<◌, ◌≤◌, ◌++◌, [], ℕ, List, length, map, vec_len, vec_capacity, true, Some, IsSome, slice_set, ◌∷◌, ◌+◌};
ghost use Rattle.std.specs.List.{AllByRecursion};
ghost use Rattle.job_pool.specs.declared.batch.Batch.{Batch};
ghost use Rattle.job_pool.specs.declared.item.Item.{Item};
ghost use Rattle.job_pool.specs.Crews.{filled_by};
ghost use Rattle.job_pool.specs.Batches.{IsPlaced, filled};
ghost use Rattle.job_pool.specs.Slots.{MayBeWorked};
ghost use Rattle.job_pool.specs.Working.{HasBuffer, HasMoved, IsBetween, has_seen_end, takes_of};

use crate::batch::Batch;
use crate::calls::take_next;
use crate::item::{Batches, Item, Worked};
use crate::job::Job;
use bounded_buffer::TakeEnd;
use nub_rule::{Package, Thread};
use std::sync::Wait;

/// Puts the batch at its place, if there is such a place.
fn place<T: Drop>(places: &mut [Option<T>], item: Item<T>)
    ensures { places.new ≡ slice_set places.old item.place (Some item.batch) }
{
    let Item { place, batch } = item;
    if place < places.len() as u64 {
        places[place as usize] = Some(batch);
    }
}

/// Puts each batch of the list at its place.
fn place_list<T: Drop>(places: &mut [Option<T>], list: Vec<Item<T>>)
    ensures { places.new ≡ filled list.items places.old }
{
    for item in list {
        place(places, item);
    }
}

/// Takes all batches that are left in the buffer, without working on them.
pub fn take_rest<J: Job, R: Wait>(
    rt: &R,
    p: &Package<Batches<Batch<J>>>,
    me: &mut Thread<Batches<Batch<J>>>,
    places: &mut [Option<Batch<J>>],
)
    requires named { HasBuffer p.now.layout }
    requires between { (n : ℕ) × IsBetween p.now n me.old }
    requires placed { IsPlaced (MayBeWorked J.state J.gives J.next) (takes_of me.old) places.old }
    ensures moved { (taken : List (Item (Batch J))) × HasMoved p.now [] taken me.old me.new }
    ensures placed { IsPlaced (MayBeWorked J.state J.gives J.next) (takes_of me.new) places.new }
    ensures end { has_seen_end me.new ≡ true }
{
    for _ in rt.forever() {
        match take_next(rt, p, me) {
            Ok(item) => place(places, item),
            Err(TakeEnd::ClosedEmpty) => return,
            Err(TakeEnd::Alerted) => {}
        }
    }
}

/// Puts what each worker worked on at its place, and appends the workers' threads to `threads`.
pub fn place_all<T: Send + Drop>(
    done: Vec<Worked<T>>,
    mut threads: Vec<Thread<Batches<T>>>,
    places: &mut [Option<T>],
) -> Vec<Thread<Batches<T>>>
    requires room { vec_len threads + vec_len done ≤ vec_capacity threads }
    ensures threads { result.items ≡ threads.items ++ map (λ r. r.0) done.items }
    ensures places { places.new ≡ filled_by done.items places.old }
{
    for (thread, list) in done {
        place_list(places, list);
        threads.push_reserved(thread);
    }
    threads
}

/// Returns all batches in order, when each is in its place.
pub fn batches_out<T: Drop>(places: Vec<Option<T>>, mut out: Vec<T>) -> Vec<T>
    requires full { AllByRecursion IsSome places.items }
    requires room { (out.items ≡ []) × (vec_len places ≤ vec_capacity out) }
    ensures { places.items ≡ map (λ x. Some x) result.items }
{
    for one in places {
        let Some(batch) = one else { unreachable!() };
        out.push_reserved(batch);
    }
    out
}
