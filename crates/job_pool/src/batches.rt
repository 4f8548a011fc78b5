//! Cuts jobs into batches, and joins batches again.
ghost use Rattle.std.specs.Prelude.{◌≡◌, ◌≤◌, ◌<◌, ◌+◌, ◌-◌, ◌*◌, ◌++◌, [], length, map, vec_len, vec_capacity, IfOk};
ghost use Rattle.std.specs.List.{AllByRecursion};
ghost use Rattle.std.specs.Vec.Iter.{into_iter_items, into_iter_len};
ghost use Rattle.job_pool.specs.Slots.{IsRoom, fresh, slots_of};

use crate::batch::Batch;
use crate::job::Job;
use crate::slot::Slot;
use std::alloc::{AllocError, Global};
use std::vec::IntoIter;

/// Returns how many jobs a batch has, so that each worker gets some and none keeps many.
pub fn batch_size(jobs: usize) -> usize
    requires { jobs ≤ 100000 }
    ensures some { 1 ≤ result }
    ensures enough { jobs < 4095 * result }
{
    let size = jobs / 128 + 1;
    if size < 64 { size } else { 64 }
}

/// Returns `count` lists, each with room for `size` jobs. Fails only if there is no memory.
pub fn lists<J: Job>(
    alloc: Global,
    count: usize,
    size: usize,
) -> Result<Vec<Vec<Slot<J>>>, AllocError>
    ensures { IfOk result (λ v. (vec_len v ≡ count) × AllByRecursion (λ l. IsRoom size l.items (vec_capacity l)) v.items) }
{
    let mut lists = Vec::with_capacity(alloc, count)?;
    for made in 0..count {
        let list = Vec::with_capacity(alloc, size)?;
        lists.push_reserved(list);
    }
    Ok(lists)
}

/// Takes the next jobs, up to `size`.
fn batch_of<J: Job>(mut slots: Vec<Slot<J>>, source: &mut IntoIter<J>, size: usize) -> Batch<J>
    requires room { IsRoom size slots.items (vec_capacity slots) }
    requires source { into_iter_len source.old ≡ length (into_iter_items source.old) }
    ensures source { into_iter_len source.new ≡ length (into_iter_items source.new) }
    ensures same { result.slots.items ++ map fresh (into_iter_items source.new) ≡ map fresh (into_iter_items source.old) }
    ensures less { length (into_iter_items source.new) ≡ length (into_iter_items source.old) - size }
{
    for filled in 0..size {
        match source.next() {
            Some(job) => slots.push_reserved(Slot { job, answer: None }),
            None => return Batch { slots },
        }
    }
    Batch { slots }
}

/// Cuts the jobs into batches, one for each list.
pub fn cut<J: Job>(
    jobs: Vec<J>,
    lists: Vec<Vec<Slot<J>>>,
    size: usize,
    mut batches: Vec<Batch<J>>,
) -> Vec<Batch<J>>
    requires lists { AllByRecursion (λ l. IsRoom size l.items (vec_capacity l)) lists.items }
    requires enough { length jobs.items ≤ vec_len lists * size }
    requires batches { (batches.items ≡ []) × (vec_len lists ≤ vec_capacity batches) }
    ensures slots { slots_of result.items ≡ map fresh jobs.items }
    ensures count { length result.items ≡ vec_len lists }
{
    let mut source = jobs.into_iter();
    for list in lists {
        batches.push_reserved(batch_of(list, &mut source, size));
    }
    batches
}

/// Moves the slots of a batch to the end of the others.
fn pour<J: Job>(batch: Batch<J>, slots: &mut Vec<Slot<J>>)
    requires room { vec_len slots.old + length batch.slots.items ≤ vec_capacity slots.old }
    ensures slots { slots.new.items ≡ slots.old.items ++ batch.slots.items }
    ensures room { vec_capacity slots.new ≡ vec_capacity slots.old }
{
    for slot in batch.slots {
        slots.push_reserved(slot);
    }
}

/// Joins the slots of all batches, one after the other.
pub fn join<J: Job>(batches: Vec<Batch<J>>, mut slots: Vec<Slot<J>>) -> Vec<Slot<J>>
    requires empty { slots.items ≡ [] }
    requires room { length (slots_of batches.items) ≤ vec_capacity slots }
    ensures { result.items ≡ slots_of batches.items }
{
    for batch in batches {
        pour(batch, &mut slots);
    }
    slots
}
