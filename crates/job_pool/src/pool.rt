//! The call that runs a list of jobs.
ghost use Rattle.std.specs.Prelude.{◌≡◌, ◌≤◌, ◌<◌, ◌+◌, [], length, map, vec_len, vec_capacity, IfOk, IfSome, MatchOption, Some, ℕ, ◌++◌, ◌∷◌};
ghost use Rattle.std.specs.List.{AllByRecursion, AllZip};
ghost use Rattle.job_pool.specs.declared.job.Work.TheVariants.{Value};
ghost use Rattle.job_pool.specs.Jobs.{HasEnded};
ghost use Rattle.job_pool.specs.Slots.{HasNoStop, HasStop, HasValue, IsRoom, MayBeCalled, StopsAt};

use crate::batch::{Batch, call_all};
use crate::batches::{batch_size, cut, join, lists};
use crate::job::{Job, Work};
use crate::pool_end::PoolEnd;
use crate::share::share_out;
use crate::slot::Slot;
use std::alloc::{AllocError, Global};
use std::sync::Wait;
use std::thread::Threads;

/// Returns the place of a job that gave Stop, if one did.
fn place_of_stop<J: Job>(slots: &[Slot<J>]) -> Option<u64>
    ensures { MatchOption result (AllByRecursion HasNoStop slots.now) (λ k. StopsAt k slots.now) }
{
    let mut place = 0;
    for slot in slots {
        if slot.has_stopped() {
            return Some(place);
        }
        place += 1;
    }
    None
}

/// Calls each job that no worker called, up to the first that gives Stop, and returns the place of one that did. If one gave it before, none
/// is called.
fn finish<J: Job>(slots: &mut [Slot<J>]) -> Option<u64>
    ensures called { AllZip (MayBeCalled J.state J.gives J.next) slots.old slots.new }
    ensures ends { MatchOption result (AllByRecursion HasValue slots.new) (λ k. StopsAt k slots.new) }
    ensures stays { HasStop slots.old → slots.new ≡ slots.old }
{
    match place_of_stop(slots) {
        Some(place) => Some(place),
        None => call_all(slots),
    }
}

/// Lists that are filled later, each with room for all that it will have.
#[derive(Drop)]
struct Rooms<J: Job> {
    lists: Vec<Vec<Slot<J>>>,
    batches: Vec<Batch<J>>,
    slots: Vec<Slot<J>>,
    back: Vec<J>,
    values: Vec<u64>,
}

/// Returns the lists for `many` jobs in `count` batches of `size`. Fails only if there is no
/// memory.
fn rooms_for<J: Job>(
    alloc: Global,
    count: usize,
    size: usize,
    many: usize,
) -> Result<Rooms<J>, AllocError>
    ensures lists { IfOk result (λ r. (vec_len r.lists ≡ count)
        × AllByRecursion (λ l. IsRoom size l.items (vec_capacity l)) r.lists.items) }
    ensures batches { IfOk result (λ r. IsRoom count r.batches.items (vec_capacity r.batches)) }
    ensures slots { IfOk result (λ r. IsRoom many r.slots.items (vec_capacity r.slots)) }
    ensures back { IfOk result (λ r. IsRoom many r.back.items (vec_capacity r.back)) }
    ensures values { IfOk result (λ r. IsRoom many r.values.items (vec_capacity r.values)) }
{
    let lists = lists(alloc, count, size)?;
    let batches = Vec::with_capacity(alloc, count)?;
    let slots = Vec::with_capacity(alloc, many)?;
    let back = Vec::with_capacity(alloc, many)?;
    let values = Vec::with_capacity(alloc, many)?;
    Ok(Rooms {
        lists,
        batches,
        slots,
        back,
        values,
    })
}

/// Appends the value, if one was given.
fn push_value(values: &mut Vec<u64>, answer: Option<Work>)
    requires { vec_len values.old < vec_capacity values.old }
    ensures value { (v : ℕ) → answer ≡ Some (Value v) → values.new.items ≡ values.old.items ++ v ∷ [] }
    ensures len { vec_len values.new ≤ vec_len values.old + 1 }
    ensures capacity { vec_capacity values.new ≡ vec_capacity values.old }
{
    if let Some(Work::Value(value)) = answer {
        values.push_reserved(value);
    }
}

/// Splits the slots into the jobs and the values that they gave, both in order.
fn split<J: Job>(slots: Vec<Slot<J>>, mut back: Vec<J>, mut values: Vec<u64>) -> (Vec<J>, Vec<u64>)
    requires back { IsRoom (vec_len slots) back.items (vec_capacity back) }
    requires values { IsRoom (vec_len slots) values.items (vec_capacity values) }
    ensures back { result.0.items ≡ map (λ s. s.job) slots.items }
    ensures values { AllByRecursion HasValue slots.items → map (λ s. s.answer) slots.items ≡ map (λ v. Some (Value v)) result.1.items }
{
    for slot in slots {
        let Slot { job, answer } = slot;
        back.push_reserved(job);
        push_value(&mut values, answer);
    }
    (back, values)
}

/// Calls each job, and returns how that ended and the jobs, each in its place.
///
/// The jobs are called by 1 to 8 workers, each in an operating-system thread of its own, which take
/// batches of jobs from a buffer; the caller calls those that no worker did. If a job gives Stop,
/// the workers are alerted, and the jobs that weren't called come back as they were given. There
/// may be up to 100000 jobs.
///
/// A worker whose thread can't be started does its part on the caller's thread. Blocks until all
/// have ended, for ever if a job never does.
///
/// ```rust
/// let (end, _blocks) = run_jobs(rt, alloc, workers, blocks);
/// match end {
///     PoolEnd::Done(sums) => Ok(sums),
///     PoolEnd::Stopped(_) => unreachable!(),
///     PoolEnd::Memory => Err(AllocError),
/// }
/// ```
pub fn run_jobs<J: Job, R: Threads + Wait + Sync>(
    rt: &R,
    alloc: Global,
    workers: u32,
    jobs: Vec<J>,
) -> (PoolEnd, Vec<J>)
    requires workers { (1 ≤ workers) × (workers ≤ 8) }
    requires jobs { length jobs.items ≤ 100000 }
    ensures { HasEnded J.state J.gives J.next jobs.items result.0 result.1.items }
{
    let many = jobs.len();
    let size = batch_size(many);
    let count = many / size + 1;
    let Ok(rooms) = rooms_for(alloc, count, size, many) else {
        return (PoolEnd::Memory, jobs);
    };
    let Rooms {
        lists,
        batches,
        slots,
        back,
        values,
    } = rooms;
    let batches = cut(jobs, lists, size, batches);
    match share_out(rt, alloc, workers, batches) {
        Ok(batches) => {
            let mut slots = join(batches, slots);
            let stop = finish(slots.as_mut_slice());
            let (back, values) = split(slots, back, values);
            match stop {
                Some(place) => (PoolEnd::Stopped(place), back),
                None => (PoolEnd::Done(values), back),
            }
        }
        Err(batches) => {
            let (back, _values) = split(join(batches, slots), back, values);
            (PoolEnd::Memory, back)
        }
    }
}
