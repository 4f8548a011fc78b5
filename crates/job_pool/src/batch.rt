//! Jobs that are handed out together.
ghost use Rattle.std.specs.Prelude.{◌↔◌, IsTrue, MatchOption};
ghost use Rattle.std.specs.List.{AllByRecursion, AllZip};
ghost use Rattle.job_pool.specs.Slots.{EndsAt, HasStop, HasValue, MayBeCalled, MayBeWorked};

use crate::job::Job;
use crate::slot::Slot;

/// Jobs with neighbouring places, and what each gave.
#[derive(Drop)]
pub struct Batch<J> {
    pub slots: Vec<Slot<J>>,
}

/// Calls in turn each job that wasn't called before, up to the first that gives Stop, and returns the place of that one, if there is one.
/// What comes after it is left as it was.
pub fn call_all<J: Job>(slots: &mut [Slot<J>]) -> Option<u64>
    ensures called { AllZip (MayBeCalled J.state J.gives J.next) slots.old slots.new }
    ensures ends { MatchOption result (AllByRecursion HasValue slots.new) (λ k. EndsAt k slots.old slots.new) }
{
    let mut place = 0;
    for slot in slots.iter_mut() {
        if slot.call() {
            return Some(place);
        }
        place += 1;
    }
    None
}

/// Calls the jobs of the batch in turn, up to the first that gives Stop. Returns whether there is
/// one.
pub fn work_on<J: Job>(batch: &mut Batch<J>) -> bool
    ensures worked { MayBeWorked J.state J.gives J.next batch.old batch.new }
    ensures stops { IsTrue result ↔ HasStop batch.new.slots.items }
{
    call_all(batch.slots.as_mut_slice()).is_some()
}
