//! The workers, at work all at once.
ghost use Rattle.std.specs.Prelude.{◌≡◌, ◌⊎◌, length, IfOk};
ghost use Rattle.std.specs.List.{AllZip, AllByRecursion};
ghost use Rattle.job_pool.specs.Crews.{AreReady, IsReady};
ghost use Rattle.job_pool.specs.Slots.{MayBeWorked};
ghost use Rattle.job_pool.specs.Working.{AreFirst, HasBuffer, HasWorked};

use crate::batch::Batch;
use crate::item::{Batches, Worked};
use crate::job::Job;
use crate::worker::work_batches;
use nub_rule::{Package, Thread};
use std::alloc::{AllocError, Global};
use std::sync::Wait;
use std::thread::Threads;
use thread_crew::run_crew;

/// Pairs each thread with a list that has room for `room` batches. Fails only if there is no memory.
pub fn workers_of<T: Send + Drop>(
    alloc: Global,
    p: &Package<Batches<T>>,
    threads: Vec<Thread<Batches<T>>>,
    room: usize,
) -> Result<Vec<Worked<T>>, AllocError>
    requires named { HasBuffer p.now.layout }
    requires first { AreFirst p.now 1 threads.items }
    ensures ready { IfOk result (λ v. AreReady p.now room 1 v.items) }
    ensures count { IfOk result (λ v. length v.items ≡ length threads.items) }
{
    let mut workers = Vec::with_capacity(alloc, threads.len())?;
    for me in threads {
        let list = Vec::with_capacity(alloc, room)?;
        workers.push_reserved((me, list));
    }
    Ok(workers)
}

/// Lets all workers work at once, each in an operating-system thread of its own. A worker that
/// can't be started works on the caller's thread, once the others have been started. If there is no
/// memory for that, none works.
pub fn run_workers<J: Job, R: Threads + Wait + Sync>(
    rt: &R,
    alloc: Global,
    p: &Package<Batches<Batch<J>>>,
    room: usize,
    workers: Vec<Worked<Batch<J>>>,
) -> Vec<Worked<Batch<J>>>
    requires workers { AllByRecursion (IsReady p.now room) workers.items }
    ensures { AllZip (λ w r. (r ≡ w) ⊎ HasWorked (MayBeWorked J.state J.gives J.next) p.now w.0.number r.1.items r.0)
        workers.items result.items }
{
    let starts = workers.len();
    let done = run_crew(
        rt,
        alloc,
        workers,
        &|worker: Worked<Batch<J>>| -> Worked<Batch<J>>
            requires { IsReady p.now room worker }
            ensures { HasWorked (MayBeWorked J.state J.gives J.next) p.entry.now worker.0.number result.1.items result.0 }
        { work_batches(rt, p, room, worker) },
        starts,
        (),
        |_own: (), _held: usize| {},
    );
    match done {
        Ok(finished) => finished.results,
        Err(back) => back.jobs,
    }
}
