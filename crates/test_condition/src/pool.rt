//! Pools of counting jobs, and of jobs in boxes that wait for one another.
use job_pool::{BoxJob, Job, PoolEnd, Work, run_jobs};
use std::alloc::{AllocError, Global};
use std::sync::atomic::{AtomicBool, Ordering};
use std::sync::{Arc, Wait};
use std::test::Fail;
use std::thread::Threads;

// A job that gives its number or Stop, and counts how often it was called.
#[derive(Drop)]
struct Count {
    number: u64,
    calls: u64,
    stops: bool,
}

impl Job for Count {
    ghost use Rattle.std.specs.Prelude.{◌∷◌, ◌+◌, ◌%◌, ◌^◌, [], cond};
    ghost use Rattle.job_pool.specs.declared.job.Work.TheVariants.{Value, Stop};

    ghost state = { λ c. c.calls ∷ [] };

    ghost gives = { λ c. cond c.stops Stop (Value c.number) };

    ghost next = { λ c. (c.calls + 1) % 2 ^ 64 ∷ [] };

    fn work(&mut self) -> Work {
        self.calls = self.calls.wrapping_add(1);
        if self.stops {
            Work::Stop
        } else {
            Work::Value(self.number)
        }
    }
}

// `many` jobs, of which the one at `stop` gives Stop.
fn counts(alloc: Global, many: u64, stop: u64) -> Result<Vec<Count>, AllocError> {
    let mut jobs = Vec::new(alloc);
    for number in 0..many {
        jobs.push(Count {
            number,
            calls: 0,
            stops: number == stop,
        })?;
    }
    Ok(jobs)
}

// Whether there are `many` jobs, each in its place and called at least `least` times and at most
// once.
fn are_back(jobs: &[Count], many: usize, least: u64) -> bool {
    for (place, job) in jobs.iter().enumerate() {
        if job.number != place as u64 || job.calls > 1 || job.calls < least {
            return false;
        }
    }
    jobs.len() == many
}

// Whether each number is its place.
fn are_places(values: &[u64]) -> bool {
    for (place, value) in values.iter().enumerate() {
        if *value != place as u64 {
            return false;
        }
    }
    true
}

// What came of `many` jobs on three workers, of which the one at `stop` gives Stop: the place that
// stopped the pool, or `many` if none did.
fn end_of<R: Threads + Wait + Sync>(
    rt: &R,
    alloc: Global,
    many: u64,
    stop: u64,
) -> Result<Option<u64>, AllocError> {
    let jobs = counts(alloc, many, stop)?;
    if jobs.len() > 1000 {
        return Ok(None);
    }
    let (end, back) = run_jobs(rt, alloc, 3, jobs);
    Ok(match end {
        PoolEnd::Done(values) => {
            let right = are_places(values.as_slice()) && values.len() as u64 == many;
            if right && are_back(back.as_slice(), many as usize, 1) {
                Some(many)
            } else {
                None
            }
        }
        PoolEnd::Stopped(place) => {
            if are_back(back.as_slice(), many as usize, 0) {
                Some(place)
            } else {
                None
            }
        }
        PoolEnd::Memory => None,
    })
}

#[test]
fn each_is_done_once(rt: HostRuntime) -> Result<(), Fail> {
    let right = end_of(&rt, rt.alloc(), 0, 0)? == Some(0)
        && end_of(&rt, rt.alloc(), 1, 1)? == Some(1)
        && end_of(&rt, rt.alloc(), 1000, 1000)? == Some(1000);
    assert!(rt; right);
    Ok(())
}

#[test]
fn a_stop_ends_the_pool(rt: HostRuntime) -> Result<(), Fail> {
    let right = end_of(&rt, rt.alloc(), 1000, 0)? == Some(0)
        && end_of(&rt, rt.alloc(), 1000, 999)? == Some(999);
    assert!(rt; right);
    Ok(())
}

// How often all these jobs together were called.
fn calls_of(jobs: &[Count]) -> u64 {
    let mut calls: u64 = 0;
    for job in jobs {
        calls = calls.saturating_add(job.calls);
    }
    calls
}

// How many of a thousand jobs one worker calls, where the first gives Stop.
fn called_by_one<R: Threads + Wait + Sync>(rt: &R, alloc: Global) -> Result<u64, AllocError> {
    let jobs = counts(alloc, 1000, 0)?;
    if jobs.len() > 1000 {
        return Ok(0);
    }
    let (_end, back) = run_jobs(rt, alloc, 1, jobs);
    Ok(calls_of(back.as_slice()))
}

#[test]
fn nothing_is_called_after_a_stop(rt: HostRuntime) -> Result<(), Fail> {
    let calls = called_by_one(&rt, rt.alloc())?;
    assert!(rt; calls == 1);
    Ok(())
}

// The most turns that a job waits for another.
const MOST_TURNS: u64 = 50_000_000;

// A job that raises its flag, and then waits for the flag of another.
#[derive(Drop)]
struct Meets {
    mine: Arc<AtomicBool>,
    other: Arc<AtomicBool>,
    late: Arc<AtomicBool>,
}

impl Job for Meets {
    ghost use Rattle.std.specs.Prelude.{[]};
    ghost use Rattle.job_pool.specs.declared.job.Work.TheVariants.{Value};

    ghost state = { λ c. [] };

    ghost gives = { λ c. Value 1 };

    ghost next = { λ c. [] };

    fn work(&mut self) -> Work {
        self.mine.store(true, Ordering::SeqCst);
        for _turn in 0..MOST_TURNS {
            if self.other.load(Ordering::SeqCst) {
                return Work::Value(1);
            }
        }
        self.late.store(true, Ordering::SeqCst);
        Work::Value(1)
    }
}

// Two jobs that wait for one another, each in a box.
fn two(alloc: Global, late: &Arc<AtomicBool>) -> Result<Vec<BoxJob>, AllocError> {
    let first = Arc::new(alloc, AtomicBool::new(false))?;
    let second = Arc::new(alloc, AtomicBool::new(false))?;
    let mut jobs = Vec::with_capacity(alloc, 2)?;
    let one = Meets {
        mine: first.clone()?,
        other: second.clone()?,
        late: late.clone()?,
    };
    let another = Meets {
        mine: second,
        other: first,
        late: late.clone()?,
    };
    jobs.push(BoxJob(Box::new(alloc, one)?))?;
    jobs.push(BoxJob(Box::new(alloc, another)?))?;
    Ok(jobs)
}

#[test]
fn two_work_at_once(rt: HostRuntime) -> Result<(), Fail> {
    let late = Arc::new(rt.alloc(), AtomicBool::new(false))?;
    let jobs = two(rt.alloc(), &late)?;
    let few = jobs.len() == 2;
    assert!(rt; few);
    let (end, _back) = run_jobs(&rt, rt.alloc(), 2, jobs);
    let both = match &end {
        PoolEnd::Done(values) => values.as_slice() == [1, 1].as_slice(),
        _ => false,
    };
    let met = both && !late.load(Ordering::SeqCst);
    assert!(rt; met);
    Ok(())
}
