//! Crews whose jobs wait for one another.
use crate::same::same;
use std::alloc::{AllocError, Global};
use std::sync::Wait;
use std::sync::atomic::{AtomicBool, Ordering};
use std::test::Fail;
use std::thread::Threads;
use test_project::Meeting;
use thread_crew::run_crew;

fn all(results: &[bool]) -> bool {
    results.iter().all(|met| *met)
}

// Runs three jobs, of which the first two meet. Returns whether they met and how many weren't
// started.
fn meet_in_crew<R: Threads + Wait>(
    rt: &R,
    alloc: Global,
    starts: usize,
) -> Result<(bool, usize), AllocError> {
    let meeting = Meeting::new(0);
    let f = |me: usize| -> bool { if me < 2 { meeting.meet(me) } else { true } };
    let mut jobs = Vec::new(alloc);
    for me in 0..3usize {
        jobs.push(me)?;
    }
    match run_crew(
        rt,
        alloc,
        jobs,
        &f,
        starts,
        (),
        |_own: (), held: usize| held,
    ) {
        Ok(finished) => Ok((all(&finished.results), finished.between)),
        Err(_) => Err(AllocError),
    }
}

#[test]
fn two_threads_meet(rt: HostRuntime) -> Result<(), Fail> {
    let (met, held) = meet_in_crew(&rt, rt.alloc(), 3)?;
    assert!(rt; met);
    same(&rt, &held, &0);
    Ok(())
}

#[test]
fn a_refused_job_runs_on_the_caller_beside_the_started_one(rt: HostRuntime) -> Result<(), Fail> {
    let (met, held) = meet_in_crew(&rt, rt.alloc(), 1)?;
    assert!(rt; met);
    same(&rt, &held, &2);
    Ok(())
}

// Runs three jobs of which none is started. Each returns its number, or 0 if the caller's own part
// isn't over yet; that part returns what it got.
fn run_on_caller<R: Threads + Wait>(
    rt: &R,
    alloc: Global,
) -> Result<(Vec<u64>, u64, usize), AllocError> {
    let over = AtomicBool::new(false);
    let f = |job: u64| { if over.load(Ordering::SeqCst) { job } else { 0 } };
    let mut jobs = Vec::new(alloc);
    for job in 7..10u64 {
        jobs.push(job)?;
    }
    let own_part = |own: u64, _held: usize| -> u64 {
        over.store(true, Ordering::SeqCst);
        own
    };
    match run_crew(rt, alloc, jobs, &f, 0, 5, own_part) {
        Ok(finished) => Ok((finished.results, finished.between, finished.held)),
        Err(_) => Err(AllocError),
    }
}

#[test]
fn all_jobs_run_on_the_caller_after_its_own_part_where_none_is_started(
    rt: HostRuntime,
) -> Result<(), Fail> {
    let (results, own, held) = run_on_caller(&rt, rt.alloc())?;
    same(&rt, &results.as_slice(), &[7, 8, 9].as_slice());
    same(&rt, &own, &5);
    same(&rt, &held, &3);
    Ok(())
}
