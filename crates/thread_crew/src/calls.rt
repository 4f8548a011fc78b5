//! Jobs that a crew hands to one closure.
ghost use Rattle.std.specs.Prelude.{◌≡◌, ◌≤◌, ℕ, [], map, length, vec_len, vec_capacity, IfOk, IfErr};
ghost use Rattle.std.specs.List.{AllZip, AllByRecursion};
ghost use Rattle.thread_crew.specs.Crews.{IsHeldCount};

use crate::crews::run_tasks;
use crate::outcome::{Finished, NotRun};
use crate::task::Call;
use std::alloc::Global;
use std::sync::Wait;
use std::thread::Threads;

/// Each with the closure that it is handed to.
fn calls_of<'a, F, T: Drop>(
    jobs: Vec<T>,
    f: &'a F,
    mut calls: Vec<Call<'a, F, T>>,
) -> Vec<Call<'a, F, T>>
    requires { (calls.items ≡ []) × (vec_len jobs ≤ vec_capacity calls) }
    ensures { (map (λ c. c.job) result.items ≡ jobs.items) × AllByRecursion (λ c. c.f.now ≡ f.now) result.items }
{
    for job in jobs {
        calls.push_reserved(Call { f, job });
    }
    calls
}

/// Each without the closure.
fn jobs_of<F, T: Drop>(calls: Vec<Call<'_, F, T>>, mut jobs: Vec<T>) -> Vec<T>
    requires { (jobs.items ≡ []) × (vec_len calls ≤ vec_capacity jobs) }
    ensures { result.items ≡ map (λ c. c.job) calls.entry.items }
{
    for call in calls {
        let Call { f: _, job } = call;
        jobs.push_reserved(job);
    }
    jobs
}

/// Hands each job to `f`, in a thread of its own where it is below `starts` and a thread can be made, and else here once the others were
/// started. Before that `between` is called here with what it is to work on, and told how many jobs weren't started: at least as many as
/// are after the first `starts`, and at most all.
///
/// It blocks until each job has ended, for ever where one never does. On `Err` there was no memory: nothing has run, and all comes back.
///
/// ```rust
/// match run_crew(
///     rt,
///     alloc,
///     jobs,
///     &f,
///     starts,
///     (),
///     |_own: (), held: usize| held,
/// ) {
///     Ok(finished) => Ok((all(&finished.results), finished.between)),
///     Err(_) => Err(AllocError),
/// }
/// ```
pub fn run_crew<
    R: Threads + Wait,
    T: Send + Drop,
    X: Send + Drop,
    F: Fn(T) -> X + Sync,
    O: Drop,
    M: FnOnce(O, usize) -> Y + Drop,
    Y,
>(
    rt: &R,
    alloc: Global,
    jobs: Vec<T>,
    f: &F,
    starts: usize,
    own: O,
    between: M,
) -> Result<Finished<X, Y>, NotRun<T, O, M>>
    requires jobs { AllByRecursion (λ j. F.pre f.now j) jobs.items }
    requires between { (held : ℕ) → IsHeldCount starts (length jobs.items) held → M.pre between own held }
    ensures done { IfOk result (λ r. AllZip (λ j x. F.post f.now j x) jobs.items r.results.items) }
    ensures held { IfOk result (λ r. IsHeldCount starts (length jobs.items) r.held) }
    ensures between { IfOk result (λ r. M.post between own r.held r.between) }
    ensures jobs_back { IfErr result (λ back. back.jobs.items ≡ jobs.items) }
    ensures own_back { IfErr result (λ back. back.own ≡ own) }
    ensures between_back { IfErr result (λ back. back.between ≡ between) }
{
    let count = jobs.len();
    let Ok(calls) = Vec::with_capacity(alloc, count) else {
        return Err(NotRun { jobs, own, between });
    };
    let Ok(spare) = Vec::with_capacity(alloc, count) else {
        return Err(NotRun { jobs, own, between });
    };
    match run_tasks(rt, alloc, calls_of(jobs, f, calls), starts, own, between) {
        Ok(finished) => Ok(finished),
        Err(back) => Err(NotRun {
            jobs: jobs_of(back.jobs, spare),
            own: back.own,
            between: back.between,
        }),
    }
}
