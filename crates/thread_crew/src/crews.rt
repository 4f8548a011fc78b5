//! Starting the tasks of a crew, and joining them.
ghost use Rattle.std.specs.Prelude.{◌≡◌, ◌≤◌, ◌<◌, ◌+◌, ◌^◌, ℕ, [], List, vec_len, vec_capacity, IfOk, IfErr, IfSome, length};
ghost use Rattle.std.specs.List.{AllZip, AllByRecursion, sum_by};
ghost use Rattle.thread_crew.specs.Crews.{HasRoom, IsChildOf, IsRunning, IsHeldCount, Turns, held_in};

use crate::child::{Child, Running};
use crate::outcome::{Finished, NotRun};
use crate::task::{Gives, Task};
use std::alloc::Global;
use std::snapshot::Snapshot;
use std::sync::Wait;
use std::thread;
use std::thread::{Promise, Scope, Threads};

/// Runs a closure that could not be started.
fn settle<T: Task<Output = X>, X: Drop, F: FnOnce() -> X + Drop>(
    child: Child<X, Gives<T>, F>,
) -> Running<X, Gives<T>>
    requires { (job : T) × IsChildOf T.run_gives F.pre F.post job child }
    ensures { Turns (IsChildOf T.run_gives F.pre F.post) (IsRunning T.run_gives) child result }
{
    match child {
        Child::Started(handle) => Running::Going(handle),
        Child::Held(f) => Running::Done(f()),
    }
}

/// The result of one job.
fn result_of<R: Threads, T: Task<Output = X>, X: Drop>(rt: &R, one: Running<X, Gives<T>>) -> X
    ensures { Turns (IsRunning T.run_gives) T.run_gives one result }
{
    match one {
        Running::Going(handle) => handle.join(rt),
        Running::Done(result) => result,
    }
}

/// Runs what could not be started.
fn run_held<T: Task<Output = X>, X: Drop, F: FnOnce() -> X + Drop>(
    children: Vec<Child<X, Gives<T>, F>>,
    mut running: Vec<Running<X, Gives<T>>>,
) -> Vec<Running<X, Gives<T>>>
    requires ready { (jobs : List T) × AllZip (IsChildOf T.run_gives F.pre F.post) jobs children.items }
    requires room { HasRoom (vec_len children) running.items (vec_capacity running) }
    ensures { (jobs : List T) → AllZip (IsChildOf T.run_gives F.pre F.post) jobs children.items
        → AllZip (IsRunning T.run_gives) jobs result.items }
{
    for child in children {
        running.push_reserved(settle(child));
    }
    running
}

/// Joins each thread, in order.
fn join_all<R: Threads, T: Task<Output = X>, X: Drop>(
    rt: &R,
    running: Vec<Running<X, Gives<T>>>,
    mut results: Vec<X>,
) -> Vec<X>
    requires empty { results.items ≡ [] }
    requires room { vec_len running ≤ vec_capacity results }
    ensures { (jobs : List T) → AllZip (IsRunning T.run_gives) jobs running.items → AllZip T.run_gives jobs result.items }
{
    for one in running {
        results.push_reserved(result_of(rt, one));
    }
    results
}

/// Starts a job in a thread where less than `starts` are before it and a thread can be made. Else it holds the job's closure, and counts
/// it.
fn start_or_hold<
    's,
    E,
    T: Task<Output = X> + Drop,
    X: Send + Drop + 's,
    F: FnOnce() -> X + Send + Drop + 's,
>(
    scope: &'s Scope<'s, E>,
    promise: Gives<T>,
    work: F,
    before: usize,
    starts: usize,
    held: &mut usize,
) -> Child<X, Gives<T>, F>
    requires runs { F.pre work }
    requires gives { (r : X) → F.post work r → T.run_gives promise.task.value r }
    requires few { held.old + 1 < 2 ^ 64 }
    ensures child { IsChildOf T.run_gives F.pre F.post promise.task.value result }
    ensures counted { starts ≤ before → held.new ≡ held.old + 1 }
    ensures exact { held.new ≡ held.old + held_in result }
{
    if before < starts {
        match scope.spawn_with(promise, work) {
            Ok(handle) => Child::Started(handle),
            Err(refused) => {
                *held += 1;
                Child::Held(refused.value)
            }
        }
    } else {
        *held += 1;
        Child::Held(work)
    }
}

/// The lists that are filled once the jobs were started.
#[derive(Drop)]
struct Later<X, P: Promise<X>> {
    running: Vec<Running<X, P>>,
    results: Vec<X>,
}

/// The lists of a crew, each with room for all jobs. `None` where there is no memory.
fn lists_for<T: Task<Output = X>, X: Drop, F: FnOnce() -> X + Drop>(
    alloc: Global,
    len: usize,
) -> Option<(Vec<Child<X, Gives<T>, F>>, Later<X, Gives<T>>)>
    ensures { IfSome result (λ r. HasRoom len r.0.items (vec_capacity r.0)
        × HasRoom len r.1.running.items (vec_capacity r.1.running)
        × HasRoom len r.1.results.items (vec_capacity r.1.results)) }
{
    let Ok(children) = Vec::with_capacity(alloc, len) else {
        return None;
    };
    let Ok(running) = Vec::with_capacity(alloc, len) else {
        return None;
    };
    let Ok(results) = Vec::with_capacity(alloc, len) else {
        return None;
    };
    Some((children, Later { running, results }))
}

/// Calls `between`, runs here what could not be started, and joins all.
fn finish<
    R: Threads,
    T: Task<Output = X>,
    X: Drop,
    F: FnOnce() -> X + Drop,
    O: Drop,
    M: FnOnce(O, usize) -> Y,
    Y,
>(
    rt: &R,
    children: Vec<Child<X, Gives<T>, F>>,
    later: Later<X, Gives<T>>,
    own: O,
    between: M,
    held: usize,
) -> Finished<X, Y>
    requires ready { (jobs : List T) × AllZip (IsChildOf T.run_gives F.pre F.post) jobs children.items }
    requires running { HasRoom (vec_len children) later.running.items (vec_capacity later.running) }
    requires results { HasRoom (vec_len children) later.results.items (vec_capacity later.results) }
    requires held { held ≡ sum_by held_in children.items }
    requires between { M.pre between own held }
    ensures results { (jobs : List T) → AllZip (IsChildOf T.run_gives F.pre F.post) jobs children.items
        → AllZip T.run_gives jobs result.results.items }
    ensures held { result.held ≡ held }
    ensures between { M.post between own held result.between }
{
    let Later { running, results } = later;
    let between = between(own, held);
    let results = join_all(rt, run_held(children, running), results);
    Finished {
        results,
        held,
        between,
    }
}

/// Starts the jobs, calls `between`, runs here what could not be started, and joins all.
fn in_scope<
    's,
    E,
    R: Threads,
    T: Task<Output = X> + Send + Drop + 's,
    X: Send + Drop + 's,
    O: Drop,
    M: FnOnce(O, usize) -> Y + Drop,
    Y,
>(
    scope: &'s Scope<'s, E>,
    rt: &R,
    alloc: Global,
    jobs: Vec<T>,
    starts: usize,
    own: O,
    between: M,
) -> Result<Finished<X, Y>, NotRun<T, O, M>>
    requires { AllByRecursion T.can_run jobs.items × ((held : ℕ) → IsHeldCount starts (length jobs.items) held → M.pre between own held) }
    ensures { IfOk result (λ r. AllZip T.run_gives jobs.items r.results.items)
        × IfOk result (λ r. IsHeldCount starts (length jobs.items) r.held × M.post between own r.held r.between)
        × IfErr result (λ back. (back.jobs ≡ jobs) × (back.own ≡ own) × (back.between ≡ between)) }
{
    let Some((mut children, later)) = lists_for(alloc, jobs.len()) else {
        return Err(NotRun { jobs, own, between });
    };
    let mut held = 0;
    for job in jobs {
        let promise = Gives {
            task: Snapshot::of(&job),
        };
        let work = move || -> X
            requires { T.can_run job }
            ensures { T.run_gives job result }
        { job.run() };
        let child = start_or_hold(scope, promise, work, children.len(), starts, &mut held);
        children.push_reserved(child);
    }
    Ok(finish(rt, children, later, own, between, held))
}

/// Runs each task, as `run_crew` does with calls.
pub(crate) fn run_tasks<
    R: Threads + Wait,
    T: Task<Output = X> + Send + Drop,
    X: Send + Drop,
    O: Drop,
    M: FnOnce(O, usize) -> Y + Drop,
    Y,
>(
    rt: &R,
    alloc: Global,
    jobs: Vec<T>,
    starts: usize,
    own: O,
    between: M,
) -> Result<Finished<X, Y>, NotRun<T, O, M>>
    requires jobs { AllByRecursion T.can_run jobs.items }
    requires between { (held : ℕ) → IsHeldCount starts (length jobs.items) held → M.pre between own held }
    ensures done { IfOk result (λ r. AllZip T.run_gives jobs.items r.results.items) }
    ensures between { IfOk result (λ r. IsHeldCount starts (length jobs.items) r.held × M.post between own r.held r.between) }
    ensures back { IfErr result (λ back. (back.jobs ≡ jobs) × (back.own ≡ own) × (back.between ≡ between)) }
{
    thread::scope(
        thread::scope_env(),
        rt,
        |scope| -> Result<Finished<X, Y>, NotRun<T, O, M>>
            requires { AllByRecursion T.can_run jobs.items
                × ((held : ℕ) → IsHeldCount starts (length jobs.items) held → M.pre between own held) }
            ensures { IfOk result (λ r. AllZip T.run_gives jobs.items r.results.items)
                × IfOk result (λ r. IsHeldCount starts (length jobs.items) r.held × M.post between own r.held r.between)
                × IfErr result (λ back. (back.jobs ≡ jobs) × (back.own ≡ own) × (back.between ≡ between)) }
        { in_scope(scope, rt, alloc, jobs, starts, own, between) },
    )
}
