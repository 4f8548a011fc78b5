//! Hands the threads of a package to a crew, and gets them back.
ghost use Rattle.std.specs.Prelude.{◌≡◌, ◌≤◌, ℕ, [], map, length, IfOk, IfErr, vec_len, vec_capacity};
ghost use Rattle.nub_rule.specs.Items.{Each};
ghost use Rattle.package_crew.specs.Crews.{CameBack};
ghost use Rattle.thread_crew.specs.Crews.{IsHeldCount};

use std::alloc::{AllocError, Global};
use std::sync::Wait;
use std::thread::Threads;
use thread_crew::{Finished, NotRun, run_crew};

/// What comes of threads that were all at work at once, and of the caller's own part.
#[derive(Drop)]
pub struct Beside<T, X, Y> {
    /// The threads as they came back, in their order.
    pub threads: Vec<T>,
    /// What the closure left with each thread, in the same order.
    pub left: Vec<X>,
    /// How many of the threads weren't started, and so were run on the caller's thread.
    pub held: usize,
    /// What the caller's own part returned.
    pub between: Y,
}

/// Splits the pairs into a list of the first parts and a list of the second parts.
fn split<T: Drop, X: Drop>(
    pairs: Vec<(T, X)>,
    mut firsts: Vec<T>,
    mut seconds: Vec<X>,
) -> (Vec<T>, Vec<X>)
    requires firsts { (firsts.items ≡ []) × (vec_len pairs ≤ vec_capacity firsts) }
    requires seconds { (seconds.items ≡ []) × (vec_len pairs ≤ vec_capacity seconds) }
    ensures firsts { result.0.items ≡ map (λ p. p.0) pairs.items }
    ensures seconds { result.1.items ≡ map (λ p. p.1) pairs.items }
{
    for pair in pairs {
        let Ok(()) = firsts.push(pair.0) else {
            unreachable!()
        };
        let Ok(()) = seconds.push(pair.1) else {
            unreachable!()
        };
    }
    (firsts, seconds)
}

/// Lets `f` work on each thread of a package, all at once. Returns the threads as they came back
/// and what `f` left with each, both in the order of the threads.
///
/// Each is started in an operating-system thread of its own. One that can't be started is run on
/// the caller's thread, after all others have been started. Blocks until each has ended, for ever
/// if one never does. Fails only if there is no memory, and then none has run.
///
/// ```rust
/// let (threads, left) = at_once(
///     rt,
///     alloc,
///     threads,
///     &|me: Thread<Numbers>| -> (Thread<Numbers>, Came)
///         requires { HasBuffers p.layout × IsFirst p (λ w t. []) me.number me }
///         ensures { HasEnded (IsStage count result.1 me.number) p me.number result.0 }
///     { stage(rt, alloc, &p, me, count) },
/// )?;
/// let closed = close_package(p, threads)?;
/// ```
pub fn at_once<T: Send + Drop, X: Send + Drop, R: Threads + Wait, F: Fn(T) -> (T, X) + Sync>(
    rt: &R,
    alloc: Global,
    threads: Vec<T>,
    f: &F,
) -> Result<(Vec<T>, Vec<X>), AllocError>
    requires { Each (λ n t. F.pre f.now t) threads.items }
    ensures threads { IfOk result (λ r. length r.0.items ≡ length threads.items) }
    ensures results { IfOk result (λ r. length r.1.items ≡ length threads.items) }
    ensures each { IfOk result (λ r. Each (λ n t. CameBack (λ was left. F.post f.now was (t, left)) threads.items r.1.items n) r.0.items) }
{
    let starts = threads.len();
    match at_once_beside(
        rt,
        alloc,
        threads,
        starts,
        f,
        (),
        |_own: (), _held: usize| {},
    ) {
        Ok(done) => Ok((done.threads, done.left)),
        Err(_) => Err(AllocError),
    }
}

/// Does what `at_once` does, starts at most the first `starts` threads, and meanwhile lets the
/// caller do a part of its own.
///
/// Once all threads that can be started have been, `between` is called with `own` and with the
/// number of threads that weren't started: at least as many as follow the first `starts`, and at
/// most all. After that these threads are run on the caller's thread, in order. Also returns their
/// number and what `between` returned.
///
/// Fails only if there is no memory: then nothing has run, and threads, `own` and `between` come
/// back.
///
/// ```rust
/// match at_once_beside(
///     rt,
///     alloc,
///     threads,
///     starts,
///     f,
///     (),
///     |_own: (), _held: usize| {},
/// ) {
///     Ok(done) => Ok((done.threads, done.left)),
///     Err(_) => Err(AllocError),
/// }
/// ```
pub fn at_once_beside<
    T: Send + Drop,
    X: Send + Drop,
    O: Drop,
    Y: Drop,
    R: Threads + Wait,
    F: Fn(T) -> (T, X) + Sync,
    M: FnOnce(O, usize) -> Y + Drop,
>(
    rt: &R,
    alloc: Global,
    threads: Vec<T>,
    starts: usize,
    f: &F,
    own: O,
    between: M,
) -> Result<Beside<T, X, Y>, NotRun<T, O, M>>
    requires threads { Each (λ n t. F.pre f.now t) threads.items }
    requires between { (held : ℕ) → IsHeldCount starts (length threads.items) held → M.pre between own held }
    ensures threads { IfOk result (λ r. length r.threads.items ≡ length threads.items) }
    ensures results { IfOk result (λ r. length r.left.items ≡ length threads.items) }
    ensures each { IfOk result (λ r. Each (λ n t. CameBack (λ was left. F.post f.now was (t, left)) threads.items r.left.items n)
        r.threads.items) }
    ensures held { IfOk result (λ r. IsHeldCount starts (length threads.items) r.held) }
    ensures between { IfOk result (λ r. M.post between own r.held r.between) }
    ensures threads_back { IfErr result (λ back. back.jobs.items ≡ threads.items) }
    ensures own_back { IfErr result (λ back. back.own ≡ own) }
    ensures between_back { IfErr result (λ back. back.between ≡ between) }
{
    let count = threads.len();
    let Ok(firsts) = Vec::with_capacity(alloc, count) else {
        return Err(NotRun {
            jobs: threads,
            own,
            between,
        });
    };
    let Ok(seconds) = Vec::with_capacity(alloc, count) else {
        return Err(NotRun {
            jobs: threads,
            own,
            between,
        });
    };
    match run_crew(rt, alloc, threads, f, starts, own, between) {
        Ok(
            Finished {
                results,
                held,
                between,
            },
        ) => {
            let (threads, left) = split(results, firsts, seconds);
            Ok(Beside {
                threads,
                left,
                held,
                between,
            })
        }
        Err(back) => Err(back),
    }
}
