//! Waits that alerts end.
ghost use Rattle.std.specs.Prelude.{[], ◌∷◌, IfOk, ◌≡◌, ◌<◌, ◌+◌, ◌*◌, ℕ};
ghost use mathlib.Core.Option.{some};
ghost use lib.ListN.{get_elem?};
ghost use Rattle.bench_workloads.specs.Waking.{raises};
ghost use Rattle.bench_workloads.specs.Workloads.{HasMade, HasObjects, HasWoken, HasWorked, IsInside, Worker};

use crate::alternation::alternate;
use crate::numbers::Count;
use crate::parts::{Part, run_part};
use crate::rounds::{Round, hold_rounds};
use alert_wait::{Outcome, alert_wait};
use nub::{Closed, CondId, MutexId, Package, Thread};
use std::alloc::{AllocError, Global};
use std::sync::Wait;
use std::thread::Threads;
use sum_uses::{AddChange, SumUses};

/// The package in which alerts have ended waits, and how many of its waits each thread has counted
/// that an alert ended.
#[derive(Drop)]
pub struct Woken {
    pub closed: Closed<SumUses>,
    pub alerted: Vec<u64>,
}

/// Waits until an alert ends a wait, and returns the newest value. What the thread has added since
/// it got the mutex is released with the mutex.
///
/// Blocks for ever if no alert comes.
#[inline]
pub fn wait_for_alert<R: Wait>(
    rt: &R,
    shared: &Package<SumUses>,
    me: &mut Thread<SumUses>,
    c: CondId,
    mine: u64,
) -> u64
    requires named { HasObjects shared.now.layout × (c.0 < shared.now.layout.conditions) }
    requires inside { (n : ℕ) × (times : ℕ) × (alerts : ℕ) × IsInside shared.now n mine times alerts me.old }
    ensures { (n times alerts : ℕ) → IsInside shared.now n mine times alerts me.old
        → IsInside shared.now n result times (alerts + 1) me.new }
{
    let mut value = mine;
    for _ in rt.forever() {
        let (outcome, newest) = alert_wait::<SumUses, AddChange, R>(
            rt,
            shared,
            me,
            MutexId(0),
            c,
            value,
        );
        match outcome {
            Outcome::Returned => value = newest,
            Outcome::Alerted => return newest,
        }
    }
    unreachable!()
}

/// Begins `times` waits, each of which an alert ends, or ends as many, by the thread's number. The
/// thread that begins a wait makes the sum odd, and the one that ends it makes the sum even.
pub fn wake<R: Wait>(
    rt: &R,
    shared: &Package<SumUses>,
    me: Thread<SumUses>,
    times: u32,
) -> (Thread<SumUses>, u64)
    requires named { HasObjects shared.now.layout }
    requires begun { HasWorked shared.now me.number 0 (HasMade 0) me }
    ensures { HasWorked shared.now me.number times (HasWoken times me.number result.1) result.0 }
{
    if me.number() == 0 {
        hold_rounds(rt, shared, me, Round::Begins, times)
    } else {
        (alternate(rt, shared, me, true, true, times), 0)
    }
}

/// Lets one thread begin `times` waits that no thread signals, and another end each by an alert,
/// all at once.
pub fn alert_at_once<R: Threads + Wait + Sync>(
    rt: &R,
    alloc: Global,
    times: u32,
) -> Result<Woken, AllocError>
    ensures value { IfOk result (λ r. r.closed.values ≡ (2 * times) ∷ []) }
    ensures alerted { IfOk result (λ r. r.alerted.items ≡ times ∷ 0 ∷ []) }
    ensures raised { IfOk result (λ r. (t : Worker) → get_elem? r.closed.threads 0 ≡ some t → raises t.mine ≡ times) }
{
    let (closed, alerted) = run_part(rt, alloc, Count { number: 2 }, Part::Wake { times })?;
    Ok(Woken { closed, alerted })
}
