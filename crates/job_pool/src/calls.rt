//! The calls of the pool's threads at their package.
ghost use Rattle.std.specs.Prelude.{◌≡◌, ◌<◌, ◌+◌, ◌∷◌, [], ℕ, IfOk, IfErr, true};
ghost use Rattle.bounded_buffer.specs.Plain.{IsPlain};
ghost use Rattle.bounded_buffer.specs.declared.ends.TakeEnd.TheVariants.{ClosedEmpty};
ghost use Rattle.nub.specs.Rest.{Added, Adds};
ghost use Rattle.nub_rule.specs.Plays.{test_alert_event};
ghost use Rattle.job_pool.specs.Stopping.{alerts_by};
ghost use Rattle.job_pool.specs.Working.{HasBuffer, IsBetween, HasMoved, has_seen_end};

use crate::item::{Batches, Item};
use alerts::{alert, test_alert};
use bounded_buffer::{BufferAt, TakeEnd, put, shut, take};
use larch_actions::{CondId, MutexId, ThreadId};
use nub_rule::{Package, Thread};
use std::sync::Wait;

/// Returns the names of the buffer.
fn buffer() -> BufferAt
    ensures { (result.mutex.0 ≡ 0) × IsPlain result }
{
    BufferAt {
        mutex: MutexId(0),
        room: CondId(0),
        more: CondId(1),
    }
}

/// Puts the item into the buffer. Blocks while there is no room; never returns if the buffer is
/// shut.
pub fn put_in<T: Send + Drop, R: Wait>(
    rt: &R,
    p: &Package<Batches<T>>,
    me: &mut Thread<Batches<T>>,
    item: Item<T>,
)
    requires named { HasBuffer p.now.layout }
    requires between { (n : ℕ) × IsBetween p.now n me.old }
    ensures { HasMoved p.now (item ∷ []) [] me.old me.new }
{
    let at = buffer();
    let mut held = item;
    for _ in rt.forever() {
        match put(rt, p, me, &at, held) {
            Ok(_) => return,
            Err((_, back)) => held = back,
        }
    }
    unreachable!()
}

/// Takes the first item of the buffer. Blocks while the buffer is empty and open.
pub fn take_next<T: Send + Drop, R: Wait>(
    rt: &R,
    p: &Package<Batches<T>>,
    me: &mut Thread<Batches<T>>,
) -> Result<Item<T>, TakeEnd>
    requires named { HasBuffer p.now.layout }
    requires between { (n : ℕ) × IsBetween p.now n me.old }
    ensures took { IfOk result (λ i. HasMoved p.now [] (i ∷ []) me.old me.new) }
    ensures end { IfErr result (λ e. HasMoved p.now [] [] me.old me.new × (e ≡ ClosedEmpty → has_seen_end me.new ≡ true)) }
{
    let at = buffer();
    match take(rt, p, me, &at) {
        Ok(taken) => Ok(taken.1),
        Err(end) => Err(end),
    }
}

/// Shuts the buffer: nothing more comes.
pub fn shut_off<T: Send + Drop, R: Wait>(
    rt: &R,
    p: &Package<Batches<T>>,
    me: &mut Thread<Batches<T>>,
)
    requires named { HasBuffer p.now.layout }
    requires between { (n : ℕ) × IsBetween p.now n me.old }
    ensures { HasMoved p.now [] [] me.old me.new }
{
    let at = buffer();
    shut(rt, p, me, &at);
}

/// Whether the thread is to stop, as its alert says.
pub fn is_stopped<T: Send + Drop, R: Wait>(
    rt: &R,
    p: &Package<Batches<T>>,
    me: &mut Thread<Batches<T>>,
) -> bool
    requires between { (n : ℕ) × IsBetween p.now n me.old }
    ensures moved { HasMoved p.now [] [] me.old me.new }
    ensures event { Adds [] (test_alert_event me.old.number result) me.old me.new }
{
    test_alert(rt, p, me)
}

/// Alerts all other threads of the package.
pub fn stop_others<T: Send + Drop, R: Wait>(
    rt: &R,
    p: &Package<Batches<T>>,
    me: &mut Thread<Batches<T>>,
)
    requires between { (n : ℕ) × IsBetween p.now n me.old }
    ensures moved { HasMoved p.now [] [] me.old me.new }
    ensures alerts { Added (alerts_by me.old.number p.now.layout.threads) me.old me.new }
{
    for t in 0..p.layout().threads {
        if t != me.number() {
            alert(rt, p, me, ThreadId(t));
        }
    }
}
