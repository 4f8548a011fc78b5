//! Rounds of a thread that holds the mutex except while it waits.
ghost use Rattle.std.specs.Prelude.{◌<◌, ◌+◌, ℕ, true};
ghost use Rattle.bench_workloads.specs.Rounds.{HasHeld, alerts_in};
ghost use Rattle.bench_workloads.specs.Workloads.{HasMade, HasObjects, HasWorked, IsInside, StaysInside};

use crate::alert_waits::wait_for_alert;
use crate::calls::call;
use crate::numbers::Count;
use condition::wait;
use nub::{CondId, MutexId, Package, Thread};
use std::sync::Wait;
use sum_uses::{AddChange, SumUses};
use user_mutex::{acquire, release};

/// What a thread does in each of its rounds.
#[derive(Clone, Copy)]
pub enum Round {
    /// Opens the round for all others, with which there are `threads` in all: adds 1, wakes them,
    /// and waits until the value has grown by as much.
    Opens { threads: Count },
    /// Adds 1 once the round is open, and if that ends the round, wakes the thread that opens them.
    Counts { threads: Count },
    /// Adds 1, signals that, and waits until an alert ends a wait.
    Begins,
}

// In the first, all threads but one wait for the next round; in the second, that one waits for the
// end of a round, or another for its beginning.
const GO: CondId = CondId(0);

const DONE: CondId = CondId(1);

/// Waits in the condition until the test accepts the value, and returns that value. What the thread
/// has added since it got the mutex is released with the mutex.
///
/// Blocks for ever if no such value comes, or if no thread wakes this one then.
#[inline]
fn wait_inside<F: Fn(u64) -> bool, R: Wait>(
    rt: &R,
    shared: &Package<SumUses>,
    me: &mut Thread<SumUses>,
    c: CondId,
    mine: u64,
    may_go: &F,
) -> u64
    requires named { HasObjects shared.now.layout × (c.0 < shared.now.layout.conditions) }
    requires callable { F.IsAlwaysCallable may_go.now }
    requires inside { (n : ℕ) × (times : ℕ) × (alerts : ℕ) × IsInside shared.now n mine times alerts me.old }
    ensures goes { F.post may_go.now result true }
    ensures stays { StaysInside shared.now mine result me.old me.new }
{
    let mut value = mine;
    for _ in rt.forever() {
        if may_go(value) {
            return value;
        }
        value = wait::<SumUses, AddChange, R>(rt, shared, me, MutexId(0), c, value);
    }
    unreachable!()
}

/// Wakes the thread that opens the rounds, if this was the last addition of a round.
#[inline]
fn end_round<R: Wait>(
    rt: &R,
    shared: &Package<SumUses>,
    me: &mut Thread<SumUses>,
    mine: u64,
    end: u64,
)
    requires named { HasObjects shared.now.layout }
    requires inside { (n : ℕ) × (times : ℕ) × (alerts : ℕ) × IsInside shared.now n mine times alerts me.old }
    ensures { StaysInside shared.now mine mine me.old me.new }
{
    if mine == end {
        call(rt, shared, me, DONE, false);
    }
}

/// Plays one round, after `before` others, and returns the value that the thread has made.
#[inline]
fn one_round<R: Wait>(
    rt: &R,
    shared: &Package<SumUses>,
    me: &mut Thread<SumUses>,
    round: Round,
    before: u32,
    mine: u64,
) -> u64
    requires named { HasObjects shared.now.layout }
    requires inside { (n : ℕ) × IsInside shared.now n mine before (alerts_in round before) me.old }
    ensures { (n : ℕ) → IsInside shared.now n mine before (alerts_in round before) me.old
        → IsInside shared.now n result (before + 1) (alerts_in round (before + 1)) me.new }
{
    match round {
        Round::Opens { threads } => {
            call(rt, shared, me, GO, true);
            let end = (before as u64 + 1) * threads.number as u64;
            wait_inside(
                rt,
                shared,
                me,
                DONE,
                mine + 1,
                &|x: u64| -> bool { x == end },
            )
        }
        Round::Counts { threads } => {
            let begin = before as u64 * threads.number as u64;
            let begun = wait_inside(rt, shared, me, GO, mine, &|x: u64| -> bool { x > begin });
            let value = begun + 1;
            end_round(rt, shared, me, value, begin + threads.number as u64);
            value
        }
        Round::Begins => {
            call(rt, shared, me, DONE, false);
            wait_for_alert(rt, shared, me, GO, mine + 1)
        }
    }
}

/// Plays `times` rounds, and returns how many it has held.
pub fn hold_rounds<R: Wait>(
    rt: &R,
    shared: &Package<SumUses>,
    mut me: Thread<SumUses>,
    round: Round,
    times: u32,
) -> (Thread<SumUses>, u64)
    requires named { HasObjects shared.now.layout }
    requires begun { HasWorked shared.now me.number 0 (HasMade 0) me }
    ensures { HasWorked shared.now me.number times (HasHeld round times result.1) result.0 }
{
    let mut held = 0u64;
    let mut value = acquire(rt, shared, &mut me, MutexId(0));
    for i in 0..times {
        value = one_round(rt, shared, &mut me, round, i, value);
        held += 1;
    }
    release::<SumUses, AddChange, R>(rt, shared, &mut me, MutexId(0), value);
    (me, held)
}
