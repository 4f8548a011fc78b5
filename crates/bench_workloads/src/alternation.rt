//! Threads that take turns by a mutex and two conditions.
ghost use Rattle.std.specs.Prelude.{[], ◌∷◌, IfOk, List, ℕ, ◌≡◌, ◌<◌, ◌*◌};
ghost use Rattle.larch_actions.specs.declared.event.CondId.{CondId};
ghost use Rattle.nub.specs.Idle.{IsIdle};
ghost use Rattle.nub.specs.Rest.{AtRest};
ghost use Rattle.test_turns.specs.declared.turns.Wake.TheVariants.{All, One};
ghost use Rattle.sum_uses.specs.declared.added.Added.{Added};
ghost use Rattle.bench_workloads.specs.Workloads.{HasMade, HasObjects, HasTurned, HasWorked};

use crate::numbers::Count;
use crate::parts::{Part, run_part};
use crate::rounds::{Round, hold_rounds};
use alerts::alert;
use nub::{Closed, CondId, MutexId, Package, Thread, ThreadId};
use std::alloc::{AllocError, Global};
use std::sync::Wait;
use std::thread::Threads;
use sum_uses::SumUses;
use test_turns::{Turn, Wake, take_turn};

/// How the threads take turns.
#[derive(Clone, Copy)]
pub enum Play {
    /// Two threads in turns, each of which signals the other before it releases the mutex.
    Before,
    /// Two threads in turns, each of which signals the other after it has released the mutex.
    After,
    /// In rounds: the last thread opens each with a broadcast, all others count, and the last of
    /// them signals back.
    Rounds,
}

/// Returns whom the thread of this parity signals: the other, or nobody if it alerts the other.
fn other_of(own: u32, alerts: bool) -> Wake
    requires { own < 2 }
    ensures one { (c : CondId) → result ≡ One c → c.0 < 2 }
    ensures all { (c : CondId) → result ≡ All c → c.0 < 2 }
{
    if alerts {
        Wake::Nobody
    } else {
        Wake::One(CondId(1 - own))
    }
}

/// Alerts the first thread, if `alerts` is true.
#[inline]
fn alert_first<R: Wait>(rt: &R, shared: &Package<SumUses>, me: &mut Thread<SumUses>, alerts: bool)
    requires named { HasObjects shared.now.layout }
    requires rest { AtRest shared.now me.old }
    ensures { (n : ℕ) (s : List Added) → IsIdle shared.now n s me.old → IsIdle shared.now n s me.new }
{
    if alerts {
        alert(rt, shared, me, ThreadId(0));
    }
}

/// Takes turns with the other thread, `times` times: waits until the sum has the thread's parity,
/// adds 1, and signals the other, before or after it releases the mutex, or alerts it then.
pub fn alternate<R: Wait>(
    rt: &R,
    shared: &Package<SumUses>,
    mut me: Thread<SumUses>,
    after: bool,
    alerts: bool,
    times: u32,
) -> Thread<SumUses>
    requires named { HasObjects shared.now.layout }
    requires begun { HasWorked shared.now me.number 0 (HasMade 0) me }
    ensures { HasTurned shared.now me.number times result }
{
    let own = me.number() % 2;
    let whom = other_of(own, alerts);
    let turn = Turn {
        mutex: MutexId(0),
        cond: CondId(own),
        after,
    };
    let parity = own as u64;
    for _i in 0..times {
        take_turn(
            rt,
            shared,
            &mut me,
            turn,
            &|x: u64| -> bool { x % 2 == parity },
            &|_x: u64| -> Wake { whom },
        );
        alert_first(rt, shared, &mut me, alerts);
    }
    me
}

/// Takes `times` turns.
pub fn take_turns<R: Wait>(
    rt: &R,
    shared: &Package<SumUses>,
    me: Thread<SumUses>,
    what: Play,
    threads: Count,
    times: u32,
) -> (Thread<SumUses>, u64)
    requires named { HasObjects shared.now.layout }
    requires begun { HasWorked shared.now me.number 0 (HasMade 0) me }
    ensures { HasTurned shared.now me.number times result.0 }
{
    match what {
        Play::Before => (alternate(rt, shared, me, false, false, times), 0),
        Play::After => (alternate(rt, shared, me, true, false, times), 0),
        Play::Rounds => {
            let round = if me.number() == threads.number - 1 {
                Round::Opens { threads }
            } else {
                Round::Counts { threads }
            };
            hold_rounds(rt, shared, me, round, times)
        }
    }
}

/// Lets `threads` threads take `times` turns each, all at once.
pub fn play_at_once<R: Threads + Wait + Sync>(
    rt: &R,
    alloc: Global,
    threads: Count,
    what: Play,
    times: u32,
) -> Result<Closed<SumUses>, AllocError>
    ensures value { IfOk result (λ r. r.values ≡ (threads.number * times) ∷ []) }
{
    let part = Part::Turns {
        what,
        threads,
        times,
    };
    let (closed, _) = run_part(rt, alloc, threads, part)?;
    Ok(closed)
}
