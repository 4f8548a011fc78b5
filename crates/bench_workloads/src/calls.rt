//! One thread that wakes nobody.
ghost use Rattle.std.specs.Prelude.{[], IfOk, List, ◌≡◌, ◌<◌, ◌+◌, ℕ, length, true, false};
ghost use Rattle.nub_rule.specs.Items.{Each};
ghost use Rattle.nub_rule.specs.Plays.{broadcast_action, event, signal_action};
ghost use Rattle.nub.specs.Holding.{IsHolding};
ghost use Rattle.nub.specs.Idle.{IsIdle};
ghost use Rattle.nub.specs.Rest.{Adds, AtRest};
ghost use Rattle.sum_uses.specs.declared.added.Added.{Added};
ghost use Rattle.bench_workloads.specs.Waking.{raises};
ghost use Rattle.bench_workloads.specs.Workloads.{HasMade, HasObjects, HasWorked};

use crate::numbers::Count;
use crate::parts::{Part, run_part};
use condition::{broadcast, signal};
use nub::{Closed, CondId, Package, Thread};
use std::alloc::{AllocError, Global};
use std::sync::Wait;
use std::thread::Threads;
use sum_uses::SumUses;

/// Makes one Broadcast or Signal of the condition.
#[inline]
pub fn call<R: Wait>(
    rt: &R,
    shared: &Package<SumUses>,
    me: &mut Thread<SumUses>,
    c: CondId,
    all: bool,
)
    requires named { c.0 < shared.now.layout.conditions }
    requires rest { AtRest shared.now me.old }
    ensures all { all ≡ true → Adds [] (event me.old.number (broadcast_action c.0 [])) me.old me.new }
    ensures one { all ≡ false → (left : List ℕ) × Adds [] (event me.old.number (signal_action c.0 left)) me.old me.new }
    ensures made { length me.new.mine ≡ length me.old.mine + 1 }
    ensures raised { raises me.new.mine ≡ raises me.old.mine }
    ensures idle { (n : ℕ) (s : List Added) → IsIdle shared.now n s me.old → IsIdle shared.now n s me.new }
    ensures holding { (n m : ℕ) (s : List Added) (x : ℕ) → IsHolding shared.now n m s x me.old → IsHolding shared.now n m s x me.new }
{
    if all {
        broadcast(rt, shared, me, c);
    } else {
        signal(rt, shared, me, c);
    }
}

/// Makes `times` calls, one after the other.
pub fn call_many<R: Wait>(
    rt: &R,
    shared: &Package<SumUses>,
    mut me: Thread<SumUses>,
    all: bool,
    times: u32,
) -> Thread<SumUses>
    requires named { HasObjects shared.now.layout }
    requires begun { HasWorked shared.now me.number 0 (HasMade 0) me }
    ensures { HasWorked shared.now me.number 0 (HasMade times) result }
{
    for _i in 0..times {
        call(rt, shared, &mut me, CondId(0), all);
    }
    me
}

/// Lets one thread make `times` calls of a condition in which no thread waits.
pub fn call_alone<R: Threads + Wait + Sync>(
    rt: &R,
    alloc: Global,
    all: bool,
    times: u32,
) -> Result<Closed<SumUses>, AllocError>
    ensures count { IfOk result (λ r. length r.threads ≡ 1) }
    ensures each { IfOk result (λ r. Each (λ n t. HasMade times t) r.threads) }
{
    let (closed, _) = run_part(rt, alloc, Count { number: 1 }, Part::Call { all, times })?;
    Ok(closed)
}
