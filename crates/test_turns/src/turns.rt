//! Waits for a value, adds 1 to it, and wakes the threads that wait for the next one.
ghost use Rattle.std.specs.Prelude.{◌≡◌, ℕ, ◌<◌, ◌+◌, ◌∷◌, ◌++◌, List, Some, true, false};
ghost use Rattle.larch_actions.specs.declared.event.CondId.{CondId};
ghost use Rattle.nub.specs.Holding.{IsHolding};
ghost use Rattle.nub.specs.Idle.{IsIdle};
ghost use Rattle.nub_rule.specs.Plays.{acquire_event, release_event};
ghost use Rattle.nub.specs.Rest.{Added as RecordsTwo, AtRest};
ghost use Rattle.monitor.specs.Waits.{AreRefused, waits};
ghost use Rattle.test_turns.specs.Turns.{Wakes, ends_turn};
ghost use Rattle.larch_actions.specs.declared.event.Event.{Event};
ghost use Rattle.test_turns.specs.declared.turns.Wake.{Wake};
ghost use Rattle.test_turns.specs.declared.turns.Wake.TheVariants.{One, All};
ghost use Rattle.sum_uses.specs.declared.added.Added.{Added};
ghost use Rattle.sum_uses.specs.Sums.{GrowsAlike, added, grown};

use condition::{broadcast, signal};
use monitor::wait_until;
use nub::{CondId, MutexId, Package, Thread};
use std::sync::Wait;
use sum_uses::{AddChange, SumUses, add_to};
use user_mutex::{acquire, release};

/// Whom a thread wakes.
#[derive(Clone, Copy)]
pub enum Wake {
    Nobody,
    One(CondId),
    All(CondId),
}

/// Where a thread has its turn: the mutex of the sum, the condition in which the thread waits, and
/// whether it wakes others after it has released the mutex.
#[derive(Clone, Copy)]
pub struct Turn {
    pub mutex: MutexId,
    pub cond: CondId,
    pub after: bool,
}

/// Wakes one, all or none of the threads that wait in the condition.
#[inline]
fn wake_up<R: Wait>(rt: &R, p: &Package<SumUses>, me: &mut Thread<SumUses>, whom: Wake)
    requires rest { AtRest p.now me.old }
    requires one { (c : CondId) → whom ≡ One c → c.0 < p.now.layout.conditions }
    requires all { (c : CondId) → whom ≡ All c → c.0 < p.now.layout.conditions }
    ensures woke { (es : List Event) × Wakes whom me.old.number es × RecordsTwo es me.old me.new }
    ensures rest { AtRest p.now me.new }
    ensures idle { (n : ℕ) (s : List Added) → IsIdle p.now n s me.old → IsIdle p.now n s me.new }
    ensures holding { (n m : ℕ) (s : List Added) (x : ℕ) → IsHolding p.now n m s x me.old → IsHolding p.now n m s x me.new }
{
    match whom {
        Wake::Nobody => {}
        Wake::One(c) => signal(rt, p, me, c),
        Wake::All(c) => broadcast(rt, p, me, c),
    }
}

/// Releases the mutex with this value, and wakes others before or after that.
#[inline]
fn end_turn<R: Wait>(
    rt: &R,
    p: &Package<SumUses>,
    me: &mut Thread<SumUses>,
    turn: Turn,
    value: u64,
    whom: Wake,
)
    requires named { turn.mutex.0 < p.now.layout.mutexes }
    requires one { (c : CondId) → whom ≡ One c → c.0 < p.now.layout.conditions }
    requires all { (c : CondId) → whom ≡ All c → c.0 < p.now.layout.conditions }
    requires holding { (n : ℕ) × (s : List Added) × (x : ℕ) × IsHolding p.now n turn.mutex.0 s x me.old
        × GrowsAlike turn.mutex.0 x value s (grown turn.mutex.0 x value s) }
    ensures woke { (es : List Event) × Wakes whom me.old.number es
        × RecordsTwo (ends_turn turn.after (release_event me.old.number turn.mutex.0) es) me.old me.new }
    ensures idle { (n : ℕ) (s : List Added) (x : ℕ) → IsHolding p.now n turn.mutex.0 s x me.old
        → IsIdle p.now n (grown turn.mutex.0 x value s) me.new }
{
    if turn.after {
        release::<SumUses, AddChange, R>(rt, p, me, turn.mutex, value);
        wake_up(rt, p, me, whom);
    } else {
        wake_up(rt, p, me, whom);
        release::<SumUses, AddChange, R>(rt, p, me, turn.mutex, value);
    }
}

/// Acquires the mutex, waits until the test accepts its value, lets `part` look at that value, adds
/// 1, releases the mutex, and wakes the threads that `part` has named. Returns the value that the
/// test accepted.
///
/// Blocks for ever if no such value comes, or if no thread wakes this one then. Neither the test
/// nor the part may use the package.
#[inline]
pub fn take_turn<F: Fn(u64) -> bool, G: Fn(u64) -> Wake, R: Wait>(
    rt: &R,
    p: &Package<SumUses>,
    me: &mut Thread<SumUses>,
    turn: Turn,
    may_go: &F,
    part: &G,
) -> u64
    requires idle { (n : ℕ) × (s : List Added) × IsIdle p.now n s me.old }
    requires named { (turn.mutex.0 < p.now.layout.mutexes) × (turn.cond.0 < p.now.layout.conditions) }
    requires callable { F.IsAlwaysCallable may_go.now × G.IsAlwaysCallable part.now }
    requires one { (x : ℕ) (c : CondId) → G.post part.now x (One c) → c.0 < p.now.layout.conditions }
    requires all { (x : ℕ) (c : CondId) → G.post part.now x (All c) → c.0 < p.now.layout.conditions }
    requires few { (s : List Added) → me.old.share ≡ Some s → added turn.mutex.0 s < 100000000000 }
    ensures goes { F.post may_go.now result true }
    ensures part { (whom : Wake) × G.post part.now result whom
        × ((k : ℕ) × (es : List Event) × Wakes whom me.old.number es × RecordsTwo (acquire_event me.old.number turn.mutex.0
        ∷ (waits me.old.number turn.mutex.0 turn.cond.0 k ++ ends_turn turn.after (release_event me.old.number turn.mutex.0) es))
        me.old me.new × AreRefused (λ x. F.post may_go.now x false) k) }
    ensures idle { (n : ℕ) (s : List Added) → IsIdle p.now n s me.old → IsIdle p.now n (grown turn.mutex.0 result (result + 1) s) me.new }
{
    let got = acquire(rt, p, me, turn.mutex);
    let value = wait_until(
        rt,
        p,
        me,
        turn.mutex,
        turn.cond,
        got,
        &|sum: &u64| may_go(*sum),
    );
    let whom = part(value);
    let next = add_to(value, 1);
    end_turn(rt, p, me, turn, next, whom);
    value
}
