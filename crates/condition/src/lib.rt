//! Wait, Signal and Broadcast of a condition.
//!
//! Promises: each call adds exactly its events to those of its thread; a wait releases the mutex
//! with a value and acquires it again with a value. Built on the count of the condition and on the
//! lock bit. Nothing is promised about waiting: not that a wait ever returns, nor which thread a
//! Signal takes.
#![tactic(auto)]

ghost use Rattle.std.specs.Prelude.{◌≡◌, ◌<◌, ◌∷◌, List, ℕ, [], slice_set, Some, None, false};
ghost use Rattle.larch_actions.specs.Sets.{without};
ghost use Rattle.nub_rule.specs.declared.view.Wait.{Wait as Waiting};
ghost use Rattle.nub_rule.specs.Known.{Holds};
ghost use Rattle.nub_rule.specs.Places.{cond_object};
ghost use Rattle.nub_rule.specs.Plays.{broadcast_action, enqueue_event, event, signal_action, unread};
ghost use Rattle.nub.specs.Holding.{IsHolding};
ghost use Rattle.nub.specs.Idle.{IsIdle};
ghost use Rattle.nub.specs.Rest.{AtRest, Adds, IsOutside, IsSame, LeavesStint};
ghost use Rattle.condition.specs.Waits.{resume_event};

use event_count::{advance_quietly, advance_slowly, block, read_count};
use gate::{free, take};
use larch_actions::{Action, CondId, Event, MutexId, ThreadId};
use nub_rule::{Change, Object, Package, Thread, Uses, lower_waits, put_value, take_value};
use std::sync::Wait;

/// Takes some thread out of the condition, if one is in it, and wakes it.
///
/// Doesn't block. Inside the package it may wait for a moment: for the spin word of the condition,
/// and in a traced package for the turn to number the event.
///
/// ```rust
/// signal(rt, pkg, me, CondId(0));
/// ```
#[inline(always)]
pub fn signal<U: Uses, R: Wait>(rt: &R, p: &Package<U>, me: &mut Thread<U>, c: CondId)
    requires rest { AtRest p.now me.old }
    requires named { c.0 < p.now.layout.conditions }
    ensures rest { AtRest p.now me.new }
    ensures same { IsSame me.old me.new }
    ensures event { (left : List ℕ) × Adds [] (event me.old.number (signal_action c.0 left)) me.old me.new }
    ensures held { me.new.held ≡ me.old.held }
    ensures share { me.new.share ≡ me.old.share }
    ensures stints { me.new.stints ≡ me.old.stints }
    ensures idle { (n : ℕ) (s : U.Share) → IsIdle p.now n s me.old → IsIdle p.now n s me.new }
    ensures holding { (n m : ℕ) (s : U.Share) (x : U.Value) → IsHolding p.now n m s x me.old → IsHolding p.now n m s x me.new }
{
    if !advance_quietly(p, me, c, false) {
        advance_slowly(rt, p, me, c, false);
    }
}

/// Takes all threads out of the condition, and wakes them.
///
/// Doesn't block, just as `signal` doesn't.
///
/// ```rust
/// broadcast(rt, p, me, MORE);
/// ```
#[inline(always)]
pub fn broadcast<U: Uses, R: Wait>(rt: &R, p: &Package<U>, me: &mut Thread<U>, c: CondId)
    requires rest { AtRest p.now me.old }
    requires named { c.0 < p.now.layout.conditions }
    ensures rest { AtRest p.now me.new }
    ensures same { IsSame me.old me.new }
    ensures event { Adds [] (event me.old.number (broadcast_action c.0 [])) me.old me.new }
    ensures held { me.new.held ≡ me.old.held }
    ensures share { me.new.share ≡ me.old.share }
    ensures stints { me.new.stints ≡ me.old.stints }
    ensures idle { (n : ℕ) (s : U.Share) → IsIdle p.now n s me.old → IsIdle p.now n s me.new }
    ensures holding { (n m : ℕ) (s : U.Share) (x : U.Value) → IsHolding p.now n m s x me.old → IsHolding p.now n m s x me.new }
{
    if !advance_quietly(p, me, c, true) {
        advance_slowly(rt, p, me, c, true);
    }
}

/// Releases the mutex with this value and waits in the condition, in one step as far as other
/// threads can see, until a Signal or Broadcast takes the thread out of it. Then acquires the mutex
/// again, and returns the value that it has by then. Only the thread that holds the mutex may call
/// this.
///
/// Blocks until a Signal or Broadcast takes the thread out, for ever if none does, and then while
/// another thread holds the mutex.
///
/// ```rust
/// let mut value = got;
/// for _ in rt.forever() {
///     if test(&value) {
///         return value;
///     }
///     value = wait::<U, NoChange, R>(rt, p, me, m, c, value);
/// }
/// ```
pub fn wait<U: Uses, C: Change<U>, R: Wait>(
    rt: &R,
    p: &Package<U>,
    me: &mut Thread<U>,
    m: MutexId,
    c: CondId,
    value: U::Value,
) -> U::Value
    requires rest { AtRest p.now me.old }
    requires named { (m.0 < p.now.layout.mutexes) × (c.0 < p.now.layout.conditions) }
    requires may { (x : U.Value) × Holds me.old m.0 x
        × ((w : U.World) (s : U.Share) → me.old.world ≡ Some w → me.old.share ≡ Some s
        → U.allows w m.0 me.old.number x value s (C.after w m.0 me.old.number x value s)) }
    ensures rest { AtRest p.now me.new }
    ensures same { IsSame me.old me.new }
    ensures event { Adds (enqueue_event false me.old.number m.0 c.0 ∷ []) (resume_event me.old.number m.0 c.0) me.old me.new }
    ensures holds { Holds me.new m.0 result }
    ensures held { me.new.held ≡ slice_set me.old.held m.0 (Some result) }
    ensures share { (w : U.World) (s : U.Share) (x : U.Value) → me.old.world ≡ Some w → me.old.share ≡ Some s
        → Holds me.old m.0 x → me.new.share ≡ Some (C.after w m.0 me.old.number x value s) }
    ensures stint { LeavesStint C.after m.0 value me.old me.new }
    ensures fits { (w : U.World) (s : U.Share) → me.new.world ≡ Some w → me.new.share ≡ Some s → U.fits w m.0 result me.new.number s }
    ensures holding { (n : ℕ) (s : U.Share) (x : U.Value) → IsHolding p.now n m.0 s x me.old
        → IsHolding p.now n m.0 (C.after p.now.world m.0 n x value s) result me.new
        × U.fits p.now.world m.0 result n (C.after p.now.world m.0 n x value s) }
{
    put_value(p, me, m, value);
    // The count is read before the bit is cleared. So a Signal between the two, under the mutex or
    // not, takes this thread out.
    let count = read_count(rt, p, me, m, c, false);
    free::<U, C, R>(rt, p, me, Object::Mutex(m), None);
    block_and_lower(rt, p, me, c, count);
    let e = Event {
        thread: ThreadId(me.number()),
        action: Action::Resume { mutex: m, cond: c },
    };
    take(rt, p, me, Object::Mutex(m), e);
    take_value(p, me, m)
}

/// Blocks until the thread has left the condition c, and then takes it off the number of waiters
/// there.
fn block_and_lower<U: Uses, R: Wait>(
    rt: &R,
    p: &Package<U>,
    me: &mut Thread<U>,
    c: CondId,
    count: u64,
)
    requires of { me.old.table_id ≡ p.now.table_id }
    requires named { c.0 < p.now.layout.conditions }
    requires outside { IsOutside me.old }
    requires looked { me.old.cleared ≡ [] }
    requires waits { (x : Waiting) × (me.old.wait ≡ Some x) × (x.cond.0 ≡ c.0) × (x.member ≡ Some count) × (x.alertable ≡ false) }
    requires raised { me.old.raised ≡ Some c.0 }
    ensures { me.new ≡ record me.old {
      part = record me.old.part
          { count = me.new.count; failed = without (cond_object c.0) me.old.failed; wait = unread me.old.wait; raised = None };
    } }
{
    block(rt, p, me, c, count, false);
    // Only now: a Signal or Broadcast that finds no waiters from here on misses nobody. If the
    // number were lowered earlier, a thread that reads the count or is in the queue would be in the
    // condition unseen.
    lower_waits(p, me, c);
}
