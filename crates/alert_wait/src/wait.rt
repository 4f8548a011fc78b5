//! A wait in a condition that an alert may end.
ghost use Rattle.std.specs.Prelude.{◌≡◌, ℕ, ◌<◌, ◌∷◌, [], slice_set, Some, None, true, false};
ghost use Rattle.larch_actions.specs.Sets.{without};
ghost use Rattle.nub_rule.specs.declared.object.Object.TheVariants.{Mutex};
ghost use Rattle.nub_rule.specs.declared.view.Wait.{Wait as Waiting};
ghost use Rattle.nub_rule.specs.declared.view.WaitBit.TheVariants.{Open, Quiet};
ghost use Rattle.nub_rule.specs.Known.{Holds, Makes, recorded};
ghost use Rattle.nub_rule.specs.Plays.{alert_raise_event, enqueue_event};
ghost use Rattle.gate.specs.Gates.{IsTaken};
ghost use Rattle.nub.specs.Holding.{IsHolding};
ghost use Rattle.nub.specs.Rest.{AtRest, Adds, HasStored, IsOutside, IsSame, LeavesStint};
ghost use Rattle.alert_wait.specs.Outcomes.{wait_end};

use crate::outcome::Outcome;
use event_count::{block, read_count};
use gate::{free, take, take_quiet};
use larch_actions::{Action, CondId, Event, MutexId, ThreadId};
use nub::{begin_event, end_event};
use nub_rule::{
    Change, Object, Package, Thread, Uses, lower_waits, put_value, swap_alert_in_raise, take_value,
};
use std::sync::Wait;

/// Releases the mutex with this value and waits in the condition, in one step as far as other
/// threads can see, until a Signal or Broadcast takes the thread out of it or the thread finds
/// itself alerted. Then acquires the mutex again, and returns the value that it has by then.
///
/// Returns `Alerted` if the alert ended the wait, and the alert is cleared. If a Signal and an
/// alert come together, either may end the wait; if the Signal does, the alert stays. Only the
/// thread that holds the mutex may call this.
///
/// Blocks until then, for ever if neither comes, and after that while another thread holds the
/// mutex.
///
/// ```rust
/// let got = acquire(rt, pkg, me, m);
/// let (outcome, again) = alert_wait::<SumUses, NoChange, R>(rt, pkg, me, m, CondId(0), got);
/// release::<SumUses, NoChange, R>(rt, pkg, me, m, again);
/// ```
pub fn alert_wait<U: Uses, C: Change<U>, R: Wait>(
    rt: &R,
    p: &Package<U>,
    me: &mut Thread<U>,
    m: MutexId,
    c: CondId,
    value: U::Value,
) -> (Outcome, U::Value)
    requires rest { AtRest p.now me.old }
    requires named { (m.0 < p.now.layout.mutexes) × (c.0 < p.now.layout.conditions) }
    requires may { (x : U.Value) × Holds me.old m.0 x
        × ((w : U.World) (s : U.Share) → me.old.world ≡ Some w → me.old.share ≡ Some s
        → U.allows w m.0 me.old.number x value s (C.after w m.0 me.old.number x value s)) }
    ensures rest { AtRest p.now me.new }
    ensures same { IsSame me.old me.new }
    ensures event { Adds (enqueue_event true me.old.number m.0 c.0 ∷ []) (wait_end result.0 me.old.number m.0 c.0) me.old me.new }
    ensures holds { Holds me.new m.0 result.1 }
    ensures held { me.new.held ≡ slice_set me.old.held m.0 (Some result.1) }
    ensures share { (w : U.World) (s : U.Share) (x : U.Value) → me.old.world ≡ Some w → me.old.share ≡ Some s
        → Holds me.old m.0 x → me.new.share ≡ Some (C.after w m.0 me.old.number x value s) }
    ensures stint { LeavesStint C.after m.0 value me.old me.new }
    ensures fits { (w : U.World) (s : U.Share) → me.new.world ≡ Some w → me.new.share ≡ Some s → U.fits w m.0 result.1 me.new.number s }
    ensures holding { (n : ℕ) (s : U.Share) (x : U.Value) → IsHolding p.now n m.0 s x me.old
        → IsHolding p.now n m.0 (C.after p.now.world m.0 n x value s) result.1 me.new
        × U.fits p.now.world m.0 result.1 n (C.after p.now.world m.0 n x value s) }
{
    put_value(p, me, m, value);
    // The count is read before the bit is cleared. So a Signal between the two, under the mutex or
    // not, takes this thread out.
    let count = read_count(rt, p, me, m, c, true);
    free::<U, C, R>(rt, p, me, Object::Mutex(m), None);
    let returns = block(rt, p, me, c, count, true);
    let outcome = end_wait(rt, p, me, m, c, returns);
    (outcome, take_value(p, me, m))
}

/// Makes the second event of the wait, by taking the mutex: the call returns if the thread has left
/// the condition, and raises otherwise.
fn end_wait<U: Uses, R: Wait>(
    rt: &R,
    p: &Package<U>,
    me: &mut Thread<U>,
    m: MutexId,
    c: CondId,
    returns: bool,
) -> Outcome
    requires of { me.old.table_id ≡ p.now.table_id }
    requires named { (m.0 < p.now.layout.mutexes) × (c.0 < p.now.layout.conditions) }
    requires outside { IsOutside me.old }
    requires looked { me.old.cleared ≡ [] }
    requires waits { (x : Waiting) × (me.old.wait ≡ Some x) × (x.mutex.0 ≡ m.0) × (x.cond.0 ≡ c.0)
        × (x.alertable ≡ true) × (x.bit ≡ Open) × (returns ≡ true → x.member ≡ None) }
    requires raised { me.old.raised ≡ Some c.0 }
    requires alerted { returns ≡ false → me.old.alerted ≡ true }
    requires stored { HasStored p.now.traced me.old }
    ensures event { Makes (wait_end result me.old.number m.0 c.0) me.old me.new }
    ensures rest { me.new ≡ record (recorded me.old me.new (λ q. record q {
      held = me.new.held;
      count = me.new.count;
      wait = None;
      failed = me.new.failed;
      turns = me.new.turns;
      alerted = me.new.alerted;
      raised = None;
    })) { values = me.new.values } }
    ensures turns { me.new.turns ≡ without m.0 me.old.turns }
    ensures taken { IsTaken U.fits (Mutex m) me.old me.new }
    ensures stored { HasStored p.now.traced me.new }
{
    if returns {
        // The thread has left the condition: a Signal or Broadcast that finds no waiters from here
        // on misses nobody.
        lower_waits(p, me, c);
        let e = Event {
            thread: ThreadId(me.number()),
            action: Action::AlertReturn { mutex: m, cond: c },
        };
        take(rt, p, me, Object::Mutex(m), e);
        Outcome::Returned
    } else {
        // The bit first, then the alert word: the swap of the word is the raise, and whoever raises
        // holds the mutex at once. An alert that comes between the two ends this wait; one that
        // comes later stays.
        take_quiet(rt, p, me, m);
        raise(rt, p, me, m, c);
        // Only now: until the raise, the thread is in the condition as long as the count stays the
        // same.
        lower_waits(p, me, c);
        Outcome::Alerted
    }
}

/// Ends the wait by the alert, and clears the alert, while the thread has the bit of m. In a traced
/// package it may wait for the pen.
fn raise<U: Uses, R: Wait>(rt: &R, p: &Package<U>, me: &mut Thread<U>, m: MutexId, c: CondId)
    requires of { me.old.table_id ≡ p.now.table_id }
    requires named { (m.0 < p.now.layout.mutexes) × (c.0 < p.now.layout.conditions) }
    requires outside { IsOutside me.old }
    requires waits { (x : Waiting) × (me.old.wait ≡ Some x) × (x.mutex.0 ≡ m.0) × (x.cond.0 ≡ c.0)
        × (x.alertable ≡ true) × (x.bit ≡ Quiet) }
    requires has { (x : U.Value) × Holds me.old m.0 x }
    requires alerted { me.old.alerted ≡ true }
    requires stored { HasStored p.now.traced me.old }
    ensures event { Makes (alert_raise_event me.old.number m.0 c.0) me.old me.new }
    ensures rest { me.new ≡ recorded me.old me.new (λ q. record q { wait = None; alerted = false }) }
    ensures stored { HasStored p.now.traced me.new }
{
    let e = Event {
        thread: ThreadId(me.number()),
        action: Action::AlertRaise { mutex: m, cond: c },
    };
    begin_event(rt, p, me);
    swap_alert_in_raise(p, me, m, c);
    end_event(p, me, Some(e));
}
