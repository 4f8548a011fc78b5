//! A P that an alert may end.
ghost use Rattle.std.specs.Prelude.{◌≡◌, ℕ, ◌<◌, [], None, true, false};
ghost use Rattle.larch_actions.specs.declared.event.Life.TheVariants.{Live};
ghost use Rattle.nub_rule.specs.declared.view.Pen.TheVariants.{No};
ghost use Rattle.nub_rule.specs.Known.{Makes, StandsAs, recorded};
ghost use Rattle.nub_rule.specs.Parts.{IsAlerted};
ghost use Rattle.nub_rule.specs.Places.{sem_object};
ghost use Rattle.nub_rule.specs.Plays.{alert_p_raise_event};
ghost use Rattle.nub.specs.Holding.{IsHolding};
ghost use Rattle.nub.specs.Idle.{IsIdle};
ghost use Rattle.nub.specs.Rest.{AtRest, Adds, HasStored, IsOutside, IsSame};
ghost use Rattle.alert_wait.specs.Outcomes.{p_end};
ghost use Rattle.alert_wait.specs.declared.outcome.Outcome.TheVariants.{Returned};

use crate::outcome::Outcome;
use gate::{enqueue_and_sleep, try_take};
use larch_actions::{Action, Event, SemId, ThreadId};
use nub::{begin_event, end_event, withdraw};
use nub_rule::{Object, Package, Thread, Uses, swap_alert_in_p};
use std::sync::Wait;

/// Makes the semaphore unavailable as soon as it is available, or raises if the thread was alerted,
/// and clears the alert then. Returns which of the two it did. If both are possible, either may
/// happen.
///
/// Blocks while the semaphore is unavailable and the thread isn't alerted: a `v` of the semaphore,
/// by any thread, may end the wait, and so may an `alert` of this thread.
///
/// ```rust
/// let outcome = alert_p(rt, pkg, me, TRIED);
/// ```
pub fn alert_p<U: Uses, R: Wait>(rt: &R, p: &Package<U>, me: &mut Thread<U>, s: SemId) -> Outcome
    requires rest { AtRest p.now me.old }
    requires named { s.0 < p.now.layout.semaphores }
    ensures rest { AtRest p.now me.new }
    ensures same { IsSame me.old me.new }
    ensures event { Adds [] (p_end result me.old.number s.0) me.old me.new }
    ensures held { me.new.held ≡ me.old.held }
    ensures share { me.new.share ≡ me.old.share }
    ensures stints { me.new.stints ≡ me.old.stints }
    ensures idle { (n : ℕ) (s : U.Share) → IsIdle p.now n s me.old → IsIdle p.now n s me.new }
    ensures holding { (n m : ℕ) (s : U.Share) (x : U.Value) → IsHolding p.now n m s x me.old → IsHolding p.now n m s x me.new }
{
    take_or_raise(rt, p, me, s)
}

/// Does all of `alert_p`, with a contract in terms of what the thread knows. It may wait.
#[inline(always)]
fn take_or_raise<U: Uses, R: Wait>(rt: &R, p: &Package<U>, me: &mut Thread<U>, s: SemId) -> Outcome
    requires of { me.old.table_id ≡ p.now.table_id }
    requires named { s.0 < p.now.layout.semaphores }
    requires outside { IsOutside me.old }
    requires no_wait { me.old.wait ≡ None }
    requires turns { me.old.turns ≡ [] }
    requires looked { me.old.cleared ≡ [] }
    requires stored { HasStored p.now.traced me.old }
    ensures event { Makes (p_end result me.old.number s.0) me.old me.new }
    ensures rest { me.new ≡ recorded me.old me.new (λ q. record q
        { count = me.new.count; failed = me.new.failed; alerted = me.new.alerted }) }
    ensures stored { HasStored p.now.traced me.new }
{
    let at = Object::Sem(s);
    let e = Event {
        thread: ThreadId(me.number()),
        action: Action::AlertPReturn { sem: s },
    };
    for _ in rt.forever() {
        if try_take(rt, p, me, at, e) {
            return Outcome::Returned;
        }
        if !enqueue_and_sleep(rt, p, me, at, true) {
            return end_alerted(rt, p, me, s);
        }
    }
    unreachable!()
}

/// Ends the call of a thread that found its alert word set while it was in the queue. It may wait.
#[cold]
#[inline(never)]
fn end_alerted<U: Uses, R: Wait>(rt: &R, p: &Package<U>, me: &mut Thread<U>, s: SemId) -> Outcome
    requires of { me.old.table_id ≡ p.now.table_id }
    requires named { s.0 < p.now.layout.semaphores }
    requires outside { (me.old.spin ≡ None) × (me.old.queue ≡ []) × (me.old.owed ≡ []) × (me.old.left ≡ []) × (me.old.pen ≡ No) }
    requires live { me.old.life ≡ Live }
    requires no_wait { me.old.wait ≡ None }
    requires turns { me.old.turns ≡ [] }
    requires looked { me.old.cleared ≡ [] }
    requires alerted { StandsAs (λ x. (x.at ≡ sem_object s.0) × IsAlerted x.stage) me.old × (me.old.alerted ≡ true) }
    requires stored { HasStored p.now.traced me.old }
    ensures event { Makes (p_end result me.old.number s.0) me.old me.new }
    ensures rest { me.new ≡ recorded me.old me.new (λ q. record q
        { count = me.new.count; stand = None; failed = me.new.failed; alerted = me.new.alerted }) }
    ensures stored { HasStored p.now.traced me.new }
{
    if take_at_last(rt, p, me, s) {
        return Outcome::Returned;
    }
    raise(rt, p, me, s);
    Outcome::Alerted
}

/// Takes the alerted thread out of the queue, and tries the bit once more if another thread had
/// popped it. Returns whether it took the bit, and so made the event. It may wait.
fn take_at_last<U: Uses, R: Wait>(rt: &R, p: &Package<U>, me: &mut Thread<U>, s: SemId) -> bool
    requires of { me.old.table_id ≡ p.now.table_id }
    requires named { s.0 < p.now.layout.semaphores }
    requires outside { (me.old.spin ≡ None) × (me.old.queue ≡ []) × (me.old.owed ≡ []) × (me.old.left ≡ []) × (me.old.pen ≡ No) }
    requires live { me.old.life ≡ Live }
    requires no_wait { me.old.wait ≡ None }
    requires turns { me.old.turns ≡ [] }
    requires looked { me.old.cleared ≡ [] }
    requires alerted { StandsAs (λ x. (x.at ≡ sem_object s.0) × IsAlerted x.stage) me.old × (me.old.alerted ≡ true) }
    requires stored { HasStored p.now.traced me.old }
    ensures lost { result ≡ false → me.new ≡ record me.old {
      part = record me.old.part
          { count = me.new.count; stand = None; failed = me.new.failed };
      next = me.new.next;
    } }
    ensures event { result ≡ true → Makes (p_end Returned me.old.number s.0) me.old me.new }
    ensures won { result ≡ true → me.new ≡ recorded me.old me.new (λ q. record q
        { count = me.new.count; stand = None; failed = me.new.failed }) }
    ensures stored { HasStored p.now.traced me.new }
{
    let at = Object::Sem(s);
    if withdraw(rt, p, me, at) {
        return false;
    }
    // A V that popped this thread woke nobody else. So the bit is tried once more before the alert
    // ends the call: if that fails, another thread has the semaphore, and its V will wake the next.
    let e = Event {
        thread: ThreadId(me.number()),
        action: Action::AlertPReturn { sem: s },
    };
    try_take(rt, p, me, at, e)
}

/// Ends the call by the alert, and clears the alert. In a traced package it may wait for the pen.
#[cold]
#[inline(never)]
fn raise<U: Uses, R: Wait>(rt: &R, p: &Package<U>, me: &mut Thread<U>, s: SemId)
    requires of { me.old.table_id ≡ p.now.table_id }
    requires named { s.0 < p.now.layout.semaphores }
    requires outside { IsOutside me.old }
    requires no_wait { me.old.wait ≡ None }
    requires alerted { me.old.alerted ≡ true }
    requires stored { HasStored p.now.traced me.old }
    ensures event { Makes (alert_p_raise_event me.old.number s.0) me.old me.new }
    ensures rest { me.new ≡ recorded me.old me.new (λ q. record q { alerted = false }) }
    ensures stored { HasStored p.now.traced me.new }
{
    let e = Event {
        thread: ThreadId(me.number()),
        action: Action::AlertPRaise { sem: s },
    };
    begin_event(rt, p, me);
    swap_alert_in_p(p, me, s);
    end_event(p, me, Some(e));
}
