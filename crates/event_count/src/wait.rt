//! The first event of a wait, and blocking in it.
ghost use Rattle.std.specs.Prelude.{◌≡◌, ◌<◌, [], Some, None, true, false};
ghost use Rattle.larch_actions.specs.Sets.{without};
ghost use Rattle.nub_rule.specs.declared.view.Wait.{Wait as Waiting};
ghost use Rattle.nub_rule.specs.Known.{Holds, Makes, learnt, recorded};
ghost use Rattle.nub_rule.specs.Parts.{MayRecord, made};
ghost use Rattle.nub_rule.specs.Places.{cond_object};
ghost use Rattle.nub_rule.specs.Plays.{begun_wait, enqueue_event, recounted, unread};
ghost use Rattle.nub.specs.Rest.{HasStored, IsOutside};

use larch_actions::{Action, CondId, Event, MutexId, ThreadId};
use nub::{begin_event, end_event, enter, leave, push, sleep, withdraw};
use nub_rule::{
    Object, Package, Thread, Uses, Why, compare_count, load_count, load_count_alertable,
    note_mutex, raise_waits,
};
use std::sync::Wait;

/// Reads the count of c, which begins a wait on m: the first event of the wait, which an alert may
/// end if `alertable` is true. Afterwards the thread still has the bit of m, but nobody holds m. In
/// a traced package it may wait for the pen.
pub fn read_count<U: Uses, R: Wait>(
    rt: &R,
    p: &Package<U>,
    me: &mut Thread<U>,
    m: MutexId,
    c: CondId,
    alertable: bool,
) -> u64
    requires of { me.old.table_id ≡ p.now.table_id }
    requires named { (m.0 < p.now.layout.mutexes) × (c.0 < p.now.layout.conditions) }
    requires has { (x : U.Value) × Holds me.old m.0 x }
    requires outside { IsOutside me.old }
    requires no_wait { me.old.wait ≡ None }
    requires lowered { me.old.raised ≡ None }
    requires stored { HasStored p.now.traced me.old }
    ensures event { Makes (enqueue_event alertable me.old.number m.0 c.0) me.old me.new }
    ensures begun { me.new ≡ recorded me.old me.new (λ q. record q
        { wait = Some (begun_wait alertable m.0 c.0 result); raised = Some c.0 }) }
    ensures stored { HasStored p.now.traced me.new }
{
    // Before the count is read, by which the thread enters the condition: a Signal or Broadcast
    // that finds no waiters finds no thread in the condition. Raised later, a look between the two
    // would miss this thread.
    raise_waits(p, me, c);
    read_raised(rt, p, me, m, c, alertable)
}

/// Reads the count of c, which begins a wait on m. The thread has raised the number of waiters of
/// c.
fn read_raised<U: Uses, R: Wait>(
    rt: &R,
    p: &Package<U>,
    me: &mut Thread<U>,
    m: MutexId,
    c: CondId,
    alertable: bool,
) -> u64
    requires of { me.old.table_id ≡ p.now.table_id }
    requires named { (m.0 < p.now.layout.mutexes) × (c.0 < p.now.layout.conditions) }
    requires has { (x : U.Value) × Holds me.old m.0 x }
    requires outside { IsOutside me.old }
    requires no_wait { me.old.wait ≡ None }
    requires raised { me.old.raised ≡ Some c.0 }
    requires stored { HasStored p.now.traced me.old }
    ensures event { Makes (enqueue_event alertable me.old.number m.0 c.0) me.old me.new }
    ensures begun { me.new ≡ recorded me.old me.new (λ q. record q { wait = Some (begun_wait alertable m.0 c.0 result) }) }
    ensures stored { HasStored p.now.traced me.new }
{
    // Written for the thread that wakes this one, before any thread can.
    note_mutex(p, me, m);
    if p.traced() {
        return read_traced(rt, p, me, m, c, alertable);
    }
    begin_wait(p, me, m, c, alertable)
}

/// Reads the count with the pen, in a traced package. Only here, where it is stored, is the event
/// built.
#[cold]
#[inline(never)]
fn read_traced<U: Uses, R: Wait>(
    rt: &R,
    p: &Package<U>,
    me: &mut Thread<U>,
    m: MutexId,
    c: CondId,
    alertable: bool,
) -> u64
    requires of { me.old.table_id ≡ p.now.table_id }
    requires named { (m.0 < p.now.layout.mutexes) × (c.0 < p.now.layout.conditions) }
    requires has { (x : U.Value) × Holds me.old m.0 x }
    requires outside { IsOutside me.old }
    requires no_wait { me.old.wait ≡ None }
    requires raised { me.old.raised ≡ Some c.0 }
    requires stored { HasStored p.now.traced me.old }
    ensures event { Makes (enqueue_event alertable me.old.number m.0 c.0) me.old me.new }
    ensures begun { me.new ≡ recorded me.old me.new (λ q. record q { wait = Some (begun_wait alertable m.0 c.0 result) }) }
    ensures stored { HasStored p.now.traced me.new }
{
    let e = beginning(me.number(), m, c, alertable);
    begin_event(rt, p, me);
    let count = begin_wait(p, me, m, c, alertable);
    end_event(p, me, Some(e));
    count
}

/// Returns the event by which the thread of this number begins a wait.
fn beginning(number: u32, mutex: MutexId, cond: CondId, alertable: bool) -> Event
    ensures { result ≡ enqueue_event alertable number mutex.0 cond.0 }
{
    let thread = ThreadId(number);
    if alertable {
        Event {
            thread,
            action: Action::AlertEnqueue { mutex, cond },
        }
    } else {
        Event {
            thread,
            action: Action::Enqueue { mutex, cond },
        }
    }
}

/// Reads the count. From this load on the thread is in the condition: an advance before it blocks
/// takes it out again.
fn begin_wait<U: Uses>(
    p: &Package<U>,
    me: &mut Thread<U>,
    m: MutexId,
    c: CondId,
    alertable: bool,
) -> u64
    requires of { me.old.table_id ≡ p.now.table_id }
    requires named { (m.0 < p.now.layout.mutexes) × (c.0 < p.now.layout.conditions) }
    requires has { (x : U.Value) × Holds me.old m.0 x }
    requires no_wait { me.old.wait ≡ None }
    requires even { me.old.left ≡ me.old.queue }
    requires raised { me.old.raised ≡ Some c.0 }
    requires pen { MayRecord p.now.traced me.old.life me.old.pen }
    ensures event { Makes (enqueue_event alertable me.old.number m.0 c.0) me.old me.new }
    ensures begun { me.new ≡ record me.old {
      part = record (learnt me.old.part me.new.part)
          { wait = Some (begun_wait alertable m.0 c.0 result); pen = made me.old.pen };
    } }
{
    if alertable {
        load_count_alertable(p, me, m, c)
    } else {
        load_count(p, me, m, c)
    }
}

/// Blocks while the thread is in the condition c. Returns at once if the count is no longer the one
/// with which its wait began.
///
/// Returns true if the thread has left the condition and its queue. Returns false only if
/// `alertable` is true and the thread found its alert word set: it has then taken itself out of the
/// queue, and is in the condition as long as the count stays the same.
///
/// May block for ever: only an advance takes the thread out of the condition, and, if `alertable`
/// is true, an alert ends the wait too.
pub fn block<U: Uses, R: Wait>(
    rt: &R,
    p: &Package<U>,
    me: &mut Thread<U>,
    c: CondId,
    count: u64,
    alertable: bool,
) -> bool
    requires of { me.old.table_id ≡ p.now.table_id }
    requires named { c.0 < p.now.layout.conditions }
    requires outside { IsOutside me.old }
    requires looked { me.old.cleared ≡ [] }
    requires waits { (x : Waiting) × (me.old.wait ≡ Some x) × (x.cond.0 ≡ c.0) × (x.member ≡ Some count) × (x.alertable ≡ alertable) }
    ensures plain { alertable ≡ false → result ≡ true }
    ensures rest { me.new ≡ record me.old {
      part = record me.old.part
          { count = me.new.count; failed = without (cond_object c.0) me.old.failed; wait = me.new.wait; alerted = me.new.alerted };
    } }
    ensures out { result ≡ true → me.new.wait ≡ unread me.old.wait }
    ensures left { result ≡ false → me.new.wait ≡ recounted me.new.count me.old.wait }
    ensures alerted { result ≡ false → me.new.alerted ≡ true }
    ensures same { alertable ≡ false → me.new.alerted ≡ me.old.alerted }
{
    let at = Object::Cond(c);
    enter(rt, p, me, at, Why::Block);
    // Compared under the spin word, without which no thread advances the count. So no thread can
    // take this one out unseen between the comparison and its push.
    if compare_count(p, me, c, count) != count {
        leave(rt, p, me, at);
        return true;
    }
    push(p, me, at);
    leave(rt, p, me, at);
    if sleep(rt, p, me, alertable) {
        return true;
    }
    // If the thread wasn't in the queue, an advance has taken it out of the condition: that advance
    // counts, and the alert stays.
    !withdraw(rt, p, me, at)
}
