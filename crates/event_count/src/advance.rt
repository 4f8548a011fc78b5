//! Signal and Broadcast. If no thread has begun to wait, one look is all. Otherwise the count is
//! advanced, and the threads that were taken out of the condition are woken.
ghost use Rattle.std.specs.Prelude.{◌≡◌, ◌<◌, List, ℕ, [], Some, None, true, false};
ghost use Rattle.larch_actions.specs.Sets.{without};
ghost use Rattle.nub_rule.specs.Items.{Small};
ghost use Rattle.event_count.specs.Quiet.{quiet_action};
ghost use Rattle.nub_rule.specs.Known.{Makes, learnt, recorded};
ghost use Rattle.nub_rule.specs.Parts.{MayRecord, made};
ghost use Rattle.nub_rule.specs.Places.{cond_object, most_threads};
ghost use Rattle.nub_rule.specs.Plays.{tail_of, broadcast_action, event, signal_action};
ghost use Rattle.nub.specs.Rest.{HasStored, IsOutside};

use larch_actions::{Action, CondId, Event, ThreadId, ThreadSet};
use nub::{begin_event, end_event, enter, leave, pop, wake_from_condition};
use nub_rule::{
    Object, Package, Thread, Uses, Why, advance_broadcast, advance_signal, know_count,
    read_waits_broadcast, read_waits_signal,
};
use std::sync::Wait;

/// Takes the spin word of c, when the count can be advanced. If the count were ever at its greatest
/// number, this would block for ever.
fn enter_below<U: Uses, R: Wait>(rt: &R, p: &Package<U>, me: &mut Thread<U>, c: CondId)
    requires of { me.old.table_id ≡ p.now.table_id }
    requires named { c.0 < p.now.layout.conditions }
    requires outside { IsOutside me.old }
    requires calling { me.old.calling ≡ Some c.0 }
    ensures inside { me.new ≡ record me.old {
      part = record me.old.part {
        spin = Some (cond_object c.0);
        queue = me.new.queue;
        left = me.new.queue;
        count = me.new.count;
        failed = without (cond_object c.0) me.old.failed;
      };
    } }
    ensures below { me.new.count < 18446744073709551615 }
    ensures small { Small most_threads me.new.queue }
{
    enter(rt, p, me, Object::Cond(c), Why::QueueSeen);
    if know_count(p, me, c) < u64::MAX {
        return;
    }
    for _ in rt.forever() {}
    unreachable!()
}

/// Makes a Signal: takes the first queued thread out of the condition, if there is one, and wakes
/// it. A thread that has read the count and isn't queued yet finds it advanced. It may wait for the
/// pen, or for the spin word of the queue.
fn advance_one<U: Uses, R: Wait>(rt: &R, p: &Package<U>, me: &mut Thread<U>, c: CondId)
    requires of { me.old.table_id ≡ p.now.table_id }
    requires named { c.0 < p.now.layout.conditions }
    requires outside { IsOutside me.old }
    requires no_wait { me.old.wait ≡ None }
    requires calling { me.old.calling ≡ Some c.0 }
    requires stored { HasStored p.now.traced me.old }
    ensures event { (left : List ℕ) × Makes (event me.old.number (signal_action c.0 left)) me.old me.new }
    ensures rest { me.new ≡ recorded me.old me.new (λ q. record q
        { count = me.new.count; failed = without (cond_object c.0) me.old.failed; calling = None }) }
    ensures stored { HasStored p.now.traced me.new }
{
    let at = Object::Cond(c);
    enter_below(rt, p, me, c);
    begin_event(rt, p, me);
    let (_count, left) = advance_signal(p, me, c);
    let e = Event {
        thread: ThreadId(me.number()),
        action: Action::Signal { cond: c, left },
    };
    end_event(p, me, Some(e));
    match pop(p, me, at) {
        Some(t) => {
            wake_from_condition(p, me, t);
            leave(rt, p, me, at);
        }
        None => leave(rt, p, me, at),
    }
}

/// Makes a Broadcast: takes all threads out of the condition, and wakes those that are queued. It
/// may wait for the pen, or for the spin word of the queue.
fn advance_all<U: Uses, R: Wait>(rt: &R, p: &Package<U>, me: &mut Thread<U>, c: CondId)
    requires of { me.old.table_id ≡ p.now.table_id }
    requires named { c.0 < p.now.layout.conditions }
    requires outside { IsOutside me.old }
    requires no_wait { me.old.wait ≡ None }
    requires calling { me.old.calling ≡ Some c.0 }
    requires stored { HasStored p.now.traced me.old }
    ensures event { Makes (event me.old.number (broadcast_action c.0 [])) me.old me.new }
    ensures rest { me.new ≡ recorded me.old me.new (λ q. record q
        { count = me.new.count; failed = without (cond_object c.0) me.old.failed; calling = None }) }
    ensures stored { HasStored p.now.traced me.new }
{
    enter_below(rt, p, me, c);
    begin_event(rt, p, me);
    advance_broadcast(p, me, c);
    let e = Event {
        thread: ThreadId(me.number()),
        action: Action::Broadcast { cond: c },
    };
    end_event(p, me, Some(e));
    wake_all(p, me, c);
    leave(rt, p, me, Object::Cond(c));
}

/// Pops each queued thread, after a Broadcast has taken them all, and makes it ready.
fn wake_all<U: Uses>(p: &Package<U>, me: &mut Thread<U>, c: CondId)
    requires of { me.old.table_id ≡ p.now.table_id }
    requires named { c.0 < p.now.layout.conditions }
    requires inside { me.old.spin ≡ Some (cond_object c.0) }
    requires no_wait { me.old.wait ≡ None }
    requires taken { me.old.left ≡ [] }
    requires owes_none { me.old.owed ≡ [] }
    requires small { Small most_threads me.old.queue }
    ensures { me.new ≡ record me.old { part = record me.old.part { queue = [] } } }
{
    while let Some(t) = pop(p, me, Object::Cond(c)) {
        wake_from_condition(p, me, t);
    }
}

/// Looks whether any thread has begun to wait in c. If none has, this is the Broadcast (if `all` is
/// true) or the Signal, and it leaves no thread in the condition.
#[inline(always)]
fn looks<U: Uses>(p: &Package<U>, me: &mut Thread<U>, c: CondId, all: bool) -> bool
    requires of { me.old.table_id ≡ p.now.table_id }
    requires named { c.0 < p.now.layout.conditions }
    requires no_wait { me.old.wait ≡ None }
    requires pen { MayRecord p.now.traced me.old.life me.old.pen }
    ensures event { result ≡ false → Makes (event me.old.number (quiet_action all c.0)) me.old me.new }
    ensures quiet { result ≡ false → me.new ≡ record me.old { part = record (learnt me.old.part me.new.part) { pen = made me.old.pen } } }
    ensures calls { result ≡ true → me.new ≡ record me.old { part = record me.old.part { calling = Some c.0 } } }
{
    // A thread that begins to wait raises the number of waiters before it reads the count, and
    // lowers it only out of the condition. So a 0 says that no thread is in the condition. The
    // length of the queue doesn't: a thread that has read the count and isn't queued yet is in the
    // condition too.
    if all {
        read_waits_broadcast(p, me, c) != 0
    } else {
        read_waits_signal(p, me, c) != 0
    }
}

/// Returns the Broadcast or the Signal of c that leaves no thread, by the thread of this number.
fn quiet_event(number: u32, cond: CondId, all: bool) -> Event
    ensures { result ≡ event number (quiet_action all cond.0) }
{
    let thread = ThreadId(number);
    if all {
        Event {
            thread,
            action: Action::Broadcast { cond },
        }
    } else {
        Event {
            thread,
            action: Action::Signal {
                cond,
                left: ThreadSet::empty(),
            },
        }
    }
}

/// Looks in a traced package, with the pen, for which it may wait.
fn looks_traced<U: Uses, R: Wait>(
    rt: &R,
    p: &Package<U>,
    me: &mut Thread<U>,
    c: CondId,
    all: bool,
) -> bool
    requires of { me.old.table_id ≡ p.now.table_id }
    requires named { c.0 < p.now.layout.conditions }
    requires outside { IsOutside me.old }
    requires no_wait { me.old.wait ≡ None }
    requires stored { HasStored p.now.traced me.old }
    ensures event { result ≡ false → Makes (event me.old.number (quiet_action all c.0)) me.old me.new }
    ensures quiet { result ≡ false → me.new ≡ recorded me.old me.new (λ q. q) }
    ensures calls { result ≡ true → me.new ≡ record me.old { part = record me.old.part { calling = Some c.0 }; next = me.new.next } }
    ensures stored { HasStored p.now.traced me.new }
{
    // The pen is taken before the look is known to be the event: the event's number must be read by
    // then.
    begin_event(rt, p, me);
    if looks(p, me, c, all) {
        // The pen goes back before the spin word is taken: no thread may wait while it has the pen.
        end_event(p, me, None);
        return true;
    }
    let e = quiet_event(me.number(), c, all);
    end_event(p, me, Some(e));
    false
}

/// Advances the count of c, after a look has found that some thread began to wait there.
fn advance_count<U: Uses, R: Wait>(rt: &R, p: &Package<U>, me: &mut Thread<U>, c: CondId, all: bool)
    requires of { me.old.table_id ≡ p.now.table_id }
    requires named { c.0 < p.now.layout.conditions }
    requires outside { IsOutside me.old }
    requires no_wait { me.old.wait ≡ None }
    requires calling { me.old.calling ≡ Some c.0 }
    requires stored { HasStored p.now.traced me.old }
    ensures all { all ≡ true → Makes (event me.old.number (broadcast_action c.0 [])) me.old me.new }
    ensures one { all ≡ false → (left : List ℕ) × Makes (event me.old.number (signal_action c.0 left)) me.old me.new }
    ensures rest { me.new ≡ recorded me.old me.new (λ q. record q
        { count = me.new.count; failed = without (cond_object c.0) me.old.failed; calling = None }) }
    ensures stored { HasStored p.now.traced me.new }
{
    if all {
        advance_all(rt, p, me, c);
    } else {
        advance_one(rt, p, me, c);
    }
}

/// Makes the Broadcast of c (if `all` is true) or the Signal, if one look is enough for it: in an
/// untraced package in which no thread has begun to wait in c. Returns whether it was made; if not,
/// `advance_slowly` is to make it. Nothing in it may wait.
#[inline(always)]
pub fn advance_quietly<U: Uses>(p: &Package<U>, me: &mut Thread<U>, c: CondId, all: bool) -> bool
    requires of { me.old.table_id ≡ p.now.table_id }
    requires named { c.0 < p.now.layout.conditions }
    requires outside { IsOutside me.old }
    requires no_wait { me.old.wait ≡ None }
    requires stored { HasStored p.now.traced me.old }
    ensures event { result ≡ true → Makes (event me.old.number (quiet_action all c.0)) me.old me.new }
    ensures quiet { result ≡ true → me.new ≡ recorded me.old me.new (λ q. q) }
    ensures stored { HasStored p.now.traced me.new }
    ensures found { result ≡ false → p.now.traced ≡ false → me.new ≡ record me.old { part = record me.old.part { calling = Some c.0 } } }
    ensures traced { result ≡ false → p.now.traced ≡ true → me.new ≡ me.old }
{
    !p.traced() && !looks(p, me, c, all)
}

/// Makes the Broadcast or the Signal that `advance_quietly` hasn't made. In a traced package it
/// looks first, with the pen.
#[cold]
#[inline(never)]
pub fn advance_slowly<U: Uses, R: Wait>(
    rt: &R,
    p: &Package<U>,
    me: &mut Thread<U>,
    c: CondId,
    all: bool,
)
    requires of { me.old.table_id ≡ p.now.table_id }
    requires named { c.0 < p.now.layout.conditions }
    requires outside { IsOutside me.old }
    requires no_wait { me.old.wait ≡ None }
    requires found { p.now.traced ≡ false → me.old.calling ≡ Some c.0 }
    requires traced { p.now.traced ≡ true → me.old.calling ≡ None }
    requires stored { HasStored p.now.traced me.old }
    ensures all { all ≡ true → Makes (event me.old.number (broadcast_action c.0 [])) me.old me.new }
    ensures one { all ≡ false → (left : List ℕ) × Makes (event me.old.number (signal_action c.0 left)) me.old me.new }
    ensures rest { me.new ≡ recorded me.old me.new (λ q. record q { count = me.new.count; failed = me.new.failed; calling = None }) }
    ensures stored { HasStored p.now.traced me.new }
{
    if p.traced() && !looks_traced(rt, p, me, c, all) {
        return;
    }
    advance_count(rt, p, me, c, all);
}
