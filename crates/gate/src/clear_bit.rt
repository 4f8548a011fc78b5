//! Clearing the bit.
ghost use Rattle.std.specs.Prelude.{◌≡◌, ◌≢◌, ◌<◌, ℕ, [], ◌∷◌, slice_set, Some, None, true, false, IfSome, MatchOption};
ghost use Rattle.larch_actions.specs.Sets.{mem, without};
ghost use Rattle.gate.specs.Gates.{MayClear, MayFree, IsFreed, clears};
ghost use Rattle.nub_rule.specs.declared.view.Wait.{Wait as Waiting};
ghost use Rattle.nub_rule.specs.declared.view.WaitBit.TheVariants.{Closing};
ghost use Rattle.nub_rule.specs.Known.{EntersStint, Makes, MayGive, PicksShare, learnt, recorded};
ghost use Rattle.nub_rule.specs.Objects.{object_of, HasObject, IsGate};
ghost use Rattle.nub_rule.specs.Parts.{MayRecord, made};
ghost use Rattle.nub_rule.specs.Plays.{opened};
ghost use Rattle.nub.specs.Rest.{HasStored, IsOutside};

use larch_actions::{Action, Event, MutexId, ThreadId};
use nub::{begin_event, end_event, enter, leave, pop};
use nub_rule::{
    Change, Object, Package, Thread, Uses, Why, clear_bit, clear_bit_in_wait, clear_sem,
    owes_unparking, read_length, set_ready, unpark, unpark_noted,
};
use std::sync::Wait;

/// Clears the bit, and makes one queued thread ready if the queue isn't empty. With `Some(e)` this
/// makes the event; with `None`, in a wait on the mutex that has yet to clear the bit, it makes
/// none, since nobody holds the mutex from the start of the wait.
///
/// Of the event only contracts read the fields: at run time all that counts is whether there is one.
/// May wait for the pen, or for the spin word of the queue, which threads give back after a few
/// steps; never for a mutex or a semaphore.
#[inline(always)]
pub fn free<U: Uses, C: Change<U>, R: Wait>(
    rt: &R,
    p: &Package<U>,
    me: &mut Thread<U>,
    at: Object,
    e: Option<Event>,
)
    requires of { me.old.table_id ≡ p.now.table_id }
    requires gate { IsGate at }
    requires named { HasObject p.now.layout at }
    requires outside { IsOutside me.old }
    requires clears { MayClear at me.old.number me.old.wait e }
    requires may { MayFree U.allows C.after at me.old }
    requires stored { HasStored p.now.traced me.old }
    ensures event { IfSome e (λ x. Makes x me.old me.new) }
    ensures rest { MatchOption e (me.new ≡ record me.old {
      part = record me.old.part {
        held = me.new.held;
        share = me.new.share;
        stints = me.new.stints;
        count = me.new.count;
        wait = opened me.old.wait;
        failed = me.new.failed;
        cleared = without (object_of at) me.old.cleared;
        looked = without (object_of at) me.old.looked;
      };
      values = me.new.values;
    }) (λ x. me.new ≡ record (recorded me.old me.new (λ q. record q {
      held = me.new.held;
      share = me.new.share;
      stints = me.new.stints;
      count = me.new.count;
      failed = me.new.failed;
      cleared = without (object_of at) me.old.cleared;
      looked = without (object_of at) me.old.looked;
    })) { values = me.new.values }) }
    ensures freed { IsFreed C.after at me.old me.new }
    ensures stored { HasStored p.now.traced me.new }
{
    // Inlined, this is decided where `free` is called: with an event given, no test of the object
    // is left.
    if e.is_none() {
        match at {
            Object::Mutex(m) => free_in_wait::<U, C, R>(rt, p, me, m),
            Object::Sem(_) | Object::Cond(_) => unreachable!(),
        }
        return;
    }
    if p.traced() {
        clear_traced::<U, C, R>(rt, p, me, at);
    } else {
        clear_gate::<U, C>(p, me, at);
    }
    // Asked before the length is read, so that one branch on both is left.
    let owes = lets_go_on(me, at);
    // The length is read after the clearing: a thread that pushed itself before the clearing is
    // seen here, one that pushes later finds the bit clear at its second test. If the length were
    // read earlier, neither would see a push between the two.
    let length = read_length(p, me, at);
    if (length != 0) | owes {
        wake_after(rt, p, me, at, length);
    }
}

/// Returns whether this thread is to unpark another once it has cleared this bit.
#[inline(always)]
fn lets_go_on<U: Uses>(me: &Thread<U>, at: Object) -> bool {
    match at {
        Object::Mutex(_) => owes_unparking(me),
        Object::Sem(_) | Object::Cond(_) => false,
    }
}

/// Clears the bit of m in a wait on m, after the first event of the wait.
#[inline]
fn free_in_wait<U: Uses, C: Change<U>, R: Wait>(
    rt: &R,
    p: &Package<U>,
    me: &mut Thread<U>,
    m: MutexId,
)
    requires of { me.old.table_id ≡ p.now.table_id }
    requires named { m.0 < p.now.layout.mutexes }
    requires outside { IsOutside me.old }
    requires waits { (x : Waiting) × (me.old.wait ≡ Some x) × (x.mutex.0 ≡ m.0) × (x.bit ≡ Closing) }
    requires may { MayGive U.allows C.after m.0 me.old }
    ensures rest { me.new ≡ record me.old {
      part = record me.old.part {
        held = slice_set me.old.held m.0 None;
        share = me.new.share;
        stints = me.new.stints;
        count = me.new.count;
        wait = opened me.old.wait;
        failed = me.new.failed;
        cleared = without m.0 me.old.cleared;
        looked = without m.0 me.old.looked;
      };
      values = slice_set me.old.values m.0 None;
    } }
    ensures share { PicksShare C.after m.0 me.old me.new }
    ensures stint { EntersStint C.after m.0 me.old me.new }
{
    clear_bit_in_wait::<U, C>(p, me, m);
    let length = read_length(p, me, Object::Mutex(m));
    if length != 0 || owes_unparking(me) {
        wake_after(rt, p, me, Object::Mutex(m), length);
    }
}

/// Makes the event by clearing the bit, with the pen. The event is built here: if the caller built
/// it, each release would fill it with zeros and pass it through memory.
#[cold]
#[inline(never)]
fn clear_traced<U: Uses, C: Change<U>, R: Wait>(
    rt: &R,
    p: &Package<U>,
    me: &mut Thread<U>,
    at: Object,
)
    requires of { me.old.table_id ≡ p.now.table_id }
    requires gate { IsGate at }
    requires named { HasObject p.now.layout at }
    requires outside { IsOutside me.old }
    requires no_wait { me.old.wait ≡ None }
    requires may { MayFree U.allows C.after at me.old }
    requires stored { HasStored p.now.traced me.old }
    ensures event { Makes (clears at me.old.number) me.old me.new }
    ensures rest { me.new ≡ record (recorded me.old me.new (λ q. record q
        { held = me.new.held; share = me.new.share; stints = me.new.stints; cleared = object_of at ∷ me.old.cleared })) { values = me.new.values } }
    ensures freed { IsFreed C.after at me.old me.new }
    ensures stored { HasStored p.now.traced me.new }
{
    let e = clearing(at, me.number());
    begin_event(rt, p, me);
    clear_gate::<U, C>(p, me, at);
    end_event(p, me, Some(e));
}

/// Returns the event by which the thread of this number clears the bit.
fn clearing(at: Object, number: u32) -> Event
    requires { IsGate at }
    ensures { result ≡ clears at number }
{
    let thread = ThreadId(number);
    match at {
        Object::Mutex(mutex) => Event {
            thread,
            action: Action::Release { mutex },
        },
        Object::Sem(sem) => Event {
            thread,
            action: Action::V { sem },
        },
        Object::Cond(_) => unreachable!(),
    }
}

#[inline]
fn clear_gate<U: Uses, C: Change<U>>(p: &Package<U>, me: &mut Thread<U>, at: Object)
    requires of { me.old.table_id ≡ p.now.table_id }
    requires gate { IsGate at }
    requires named { HasObject p.now.layout at }
    requires outside { (me.old.wait ≡ None) × (me.old.stand ≡ None) }
    requires may { MayFree U.allows C.after at me.old }
    requires pen { MayRecord p.now.traced me.old.life me.old.pen }
    ensures event { Makes (clears at me.old.number) me.old me.new }
    ensures rest { me.new ≡ record me.old {
      part = record (learnt me.old.part me.new.part) {
        held = me.new.held;
        share = me.new.share;
        stints = me.new.stints;
        cleared = object_of at ∷ me.old.cleared;
        pen = made me.old.pen;
      };
      values = me.new.values;
    } }
    ensures freed { IsFreed C.after at me.old me.new }
{
    match at {
        Object::Mutex(m) => {
            clear_bit::<U, C>(p, me, m);
        }
        Object::Sem(s) => {
            clear_sem(p, me, s);
        }
        Object::Cond(_) => unreachable!(),
    }
}

/// Makes one queued thread ready, if the length of the queue, read after the clearing, wasn't 0,
/// and unparks those that can go on now.
#[cold]
#[inline(never)]
fn wake_after<U: Uses, R: Wait>(rt: &R, p: &Package<U>, me: &mut Thread<U>, at: Object, length: u64)
    requires of { me.old.table_id ≡ p.now.table_id }
    requires gate { IsGate at }
    requires named { HasObject p.now.layout at }
    requires outside { IsOutside me.old }
    requires looked { length ≢ 0 → mem (object_of at) me.old.looked ≡ true }
    ensures queued { length ≢ 0 → me.new ≡ record me.old {
      part = record me.old.part {
        count = me.new.count;
        failed = without (object_of at) me.old.failed;
        cleared = without (object_of at) me.old.cleared;
        looked = without (object_of at) me.old.looked;
      };
    } }
    ensures none { length ≡ 0 → me.new ≡ me.old }
{
    if length != 0 {
        wake_one(rt, p, me, at);
    }
    unpark_noted(p, me);
}

/// Takes one thread out of the queue and makes it ready.
fn wake_one<U: Uses, R: Wait>(rt: &R, p: &Package<U>, me: &mut Thread<U>, at: Object)
    requires of { me.old.table_id ≡ p.now.table_id }
    requires gate { IsGate at }
    requires named { HasObject p.now.layout at }
    requires outside { IsOutside me.old }
    requires looked { mem (object_of at) me.old.looked ≡ true }
    ensures { me.new ≡ record me.old {
      part = record me.old.part {
        count = me.new.count;
        failed = without (object_of at) me.old.failed;
        cleared = without (object_of at) me.old.cleared;
        looked = without (object_of at) me.old.looked;
      };
    } }
{
    enter(rt, p, me, at, Why::QueueSeen);
    match pop(p, me, at) {
        Some(t) => {
            // Made ready inside: while this thread owes t its ready word it keeps the spin word. So
            // the spin words alone show which threads are in a queue or are owed a ready word, and
            // no thread leaves the Nub while it owes one.
            set_ready(p, me, t);
            leave(rt, p, me, at);
            // Unparked outside: t may take the processor at once, and would find the spin word
            // taken.
            unpark(p, t);
        }
        // The threads that were seen have left by themselves, or another thread has popped them.
        None => leave(rt, p, me, at),
    }
}
