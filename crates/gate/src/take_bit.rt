//! Taking the bit.
ghost use Rattle.std.specs.Prelude.{◌≡◌, ◌≢◌, ◌<◌, ℕ, [], ◌∷◌, Some, None, true, false};
ghost use Rattle.larch_actions.specs.Sets.{mem, without};
ghost use Rattle.gate.specs.Gates.{MayMake, IsTaken};
ghost use Rattle.nub_rule.specs.declared.object.Object.TheVariants.{Mutex};
ghost use Rattle.nub_rule.specs.declared.view.Wait.{Wait as Waiting};
ghost use Rattle.nub_rule.specs.declared.view.WaitBit.TheVariants.{Open};
ghost use Rattle.nub_rule.specs.Known.{Makes, StandsAs, learnt, recorded};
ghost use Rattle.nub_rule.specs.Objects.{object_of, HasObject, IsGate};
ghost use Rattle.nub_rule.specs.Parts.{IsAlerted, MayRecord, made, HasTested};
ghost use Rattle.nub_rule.specs.Plays.{quieted};
ghost use Rattle.nub.specs.Rest.{HasStored, IsOutside};

use crossbeam_utils::Backoff;
use larch_actions::{Action, Event, MutexId};
use nub::{Look, begin_event, end_event, enter, learn, leave, may_spin, push, remove, sleep};
use nub_rule::{
    Object, Package, Thread, Uses, Why, peek_bit, take_bit_quiet, test_again, try_bit, try_p,
};
use std::sync::Wait;

// How often a thread looks at a bit before it queues, after 1, 2, 4 and up to 64 pauses: 703 in
// all, which take about as long as to park and be woken.
const LOOKS: u32 = 16;

/// Makes the event by taking the bit, after any number of sleeps. Blocks until it has taken the
/// bit, which another thread must have cleared; nothing says that this ever happens. Of the event
/// only contracts read the fields.
#[inline(always)]
pub fn take<U: Uses, R: Wait>(rt: &R, p: &Package<U>, me: &mut Thread<U>, at: Object, e: Event)
    requires of { me.old.table_id ≡ p.now.table_id }
    requires gate { IsGate at }
    requires named { HasObject p.now.layout at }
    requires outside { IsOutside me.old }
    requires looked { me.old.cleared ≡ [] }
    requires may { MayMake at me.old.number me.old.wait e }
    requires stored { HasStored p.now.traced me.old }
    ensures event { Makes e me.old me.new }
    ensures rest { me.new ≡ record (recorded me.old me.new (λ q. record q {
      held = me.new.held;
      count = me.new.count;
      wait = None;
      failed = me.new.failed;
      turns = me.new.turns;
    })) { values = me.new.values } }
    ensures turns { me.new.turns ≡ without (object_of at) me.old.turns }
    ensures taken { IsTaken U.fits at me.old me.new }
    ensures stored { HasStored p.now.traced me.new }
{
    if !try_untraced(p, me, at, e) {
        take_slowly(rt, p, me, at, e);
    }
}

/// In an untraced package tries the bit once, and returns whether it took the bit, and so made the
/// event. It calls nothing that may wait. In a traced package, where a try needs the pen, it
/// returns false.
#[inline(always)]
fn try_untraced<U: Uses>(p: &Package<U>, me: &mut Thread<U>, at: Object, e: Event) -> bool
    requires of { me.old.table_id ≡ p.now.table_id }
    requires gate { IsGate at }
    requires named { HasObject p.now.layout at }
    requires outside { IsOutside me.old }
    requires may { MayMake at me.old.number me.old.wait e }
    ensures untraced { result ≡ true → p.now.traced ≡ false }
    ensures lost { result ≡ false → me.new ≡ record me.old { part = record me.old.part { failed = me.new.failed; turns = me.new.turns } } }
    ensures turns { result ≡ false → without (object_of at) me.new.turns ≡ without (object_of at) me.old.turns }
    ensures event { result ≡ true → Makes e me.old me.new }
    ensures won { result ≡ true → me.new ≡ record me.old {
      part = record (learnt me.old.part me.new.part) {
        held = me.new.held;
        wait = None;
        failed = without (object_of at) me.old.failed;
        turns = without (object_of at) me.old.turns;
      };
      values = me.new.values;
    } }
    ensures taken { result ≡ true → IsTaken U.fits at me.old me.new }
{
    if p.traced() {
        return false;
    }
    try_gate(p, me, at, e) == 0
}

/// Tries the bit once. Returns whether it took the bit, and so made the event. In a traced package
/// it may wait for the pen, which threads give back after a step or two.
#[inline(always)]
pub fn try_take<U: Uses, R: Wait>(
    rt: &R,
    p: &Package<U>,
    me: &mut Thread<U>,
    at: Object,
    e: Event,
) -> bool
    requires of { me.old.table_id ≡ p.now.table_id }
    requires gate { IsGate at }
    requires named { HasObject p.now.layout at }
    requires outside { IsOutside me.old }
    requires may { MayMake at me.old.number me.old.wait e }
    requires stored { HasStored p.now.traced me.old }
    ensures lost { result ≡ false → me.new ≡ record me.old {
      part = record me.old.part
          { failed = object_of at ∷ me.old.failed; turns = without (object_of at) me.old.turns };
      next = me.new.next;
    } }
    ensures event { result ≡ true → Makes e me.old me.new }
    ensures won { result ≡ true → me.new ≡ record (recorded me.old me.new (λ q. record q {
      held = me.new.held;
      wait = None;
      failed = without (object_of at) me.old.failed;
      turns = without (object_of at) me.old.turns;
    })) { values = me.new.values } }
    ensures taken { result ≡ true → IsTaken U.fits at me.old me.new }
    ensures stored { HasStored p.now.traced me.new }
{
    if !p.traced() {
        return try_gate(p, me, at, e) == 0;
    }
    // The pen is taken before the bit is known to be free: the try may be the event, and its number
    // must be read by then.
    begin_event(rt, p, me);
    if try_gate(p, me, at, e) == 0 {
        end_event(p, me, Some(built_anew(e)));
        true
    } else {
        end_event(p, me, None);
        false
    }
}

/// Builds the same event from the few words that it consists of. An event has room for a set of
/// threads, which each call would fill with zeros on its way if its argument were stored. This way
/// the room is filled where the event is stored, in a traced package alone.
#[inline(always)]
fn built_anew(e: Event) -> Event
    ensures { result ≡ e }
{
    let action = match e.action {
        Action::Acquire { mutex } => Action::Acquire { mutex },
        Action::Resume { mutex, cond } => Action::Resume { mutex, cond },
        Action::AlertReturn { mutex, cond } => Action::AlertReturn { mutex, cond },
        Action::P { sem } => Action::P { sem },
        Action::AlertPReturn { sem } => Action::AlertPReturn { sem },
        other => other,
    };
    Event {
        thread: e.thread,
        action,
    }
}

#[inline(always)]
fn try_gate<U: Uses>(p: &Package<U>, me: &mut Thread<U>, at: Object, e: Event) -> u64
    requires of { me.old.table_id ≡ p.now.table_id }
    requires gate { IsGate at }
    requires named { HasObject p.now.layout at }
    requires outside { (me.old.spin ≡ None) × (me.old.stand ≡ None) }
    requires may { MayMake at me.old.number me.old.wait e }
    requires pen { MayRecord p.now.traced me.old.life me.old.pen }
    ensures lost { result ≢ 0 → me.new ≡ record me.old {
      part = record me.old.part
          { failed = object_of at ∷ me.old.failed; turns = without (object_of at) me.old.turns };
    } }
    ensures event { result ≡ 0 → Makes e me.old me.new }
    ensures won { result ≡ 0 → me.new ≡ record me.old {
      part = record (learnt me.old.part me.new.part) {
        held = me.new.held;
        wait = None;
        failed = without (object_of at) me.old.failed;
        turns = without (object_of at) me.old.turns;
        pen = made me.old.pen;
      };
      values = me.new.values;
    } }
    ensures taken { result ≡ 0 → IsTaken U.fits at me.old me.new }
{
    match at {
        Object::Mutex(m) => try_bit(p, me, m, e),
        Object::Sem(s) => try_p(p, me, s, e),
        Object::Cond(_) => unreachable!(),
    }
}

/// The way through the Nub, after a failed try. The functions that it calls are out of line and
/// take no event: storing an event to pass it, and loading it again at once, would stall the
/// processor.
#[inline(always)]
fn take_slowly<U: Uses, R: Wait>(rt: &R, p: &Package<U>, me: &mut Thread<U>, at: Object, e: Event)
    requires of { me.old.table_id ≡ p.now.table_id }
    requires gate { IsGate at }
    requires named { HasObject p.now.layout at }
    requires outside { IsOutside me.old }
    requires looked { me.old.cleared ≡ [] }
    requires may { MayMake at me.old.number me.old.wait e }
    requires stored { HasStored p.now.traced me.old }
    ensures event { Makes e me.old me.new }
    ensures rest { me.new ≡ record (recorded me.old me.new (λ q. record q {
      held = me.new.held;
      count = me.new.count;
      wait = None;
      failed = me.new.failed;
      turns = me.new.turns;
    })) { values = me.new.values } }
    ensures turns { me.new.turns ≡ without (object_of at) me.old.turns }
    ensures taken { IsTaken U.fits at me.old me.new }
    ensures stored { HasStored p.now.traced me.new }
{
    let mut left = looks_of(me);
    let mut slept = false;
    let backoff = Backoff::new();
    for _ in rt.forever() {
        // Most bits are clear again within a few looks, and a look writes nothing: so the holder
        // keeps its cache line.
        left = look_and_learn(p, me, at, left, slept, &backoff);
        if try_take(rt, p, me, at, e) {
            return;
        }
        // If looks are left, another thread was faster, and this one goes on looking.
        if left == 0 {
            // The bit is also tried again after a sleep: the thread that woke this one hasn't kept
            // the bit for it.
            enqueue_and_sleep(rt, p, me, at, false);
            slept = true;
            left = looks_of(me);
            backoff.reset();
        }
    }
    unreachable!()
}

/// Takes the bit of m without an event, in an alertable wait on m that an alert is to end: nobody
/// holds m until the thread swaps its alert word. Blocks until it has taken the bit, which another
/// thread must have cleared; nothing says that this ever happens.
pub fn take_quiet<U: Uses, R: Wait>(rt: &R, p: &Package<U>, me: &mut Thread<U>, m: MutexId)
    requires of { me.old.table_id ≡ p.now.table_id }
    requires named { m.0 < p.now.layout.mutexes }
    requires outside { IsOutside me.old }
    requires looked { me.old.cleared ≡ [] }
    requires waits { (x : Waiting) × (me.old.wait ≡ Some x) × (x.mutex.0 ≡ m.0) × (x.alertable ≡ true) × (x.bit ≡ Open) }
    requires alerted { me.old.alerted ≡ true }
    ensures rest { me.new ≡ record me.old {
      part = record me.old.part {
        held = me.new.held;
        count = me.new.count;
        wait = quieted me.old.wait;
        failed = me.new.failed;
        turns = me.new.turns;
      };
      values = me.new.values;
    } }
    ensures turns { me.new.turns ≡ without m.0 me.old.turns }
    ensures taken { IsTaken U.fits (Mutex m) me.old me.new }
{
    let at = Object::Mutex(m);
    for _ in rt.forever() {
        look_briefly(p, at, LOOKS, &Backoff::new());
        // The pen isn't needed: the try makes no event, even if it succeeds.
        if take_bit_quiet(p, me, m) == 0 {
            return;
        }
        enqueue_and_sleep(rt, p, me, at, false);
    }
    unreachable!()
}

/// Returns how often the thread looks before it queues.
fn looks_of<U: Uses>(me: &Thread<U>) -> u32 {
    if may_spin(me, Look::Bit) { LOOKS } else { 0 }
}

/// Looks briefly. If the thread hasn't slept yet, also learns whether the bit came clear meanwhile;
/// after a sleep that says nothing, since the thread that woke it has cleared the bit.
#[cold]
#[inline(never)]
fn look_and_learn<U: Uses>(
    p: &Package<U>,
    me: &mut Thread<U>,
    at: Object,
    looks: u32,
    slept: bool,
    backoff: &Backoff,
) -> u32
    requires { HasObject p.now.layout at }
    ensures { me.new ≡ me.old }
{
    let left = look_briefly(p, at, looks, backoff);
    learn(me, Look::Bit, if slept { None } else { Some(left > 0) });
    left
}

/// Waits a short while for the bit to be clear, and returns how many of the `looks` are left, 0 if
/// it stayed set. This is no atomic step of the rule: the view stays.
fn look_briefly<U: Uses>(p: &Package<U>, at: Object, looks: u32, backoff: &Backoff) -> u32
    requires { HasObject p.now.layout at }
{
    for i in 0..looks {
        backoff.spin();
        if peek_bit(p, at) == 0 {
            return looks - 1 - i;
        }
    }
    0
}

/// Queues the thread, tests the bit again, and sleeps if it is still set. Returns true if the bit
/// is to be tried again, and false only if `alertable` is true and the thread has found its alert
/// word set: it is in the queue then, unless another thread popped it.
///
/// Blocks until the thread has left the queue, by itself or popped by a thread that cleared the
/// bit, or until it is alerted.
#[cold]
#[inline(never)]
pub fn enqueue_and_sleep<U: Uses, R: Wait>(
    rt: &R,
    p: &Package<U>,
    me: &mut Thread<U>,
    at: Object,
    alertable: bool,
) -> bool
    requires of { me.old.table_id ≡ p.now.table_id }
    requires gate { IsGate at }
    requires named { HasObject p.now.layout at }
    requires outside { IsOutside me.old }
    requires looked { me.old.cleared ≡ [] }
    requires tried { mem (object_of at) me.old.failed ≡ true }
    ensures plain { alertable ≡ false → result ≡ true }
    ensures rest { me.new ≡ record me.old {
      part = record me.old.part {
        count = me.new.count;
        stand = me.new.stand;
        failed = without (object_of at) me.old.failed;
        turns = me.new.turns;
        alerted = me.new.alerted;
      };
    } }
    ensures turns { without (object_of at) me.new.turns ≡ without (object_of at) me.old.turns }
    ensures goes_on { result ≡ true → (me.new.stand ≡ None) × (me.new.alerted ≡ me.old.alerted) }
    ensures alerted { result ≡ false → StandsAs (λ x. (x.at ≡ object_of at) × IsAlerted x.stage) me.new × (me.new.alerted ≡ true) }
    ensures stays { result ≡ false → me.new.turns ≡ me.old.turns }
{
    enter(rt, p, me, at, Why::TryFailed);
    push(p, me, at);
    // A thread that clears the bit reads the length of the queue after that. So the bit is tested
    // after the push: either this test finds it clear, or the clearing comes later and its look
    // finds this thread in the queue. If the test came before the push, the bit could be cleared
    // and the queue found empty in between, and this thread would sleep with nobody to wake it.
    if test_again(p, me, at) == 0 {
        // Out of the queue again, under the same spin word: no thread can have popped this one
        // meanwhile.
        remove(p, me, at);
        leave(rt, p, me, at);
        true
    } else {
        // The spin word is given back before the sleep: a thread that wakes this one needs it for
        // the pop.
        leave(rt, p, me, at);
        sleep(rt, p, me, alertable)
    }
}
