//! The steps on the alert words, and leaving a semaphore's queue because of an alert.
ghost use Rattle.std.specs.Prelude.{◌≡◌, ◌≢◌, ◌⊎◌, ◌<◌, eqb, Some, None, true, false};
ghost use Rattle.larch_actions.specs.Sets.{mem};
ghost use Rattle.nub_rule.specs.declared.view.Wait.{Wait};
ghost use Rattle.nub_rule.specs.declared.view.WaitBit.TheVariants.{Quiet};
ghost use Rattle.nub_rule.specs.Known.{Holds, Makes, StandsAs, learnt};
ghost use Rattle.nub_rule.specs.Parts.{IsClear, MayRecord, alerted_stand, left_turns, made};
ghost use Rattle.nub_rule.specs.Places.{sem_object};
ghost use Rattle.nub_rule.specs.Plays.{alert_event, alert_p_raise_event, alert_raise_event, less, test_alert_event};

use crate::object::Object;
use crate::package::{Package, Thread};
use crate::places::alert_word;
use crate::plays::{LeaveSemQueue, OrAlert, ReadAlert, SwapAlert, SwapAlertInP, SwapAlertInRaise};
use crate::queueing::leave;
use crate::stepping::{fetch_and, fetch_or, load, swap};
use crate::steps::waking::unpark;
use crate::uses::Uses;
use larch_actions::{CondId, MutexId, SemId, ThreadId};

/// Reads the thread's own alert word. If it is 1, a thread that is in a queue, has tested the bit
/// and hasn't found its ready word set may leave the queue because of that. A ready word that was
/// found set stays found.
pub fn read_alert<U: Uses>(p: &Package<U>, me: &mut Thread<U>) -> u64
    requires of { me.old.table_id ≡ p.now.table_id }
    ensures one { result ≢ 0 → result ≡ 1 }
    ensures seen { me.old.alerted ≡ true → result ≡ 1 }
    ensures none { result ≡ 0 → me.new ≡ me.old }
    ensures alerted { result ≢ 0 → me.new ≡ record me.old {
      part = record me.old.part
          { alerted = true; stand = alerted_stand me.old.stand };
    } }
{
    load::<ReadAlert, U>(&p.table, &mut me.seat, alert_word(me.number))
}

/// Alerts the thread t, and unparks it, since it may sleep where an alert ends its sleep.
pub fn or_alert<U: Uses>(p: &Package<U>, me: &mut Thread<U>, t: ThreadId) -> u64
    requires of { me.old.table_id ≡ p.now.table_id }
    requires named { t.0 < p.now.layout.threads }
    requires outside { me.old.wait ≡ None }
    requires pen { MayRecord p.now.traced me.old.life me.old.pen }
    ensures event { Makes (alert_event me.old.number t.0) me.old me.new }
    ensures alerted { me.new ≡ record me.old { part = record (learnt me.old.part me.new.part) { pen = made me.old.pen } } }
{
    // The word first, then the unparking: a thread that wakes up reads the word, and would park
    // again if it weren't set yet.
    let found = fetch_or::<OrAlert, U>(&p.table, &mut me.seat, alert_word(t.0), 1);
    unpark(p, t);
    found
}

/// Clears the thread's own alert word, and returns what it was.
pub fn swap_alert<U: Uses>(p: &Package<U>, me: &mut Thread<U>) -> u64
    requires of { me.old.table_id ≡ p.now.table_id }
    requires outside { me.old.wait ≡ None }
    requires pen { MayRecord p.now.traced me.old.life me.old.pen }
    ensures flag { (result ≡ 0) ⊎ (result ≡ 1) }
    ensures seen { me.old.alerted ≡ true → result ≡ 1 }
    ensures event { Makes (test_alert_event me.old.number (eqb result 1)) me.old me.new }
    ensures cleared { me.new ≡ record me.old { part = record (learnt me.old.part me.new.part) { alerted = false; pen = made me.old.pen } } }
{
    swap::<SwapAlert, U>(&p.table, &mut me.seat, alert_word(me.number), 0)
}

/// Clears the thread's own alert word, which was found set, to raise out of a P of s. The thread is
/// in no queue then.
pub fn swap_alert_in_p<U: Uses>(p: &Package<U>, me: &mut Thread<U>, s: SemId) -> u64
    requires of { me.old.table_id ≡ p.now.table_id }
    requires named { s.0 < p.now.layout.semaphores }
    requires outside { (me.old.wait ≡ None) × (me.old.stand ≡ None) }
    requires alerted { me.old.alerted ≡ true }
    requires pen { MayRecord p.now.traced me.old.life me.old.pen }
    ensures found { result ≡ 1 }
    ensures event { Makes (alert_p_raise_event me.old.number s.0) me.old me.new }
    ensures cleared { me.new ≡ record me.old { part = record (learnt me.old.part me.new.part) { alerted = false; pen = made me.old.pen } } }
{
    // An alert word is 0 or 1, so this leaves 0, as a swap would. No word says which semaphore it
    // is: the mask says it to the rule.
    fetch_and::<SwapAlertInP, U>(
        &p.table,
        &mut me.seat,
        alert_word(me.number),
        2 * s.0 as u64,
    )
}

/// Clears the thread's own alert word, which was found set, to raise out of an alertable wait on m
/// in c. The thread has taken the bit of m before, without an event, and holds m from here on. An
/// alert that comes later stays for the next call.
pub fn swap_alert_in_raise<U: Uses>(
    p: &Package<U>,
    me: &mut Thread<U>,
    m: MutexId,
    c: CondId,
) -> u64
    requires of { me.old.table_id ≡ p.now.table_id }
    requires named { (m.0 < p.now.layout.mutexes) × (c.0 < p.now.layout.conditions) }
    requires outside { (me.old.spin ≡ None) × (me.old.stand ≡ None) }
    requires waits { (x : Wait) × (me.old.wait ≡ Some x) × (x.mutex.0 ≡ m.0) × (x.cond.0 ≡ c.0) × (x.alertable ≡ true) × (x.bit ≡ Quiet) }
    requires has { (x : U.Value) × Holds me.old m.0 x }
    requires alerted { me.old.alerted ≡ true }
    requires pen { MayRecord p.now.traced me.old.life me.old.pen }
    ensures found { result ≡ 1 }
    ensures event { Makes (alert_raise_event me.old.number m.0 c.0) me.old me.new }
    ensures raised { me.new ≡ record me.old {
      part = record (learnt me.old.part me.new.part)
          { wait = None; alerted = false; pen = made me.old.pen };
    } }
{
    let _names = (m, c);
    swap::<SwapAlertInRaise, U>(&p.table, &mut me.seat, alert_word(me.number), 0)
}

/// Takes the thread out of the queue of s, after it found the bit clear or its alert word set.
/// Returns whether the thread was in the queue. A thread that hadn't found the bit set since its
/// push is due to try it then.
pub fn leave_sem_queue<U: Uses>(p: &Package<U>, me: &mut Thread<U>, s: SemId) -> bool
    requires of { me.old.table_id ≡ p.now.table_id }
    requires named { s.0 < p.now.layout.semaphores }
    requires inside { me.old.spin ≡ Some (sem_object s.0) }
    requires stands { StandsAs (λ x. (x.at ≡ sem_object s.0) × (IsClear x.stage ⊎ (me.old.alerted ≡ true))) me.old }
    ensures there { result ≡ mem me.old.number me.old.queue }
    ensures out { result ≡ true → me.new ≡ record me.old {
      part = record me.old.part {
        queue = less me.old.number me.old.queue;
        left = less me.old.number me.old.left;
        stand = None;
        turns = left_turns me.old.stand me.old.turns;
      };
    } }
    ensures same { result ≡ false → me.new ≡ me.old }
{
    leave::<LeaveSemQueue, U>(p, me, Object::Sem(s))
}
