//! The steps on a condition: its count, which is read to enter it and advanced to take threads out,
//! and its queue.
ghost use Rattle.std.specs.Prelude.{◌≡◌, ◌≢◌, ◌+◌, ◌<◌, [], None, Some, false, true};
ghost use Rattle.larch_actions.specs.Sets.{mem, set_of};
ghost use Rattle.nub_rule.specs.declared.view.Wait.{Wait};
ghost use Rattle.nub_rule.specs.Items.{Distinct, Small};
ghost use Rattle.nub_rule.specs.Known.{Holds, Makes, StandsAs, learnt};
ghost use Rattle.nub_rule.specs.Parts.{IsAlerted, MayRecord, made};
ghost use Rattle.nub_rule.specs.Places.{cond_object, most_threads};
ghost use Rattle.nub_rule.specs.Plays.{begun_wait, tail_of, broadcast_action, enqueue_event, event, less, recounted, signal_action, unread};

use crate::object::Object;
use crate::package::{Package, Thread};
use crate::places::{CONDITIONS, VALUES, count_word};
use crate::plays::{
    AdvanceBroadcast, AdvanceSignal, CompareCount, KnowCount, LeaveCondQueue, LoadCount,
    LoadCountAlertable,
};
use crate::queueing::leave;
use crate::slot::set_past;
use crate::slots_at_hand::bring;
use crate::stepping::{fetch_add, load, slot_mut};
use crate::uses::Uses;
use larch_actions::{CondId, MutexId, ThreadSet};

/// Reads the count of c, and thereby enters the condition: the first event of a wait on m. From
/// here on nobody holds the mutex, though its bit is still set.
#[inline]
pub fn load_count<U: Uses>(p: &Package<U>, me: &mut Thread<U>, m: MutexId, c: CondId) -> u64
    requires of { me.old.table_id ≡ p.now.table_id }
    requires named { (m.0 < p.now.layout.mutexes) × (c.0 < p.now.layout.conditions) }
    requires has { (x : U.Value) × Holds me.old m.0 x }
    requires outside { me.old.wait ≡ None }
    requires even { me.old.left ≡ me.old.queue }
    requires raised { me.old.raised ≡ Some c.0 }
    requires pen { MayRecord p.now.traced me.old.life me.old.pen }
    ensures event { Makes (enqueue_event false me.old.number m.0 c.0) me.old me.new }
    ensures begun { me.new ≡ record me.old {
      part = record (learnt me.old.part me.new.part)
          { wait = Some (begun_wait false m.0 c.0 result); pen = made me.old.pen };
    } }
{
    prove!(m.0 < p.layout.mutexes);
    bring(&mut me.hand, &mut me.seat, VALUES + m.0 as u16);
    load::<LoadCount, U>(&p.table, &mut me.seat, count_word(c))
}

/// Reads the count of c, and thereby enters the condition: the first event of an alertable wait on
/// m.
#[inline]
pub fn load_count_alertable<U: Uses>(
    p: &Package<U>,
    me: &mut Thread<U>,
    m: MutexId,
    c: CondId,
) -> u64
    requires of { me.old.table_id ≡ p.now.table_id }
    requires named { (m.0 < p.now.layout.mutexes) × (c.0 < p.now.layout.conditions) }
    requires has { (x : U.Value) × Holds me.old m.0 x }
    requires outside { me.old.wait ≡ None }
    requires even { me.old.left ≡ me.old.queue }
    requires raised { me.old.raised ≡ Some c.0 }
    requires pen { MayRecord p.now.traced me.old.life me.old.pen }
    ensures event { Makes (enqueue_event true me.old.number m.0 c.0) me.old me.new }
    ensures begun { me.new ≡ record me.old {
      part = record (learnt me.old.part me.new.part)
          { wait = Some (begun_wait true m.0 c.0 result); pen = made me.old.pen };
    } }
{
    prove!(m.0 < p.layout.mutexes);
    bring(&mut me.hand, &mut me.seat, VALUES + m.0 as u16);
    load::<LoadCountAlertable, U>(&p.table, &mut me.seat, count_word(c))
}

/// Returns the count of c, which the thread with its spin word knows.
#[inline]
pub fn know_count<U: Uses>(p: &Package<U>, me: &mut Thread<U>, c: CondId) -> u64
    requires of { me.old.table_id ≡ p.now.table_id }
    requires named { c.0 < p.now.layout.conditions }
    requires inside { me.old.spin ≡ Some (cond_object c.0) }
    ensures count { result ≡ me.old.count }
    ensures same { me.new ≡ me.old }
{
    load::<KnowCount, U>(&p.table, &mut me.seat, count_word(c))
}

/// Advances the count of c by a Signal: the first thread in its queue, if there is one, leaves the
/// condition, and so does each thread that has read the count and isn't queued yet. Returns the
/// count before, and the threads that are left in the condition.
pub fn advance_signal<U: Uses>(p: &Package<U>, me: &mut Thread<U>, c: CondId) -> (u64, ThreadSet)
    requires of { me.old.table_id ≡ p.now.table_id }
    requires named { c.0 < p.now.layout.conditions }
    requires inside { me.old.spin ≡ Some (cond_object c.0) }
    requires outside { me.old.wait ≡ None }
    requires even { me.old.left ≡ me.old.queue }
    requires small { Small most_threads me.old.queue }
    requires room { me.old.count < 18446744073709551615 }
    requires pen { MayRecord p.now.traced me.old.life me.old.pen }
    ensures count { result.0 ≡ me.old.count }
    ensures left { result.1 ≡ set_of (tail_of me.old.queue) }
    ensures distinct { Distinct me.old.queue }
    ensures event { Makes (event me.old.number (signal_action c.0 (tail_of me.old.queue))) me.old me.new }
    ensures advanced { me.new ≡ record me.old {
      part = record (learnt me.old.part me.new.part)
          { left = tail_of me.old.queue; count = me.old.count + 1; calling = None; pen = made me.old.pen };
    } }
{
    let o = CONDITIONS + c.0 as usize;
    bring(&mut me.hand, &mut me.seat, o as u16);
    let left = set_past(slot_mut(&mut me.seat, &p.table.shared, o));
    let count = fetch_add::<AdvanceSignal, U>(&p.table, &mut me.seat, count_word(c), 1);
    (count, left)
}

/// Advances the count of c by a Broadcast: all threads leave the condition. Returns the count
/// before.
pub fn advance_broadcast<U: Uses>(p: &Package<U>, me: &mut Thread<U>, c: CondId) -> u64
    requires of { me.old.table_id ≡ p.now.table_id }
    requires named { c.0 < p.now.layout.conditions }
    requires inside { me.old.spin ≡ Some (cond_object c.0) }
    requires outside { me.old.wait ≡ None }
    requires room { me.old.count < 18446744073709551615 }
    requires pen { MayRecord p.now.traced me.old.life me.old.pen }
    ensures count { result ≡ me.old.count }
    ensures event { Makes (event me.old.number (broadcast_action c.0 [])) me.old me.new }
    ensures advanced { me.new ≡ record me.old {
      part = record (learnt me.old.part me.new.part)
          { left = []; count = me.old.count + 1; calling = None; pen = made me.old.pen };
    } }
{
    fetch_add::<AdvanceBroadcast, U>(&p.table, &mut me.seat, count_word(c), 1)
}

/// Reads the count of c under its spin word, in a wait that began with `count`, before the thread
/// may be put into the queue. If the two differ, the thread has left the condition.
pub fn compare_count<U: Uses>(p: &Package<U>, me: &mut Thread<U>, c: CondId, count: u64) -> u64
    requires of { me.old.table_id ≡ p.now.table_id }
    requires named { c.0 < p.now.layout.conditions }
    requires inside { me.old.spin ≡ Some (cond_object c.0) }
    requires waits { (x : Wait) × (me.old.wait ≡ Some x) × (x.cond.0 ≡ c.0) × (x.member ≡ Some count) }
    ensures count { result ≡ me.old.count }
    ensures stands { result ≡ count → me.new ≡ me.old }
    ensures moved { result ≢ count → me.new ≡ record me.old { part = record me.old.part { wait = unread me.old.wait } } }
{
    let _count = count;
    load::<CompareCount, U>(&p.table, &mut me.seat, count_word(c))
}

/// Takes the thread, which found its alert word set, out of the queue of c. Returns whether the
/// thread was in the queue; it is then in the condition as long as the count stays the same. If it
/// wasn't, another thread has popped it.
pub fn leave_cond_queue<U: Uses>(p: &Package<U>, me: &mut Thread<U>, c: CondId) -> bool
    requires of { me.old.table_id ≡ p.now.table_id }
    requires named { c.0 < p.now.layout.conditions }
    requires inside { me.old.spin ≡ Some (cond_object c.0) }
    requires alerted { StandsAs (λ s. (s.at ≡ cond_object c.0) × IsAlerted s.stage) me.old }
    requires waits { (x : Wait) × (me.old.wait ≡ Some x) × (x.cond.0 ≡ c.0) }
    ensures there { result ≡ mem me.old.number me.old.queue }
    ensures out { result ≡ true → me.new ≡ record me.old {
      part = record me.old.part {
        queue = less me.old.number me.old.queue;
        left = less me.old.number me.old.left;
        stand = None;
        wait = recounted me.old.count me.old.wait;
      };
    } }
    ensures same { result ≡ false → me.new ≡ me.old }
{
    leave::<LeaveCondQueue, U>(p, me, Object::Cond(c))
}
