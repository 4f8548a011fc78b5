//! The steps on the waiters count of a condition. A thread that begins to wait raises it before it
//! reads the count by which it enters the condition, and lowers it once it has left. So a Signal or
//! Broadcast that finds 0 finds no thread in the condition.
ghost use Rattle.std.specs.Prelude.{◌≡◌, ◌≢◌, ◌<◌, ℕ, [], Some, None};
ghost use Rattle.larch_actions.specs.declared.event.Life.TheVariants.{Live};
ghost use Rattle.nub_rule.specs.declared.view.Wait.{Wait};
ghost use Rattle.nub_rule.specs.Known.{Makes, learnt};
ghost use Rattle.nub_rule.specs.Parts.{MayRecord, made};
ghost use Rattle.nub_rule.specs.Plays.{broadcast_action, event, signal_action};

use crate::package::{Package, Thread};
use crate::places::waits_word;
use crate::plays::{LowerWaits, RaiseWaits, ReadWaitsBroadcast, ReadWaitsSignal};
use crate::stepping::{fetch_add, fetch_sub, load};
use crate::uses::Uses;
use larch_actions::CondId;

/// Raises the waiters count of c, before the count of c is read.
#[inline]
pub fn raise_waits<U: Uses>(p: &Package<U>, me: &mut Thread<U>, c: CondId) -> u64
    requires of { me.old.table_id ≡ p.now.table_id }
    requires named { c.0 < p.now.layout.conditions }
    requires live { me.old.life ≡ Live }
    requires none { me.old.raised ≡ None }
    ensures { me.new ≡ record me.old { part = record me.old.part { raised = Some c.0 } } }
{
    fetch_add::<RaiseWaits, U>(&p.table, &mut me.seat, waits_word(c), 1)
}

/// Lowers the waiters count of c, which the thread has raised, once it is in no condition and
/// stands nowhere.
#[inline]
pub fn lower_waits<U: Uses>(p: &Package<U>, me: &mut Thread<U>, c: CondId) -> u64
    requires of { me.old.table_id ≡ p.now.table_id }
    requires named { c.0 < p.now.layout.conditions }
    requires raised { me.old.raised ≡ Some c.0 }
    requires out { (x : Wait) → me.old.wait ≡ Some x → x.member ≡ None }
    requires outside { me.old.stand ≡ None }
    ensures { me.new ≡ record me.old { part = record me.old.part { raised = None } } }
{
    fetch_sub::<LowerWaits, U>(&p.table, &mut me.seat, waits_word(c), 1)
}

/// Reads the waiters count of c in a Signal. If it is 0, this is the event, which leaves no thread
/// in c. Otherwise the Signal is under way.
#[inline]
pub fn read_waits_signal<U: Uses>(p: &Package<U>, me: &mut Thread<U>, c: CondId) -> u64
    requires of { me.old.table_id ≡ p.now.table_id }
    requires named { c.0 < p.now.layout.conditions }
    requires outside { me.old.wait ≡ None }
    requires pen { MayRecord p.now.traced me.old.life me.old.pen }
    ensures event { result ≡ 0 → Makes (event me.old.number (signal_action c.0 [])) me.old me.new }
    ensures quiet { result ≡ 0 → me.new ≡ record me.old { part = record (learnt me.old.part me.new.part) { pen = made me.old.pen } } }
    ensures calls { result ≢ 0 → me.new ≡ record me.old { part = record me.old.part { calling = Some c.0 } } }
{
    load::<ReadWaitsSignal, U>(&p.table, &mut me.seat, waits_word(c))
}

/// Reads the waiters count of c in a Broadcast. If it is 0, this is the event. Otherwise the
/// Broadcast is under way.
#[inline]
pub fn read_waits_broadcast<U: Uses>(p: &Package<U>, me: &mut Thread<U>, c: CondId) -> u64
    requires of { me.old.table_id ≡ p.now.table_id }
    requires named { c.0 < p.now.layout.conditions }
    requires outside { me.old.wait ≡ None }
    requires pen { MayRecord p.now.traced me.old.life me.old.pen }
    ensures event { result ≡ 0 → Makes (event me.old.number (broadcast_action c.0 [])) me.old me.new }
    ensures quiet { result ≡ 0 → me.new ≡ record me.old { part = record (learnt me.old.part me.new.part) { pen = made me.old.pen } } }
    ensures calls { result ≢ 0 → me.new ≡ record me.old { part = record me.old.part { calling = Some c.0 } } }
{
    load::<ReadWaitsBroadcast, U>(&p.table, &mut me.seat, waits_word(c))
}
