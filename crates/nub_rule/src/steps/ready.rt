//! The steps on the ready word of a thread, by which it is woken.
ghost use Rattle.std.specs.Prelude.{◌≡◌, ◌≢◌, ◌<◌, ◌≤◌, [], ◌∷◌, Some, None, true};
ghost use Rattle.larch_actions.specs.Sets.{mem, without};
ghost use Rattle.nub_rule.specs.declared.view.Stand.{Stand};
ghost use Rattle.nub_rule.specs.declared.view.Stage.TheVariants.{Asleep, Found};
ghost use Rattle.nub_rule.specs.Known.{StandsAs};
ghost use Rattle.nub_rule.specs.Owed.{IsAsleep};
ghost use Rattle.nub_rule.specs.Places.{most_threads};
ghost use Rattle.nub_rule.specs.Parts.{staged, HasTested, IsFound};

use crate::package::{Package, Thread};
use crate::places::ready_word;
use crate::plays::{ClearReady, ReadReady, SetReady};
use crate::stepping::{load, swap};
use crate::uses::Uses;
use larch_actions::ThreadId;
use std::sync::Wait;

/// Makes a popped thread ready. The caller must unpark it after that.
pub fn set_ready<U: Uses>(p: &Package<U>, me: &mut Thread<U>, t: ThreadId) -> u64
    requires of { me.old.table_id ≡ p.now.table_id }
    requires owed { mem t.0 me.old.owed ≡ true }
    requires named { t.0 < most_threads }
    ensures found { result ≡ 0 }
    ensures owes { me.new ≡ record me.old { part = record me.old.part { owed = without t.0 me.old.owed } } }
{
    swap::<SetReady, U>(&p.table, &mut me.seat, ready_word(t.0), 1)
}

/// Reads the thread's own ready word, after the second test. If it is 0, the thread may sleep.
pub fn read_ready<U: Uses>(p: &Package<U>, me: &mut Thread<U>) -> u64
    requires of { me.old.table_id ≡ p.now.table_id }
    requires outside { me.old.spin ≡ None }
    requires tested { StandsAs (λ s. HasTested s.stage) me.old }
    requires looked { me.old.cleared ≡ [] }
    ensures asleep { result ≡ 0 → me.new ≡ record me.old { part = record me.old.part { stand = staged Asleep me.old.stand } } }
    ensures found { result ≢ 0 → me.new ≡ record me.old { part = record me.old.part { stand = staged Found me.old.stand } } }
    ensures one { result ≢ 0 → result ≡ 1 }
{
    load::<ReadReady, U>(&p.table, &mut me.seat, ready_word(me.number))
}

/// Clears the thread's own ready word, which was found set. The thread stands nowhere then.
pub fn clear_ready<U: Uses>(p: &Package<U>, me: &mut Thread<U>) -> u64
    requires of { me.old.table_id ≡ p.now.table_id }
    requires outside { me.old.spin ≡ None }
    requires ready { StandsAs (λ s. IsFound s.stage) me.old }
    ensures found { result ≡ 1 }
    ensures is_new { (s : Stand) → me.old.stand ≡ Some s → s.at < 128 → me.new ≡ record me.old {
      part = record me.old.part
          { stand = None; turns = s.at ∷ me.old.turns };
    } }
    ensures at_cond { (s : Stand) → me.old.stand ≡ Some s → 128 ≤ s.at → me.new ≡ record me.old {
      part = record me.old.part
          { stand = None };
    } }
{
    swap::<ClearReady, U>(&p.table, &mut me.seat, ready_word(me.number), 0)
}

/// Sleeps until another thread unparks this one, or for no reason; returns at once if an unparking
/// came before. This is no atomic step of the rule: the view stays, and no clause speaks of the
/// result. A thread parks only without a spin word, after it stood in a queue and has found its
/// ready word clear since: so it owes no look to a gate that it has cleared.
pub fn park<U: Uses, R: Wait>(rt: &R, me: &Thread<U>)
    requires outside { me.now.spin ≡ None }
    requires asleep { StandsAs (λ s. IsAsleep s.stage) me.now }
{
    me.parker.park(rt);
}
