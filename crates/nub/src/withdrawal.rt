//! Leaving a queue because of an alert.
ghost use Rattle.std.specs.Prelude.{◌≡◌, [], None, true, false};
ghost use Rattle.larch_actions.specs.declared.event.Life.TheVariants.{Live};
ghost use Rattle.larch_actions.specs.Sets.{without};
ghost use Rattle.nub_rule.specs.Known.{StandsAs};
ghost use Rattle.nub_rule.specs.Objects.{object_of, HasObject, IsGate, IsCond};
ghost use Rattle.nub_rule.specs.Parts.{IsAlerted};
ghost use Rattle.nub_rule.specs.Plays.{recounted};
ghost use Rattle.nub.specs.Hearing.{MayWithdraw};

use super::queue::remove;
use super::sleeping::sleep;
use super::spin::{enter, leave};
use nub_rule::{Object, Package, Thread, Uses, Why};
use std::sync::Wait;

/// Takes the alerted thread out of the queue of a semaphore, or of the condition that it waits in.
/// Returns whether the thread was in the queue. If it wasn't, another thread has popped it and
/// makes it ready, and this call waits for that; at a condition, an advance has then taken the
/// thread out.
#[cold]
#[inline(never)]
pub fn withdraw<U: Uses, R: Wait>(rt: &R, p: &Package<U>, me: &mut Thread<U>, at: Object) -> bool
    requires of { me.old.table_id ≡ p.now.table_id }
    requires named { HasObject p.now.layout at }
    requires live { me.old.life ≡ Live }
    requires outside { (me.old.spin ≡ None) × (me.old.queue ≡ []) × (me.old.owed ≡ []) × (me.old.left ≡ []) }
    requires looked { me.old.cleared ≡ [] }
    requires alerted { StandsAs (λ s. (s.at ≡ object_of at) × IsAlerted s.stage) me.old × (me.old.alerted ≡ true) }
    requires may { MayWithdraw at me.old }
    ensures rest { me.new ≡ record me.old {
      part = record me.old.part
          { count = me.new.count; stand = None; failed = without (object_of at) me.old.failed; turns = me.new.turns; wait = me.new.wait };
    } }
    ensures is_new { IsGate at → me.new.wait ≡ me.old.wait }
    ensures turns { without (object_of at) me.new.turns ≡ without (object_of at) me.old.turns }
    ensures there { result ≡ true → me.new.turns ≡ me.old.turns }
    ensures at_cond { IsCond at → me.new.turns ≡ me.old.turns }
    ensures left { IsCond at → result ≡ true → me.new.wait ≡ recounted me.new.count me.old.wait }
    ensures popped { result ≡ false → me.new.wait ≡ me.old.wait }
{
    enter(rt, p, me, at, Why::Leaving);
    let there = remove(p, me, at);
    leave(rt, p, me, at);
    if !there {
        sleep(rt, p, me, false);
    }
    there
}
