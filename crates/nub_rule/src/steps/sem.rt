//! The steps on the bit of a semaphore.
ghost use Rattle.std.specs.Prelude.{◌≡◌, ◌≢◌, ◌⊎◌, ◌<◌, ◌∷◌, None};
ghost use Rattle.larch_actions.specs.Sets.{without};
ghost use Rattle.nub_rule.specs.Known.{Makes, learnt};
ghost use Rattle.nub_rule.specs.Parts.{MayRecord, made};
ghost use Rattle.nub_rule.specs.Places.{sem_object};
ghost use Rattle.nub_rule.specs.Plays.{MayTakeSem, v_event};

use crate::package::{Package, Thread};
use crate::places::semaphore_bit;
use crate::plays::{ClearSem, TryAlertP, TryP};
use crate::stepping::{compare_exchange, swap};
use crate::uses::Uses;
use larch_actions::{Action, Event, SemId};

/// Tries the bit of s once. It succeeds if it returns 0, and is then the event e.
#[inline]
pub fn try_p<U: Uses>(p: &Package<U>, me: &mut Thread<U>, s: SemId, e: Event) -> u64
    requires of { me.old.table_id ≡ p.now.table_id }
    requires named { s.0 < p.now.layout.semaphores }
    requires outside { (me.old.spin ≡ None) × (me.old.stand ≡ None) }
    requires may { (me.old.wait ≡ None) × MayTakeSem me.old.number s.0 e }
    requires pen { MayRecord p.now.traced me.old.life me.old.pen }
    ensures lost { result ≢ 0 → me.new ≡ record me.old {
      part = record me.old.part
          { failed = sem_object s.0 ∷ me.old.failed; turns = without (sem_object s.0) me.old.turns };
    } }
    ensures event { result ≡ 0 → Makes e me.old me.new }
    ensures won { result ≡ 0 → me.new ≡ record me.old {
      part = record (learnt me.old.part me.new.part)
          { failed = without (sem_object s.0) me.old.failed; turns = without (sem_object s.0) me.old.turns; pen = made me.old.pen };
    } }
{
    let bit = semaphore_bit(s);
    // Both are the same exchange: which event it is matters to the rule alone.
    match e.action {
        Action::AlertPReturn { .. } => compare_exchange::<TryAlertP, U>(
            &p.table,
            &mut me.seat,
            bit,
            0,
            1,
        ),
        _ => compare_exchange::<TryP, U>(&p.table, &mut me.seat, bit, 0, 1),
    }
}

/// Clears the bit of s.
#[inline]
pub fn clear_sem<U: Uses>(p: &Package<U>, me: &mut Thread<U>, s: SemId) -> u64
    requires of { me.old.table_id ≡ p.now.table_id }
    requires named { s.0 < p.now.layout.semaphores }
    requires outside { (me.old.wait ≡ None) × (me.old.stand ≡ None) }
    requires pen { MayRecord p.now.traced me.old.life me.old.pen }
    ensures found { (result ≡ 0) ⊎ (result ≡ 1) }
    ensures event { Makes (v_event me.old.number s.0) me.old me.new }
    ensures cleared { me.new ≡ record me.old {
      part = record (learnt me.old.part me.new.part)
          { cleared = sem_object s.0 ∷ me.old.cleared; pen = made me.old.pen };
    } }
{
    swap::<ClearSem, U>(&p.table, &mut me.seat, semaphore_bit(s), 0)
}
