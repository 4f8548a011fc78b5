//! Sleeping until another thread makes this one ready, or alerts it.
ghost use Rattle.std.specs.Prelude.{◌≡◌, ◌<◌, ◌≤◌, ◌∷◌, [], Some, None, true, false};
ghost use Rattle.nub_rule.specs.declared.view.Stand.{Stand};
ghost use Rattle.nub_rule.specs.declared.view.Stage.TheVariants.{Alerted};
ghost use Rattle.nub_rule.specs.Known.{StandsAs};
ghost use Rattle.nub_rule.specs.Parts.{HasTested, staged};
ghost use Rattle.nub.specs.Hearing.{HearsAlerts};

use super::spinning::{Look, learn, may_spin};
use crossbeam_utils::Backoff;
use nub_rule::{Package, Thread, Uses, clear_ready, park, read_alert, read_ready};
use std::sync::Wait;

// How often a thread looks before it parks, after 1, 2, 4 and up to 64 pauses: 447 in all, which
// take no longer than to park and be woken.
const LOOKS: u32 = 12;

/// Sleeps until the ready word is found set, clears it, and returns true. If `alertable` is true,
/// the sleep also ends when the thread's alert word is found set, and the call returns false: the
/// thread is still in the queue then, unless another thread popped it meanwhile.
///
/// Blocks for ever if neither happens: only a thread that pops this one sets its ready word, and
/// only an alert of this thread its alert word. In the condition of an alertable wait a thread must
/// sleep alertably, until it has found its alert word set.
pub fn sleep<U: Uses, R: Wait>(rt: &R, p: &Package<U>, me: &mut Thread<U>, alertable: bool) -> bool
    requires of { me.old.table_id ≡ p.now.table_id }
    requires outside { me.old.spin ≡ None }
    requires tested { StandsAs (λ s. HasTested s.stage) me.old }
    requires looked { me.old.cleared ≡ [] }
    requires heard { HearsAlerts alertable me.old }
    ensures plain { alertable ≡ false → result ≡ true }
    ensures is_new { result ≡ true → (s : Stand) → me.old.stand ≡ Some s → s.at < 128 → me.new ≡ record me.old {
      part = record me.old.part
          { stand = None; turns = s.at ∷ me.old.turns };
    } }
    ensures at_cond { result ≡ true → (s : Stand) → me.old.stand ≡ Some s → 128 ≤ s.at → me.new ≡ record me.old {
      part = record me.old.part
          { stand = None };
    } }
    ensures alerted { result ≡ false → me.new ≡ record me.old {
      part = record me.old.part
          { alerted = true; stand = staged Alerted me.old.stand };
    } }
{
    let looks = if may_spin(me, Look::Ready) { LOOKS } else { 0 };
    let mut left = looks;
    let mut parked = false;
    let backoff = Backoff::new();
    for _ in rt.forever() {
        // The ready word decides, not the parking: a thread may be unparked for no reason, or
        // before it parks, which makes its next park return at once. So the word is read before
        // each park, and no wake that comes between the two is lost.
        if read_ready(p, me) != 0 {
            // Cleared only by its own thread, and only when found set: no thread sets it twice for
            // one push.
            clear_ready(p, me);
            learn(me, Look::Ready, lesson(looks, left, parked));
            return true;
        }
        // Also read before each park, and set before the unparking that an alert does: so no alert
        // is slept through.
        if alertable && read_alert(p, me) != 0 {
            return false;
        }
        if left > 0 {
            left -= 1;
            backoff.spin();
        } else {
            park(rt, me);
            parked = true;
        }
    }
    unreachable!()
}

/// What a thread learns from a sleep that it began with `looks` looks, of which `left` are left.
fn lesson(looks: u32, left: u32, parked: bool) -> Option<bool> {
    if parked {
        Some(false)
    } else if left < looks {
        Some(true)
    } else {
        None
    }
}
