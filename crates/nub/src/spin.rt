//! Entering and leaving the Nub, under a spin word.
ghost use Rattle.std.specs.Prelude.{◌≡◌, ◌<◌, [], length, Some, None, true};
ghost use Rattle.larch_actions.specs.declared.event.Life.TheVariants.{Live};
ghost use Rattle.larch_actions.specs.Sets.{mem, without};
ghost use Rattle.nub_rule.specs.Items.{Small};
ghost use Rattle.nub_rule.specs.Objects.{object_of, HasObject};
ghost use Rattle.nub_rule.specs.Parts.{stands_at};
ghost use Rattle.nub_rule.specs.Places.{most_threads};
ghost use Rattle.nub_rule.specs.Known.{HasReason};

use crossbeam_utils::Backoff;
use nub_rule::{
    Object, Package, Thread, Uses, Why, give_spin, owes_unparking, take_spin, unpark_noted,
};
use std::sync::Wait;

/// Takes the spin word of the object, for this reason. Spins while another thread has the word, and
/// never sleeps: a thread with a spin word gives it back after a few steps, none of which waits.
pub fn enter<U: Uses, R: Wait>(rt: &R, p: &Package<U>, me: &mut Thread<U>, at: Object, why: Why)
    requires of { me.old.table_id ≡ p.now.table_id }
    requires named { HasObject p.now.layout at }
    requires live { me.old.life ≡ Live }
    requires outside { me.old.spin ≡ None }
    requires reason { HasReason at me.old why }
    ensures inside { me.new ≡ record me.old {
      part = record me.old.part {
        spin = Some (object_of at);
        queue = me.new.queue;
        owed = [];
        left = me.new.queue;
        count = me.new.count;
        failed = without (object_of at) me.old.failed;
      };
    } }
    ensures small { Small most_threads me.new.queue }
    ensures there { mem me.old.number me.new.queue ≡ true → stands_at me.old.stand (object_of at) ≡ true }
{
    let backoff = Backoff::new();
    for _ in rt.forever() {
        // A failed try changes nothing in the view, so the reason still holds at the next try.
        if take_spin(p, me, at, why) == 0 {
            return;
        }
        // Pauses at first, and then gives the processor up: the thread with the word may be waiting
        // for it.
        backoff.snooze();
    }
    unreachable!()
}

/// Gives the spin word of the object back, and unparks the threads that this thread has woken,
/// unless this thread holds the mutex that they need to go on. Never waits. An unparked thread may
/// take the processor at once, so it is unparked only here, where it finds the spin word free.
pub fn leave<U: Uses, R: Wait>(rt: &R, p: &Package<U>, me: &mut Thread<U>, at: Object)
    requires of { me.old.table_id ≡ p.now.table_id }
    requires named { HasObject p.now.layout at }
    requires inside { me.old.spin ≡ Some (object_of at) }
    requires owes_none { me.old.owed ≡ [] }
    requires even { me.old.left ≡ me.old.queue }
    ensures { me.new ≡ record me.old { part = record me.old.part { spin = None; queue = []; left = [] } } }
{
    let _ = rt;
    give_spin(p, me, at);
    if owes_unparking(me) {
        unpark_noted(p, me);
    }
}
