//! The steps on a spin word. Only the thread that has it changes the queue of the object.
ghost use Rattle.std.specs.Prelude.{◌≡◌, ◌≢◌, ◌<◌, [], length, Some, None, true};
ghost use Rattle.larch_actions.specs.declared.event.Life.TheVariants.{Live};
ghost use Rattle.larch_actions.specs.Sets.{mem, without};
ghost use Rattle.nub_rule.specs.Items.{Small};
ghost use Rattle.nub_rule.specs.Objects.{object_of, HasObject};
ghost use Rattle.nub_rule.specs.Parts.{stands_at};
ghost use Rattle.nub_rule.specs.Places.{most_threads};
ghost use Rattle.nub_rule.specs.Known.{HasReason};

use crate::object::{Object, Why};
use crate::package::{Package, Thread};
use crate::plays::{GiveSpin, TakeSpin};
use crate::slots_at_hand::bring;
use crate::stepping::{compare_exchange, swap};
use crate::uses::Uses;

/// Tries the spin word of an object once, for a reason in the view. It succeeds if it returns 0,
/// and the thread then knows the queue.
pub fn take_spin<U: Uses>(p: &Package<U>, me: &mut Thread<U>, at: Object, why: Why) -> u64
    requires of { me.old.table_id ≡ p.now.table_id }
    requires named { HasObject p.now.layout at }
    requires live { me.old.life ≡ Live }
    requires outside { me.old.spin ≡ None }
    requires reason { HasReason at me.old why }
    ensures lost { result ≢ 0 → (result ≡ 1) × (me.new ≡ me.old) }
    ensures won { result ≡ 0 → me.new ≡ record me.old {
      part = record me.old.part {
        spin = Some (object_of at);
        queue = me.new.queue;
        owed = [];
        left = me.new.queue;
        count = me.new.count;
        failed = without (object_of at) me.old.failed;
      };
    } }
    ensures small { result ≡ 0 → Small most_threads me.new.queue }
    ensures room { result ≡ 0 → me.old.stand ≡ None → length me.new.queue < most_threads }
    ensures there { result ≡ 0 → mem me.old.number me.new.queue ≡ true → stands_at me.old.stand (object_of at) ≡ true }
{
    let o = at.number();
    let found = compare_exchange::<TakeSpin, U>(&p.table, &mut me.seat, at.spin_word(), 0, 1);
    if found == 0 {
        me.hand.take(o as u16);
    }
    found
}

/// Gives the spin word of an object back, with its queue.
pub fn give_spin<U: Uses>(p: &Package<U>, me: &mut Thread<U>, at: Object) -> u64
    requires of { me.old.table_id ≡ p.now.table_id }
    requires named { HasObject p.now.layout at }
    requires inside { me.old.spin ≡ Some (object_of at) }
    requires owes_none { me.old.owed ≡ [] }
    requires even { me.old.left ≡ me.old.queue }
    ensures found { result ≡ 1 }
    ensures outside { me.new ≡ record me.old { part = record me.old.part { spin = None; queue = []; left = [] } } }
{
    let o = at.number();
    bring(&mut me.hand, &mut me.seat, o as u16);
    me.hand.give();
    swap::<GiveSpin, U>(&p.table, &mut me.seat, at.spin_word(), 0)
}
