//! What the steps that change a queue do with it, whatever each says of the view. A thread with the
//! spin word has the list to itself. Others see the length word, so writing that is the step.
ghost use Rattle.std.specs.Prelude.{◌≡◌, ◌++◌, ◌∷◌, [], Some, None, true, false};
ghost use Rattle.larch_actions.specs.Sets.{mem};
ghost use Rattle.nub_rule.specs.Objects.{object_of};
ghost use Rattle.nub_rule.specs.Plays.{tail_of, less};
ghost use Rattle.nub_rule.specs.Queued.{MayRequeue, Requeued};
ghost use Rattle.nub_rule.specs.Rule.{IsKept};

use crate::object::Object;
use crate::package::{Package, Thread};
use crate::rule::Slot;
use crate::slot::{leave_slot, pop_slot, push_slot};
use crate::slots_at_hand::bring;
use crate::stepping::{slot_mut, store};
use crate::uses::Uses;
use crate::view::View;
use atomic_table::Play;
use larch_actions::ThreadId;

/// Puts the thread at the end.
#[inline]
pub(crate) fn push<M: Play<Slot<U::Value>, View<U::Value, U::Share, U::World>>, U: Uses>(
    p: &Package<U>,
    me: &mut Thread<U>,
    at: Object,
)
    requires of { me.old.table_id ≡ p.now.table_id }
    requires inside { me.old.spin ≡ Some (object_of at) }
    requires outside { me.old.stand ≡ None }
    requires may { MayRequeue (IsKept p.now.layout p.now.traced p.now.world U.begin U.holds) M.then p.now.layout me.old (object_of at)
        (me.old.queue ++ me.old.number ∷ []) ⊥ }
    ensures { Requeued M.then (object_of at) me.old me.new }
{
    let o = at.number();
    bring(&mut me.hand, &mut me.seat, o as u16);
    let longer = push_slot(slot_mut(&mut me.seat, &p.table.shared, o), me.number);
    store::<M, U>(&p.table, &mut me.seat, at.length_word(), longer);
}

/// Takes the first thread out, if there is one, and returns it.
#[inline]
pub(crate) fn pop<M: Play<Slot<U::Value>, View<U::Value, U::Share, U::World>>, U: Uses>(
    p: &Package<U>,
    me: &mut Thread<U>,
    at: Object,
) -> Option<ThreadId>
    requires of { me.old.table_id ≡ p.now.table_id }
    requires inside { me.old.spin ≡ Some (object_of at) }
    requires may { MayRequeue (IsKept p.now.layout p.now.traced p.now.world U.begin U.holds) M.then p.now.layout me.old (object_of at)
        (tail_of me.old.queue) (me.old.stand ≡ None) }
    ensures { (result ≡ None → me.old.queue ≡ []) × ((t : ThreadId) → result ≡ Some t → me.old.queue ≡ t.0 ∷ tail_of me.old.queue)
        × Requeued M.then (object_of at) me.old me.new }
{
    let o = at.number();
    bring(&mut me.hand, &mut me.seat, o as u16);
    let (first, shorter) = pop_slot(slot_mut(&mut me.seat, &p.table.shared, o));
    store::<M, U>(&p.table, &mut me.seat, at.length_word(), shorter);
    first
}

/// Takes the thread out, and returns whether it was there.
#[inline]
pub(crate) fn leave<M: Play<Slot<U::Value>, View<U::Value, U::Share, U::World>>, U: Uses>(
    p: &Package<U>,
    me: &mut Thread<U>,
    at: Object,
) -> bool
    requires of { me.old.table_id ≡ p.now.table_id }
    requires inside { me.old.spin ≡ Some (object_of at) }
    requires may { mem me.old.number me.old.queue ≡ true → MayRequeue (IsKept p.now.layout p.now.traced p.now.world U.begin U.holds) M.then
        p.now.layout me.old (object_of at) (less me.old.number me.old.queue) (Unit {0}) }
    ensures there { result ≡ mem me.old.number me.old.queue }
    ensures out { result ≡ true → Requeued M.then (object_of at) me.old me.new }
    ensures same { result ≡ false → me.new ≡ me.old }
{
    let o = at.number();
    bring(&mut me.hand, &mut me.seat, o as u16);
    let Some(length) = leave_slot(slot_mut(&mut me.seat, &p.table.shared, o), me.number) else {
        return false;
    };
    store::<M, U>(&p.table, &mut me.seat, at.length_word(), length);
    true
}
