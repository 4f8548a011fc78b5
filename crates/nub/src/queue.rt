//! The queue of an object, protected by its spin word.
ghost use Rattle.std.specs.Prelude.{◌≡◌, ◌<◌, ◌∷◌, ◌++◌, ℕ, [], Some, None, true, false};
ghost use Rattle.larch_actions.specs.Sets.{mem, without};
ghost use Rattle.nub_rule.specs.declared.view.Stage.TheVariants.{Pushed, Tested};
ghost use Rattle.nub_rule.specs.Known.{HasLeft, MayLeave, MayPush, MayPop};
ghost use Rattle.larch_actions.specs.declared.event.ThreadId.{ThreadId};
ghost use Rattle.nub_rule.specs.Objects.{object_of, HasObject, IsGate, IsCond};
ghost use Rattle.nub_rule.specs.Places.{most_threads};
ghost use Rattle.nub_rule.specs.Plays.{tail_of, unread};

use larch_actions::ThreadId;
use nub_rule::{
    Object, Package, Thread, Uses, leave_cond_queue, leave_sem_queue, note_woken, pop_queue,
    push_queue, set_ready, take_out,
};

/// Puts the thread at the end of the queue.
pub fn push<U: Uses>(p: &Package<U>, me: &mut Thread<U>, at: Object)
    requires of { me.old.table_id ≡ p.now.table_id }
    requires named { HasObject p.now.layout at }
    requires inside { me.old.spin ≡ Some (object_of at) }
    requires outside { me.old.stand ≡ None }
    requires may { MayPush at me.old }
    ensures gate { IsGate at → me.new ≡ record me.old {
      part = record me.old.part {
        queue = me.old.queue ++ me.old.number ∷ [];
        left = me.old.left ++ me.old.number ∷ [];
        stand = Some record { at = object_of at; stage = Pushed };
      };
    } }
    ensures cond { IsCond at → me.new ≡ record me.old {
      part = record me.old.part {
        queue = me.old.queue ++ me.old.number ∷ [];
        left = me.old.left ++ me.old.number ∷ [];
        stand = Some record { at = object_of at; stage = Tested };
        wait = unread me.old.wait;
      };
    } }
{
    push_queue(p, me, at);
}

/// Takes the thread out of the queue, after it found the bit clear, or its alert word set if the
/// object is a semaphore or a condition. Returns whether the thread was in the queue. A thread that
/// hadn't found the bit set since its push is due to try it then.
pub fn remove<U: Uses>(p: &Package<U>, me: &mut Thread<U>, at: Object) -> bool
    requires of { me.old.table_id ≡ p.now.table_id }
    requires named { HasObject p.now.layout at }
    requires inside { me.old.spin ≡ Some (object_of at) }
    requires may { MayLeave at me.old }
    ensures there { result ≡ mem me.old.number me.old.queue }
    ensures out { result ≡ true → HasLeft at me.old me.new }
    ensures same { result ≡ false → me.new ≡ me.old }
{
    match at {
        Object::Mutex(_) => take_out(p, me, at),
        Object::Sem(s) => leave_sem_queue(p, me, s),
        Object::Cond(c) => leave_cond_queue(p, me, c),
    }
}

/// Takes the first thread out of the queue and returns it. The caller then owes that thread its
/// ready word.
pub fn pop<U: Uses>(p: &Package<U>, me: &mut Thread<U>, at: Object) -> Option<ThreadId>
    requires of { me.old.table_id ≡ p.now.table_id }
    requires named { HasObject p.now.layout at }
    requires inside { me.old.spin ≡ Some (object_of at) }
    requires may { MayPop at me.old }
    ensures none { result ≡ None → me.old.queue ≡ [] }
    ensures first { (t : ThreadId) → result ≡ Some t → (me.old.queue ≡ t.0 ∷ tail_of me.old.queue)
        × (me.new.owed ≡ me.old.owed ++ t.0 ∷ []) }
    ensures gate { IsGate at → me.new ≡ record me.old {
      part = record me.old.part {
        queue = tail_of me.old.queue;
        left = tail_of me.old.left;
        owed = me.new.owed;
        cleared = without (object_of at) me.old.cleared;
        looked = without (object_of at) me.old.looked;
      };
    } }
    ensures cond { IsCond at → me.new ≡ record me.old { part = record me.old.part { queue = tail_of me.old.queue; owed = me.new.owed } } }
    ensures owes { result ≡ None → me.new.owed ≡ me.old.owed }
{
    pop_queue(p, me, at)
}

/// Makes a thread ready that was popped from the queue of a condition. Never waits. The woken
/// thread is unparked when this thread leaves the Nub, or, if this thread holds the mutex of that
/// wait, when it releases the mutex: earlier, the woken thread would find the spin word or the
/// mutex taken.
pub fn wake_from_condition<U: Uses>(p: &Package<U>, me: &mut Thread<U>, woken: ThreadId)
    requires of { me.old.table_id ≡ p.now.table_id }
    requires owed { mem woken.0 me.old.owed ≡ true }
    requires named { woken.0 < most_threads }
    ensures { me.new ≡ record me.old { part = record me.old.part { owed = without woken.0 me.old.owed } } }
{
    // The word first, then the unparking: a thread that wakes up reads the word, and would park
    // again if it weren't set yet.
    set_ready(p, me, woken);
    note_woken(p, me, woken);
}
