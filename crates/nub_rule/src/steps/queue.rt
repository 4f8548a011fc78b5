//! The steps on the queue of an object, under its spin word, and the look at its length.
ghost use Rattle.std.specs.Prelude.{◌≡◌, ◌≢◌, ◌+◌, ◌<◌, [], ◌∷◌, ◌++◌, length, Some, None, true, false};
ghost use Rattle.larch_actions.specs.Sets.{mem, without};
ghost use Rattle.nub_rule.specs.declared.view.Stage.TheVariants.{Pushed, Clear, Tested};
ghost use Rattle.nub_rule.specs.Known.{StandsAs, MayPush, MayPop};
ghost use Rattle.nub_rule.specs.Objects.{object_of, HasObject, IsGate, IsCond};
ghost use Rattle.nub_rule.specs.Parts.{staged, IsUntested, IsClear};
ghost use Rattle.nub_rule.specs.Plays.{tail_of, less, unread};

use crate::object::Object;
use crate::package::{Package, Thread};
use crate::plays::{PopCond, PopGate, PushCond, PushGate, ReadLength, TakeOut, TestAgain};
use crate::queueing::{leave, pop, push};
use crate::stepping::load;
use crate::uses::Uses;
use larch_actions::ThreadId;

/// Reads the length of a queue. After the bit was cleared, a length of 0 means that no thread need
/// be woken: a thread that pushes itself later finds the bit clear at its second test.
#[inline]
pub fn read_length<U: Uses>(p: &Package<U>, me: &mut Thread<U>, at: Object) -> u64
    requires of { me.old.table_id ≡ p.now.table_id }
    requires named { HasObject p.now.layout at }
    ensures empty { result ≡ 0 → me.new ≡ record me.old {
      part = record me.old.part
          { cleared = without (object_of at) me.old.cleared; looked = without (object_of at) me.old.looked };
    } }
    ensures seen { result ≢ 0 → mem (object_of at) me.old.cleared ≡ true
        → me.new ≡ record me.old { part = record me.old.part { looked = object_of at ∷ me.old.looked } } }
    ensures same { result ≢ 0 → mem (object_of at) me.old.cleared ≡ false → me.new ≡ me.old }
{
    load::<ReadLength, U>(&p.table, &mut me.seat, at.length_word())
}

/// Puts the thread at the end of the queue.
pub fn push_queue<U: Uses>(p: &Package<U>, me: &mut Thread<U>, at: Object)
    requires of { me.old.table_id ≡ p.now.table_id }
    requires named { HasObject p.now.layout at }
    requires inside { me.old.spin ≡ Some (object_of at) }
    requires outside { me.old.stand ≡ None }
    requires may { MayPush at me.old }
    ensures gate { IsGate at → me.new ≡ record me.old {
      part = record me.old.part {
        queue = me.old.queue ++ me.old.number ∷ [];
        left = me.old.left ++ me.old.number ∷ [];
        stand = Some record { at = object_of at; stage = Pushed };
      };
    } }
    ensures cond { IsCond at → me.new ≡ record me.old {
      part = record me.old.part {
        queue = me.old.queue ++ me.old.number ∷ [];
        left = me.old.left ++ me.old.number ∷ [];
        stand = Some record { at = object_of at; stage = Tested };
        wait = unread me.old.wait;
      };
    } }
{
    match at {
        Object::Mutex(_) | Object::Sem(_) => push::<PushGate, U>(p, me, at),
        // A condition has no bit that would have to be tested again.
        Object::Cond(_) => push::<PushCond, U>(p, me, at),
    }
}

/// Reads the bit again, after the push. Without this test, a thread that found the bit set could
/// push itself after the clearing thread has looked at the queue.
pub fn test_again<U: Uses>(p: &Package<U>, me: &mut Thread<U>, at: Object) -> u64
    requires of { me.old.table_id ≡ p.now.table_id }
    requires named { HasObject p.now.layout at }
    requires inside { me.old.spin ≡ Some (object_of at) }
    requires untested { StandsAs (λ s. (s.at ≡ object_of at) × IsUntested s.stage) me.old }
    ensures clear { result ≡ 0 → me.new ≡ record me.old { part = record me.old.part { stand = staged Clear me.old.stand } } }
    ensures tested { result ≢ 0 → me.new ≡ record me.old { part = record me.old.part { stand = staged Tested me.old.stand } } }
    ensures low { IsGate at → object_of at < 128 }
{
    load::<TestAgain, U>(&p.table, &mut me.seat, at.bit_word())
}

/// Takes the thread out of the queue, after it found the bit clear. Returns whether the thread was
/// in the queue.
pub fn take_out<U: Uses>(p: &Package<U>, me: &mut Thread<U>, at: Object) -> bool
    requires of { me.old.table_id ≡ p.now.table_id }
    requires gate { IsGate at }
    requires named { HasObject p.now.layout at }
    requires inside { me.old.spin ≡ Some (object_of at) }
    requires clear { StandsAs (λ s. (s.at ≡ object_of at) × IsClear s.stage) me.old }
    ensures there { result ≡ mem me.old.number me.old.queue }
    ensures out { result ≡ true → me.new ≡ record me.old {
      part = record me.old.part {
        queue = less me.old.number me.old.queue;
        left = less me.old.number me.old.left;
        stand = None;
        turns = object_of at ∷ me.old.turns;
      };
    } }
    ensures same { result ≡ false → me.new ≡ me.old }
{
    leave::<TakeOut, U>(p, me, at)
}

/// Takes the first thread out of the queue and returns it. The caller then owes that thread its
/// ready word.
pub fn pop_queue<U: Uses>(p: &Package<U>, me: &mut Thread<U>, at: Object) -> Option<ThreadId>
    requires of { me.old.table_id ≡ p.now.table_id }
    requires named { HasObject p.now.layout at }
    requires inside { me.old.spin ≡ Some (object_of at) }
    requires may { MayPop at me.old }
    ensures none { result ≡ None → me.old.queue ≡ [] }
    ensures owes { result ≡ None → me.new.owed ≡ me.old.owed }
    ensures first { (t : ThreadId) → result ≡ Some t → (me.old.queue ≡ t.0 ∷ tail_of me.old.queue)
        × (me.new.owed ≡ me.old.owed ++ t.0 ∷ []) }
    ensures gate { IsGate at → me.new ≡ record me.old {
      part = record me.old.part {
        queue = tail_of me.old.queue;
        left = tail_of me.old.left;
        owed = me.new.owed;
        cleared = without (object_of at) me.old.cleared;
        looked = without (object_of at) me.old.looked;
      };
    } }
    ensures cond { IsCond at → me.new ≡ record me.old { part = record me.old.part { queue = tail_of me.old.queue; owed = me.new.owed } } }
{
    match at {
        Object::Mutex(_) | Object::Sem(_) => pop::<PopGate, U>(p, me, at),
        Object::Cond(_) => pop::<PopCond, U>(p, me, at),
    }
}

/// Looks at a bit. This is no atomic step of the rule: the view stays, and no clause speaks of the
/// result.
#[inline]
pub fn peek_bit<U: Uses>(p: &Package<U>, at: Object) -> u64
    requires { HasObject p.now.layout at }
{
    p.table.shared.peek(at.bit_word())
}
