//! The pen: in a traced package, a thread must have it to make a step that may be an event.
ghost use Rattle.std.specs.Prelude.{◌≡◌, ◌≢◌, ◌<◌, ℕ, ◌++◌, ◌∷◌, [], Some, None, true, false};
ghost use Rattle.larch_actions.specs.declared.event.Event.{Event};
ghost use Rattle.larch_actions.specs.declared.event.Life.TheVariants.{Live};
ghost use Rattle.nub_rule.specs.declared.view.Pen.TheVariants.{No, Taken, Read, Made};
ghost use Rattle.nub_rule.specs.Stored.{ComesNext, KeepsRoom};
ghost use Rattle.nub_rule.specs.Parts.{MayRecord};

use crossbeam_utils::Backoff;
use larch_actions::Event;
use nub_rule::{
    Package, Thread, Uses, give_pen, next_number, read_number, store_event, take_pen, write_number,
};
use std::sync::Wait;

/// In a traced package takes the pen and reads the number of the next event; spins while another
/// thread has the pen. In an untraced package does nothing.
#[inline]
pub fn begin_event<U: Uses, R: Wait>(rt: &R, p: &Package<U>, me: &mut Thread<U>)
    requires of { me.old.table_id ≡ p.now.table_id }
    requires out { me.old.pen ≡ No }
    requires live { me.old.life ≡ Live }
    ensures pen { me.new ≡ record me.old { part = record me.old.part { pen = me.new.pen }; next = me.new.next } }
    ensures traced { MayRecord p.now.traced me.new.life me.new.pen }
    ensures number { p.now.traced ≡ true → me.new.pen ≡ Read me.new.next }
    ensures untraced { p.now.traced ≡ false → me.new ≡ me.old }
{
    if p.traced() {
        begin_traced(rt, p, me);
    }
}

/// In a traced package stores the event that was made, the thread's last, with its number, and
/// gives the pen back. In an untraced package does nothing.
#[inline]
pub fn end_event<U: Uses>(p: &Package<U>, me: &mut Thread<U>, made: Option<Event>)
    requires of { me.old.table_id ≡ p.now.table_id }
    requires pen { p.now.traced ≡ true → (me.old.next < 18446744073709551615) × (made ≡ None → me.old.pen ≡ Read me.old.next)
        × ((e : Event) → made ≡ Some e → me.old.pen ≡ Made me.old.next) }
    requires out { p.now.traced ≡ false → me.old.pen ≡ No }
    requires last { p.now.traced ≡ true → (e : Event) → made ≡ Some e → ComesNext e me.old }
    ensures rest { me.new ≡ record me.old { part = record me.old.part { pen = No }; entries = me.new.entries; space = me.new.space } }
    ensures untraced { p.now.traced ≡ false → me.new ≡ me.old }
    ensures none { made ≡ None → (me.new.entries ≡ me.old.entries) × (me.new.space ≡ me.old.space) }
    ensures room { KeepsRoom me.old me.new }
    ensures stored { (e : Event) → made ≡ Some e → p.now.traced ≡ true → me.new.lost ≡ false → (me.old.lost ≡ false)
        × (me.new.entries ≡ me.old.entries ++ record { number = me.old.next; event = e } ∷ []) }
{
    if p.traced() {
        end_traced(p, me, made);
    }
}

#[cold]
#[inline(never)]
fn begin_traced<U: Uses, R: Wait>(rt: &R, p: &Package<U>, me: &mut Thread<U>)
    requires of { me.old.table_id ≡ p.now.table_id }
    requires traced { p.now.traced ≡ true }
    requires out { me.old.pen ≡ No }
    ensures read { me.new ≡ record me.old { part = record me.old.part { pen = Read me.new.next }; next = me.new.next } }
    ensures below { me.new.next < 18446744073709551615 }
{
    let backoff = Backoff::new();
    for _ in rt.forever() {
        if take_pen(p, me) == 0 {
            if read_number(p, me) < u64::MAX {
                return;
            }
            // There is no number left for an event. The pen goes back, since no thread may wait
            // while it has it.
            give_pen(p, me);
        }
        // Pauses at first, and then gives the processor up: the thread with the pen may be waiting
        // for it.
        backoff.snooze();
    }
    unreachable!()
}

fn end_traced<U: Uses>(p: &Package<U>, me: &mut Thread<U>, made: Option<Event>)
    requires of { me.old.table_id ≡ p.now.table_id }
    requires below { me.old.next < 18446744073709551615 }
    requires pen { (made ≡ None → me.old.pen ≡ Read me.old.next) × ((e : Event) → made ≡ Some e → me.old.pen ≡ Made me.old.next) }
    requires last { (e : Event) → made ≡ Some e → ComesNext e me.old }
    ensures rest { me.new ≡ record me.old { part = record me.old.part { pen = No }; entries = me.new.entries; space = me.new.space } }
    ensures none { made ≡ None → (me.new.entries ≡ me.old.entries) × (me.new.space ≡ me.old.space) }
    ensures room { KeepsRoom me.old me.new }
    ensures stored { (e : Event) → made ≡ Some e → me.new.lost ≡ false → (me.old.lost ≡ false)
        × (me.new.entries ≡ me.old.entries ++ record { number = me.old.next; event = e } ∷ []) }
{
    if let Some(event) = made {
        // Stored before the number is written: until the pen goes back, the number that was read
        // belongs to this event.
        store_event(me, event);
        let number = next_number(me);
        write_number(p, me, number + 1);
    }
    give_pen(p, me);
}
