//! The steps on the pen and on the number of the next event, in a traced package.
ghost use Rattle.std.specs.Prelude.{◌≡◌, ◌≢◌, ◌+◌, ◌++◌, ◌∷◌, [], ℕ, true, false};
ghost use Rattle.nub_rule.specs.declared.view.Pen.TheVariants.{No, Taken, Read, Made, Written};
ghost use Rattle.nub_rule.specs.Parts.{MayGivePen};
ghost use Rattle.nub_rule.specs.Stored.{ComesNext, KeepsRoom};

use crate::package::{Entry, Package, Thread};
use crate::places::{NUMBER, PEN};
use crate::plays::{GivePen, ReadNumber, TakePen, WriteNumber};
use crate::stepping::{compare_exchange, load, store, swap};
use crate::uses::Uses;
use larch_actions::Event;

/// Tries the pen once. It succeeds if it returns 0.
pub fn take_pen<U: Uses>(p: &Package<U>, me: &mut Thread<U>) -> u64
    requires of { me.old.table_id ≡ p.now.table_id }
    requires traced { p.now.traced ≡ true }
    requires out { me.old.pen ≡ No }
    ensures lost { result ≢ 0 → (result ≡ 1) × (me.new ≡ me.old) }
    ensures won { result ≡ 0 → me.new ≡ record me.old { part = record me.old.part { pen = Taken } } }
{
    compare_exchange::<TakePen, U>(&p.table, &mut me.seat, PEN, 0, 1)
}

/// Reads the number of the next event.
pub fn read_number<U: Uses>(p: &Package<U>, me: &mut Thread<U>) -> u64
    requires of { me.old.table_id ≡ p.now.table_id }
    requires taken { me.old.pen ≡ Taken }
    ensures { me.new ≡ record me.old { part = record me.old.part { pen = Read result }; next = result } }
{
    let found = load::<ReadNumber, U>(&p.table, &mut me.seat, NUMBER);
    me.next = found;
    found
}

/// Writes the number after the one of the event that was made.
pub fn write_number<U: Uses>(p: &Package<U>, me: &mut Thread<U>, number: u64)
    requires of { me.old.table_id ≡ p.now.table_id }
    requires made { (k : ℕ) × (me.old.pen ≡ Made k) × (number ≡ k + 1) }
    ensures { me.new ≡ record me.old { part = record me.old.part { pen = Written } } }
{
    store::<WriteNumber, U>(&p.table, &mut me.seat, NUMBER, number);
}

/// Gives the pen back.
pub fn give_pen<U: Uses>(p: &Package<U>, me: &mut Thread<U>) -> u64
    requires of { me.old.table_id ≡ p.now.table_id }
    requires may { MayGivePen me.old.pen }
    ensures found { result ≡ 1 }
    ensures out { me.new ≡ record me.old { part = record me.old.part { pen = No } } }
{
    swap::<GivePen, U>(&p.table, &mut me.seat, PEN, 0)
}

/// Returns the number that the thread last read.
pub fn next_number<U: Uses>(me: &Thread<U>) -> u64
    ensures { result ≡ me.now.next }
{
    me.next
}

/// Stores the thread's own event that comes next, under the number that was last read. If there is
/// no memory for it, marks the list as lost. This is no step.
#[inline]
pub fn store_event<U: Uses>(me: &mut Thread<U>, e: Event)
    requires { ComesNext e me.old }
    ensures kept { me.new ≡ record me.old { entries = me.new.entries; space = me.new.space } }
    ensures room { KeepsRoom me.old me.new }
    ensures stored { me.new.lost ≡ false → (me.old.lost ≡ false) × (me.new.entries ≡ me.old.entries ++ record {
      number = me.old.next;
      event = e;
    } ∷ []) }
{
    let entry = Entry {
        number: me.next,
        event: e,
    };
    if me.entries.push(entry).is_err() {
        me.lost = true;
    }
}
