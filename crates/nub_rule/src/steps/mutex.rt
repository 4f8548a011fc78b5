//! The steps on the bit of a mutex, and the moves of its value.
ghost use Rattle.std.specs.Prelude.{◌≡◌, ◌≢◌, ◌<◌, ◌∷◌, [], slice_set, Some, None, true};
ghost use mathlib.Core.Option.{some};
ghost use lib.ListN.{get_elem?};
ghost use Rattle.larch_actions.specs.Sets.{without};
ghost use Rattle.nub_rule.specs.declared.view.Wait.{Wait};
ghost use Rattle.nub_rule.specs.declared.view.WaitBit.TheVariants.{Closing, Open};
ghost use Rattle.nub_rule.specs.Known.{EntersStint, Holds, IsIn, IsOut, Makes, MayGive, PicksShare, learnt};
ghost use Rattle.nub_rule.specs.Parts.{MayRecord, made};
ghost use Rattle.nub_rule.specs.Plays.{MayTake, opened, quieted, release_event};

use crate::package::{Package, Thread};
use crate::places::{VALUES, mutex_bit};
use crate::plays::{ClearBit, ClearBitInWait, TakeBitQuiet, TryBit};
use crate::slots_at_hand::bring;
use crate::stepping::{compare_exchange, slot_mut, swap};
use crate::uses::{Change, Uses};
use crate::value_slot::{put_into, take_from};
use larch_actions::{Event, MutexId};

/// Tries the bit of m once. It succeeds if it returns 0, and is then the event e.
#[inline]
pub fn try_bit<U: Uses>(p: &Package<U>, me: &mut Thread<U>, m: MutexId, e: Event) -> u64
    requires of { me.old.table_id ≡ p.now.table_id }
    requires named { m.0 < p.now.layout.mutexes }
    requires outside { (me.old.spin ≡ None) × (me.old.stand ≡ None) }
    requires may { MayTake me.old.number m.0 me.old.wait e }
    requires pen { MayRecord p.now.traced me.old.life me.old.pen }
    ensures lost { result ≢ 0 → me.new ≡ record me.old {
      part = record me.old.part
          { failed = m.0 ∷ me.old.failed; turns = without m.0 me.old.turns };
    } }
    ensures event { result ≡ 0 → Makes e me.old me.new }
    ensures lacked { result ≡ 0 → get_elem? me.old.held m.0 ≡ some None }
    ensures won { result ≡ 0 → (x : U.Value) × Holds me.new m.0 x × IsIn me.new m.0 x
        × (me.new ≡ record me.old {
          part = record (learnt me.old.part me.new.part) {
            held = slice_set me.old.held m.0 (Some x);
            wait = None;
            failed = without m.0 me.old.failed;
            turns = without m.0 me.old.turns;
            pen = made me.old.pen;
          };
          values = slice_set me.old.values m.0 (Some (Some x));
        })
        × ((w : U.World) (s : U.Share) → me.old.world ≡ Some w → me.old.share ≡ Some s → U.fits w m.0 x me.old.number s) }
{
    let _event = e;
    let found = compare_exchange::<TryBit<U>, U>(&p.table, &mut me.seat, mutex_bit(m), 0, 1);
    if found == 0 {
        me.hand.take(VALUES + m.0 as u16);
    }
    found
}

/// Clears the bit of m, and hands the value over.
#[inline]
pub fn clear_bit<U: Uses, C: Change<U>>(p: &Package<U>, me: &mut Thread<U>, m: MutexId) -> u64
    requires of { me.old.table_id ≡ p.now.table_id }
    requires named { m.0 < p.now.layout.mutexes }
    requires outside { (me.old.wait ≡ None) × (me.old.stand ≡ None) }
    requires may { MayGive U.allows C.after m.0 me.old }
    requires pen { MayRecord p.now.traced me.old.life me.old.pen }
    ensures found { result ≡ 1 }
    ensures event { Makes (release_event me.old.number m.0) me.old me.new }
    ensures gone { me.new ≡ record me.old {
      part = record (learnt me.old.part me.new.part) {
        held = slice_set me.old.held m.0 None;
        share = me.new.share;
        stints = me.new.stints;
        cleared = m.0 ∷ me.old.cleared;
        pen = made me.old.pen;
      };
      values = slice_set me.old.values m.0 None;
    } }
    ensures share { PicksShare C.after m.0 me.old me.new }
    ensures stint { EntersStint C.after m.0 me.old me.new }
{
    prove!(m.0 < p.layout.mutexes);
    bring(&mut me.hand, &mut me.seat, VALUES + m.0 as u16);
    me.hand.give();
    swap::<ClearBit<U, C>, U>(&p.table, &mut me.seat, mutex_bit(m), 0)
}

/// Clears the bit of m, and hands the value over, in a wait on m that has yet to do so. This is no
/// event: nobody holds m from the start of the wait.
#[inline]
pub fn clear_bit_in_wait<U: Uses, C: Change<U>>(
    p: &Package<U>,
    me: &mut Thread<U>,
    m: MutexId,
) -> u64
    requires of { me.old.table_id ≡ p.now.table_id }
    requires named { m.0 < p.now.layout.mutexes }
    requires waits { (x : Wait) × (me.old.wait ≡ Some x) × (x.mutex.0 ≡ m.0) × (x.bit ≡ Closing) }
    requires outside { me.old.stand ≡ None }
    requires may { MayGive U.allows C.after m.0 me.old }
    ensures found { result ≡ 1 }
    ensures gone { me.new ≡ record me.old {
      part = record me.old.part {
        held = slice_set me.old.held m.0 None;
        share = me.new.share;
        stints = me.new.stints;
        wait = opened me.old.wait;
        cleared = m.0 ∷ me.old.cleared;
      };
      values = slice_set me.old.values m.0 None;
    } }
    ensures share { PicksShare C.after m.0 me.old me.new }
    ensures stint { EntersStint C.after m.0 me.old me.new }
{
    prove!(m.0 < p.layout.mutexes);
    bring(&mut me.hand, &mut me.seat, VALUES + m.0 as u16);
    me.hand.give();
    swap::<ClearBitInWait<U, C>, U>(&p.table, &mut me.seat, mutex_bit(m), 0)
}

/// Tries the bit of m once in an alertable wait on m, by a thread that found its alert word set. It
/// succeeds if it returns 0, and is no event: nobody holds m until the thread swaps its alert word.
#[inline]
pub fn take_bit_quiet<U: Uses>(p: &Package<U>, me: &mut Thread<U>, m: MutexId) -> u64
    requires of { me.old.table_id ≡ p.now.table_id }
    requires named { m.0 < p.now.layout.mutexes }
    requires outside { (me.old.spin ≡ None) × (me.old.stand ≡ None) }
    requires waits { (x : Wait) × (me.old.wait ≡ Some x) × (x.mutex.0 ≡ m.0) × (x.alertable ≡ true) × (x.bit ≡ Open) }
    requires alerted { me.old.alerted ≡ true }
    ensures lost { result ≢ 0 → me.new ≡ record me.old {
      part = record me.old.part
          { failed = m.0 ∷ me.old.failed; turns = without m.0 me.old.turns };
    } }
    ensures lacked { result ≡ 0 → get_elem? me.old.held m.0 ≡ some None }
    ensures won { result ≡ 0 → (x : U.Value) × Holds me.new m.0 x × IsIn me.new m.0 x
        × (me.new ≡ record me.old {
          part = record me.old.part {
            held = slice_set me.old.held m.0 (Some x);
            wait = quieted me.old.wait;
            failed = without m.0 me.old.failed;
            turns = without m.0 me.old.turns;
          };
          values = slice_set me.old.values m.0 (Some (Some x));
        })
        × ((w : U.World) (s : U.Share) → me.old.world ≡ Some w → me.old.share ≡ Some s → U.fits w m.0 x me.old.number s) }
{
    let found = compare_exchange::<TakeBitQuiet<U>, U>(&p.table, &mut me.seat, mutex_bit(m), 0, 1);
    if found == 0 {
        me.hand.take(VALUES + m.0 as u16);
    }
    found
}

/// Moves the value of m out of its slot.
#[inline]
pub fn take_value<U: Uses>(p: &Package<U>, me: &mut Thread<U>, m: MutexId) -> U::Value
    requires of { me.old.table_id ≡ p.now.table_id }
    requires named { m.0 < p.now.layout.mutexes }
    requires has { (x : U.Value) × IsIn me.old m.0 x }
    ensures value { IsIn me.old m.0 result }
    ensures out { me.new ≡ record me.old { values = slice_set me.old.values m.0 (Some None) } }
    ensures is_out { IsOut me.new m.0 }
{
    prove!(m.0 < p.layout.mutexes);
    bring(&mut me.hand, &mut me.seat, VALUES + m.0 as u16);
    take_from(slot_mut(
        &mut me.seat,
        &p.table.shared,
        VALUES as usize + m.0 as usize,
    ))
}

/// Moves a value into the slot of m.
#[inline]
pub fn put_value<U: Uses>(p: &Package<U>, me: &mut Thread<U>, m: MutexId, value: U::Value)
    requires of { me.old.table_id ≡ p.now.table_id }
    requires named { m.0 < p.now.layout.mutexes }
    requires out { IsOut me.old m.0 }
    ensures value { me.new ≡ record me.old { values = slice_set me.old.values m.0 (Some (Some value)) } }
    ensures is_in { IsIn me.new m.0 value }
{
    prove!(m.0 < p.layout.mutexes);
    bring(&mut me.hand, &mut me.seat, VALUES + m.0 as u16);
    put_into(
        slot_mut(
            &mut me.seat,
            &p.table.shared,
            VALUES as usize + m.0 as usize,
        ),
        value,
    );
}
