//! The numbers of the slots that a thread has. The slot that is needed is turned to the front.
ghost use Rattle.std.specs.Prelude.{◌≡◌, ℕ, [], ◌∷◌, ◌<◌, map, length, Some, None, false};
ghost use Rattle.atomic_table.specs.Table.{rest};
ghost use Rattle.nub_rule.specs.Slots.{find, IsDistinct, Below, turned_hand, starts_with};

use arrayvec::ArrayVec;
use atomic_table::Seat;
use std::marker::Model;

/// The numbers of the slots that a seat has. The last one taken is kept apart, so that a thread
/// with one slot moves nothing.
#[derive(Drop)]
pub struct Hand {
    top: Option<u16>,
    below: ArrayVec<u16, 256>,
}

impl Model for Hand {
    ghost use Rattle.std.specs.Prelude.{◌≡◌, List, ℕ, [], None};
    ghost use Rattle.nub_rule.specs.Slots.{hand_of};

    ghost Value = { List ℕ };

    ghost view = { λ h. hand_of h.top h.below.items };

    ghost invariant = { λ h. h.top ≡ None → h.below.items ≡ [] };
}

impl Hand {
    ghost use Rattle.std.specs.Prelude.{◌≡◌, [], ◌∷◌, ◌<◌, ◌≤◌, length};
    ghost use Rattle.larch_actions.specs.Sets.{mem};
    ghost use Rattle.nub_rule.specs.Slots.{past_first, turned_hand, starts_with};

    pub fn new() -> Hand
        ensures { result ≡ [] }
    {
        Hand {
            top: None,
            below: ArrayVec::new(),
        }
    }

    #[inline]
    pub fn starts_with(&self, slot: u16) -> bool
        ensures { result ≡ starts_with self.now slot }
    {
        self.top == Some(slot)
    }

    /// Returns whether the slot is at hand.
    pub fn has(&self, slot: u16) -> bool
        ensures { result ≡ mem slot self.now }
    {
        if self.top == Some(slot) {
            return true;
        }
        for i in 0..self.below.len() {
            if self.below[i] == slot {
                return true;
            }
        }
        false
    }

    /// Puts a slot in front.
    #[inline]
    pub fn take(&mut self, slot: u16)
        requires { length self.old < 256 }
        ensures { self.new ≡ slot ∷ self.old }
    {
        if let Some(top) = self.top {
            self.below.push(top);
        }
        self.top = Some(slot);
    }

    /// Drops the first slot.
    #[inline]
    pub fn give(&mut self)
        ensures { self.new ≡ past_first self.old }
    {
        self.top = self.below.pop();
    }

    /// Moves the first slot to the end.
    #[cold]
    #[inline(never)]
    pub fn turn(&mut self)
        requires { length self.old ≤ 256 }
        ensures { self.new ≡ turned_hand self.old }
    {
        let Some(top) = self.top else {
            return;
        };
        if let Some(next) = self.below.pop() {
            self.below.insert(0, top);
            self.top = Some(next);
        }
    }
}

/// Turns the slots until the one with this number is first.
#[inline]
pub fn bring<S, V>(hand: &mut Hand, seat: &mut Seat<S, V>, slot: u16)
    requires keys { map (λ x. x.0) seat.old.me.1 ≡ hand.old }
    requires distinct { IsDistinct seat.old.me.1 }
    requires below { Below 256 seat.old.me.1 }
    requires there { (x : S) × (find slot seat.old.me.1 ≡ Some x) }
    ensures keys { map (λ x. x.0) seat.new.me.1 ≡ hand.new }
    ensures distinct { IsDistinct seat.new.me.1 }
    ensures below { Below 256 seat.new.me.1 }
    ensures same { (seat.new.table_id ≡ seat.old.table_id) × (seat.new.id ≡ seat.old.id) × (seat.new.me.0 ≡ seat.old.me.0) }
    ensures hand { (k : ℕ) → find k seat.new.me.1 ≡ find k seat.old.me.1 }
    ensures first { (x : S) → find slot seat.old.me.1 ≡ Some x → seat.new.me.1 ≡ (slot, x) ∷ rest seat.new.me.1 }
{
    while !hand.starts_with(slot) {
        hand.turn();
        seat.turn();
    }
}
