//! How a thread comes to fork another: it takes in the right to do so, forks the thread, and hands
//! it out.
ghost use Rattle.std.specs.Prelude.{◌≡◌, ◌<◌, ◌≤◌, List, [], None};
ghost use Rattle.larch_actions.specs.declared.event.Event.{Event};
ghost use Rattle.larch_actions.specs.declared.event.Life.TheVariants.{Live};
ghost use Rattle.nub_rule.specs.declared.view.Child.TheVariants.{No, May, Forked};
ghost use Rattle.nub_rule.specs.Ends.{newborn_known};
ghost use Rattle.nub_rule.specs.Forks.{IsUnborn};
ghost use Rattle.nub_rule.specs.Places.{most_threads};
ghost use Rattle.nub_rule.specs.declared.view.Pen.TheVariants.{No as Penless};

use crate::package::{Entry, Package, Thread};
use crate::rule::{HandOut, Queue, TakeIn};
use crate::slots_at_hand::Hand;
use crate::uses::Uses;
use crossbeam_utils::sync::Parker;
use std::marker::Model;
use std::sync::Wait;

/// What a thread has beside its seat before it is forked.
#[derive(Drop)]
pub struct Body {
    number: u32,
    entries: Vec<Entry>,
    parker: Parker,
}

impl Model for Body {
    ghost use Rattle.std.specs.Prelude.{◌≡◌, ◌<◌, ℕ, []};
    ghost use Rattle.nub_rule.specs.Places.{most_threads};

    ghost Value = { ℕ };

    ghost view = { λ b. b.number };

    ghost invariant = { λ b. (b.entries.items ≡ []) × (0 < b.number) × (b.number < most_threads) };
}

/// Takes in the right to fork a thread. Returns what that thread has beside its seat.
pub fn take_right<U: Uses>(p: &Package<U>, me: &mut Thread<U>, child: Thread<U>) -> Body
    requires of { me.old.table_id ≡ p.now.table_id }
    requires from { child.table_id ≡ p.now.table_id }
    requires live { me.old.life ≡ Live }
    requires free { me.old.child ≡ No }
    requires unborn { IsUnborn U.begin child }
    ensures body { result ≡ child.number }
    ensures few { result < most_threads }
    ensures child { me.new ≡ record me.old { child = May child.number } }
{
    let Thread {
        number,
        hand: _,
        seat,
        entries,
        lost: _,
        next: _,
        parker,
        later: _,
        spin_tallies: _,
        room: _,
    } = child;
    p.table.shared.join_seat::<TakeIn>(&mut me.seat, seat);
    Body {
        number,
        entries,
        parker,
    }
}

/// Hands out the thread that was forked, with its first share and the history that ends with the
/// fork.
pub fn hand_out<U: Uses>(p: &Package<U>, me: &mut Thread<U>, body: Body) -> Thread<U>
    requires of { me.old.table_id ≡ p.now.table_id }
    requires forked { (seen : List Event) × (me.old.child ≡ Forked body seen) }
    ensures child { me.new ≡ record me.old { child = No } }
    ensures thread { (seen : List Event) → me.old.child ≡ Forked body seen
        → result ≡ newborn_known p.now.table_id me.old.version me.old.world U.begin body seen result.capacity }
    ensures few { p.now.layout.mutexes ≤ 64 }
{
    let Body {
        number,
        entries,
        parker,
    } = body;
    let seat = p.table.shared.split_seat::<HandOut<U>>(&mut me.seat);
    let room = Vec::new(*entries.allocator());
    Thread {
        number,
        hand: Hand::new(),
        seat,
        entries,
        lost: false,
        next: 0,
        parker,
        later: Queue::new(),
        spin_tallies: 0,
        room,
    }
}

/// Sleeps until another thread unparks this one, or for no reason; returns at once if an unparking
/// came before. Like `park`, this is no atomic step of the rule. The thread waits for the end of
/// another: it has no open call that a third might wait for, and hasn't the pen.
pub fn park_for_end<U: Uses, R: Wait>(rt: &R, me: &Thread<U>)
    requires outside { (me.now.spin ≡ None) × (me.now.stand ≡ None) × (me.now.wait ≡ None) }
    requires penless { me.now.pen ≡ Penless }
    requires looked { (me.now.turns ≡ []) × (me.now.cleared ≡ []) }
{
    me.parker.park(rt);
}
