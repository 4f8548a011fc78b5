//! The calls of the barrier, the sum and the once cell.
ghost use Rattle.std.specs.Prelude.{◌≡◌, ◌+◌, ◌*◌, ◌<◌, ◌≤◌, ℕ, None, Some};
ghost use mathlib.Core.Option.{some};
ghost use lib.ListN.{get_elem?};
ghost use Rattle.nub.specs.Rest.{AtRest, IsSame};
ghost use Rattle.barrier_once.specs.Calls.{Arrived, Enters, HasAgreed, HasLeft, IsAtBar, IsFitting, IsPlaced, Visited};
ghost use Rattle.barrier_once.specs.Cells.{arrived_of, once_of, sum_of};
ghost use Rattle.barrier_once.specs.declared.cell.Cell.{Cell};
ghost use Rattle.barrier_once.specs.declared.cell.Cell.TheVariants.{Once, Sum};
ghost use Rattle.barrier_once.specs.declared.share.RoundShare.{RoundShare};
ghost use Rattle.barrier_once.specs.Rounds.{MayAdd, MayArrive, added_share, agreed_share, passed_share, triangle};

use crate::cell::{Cell, RoundAt};
use crate::round_uses::{AddsOwn, Agrees, Arrives, Leaves, Passes, RoundUses};
use condition::{broadcast, wait};
use nub_rule::{NoChange, Package, Thread};
use std::sync::Wait;
use user_mutex::{acquire, release};

/// Arrives at the barrier, and leaves it once every thread has arrived as often. Returns how often
/// this thread had arrived before.
///
/// Blocks until then, for ever if a thread doesn't come. A thread may arrive at most 2,000 times,
/// and must have added to the sum before each first of two arrivals.
///
/// ```rust
/// let at = places();
/// add_own(rt, p, me, &at);
/// let _ = arrive(rt, p, me, &at);
/// ```
pub fn arrive<R: Wait>(
    rt: &R,
    p: &Package<RoundUses>,
    me: &mut Thread<RoundUses>,
    at: &RoundAt,
) -> u64
    requires rest { AtRest p.now me.old }
    requires placed { IsPlaced p.now at.now }
    requires lacks { get_elem? me.old.held at.now.bar.0 ≡ some None }
    requires world { me.old.world ≡ Some p.now.world }
    requires share { (s : RoundShare) × (me.old.share ≡ Some s) × MayArrive me.old.number s }
    ensures rest { AtRest p.now me.new }
    ensures same { IsSame me.old me.new }
    ensures ran { (s : RoundShare) → me.old.share ≡ Some s → Arrived me.old.number at.now.bar.0 at.now.cond.0 s me.old me.new }
    ensures held { me.new.held ≡ me.old.held }
    ensures answer { (s : RoundShare) → me.old.share ≡ Some s → result ≡ s.arrivals }
    ensures share { (s : RoundShare) → me.old.share ≡ Some s → me.new.share ≡ Some (passed_share s) }
{
    let bar = acquire(rt, p, me, at.bar);
    let round = bar.round();
    stay(rt, p, me, at, bar);
    round
}

// Arrives at the bar, which the thread holds, and releases it when the round is over.
fn stay<R: Wait>(
    rt: &R,
    p: &Package<RoundUses>,
    me: &mut Thread<RoundUses>,
    at: &RoundAt,
    bar: Cell,
)
    requires { (s : RoundShare) × IsAtBar p.now at.now bar s me.old }
    ensures { (s : RoundShare) → IsAtBar p.now at.now bar s me.old → HasLeft p.now at.now s me.old me.new }
{
    if bar.arrived() + 1 == p.layout().threads {
        pass_last(rt, p, me, at, bar);
    } else {
        await_round(rt, p, me, at, bar);
    }
}

// Arrives last: begins the next round, and wakes all others.
fn pass_last<R: Wait>(
    rt: &R,
    p: &Package<RoundUses>,
    me: &mut Thread<RoundUses>,
    at: &RoundAt,
    bar: Cell,
)
    requires bar { (s : RoundShare) × IsAtBar p.now at.now bar s me.old }
    requires last { arrived_of bar + 1 ≡ p.now.world.parties }
    ensures { (s : RoundShare) → IsAtBar p.now at.now bar s me.old → HasLeft p.now at.now s me.old me.new }
{
    // Before the mutex is released: a woken thread is unparked once that has happened, and finds
    // the mutex free.
    broadcast(rt, p, me, at.cond);
    let next = Cell::Bar {
        round: bar.round() + 1,
        arrived: 0,
    };
    release::<RoundUses, Passes, R>(rt, p, me, at.bar, next);
}

// Arrives, but not last: waits until the round is over, and leaves.
fn await_round<R: Wait>(
    rt: &R,
    p: &Package<RoundUses>,
    me: &mut Thread<RoundUses>,
    at: &RoundAt,
    bar: Cell,
)
    requires bar { (s : RoundShare) × IsAtBar p.now at.now bar s me.old }
    requires more_come { arrived_of bar + 1 < p.now.world.parties }
    ensures { (s : RoundShare) → IsAtBar p.now at.now bar s me.old → HasLeft p.now at.now s me.old me.new }
{
    let round = bar.round();
    let mine = Cell::Bar {
        round,
        arrived: bar.arrived() + 1,
    };
    let mut seen = wait::<RoundUses, Arrives, R>(rt, p, me, at.bar, at.cond, mine);
    for _ in rt.forever() {
        if seen.round() > round {
            release::<RoundUses, Leaves, R>(rt, p, me, at.bar, seen);
            return;
        }
        seen = wait::<RoundUses, NoChange, R>(rt, p, me, at.bar, at.cond, seen);
    }
    unreachable!()
}

/// Adds the thread's number and 1 to the sum. A thread adds once before each first of two arrivals.
///
/// Blocks while another thread holds the mutex of the sum.
///
/// ```rust
/// let at = places();
/// add_own(rt, p, me, &at);
/// let _ = arrive(rt, p, me, &at);
/// ```
pub fn add_own<R: Wait>(rt: &R, p: &Package<RoundUses>, me: &mut Thread<RoundUses>, at: &RoundAt)
    requires rest { AtRest p.now me.old }
    requires placed { IsPlaced p.now at.now }
    requires lacks { get_elem? me.old.held at.now.sum.0 ≡ some None }
    requires world { me.old.world ≡ Some p.now.world }
    requires share { (s : RoundShare) × (me.old.share ≡ Some s) × MayAdd me.old.number s }
    ensures rest { AtRest p.now me.new }
    ensures same { IsSame me.old me.new }
    ensures ran { Visited me.old.number at.now.sum.0 me.old me.new }
    ensures held { me.new.held ≡ me.old.held }
    ensures share { (s : RoundShare) → me.old.share ≡ Some s → me.new.share ≡ Some (added_share me.old.number s) }
    ensures stint { (s : RoundShare) → me.old.share ≡ Some s → (x : Cell) × Enters me.old.number at.now.sum.0 x
        (Sum (sum_of x + (me.old.number + 1))) s (added_share me.old.number s) me.old me.new }
{
    let sum = acquire(rt, p, me, at.sum).sum();
    let own = u64::from(me.number()) + 1;
    release::<RoundUses, AddsOwn, R>(rt, p, me, at.sum, Cell::Sum(sum + own));
}

/// Returns the sum of what all threads have added so far, between the first and the second of two
/// arrivals, when no thread may add.
///
/// Blocks while another thread holds the mutex of the sum.
///
/// ```rust
/// let at = places();
/// total(rt, p, me, &at)
/// ```
pub fn total<R: Wait>(
    rt: &R,
    p: &Package<RoundUses>,
    me: &mut Thread<RoundUses>,
    at: &RoundAt,
) -> u64
    requires rest { AtRest p.now me.old }
    requires placed { IsPlaced p.now at.now }
    requires lacks { get_elem? me.old.held at.now.sum.0 ≡ some None }
    requires world { me.old.world ≡ Some p.now.world }
    requires share { (s : RoundShare) × (j : ℕ) × (me.old.share ≡ Some s) × (s.left ≡ s.arrivals) × (s.arrivals ≡ 2 * j + 1) }
    ensures rest { AtRest p.now me.new }
    ensures same { IsSame me.old me.new }
    ensures ran { Visited me.old.number at.now.sum.0 me.old me.new }
    ensures held { me.new.held ≡ me.old.held }
    ensures share { me.new.share ≡ me.old.share }
    ensures stint { (s : RoundShare) → me.old.share ≡ Some s → (x : Cell) × Enters me.old.number at.now.sum.0 x x s s me.old me.new }
    ensures answer { (s : RoundShare) (j : ℕ) → me.old.share ≡ Some s → s.arrivals ≡ 2 * j + 1
        → result ≡ (j + 1) * triangle p.now.world.parties }
{
    let cell = acquire(rt, p, me, at.sum);
    release::<RoundUses, NoChange, R>(rt, p, me, at.sum, cell);
    cell.sum()
}

// Returns the value found, or what `f` returns if there is none.
fn found_or<F: FnOnce() -> u64 + Drop>(found: Option<u64>, f: F) -> u64
    requires { F.pre f }
    ensures none { found ≡ None → F.post f result }
    ensures some { (v : ℕ) → found ≡ Some v → result ≡ v }
{
    match found {
        Some(value) => value,
        None => f(),
    }
}

/// Returns the value in the once cell. If the cell is empty, the value that f returns is put there first, and the thread has offered it.
///
/// Blocks while another thread has the mutex of the cell, and while f runs all others wait for it. That f isn't called on a full cell is
/// said by no clause.
///
/// ```rust
/// let _ = agree(rt, p, me, &at, || own);
/// ```
pub fn agree<F: FnOnce() -> u64 + Drop, R: Wait>(
    rt: &R,
    p: &Package<RoundUses>,
    me: &mut Thread<RoundUses>,
    at: &RoundAt,
    f: F,
) -> u64
    requires rest { AtRest p.now me.old }
    requires placed { IsPlaced p.now at.now }
    requires lacks { get_elem? me.old.held at.now.once.0 ≡ some None }
    requires world { me.old.world ≡ Some p.now.world }
    requires share { (s : RoundShare) × (me.old.share ≡ Some s) }
    requires callable { F.pre f }
    requires within { (v : ℕ) → F.post f v → (1 ≤ v) × (v ≤ p.now.world.most) }
    ensures rest { AtRest p.now me.new }
    ensures same { IsSame me.old me.new }
    ensures ran { Visited me.old.number at.now.once.0 me.old me.new }
    ensures held { me.new.held ≡ me.old.held }
    ensures share { (s : RoundShare) → me.old.share ≡ Some s
        → (r : RoundShare) × (me.new.share ≡ Some r) × HasAgreed (F.post f) result s r }
    ensures stint { (s : RoundShare) → me.old.share ≡ Some s → (x : Cell) × (once_of x ≡ None → F.post f result)
        × Enters me.old.number at.now.once.0 x (Once (Some result)) s (agreed_share x (Once (Some result)) s) me.old me.new }
    ensures fits { (s : RoundShare) → me.old.share ≡ Some s → IsFitting p.now.world s result }
{
    let cell = acquire(rt, p, me, at.once);
    let value = found_or(cell.once(), f);
    release::<RoundUses, Agrees, R>(rt, p, me, at.once, Cell::Once(Some(value)));
    value
}
