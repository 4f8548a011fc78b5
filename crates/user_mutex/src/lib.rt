//! Acquire and Release of a mutex, and the value that the mutex protects.
//!
//! Promises: each call adds exactly its events to those of its thread, and hands the value over.
//! Built on the lock bit with its queue. Nothing is promised about waiting: not that a thread ever
//! gets the mutex, nor that any thread is served before another.
#![tactic(auto)]

ghost use Rattle.std.specs.Prelude.{◌≡◌, ℕ, ◌<◌, ◌∷◌, [], slice_set, Some, None};
ghost use mathlib.Core.Option.{some};
ghost use lib.ListN.{get_elem?};
ghost use Rattle.std.specs.Fn.{FnOnceReturnsAtMut};
ghost use Rattle.nub_rule.specs.Known.{Holds};
ghost use Rattle.nub_rule.specs.Plays.{acquire_event, release_event};
ghost use Rattle.nub.specs.Rest.{AtRest, Adds, IsSame, LeavesStint};
ghost use Rattle.nub.specs.Holding.{IsHolding};
ghost use Rattle.nub.specs.Idle.{IsIdle};

use gate::{free, take};
use larch_actions::{Action, Event, MutexId, ThreadId};
use nub_rule::{Change, Object, Package, Thread, Uses, put_value, take_value};
use std::sync::Wait;

/// Acquires the mutex, and returns the value that it protects.
///
/// Blocks while another thread holds the mutex, for ever if that thread never releases it. Only a
/// `release` ends the wait, and then any waiting thread, or one that comes later, may get the
/// mutex. A thread must not call this for a mutex that it holds.
///
/// ```rust
/// let got = acquire(rt, pkg, me, m);
/// release::<SumUses, NoChange, R>(rt, pkg, me, m, got);
/// ```
#[inline(always)]
pub fn acquire<U: Uses, R: Wait>(rt: &R, p: &Package<U>, me: &mut Thread<U>, m: MutexId) -> U::Value
    requires rest { AtRest p.now me.old }
    requires named { m.0 < p.now.layout.mutexes }
    requires lacks { get_elem? me.old.held m.0 ≡ some None }
    ensures rest { AtRest p.now me.new }
    ensures same { IsSame me.old me.new }
    ensures event { Adds [] (acquire_event me.old.number m.0) me.old me.new }
    ensures holds { Holds me.new m.0 result }
    ensures held { me.new.held ≡ slice_set me.old.held m.0 (Some result) }
    ensures share { me.new.share ≡ me.old.share }
    ensures stints { me.new.stints ≡ me.old.stints }
    ensures fits { (w : U.World) (s : U.Share) → me.old.world ≡ Some w → me.old.share ≡ Some s → U.fits w m.0 result me.old.number s }
    ensures holding { (n : ℕ) (s : U.Share) → IsIdle p.now n s me.old
        → IsHolding p.now n m.0 s result me.new × U.fits p.now.world m.0 result n s }
{
    let e = Event {
        thread: ThreadId(me.number()),
        action: Action::Acquire { mutex: m },
    };
    take(rt, p, me, Object::Mutex(m), e);
    take_value(p, me, m)
}

/// Releases the mutex with this value, and makes a thread that waits for the mutex try again. Only
/// the thread that holds the mutex may call this.
///
/// Waits for no other thread to release anything. Inside the package it may wait for a moment, as
/// every call may: for the spin word of the mutex if a thread is in its queue, and in a traced
/// package for the turn to number the event.
///
/// ```rust
/// release::<SumUses, AddChange, R>(rt, pkg, &mut me, m, add_to(got, 5));
/// ```
#[inline(always)]
pub fn release<U: Uses, C: Change<U>, R: Wait>(
    rt: &R,
    p: &Package<U>,
    me: &mut Thread<U>,
    m: MutexId,
    value: U::Value,
)
    requires rest { AtRest p.now me.old }
    requires named { m.0 < p.now.layout.mutexes }
    requires may { (x : U.Value) × Holds me.old m.0 x
        × ((w : U.World) (s : U.Share) → me.old.world ≡ Some w → me.old.share ≡ Some s
        → U.allows w m.0 me.old.number x value s (C.after w m.0 me.old.number x value s)) }
    ensures rest { AtRest p.now me.new }
    ensures same { IsSame me.old me.new }
    ensures event { Adds [] (release_event me.old.number m.0) me.old me.new }
    ensures held { me.new.held ≡ slice_set me.old.held m.0 None }
    ensures share { (w : U.World) (s : U.Share) (x : U.Value) → me.old.world ≡ Some w → me.old.share ≡ Some s
        → Holds me.old m.0 x → me.new.share ≡ Some (C.after w m.0 me.old.number x value s) }
    ensures stint { LeavesStint C.after m.0 value me.old me.new }
    ensures idle { (n : ℕ) (s : U.Share) (x : U.Value) → IsHolding p.now n m.0 s x me.old
        → IsIdle p.now n (C.after p.now.world m.0 n x value s) me.new }
{
    put_value(p, me, m, value);
    let e = Event {
        thread: ThreadId(me.number()),
        action: Action::Release { mutex: m },
    };
    free::<U, C, R>(rt, p, me, Object::Mutex(m), Some(e));
}

/// Acquires the mutex, lets `f` work on its value, releases the mutex, and returns the result of
/// `f`.
///
/// Blocks as `acquire` does. While `f` runs, all other threads that want the mutex wait. A thread
/// must not call this for a mutex that it holds; `f` can't call it at all, since it doesn't get the
/// thread.
///
/// ```rust
/// locked::<Post, Leaves, (), _, R>(rt, p, me, MAIL, |mail| mail.senders -= 1);
/// ```
#[inline]
pub fn locked<U: Uses, C: Change<U>, X, F: FnOnce(&mut U::Value) -> X, R: Wait>(
    rt: &R,
    p: &Package<U>,
    me: &mut Thread<U>,
    m: MutexId,
    f: F,
) -> X
    requires rest { AtRest p.now me.old }
    requires named { m.0 < p.now.layout.mutexes }
    requires lacks { get_elem? me.old.held m.0 ≡ some None }
    requires callable { (x : _) → ((w : U.World) (s : U.Share) → me.old.world ≡ Some w → me.old.share ≡ Some s
        → U.fits w m.0 x.now me.old.number s) → F.pre f x }
    requires may { (x y : U.Value) (r : X) (w : U.World) (s : U.Share) → me.old.world ≡ Some w → me.old.share ≡ Some s
        → U.fits w m.0 x me.old.number s → FnOnceReturnsAtMut F.FnOnce f x r y
        → U.allows w m.0 me.old.number x y s (C.after w m.0 me.old.number x y s) }
    ensures rest { AtRest p.now me.new }
    ensures same { IsSame me.old me.new }
    ensures event { Adds (acquire_event me.old.number m.0 ∷ []) (release_event me.old.number m.0) me.old me.new }
    ensures held { me.new.held ≡ me.old.held }
    ensures answer { (x : U.Value) × (y : U.Value) × FnOnceReturnsAtMut F.FnOnce f x result y
        × ((w : U.World) (s : U.Share) → me.old.world ≡ Some w → me.old.share ≡ Some s → U.fits w m.0 x me.old.number s
        × (me.new.share ≡ Some (C.after w m.0 me.old.number x y s))) }
    ensures idle { (n : ℕ) (s : U.Share) → IsIdle p.now n s me.old → (x : U.Value) × (y : U.Value)
        × FnOnceReturnsAtMut F.FnOnce f x result y
        × U.fits p.now.world m.0 x n s × IsIdle p.now n (C.after p.now.world m.0 n x y s) me.new }
{
    let mut value = acquire(rt, p, me, m);
    let answer = f(&mut value);
    release::<U, C, R>(rt, p, me, m, value);
    answer
}
