//! P and V of a binary semaphore.
//!
//! Promises: each call adds exactly its event to those of its thread. Built on the lock bit with
//! its queue. Nothing is promised about waiting: not that a P ever returns, nor that any thread is
//! served before another.
#![tactic(auto)]

ghost use Rattle.std.specs.Prelude.{◌≡◌, ℕ, ◌<◌, []};
ghost use Rattle.nub_rule.specs.Plays.{p_event, v_event};
ghost use Rattle.nub.specs.Rest.{AtRest, Adds, IsSame};
ghost use Rattle.nub.specs.Holding.{IsHolding};
ghost use Rattle.nub.specs.Idle.{IsIdle};

use gate::{free, take};
use larch_actions::{Action, Event, SemId, ThreadId};
use nub_rule::{NoChange, Object, Package, Thread, Uses};
use std::sync::Wait;

/// Makes the semaphore unavailable as soon as it is available. A new semaphore is available.
///
/// Blocks while the semaphore is unavailable, for ever if no thread makes it available. Only a `v`
/// of the semaphore, by any thread, ends the wait, and then any waiting thread, or one that comes
/// later, may get it. Nobody owns a semaphore: a thread may call `p` twice in a row, and then waits
/// for another thread's `v`.
///
/// ```rust
/// p(rt, pkg, &mut me, SemId(0));
/// ```
#[inline]
pub fn p<U: Uses, R: Wait>(rt: &R, pkg: &Package<U>, me: &mut Thread<U>, s: SemId)
    requires rest { AtRest pkg.now me.old }
    requires named { s.0 < pkg.now.layout.semaphores }
    ensures rest { AtRest pkg.now me.new }
    ensures same { IsSame me.old me.new }
    ensures event { Adds [] (p_event me.old.number s.0) me.old me.new }
    ensures held { me.new.held ≡ me.old.held }
    ensures share { me.new.share ≡ me.old.share }
    ensures stints { me.new.stints ≡ me.old.stints }
    ensures idle { (n : ℕ) (s : U.Share) → IsIdle pkg.now n s me.old → IsIdle pkg.now n s me.new }
    ensures holding { (n m : ℕ) (s : U.Share) (x : U.Value) → IsHolding pkg.now n m s x me.old → IsHolding pkg.now n m s x me.new }
{
    let e = Event {
        thread: ThreadId(me.number()),
        action: Action::P { sem: s },
    };
    take(rt, pkg, me, Object::Sem(s), e);
}

/// Makes the semaphore available, and makes a thread that waits for it try again. Any thread may
/// call this. If the semaphore is available already, it stays so.
///
/// Waits for no other thread to do anything. Inside the package it may wait for a moment, as every
/// call may: for the spin word of the semaphore if a thread is in its queue, and in a traced
/// package for the turn to number the event.
///
/// ```rust
/// v(rt, pkg, &mut me, SemId(0));
/// ```
#[inline]
pub fn v<U: Uses, R: Wait>(rt: &R, pkg: &Package<U>, me: &mut Thread<U>, s: SemId)
    requires rest { AtRest pkg.now me.old }
    requires named { s.0 < pkg.now.layout.semaphores }
    ensures rest { AtRest pkg.now me.new }
    ensures same { IsSame me.old me.new }
    ensures event { Adds [] (v_event me.old.number s.0) me.old me.new }
    ensures held { me.new.held ≡ me.old.held }
    ensures share { me.new.share ≡ me.old.share }
    ensures stints { me.new.stints ≡ me.old.stints }
    ensures idle { (n : ℕ) (s : U.Share) → IsIdle pkg.now n s me.old → IsIdle pkg.now n s me.new }
    ensures holding { (n m : ℕ) (s : U.Share) (x : U.Value) → IsHolding pkg.now n m s x me.old → IsHolding pkg.now n m s x me.new }
{
    let e = Event {
        thread: ThreadId(me.number()),
        action: Action::V { sem: s },
    };
    free::<U, NoChange, R>(rt, pkg, me, Object::Sem(s), Some(e));
}
