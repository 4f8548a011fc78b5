//! Alert and TestAlert.
//!
//! Promises: each call adds exactly its event to those of its thread. Built on the alert words of
//! the Nub. Nothing is promised about when an alerted thread notices it.
#![tactic(auto)]

ghost use Rattle.std.specs.Prelude.{◌≡◌, ℕ, ◌<◌, []};
ghost use Rattle.nub_rule.specs.Plays.{alert_event, test_alert_event};
ghost use Rattle.nub.specs.Holding.{IsHolding};
ghost use Rattle.nub.specs.Idle.{IsIdle};
ghost use Rattle.nub.specs.Rest.{AtRest, Adds, IsSame};

use larch_actions::{Action, Event, ThreadId};
use nub::{begin_event, end_event};
use nub_rule::{Package, Thread, Uses, or_alert, swap_alert};
use std::sync::Wait;

/// Alerts the thread `t`, which may be the caller itself. If that thread waits in an alertable
/// call, or begins one later, the alert may end the call.
///
/// Doesn't block. In a traced package it may wait for a moment, for the turn to number the event.
///
/// ```rust
/// alert(rt, pkg, me, ThreadId(1));
/// ```
#[inline]
pub fn alert<U: Uses, R: Wait>(rt: &R, p: &Package<U>, me: &mut Thread<U>, t: ThreadId)
    requires rest { AtRest p.now me.old }
    requires named { t.0 < p.now.layout.threads }
    ensures rest { AtRest p.now me.new }
    ensures same { IsSame me.old me.new }
    ensures event { Adds [] (alert_event me.old.number t.0) me.old me.new }
    ensures held { me.new.held ≡ me.old.held }
    ensures share { me.new.share ≡ me.old.share }
    ensures stints { me.new.stints ≡ me.old.stints }
    ensures idle { (n : ℕ) (s : U.Share) → IsIdle p.now n s me.old → IsIdle p.now n s me.new }
    ensures holding { (n m : ℕ) (s : U.Share) (x : U.Value) → IsHolding p.now n m s x me.old → IsHolding p.now n m s x me.new }
{
    let e = Event {
        thread: ThreadId(me.number()),
        action: Action::Alert { who: t },
    };
    begin_event(rt, p, me);
    or_alert(p, me, t);
    end_event(p, me, Some(e));
}

/// Returns whether the calling thread was alerted, and clears the alert.
///
/// Doesn't block. In a traced package it may wait for a moment, for the turn to number the event.
///
/// ```rust
/// let still = test_alert(rt, pkg, &mut me);
/// ```
#[inline]
pub fn test_alert<U: Uses, R: Wait>(rt: &R, p: &Package<U>, me: &mut Thread<U>) -> bool
    requires rest { AtRest p.now me.old }
    ensures rest { AtRest p.now me.new }
    ensures same { IsSame me.old me.new }
    ensures event { Adds [] (test_alert_event me.old.number result) me.old me.new }
    ensures held { me.new.held ≡ me.old.held }
    ensures share { me.new.share ≡ me.old.share }
    ensures stints { me.new.stints ≡ me.old.stints }
    ensures idle { (n : ℕ) (s : U.Share) → IsIdle p.now n s me.old → IsIdle p.now n s me.new }
    ensures holding { (n m : ℕ) (s : U.Share) (x : U.Value) → IsHolding p.now n m s x me.old → IsHolding p.now n m s x me.new }
{
    begin_event(rt, p, me);
    let yes = swap_alert(p, me) == 1;
    let e = Event {
        thread: ThreadId(me.number()),
        action: Action::TestAlert { yes },
    };
    end_event(p, me, Some(e));
    yes
}
