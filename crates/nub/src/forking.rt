//! Threads that begin and end in the history: forking a thread, its own end, and waiting for the
//! end of another.
//!
//! Opening a package gives an `Unborn` for each thread but the first: the right to fork it. The end
//! of a thread leaves an `Ended`, which closing takes.
ghost use Rattle.std.specs.Prelude.{◌≡◌, ◌≢◌, ℕ, ◌<◌, [], true, IfOk, is_ok, Some};
ghost use Rattle.larch_actions.specs.declared.event.Version.TheVariants.{Two};
ghost use Rattle.nub_rule.specs.Forks.{IsOver};
ghost use Rattle.nub_rule.specs.Known.{HasNone};
ghost use Rattle.nub_rule.specs.Plays.{end_event as ending, fork_event, join_event};
ghost use Rattle.nub.specs.Forks.{IsBegun, IsLeft};
ghost use Rattle.nub.specs.Holding.{IsHolding};
ghost use Rattle.nub.specs.Idle.{IsIdle};
ghost use Rattle.nub.specs.Rest.{AtRest, Adds, IsSame};

use super::pen::{begin_event, end_event};
use larch_actions::{Action, Event, ThreadId};
use nub_rule::{
    Ended, Package, Thread, Unborn, Uses, end_life, fork_life, hand_out, park_for_end, read_life,
    take_right, unpark_all,
};
use std::sync::Wait;

/// Forks the thread whose right to begin is given. The new thread is another than the caller, has seen what the caller has, and has its first
/// share.
///
/// Always succeeds: all that the new thread needs was allocated when the package was opened. In a
/// traced package it may wait for a moment, for the turn to number the event.
///
/// ```rust
/// let Ok(child) = fork_thread(rt, pkg, me, right) else {
///     unreachable!()
/// };
/// ```
pub fn fork_thread<U: Uses, R: Wait>(
    rt: &R,
    p: &Package<U>,
    me: &mut Thread<U>,
    child: Unborn<U>,
) -> Result<Thread<U>, Unborn<U>>
    requires rest { AtRest p.now me.old }
    requires of { child.table_id ≡ p.now.table_id }
    requires named { child.number < p.now.layout.threads }
    ensures forks { is_ok result ≡ true }
    ensures rest { AtRest p.now me.new }
    ensures same { IsSame me.old me.new }
    ensures apart { child.number ≢ me.old.number }
    ensures event { Adds [] (fork_event me.old.number child.number) me.old me.new }
    ensures held { me.new.held ≡ me.old.held }
    ensures share { me.new.share ≡ me.old.share }
    ensures stints { me.new.stints ≡ me.old.stints }
    ensures idle { (n : ℕ) (s : U.Share) → IsIdle p.now n s me.old → IsIdle p.now n s me.new }
    ensures holding { (n m : ℕ) (s : U.Share) (x : U.Value) → IsHolding p.now n m s x me.old → IsHolding p.now n m s x me.new }
    ensures child { IfOk result (λ t. IsBegun p.now U.begin child.number me.new t) }
    ensures child_idle { IfOk result (λ t. me.old.world ≡ Some p.now.world
        → IsIdle p.now child.number (U.begin p.now.world child.number) t) }
{
    let who = ThreadId(child.number());
    let e = Event {
        thread: ThreadId(me.number()),
        action: Action::Fork { who },
    };
    let body = take_right(p, me, child.into_thread());
    begin_event(rt, p, me);
    fork_life(p, me, who);
    end_event(p, me, Some(e));
    Ok(hand_out(p, me, body))
}

/// Ends the thread, which must hold no mutex, and wakes the threads that wait for its end. Returns
/// what closing the package takes.
///
/// In a traced package it may wait for a moment, for the turn to number the event.
///
/// ```rust
/// end_thread(rt, pkg, me)
/// ```
pub fn end_thread<U: Uses, R: Wait>(rt: &R, p: &Package<U>, mut me: Thread<U>) -> Ended<U>
    requires rest { AtRest p.now me }
    requires none { HasNone me }
    requires version { p.now.layout.version ≡ Two }
    ensures event { Adds [] (ending me.number) me result }
    ensures same { IsSame me result }
    ensures share { result.share ≡ me.share }
    ensures stints { result.stints ≡ me.stints }
    ensures over { IsOver result }
    ensures left { IsLeft p.now result }
{
    let e = Event {
        thread: ThreadId(me.number()),
        action: Action::End,
    };
    begin_event(rt, p, &mut me);
    end_life(p, &mut me);
    end_event(p, &mut me, Some(e));
    // After the word was stored: a thread that wakes up reads it, and would park again if it weren't set yet. And after the pen was given
    // back, which a joiner needs to read the word.
    unpark_all(p, &me);
    Ended::of(me)
}

/// Waits for the end of the thread `who`, which must be another thread than the caller.
///
/// Blocks until it has read that this thread has ended, for ever if the thread never does.
///
/// ```rust
/// join_thread(rt, pkg, me, ThreadId(who));
/// ```
pub fn join_thread<U: Uses, R: Wait>(rt: &R, p: &Package<U>, me: &mut Thread<U>, who: ThreadId)
    requires rest { AtRest p.now me.old }
    requires named { who.0 < p.now.layout.threads }
    requires other { who.0 ≢ me.old.number }
    ensures rest { AtRest p.now me.new }
    ensures same { IsSame me.old me.new }
    ensures event { Adds [] (join_event me.old.number who.0) me.old me.new }
    ensures held { me.new.held ≡ me.old.held }
    ensures share { me.new.share ≡ me.old.share }
    ensures stints { me.new.stints ≡ me.old.stints }
    ensures idle { (n : ℕ) (s : U.Share) → IsIdle p.now n s me.old → IsIdle p.now n s me.new }
    ensures holding { (n m : ℕ) (s : U.Share) (x : U.Value) → IsHolding p.now n m s x me.old → IsHolding p.now n m s x me.new }
{
    for _ in rt.forever() {
        if try_join(rt, p, me, who) {
            return;
        }
        // Without the pen, which the other's end may need. An end stores the word first, gives the pen back, and unparks all then.
        park_for_end(rt, me);
    }
    unreachable!()
}

/// Reads once whether the thread `who` has ended, and returns that. If it has, this is the join.
fn try_join<U: Uses, R: Wait>(rt: &R, p: &Package<U>, me: &mut Thread<U>, who: ThreadId) -> bool
    requires rest { AtRest p.now me.old }
    requires named { who.0 < p.now.layout.threads }
    ensures rest { AtRest p.now me.new }
    ensures waits { result ≢ true → me.new ≡ record me.old { next = me.new.next } }
    ensures same { IsSame me.old me.new }
    ensures event { result ≡ true → Adds [] (join_event me.old.number who.0) me.old me.new }
    ensures held { me.new.held ≡ me.old.held }
    ensures share { me.new.share ≡ me.old.share }
    ensures stints { me.new.stints ≡ me.old.stints }
{
    let e = Event {
        thread: ThreadId(me.number()),
        action: Action::Join { who },
    };
    begin_event(rt, p, me);
    if read_life(p, me, who) == 2 {
        end_event(p, me, Some(e));
        return true;
    }
    end_event(p, me, None);
    false
}
