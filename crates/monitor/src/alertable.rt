//! The calls of a monitor that an alert may end.
ghost use Rattle.std.specs.Prelude.{◌≡◌, ℕ, ◌<◌, ◌∷◌, ◌++◌, slice_set, IfSome, MatchOption, Some, None, true, false};
ghost use Rattle.std.specs.Fn.{FnOnceReturnsAtMut, FnReturnsAt};
ghost use mathlib.Core.Option.{some};
ghost use lib.ListN.{get_elem?};
ghost use Rattle.alert_wait.specs.declared.outcome.Outcome.TheVariants.{Returned};
ghost use Rattle.monitor.specs.Waits.{AreRefused, IsRefused, alert_waits, all_waits, last_wait, outcome_of};
ghost use Rattle.nub_rule.specs.Known.{Holds};
ghost use Rattle.nub_rule.specs.Plays.{acquire_event, release_event};
ghost use Rattle.nub.specs.Holding.{IsHolding};
ghost use Rattle.nub.specs.Idle.{IsIdle};
ghost use Rattle.nub.specs.Rest.{Added, Adds, AtRest, IsSame};

use alert_wait::{Outcome, alert_wait};
use larch_actions::{CondId, MutexId};
use nub_rule::{Change, NoChange, Package, Thread, Uses};
use std::sync::Wait;
use user_mutex::{acquire, release};

/// Waits as `wait_until` does, unless an alert of the thread ends the wait. Returns how it ended,
/// and the value. If an alert ended it, the value may be one that the test rejects, and the alert
/// is cleared.
///
/// The thread must hold the mutex, and holds it again afterwards, however the wait ended.
///
/// ```rust
/// let got = acquire(rt, p, me, m);
/// let (outcome, mut value) = alert_wait_until(rt, p, me, m, c, got, test);
/// ```
pub fn alert_wait_until<U: Uses, T: Fn(&U::Value) -> bool, R: Wait>(
    rt: &R,
    p: &Package<U>,
    me: &mut Thread<U>,
    m: MutexId,
    c: CondId,
    got: U::Value,
    test: &T,
) -> (Outcome, U::Value)
    requires rest { AtRest p.now me.old }
    requires named { (m.0 < p.now.layout.mutexes) × (c.0 < p.now.layout.conditions) }
    requires world { me.old.world ≡ Some p.now.world }
    requires share { (s : U.Share) × (me.old.share ≡ Some s) }
    requires holds { Holds me.old m.0 got }
    requires fits { (s : U.Share) → me.old.share ≡ Some s → U.fits p.now.world m.0 got me.old.number s }
    requires testable { (x : _) → ((s : U.Share) → me.old.share ≡ Some s → U.fits p.now.world m.0 x.now me.old.number s)
        → T.pre test.now x }
    requires stays { (x : U.Value) (s : U.Share) → me.old.share ≡ Some s → U.fits p.now.world m.0 x me.old.number s
        → U.allows p.now.world m.0 me.old.number x x s s }
    ensures tested { result.0 ≡ Returned → FnReturnsAt T.Fn test.now result.1 true }
    ensures rest { AtRest p.now me.new }
    ensures same { IsSame me.old me.new }
    ensures event { (k : ℕ) × Added (alert_waits me.old.number m.0 c.0 k ++ last_wait me.old.number m.0 c.0 result.0) me.old me.new
        × IsRefused (λ x. FnReturnsAt T.Fn test.now x false) got (all_waits result.0 k) result.1 }
    ensures holds { Holds me.new m.0 result.1 }
    ensures held { me.new.held ≡ slice_set me.old.held m.0 (Some result.1) }
    ensures share { me.new.share ≡ me.old.share }
    ensures fits { (s : U.Share) → me.old.share ≡ Some s → U.fits p.now.world m.0 result.1 me.old.number s }
    ensures holding { (n : ℕ) (s : U.Share) (x : U.Value) → IsHolding p.now n m.0 s x me.old
        → IsHolding p.now n m.0 s result.1 me.new × U.fits p.now.world m.0 result.1 n s }
{
    let mut value = got;
    for _ in rt.forever() {
        if test(&value) {
            return (Outcome::Returned, value);
        }
        let (outcome, next) = alert_wait::<U, NoChange, R>(rt, p, me, m, c, value);
        match outcome {
            Outcome::Returned => value = next,
            Outcome::Alerted => return (Outcome::Alerted, next),
        }
    }
    unreachable!()
}

/// Does what `locked_when` does, unless an alert of the thread ends the wait. Then `f` isn't
/// called, the mutex is released with its value unchanged, the alert is cleared, and the call
/// returns `None`.
///
/// Blocks as `acquire` and `alert_wait` do.
///
/// ```rust
/// let answer = alert_locked_when::<SumUses, NoChange, u64, _, _, R>(
///     rt,
///     pkg,
///     me,
///     MutexId(0),
///     CondId(0),
///     &|_sum: &u64| accepts,
///     |sum: &mut u64| *sum,
/// );
/// answer.is_some()
/// ```
pub fn alert_locked_when<
    U: Uses,
    C: Change<U>,
    X,
    T: Fn(&U::Value) -> bool,
    F: FnOnce(&mut U::Value) -> X + Drop,
    R: Wait,
>(rt: &R, p: &Package<U>, me: &mut Thread<U>, m: MutexId, c: CondId, test: &T, f: F) -> Option<X>
    requires rest { AtRest p.now me.old }
    requires named { (m.0 < p.now.layout.mutexes) × (c.0 < p.now.layout.conditions) }
    requires lacks { get_elem? me.old.held m.0 ≡ some None }
    requires world { me.old.world ≡ Some p.now.world }
    requires share { (s : U.Share) × (me.old.share ≡ Some s) }
    requires testable { (x : _) → ((s : U.Share) → me.old.share ≡ Some s → U.fits p.now.world m.0 x.now me.old.number s)
        → T.pre test.now x }
    requires stays { (x : U.Value) (s : U.Share) → me.old.share ≡ Some s → U.fits p.now.world m.0 x me.old.number s
        → U.allows p.now.world m.0 me.old.number x x s s }
    requires callable { (x : _) → ((s : U.Share) → me.old.share ≡ Some s → U.fits p.now.world m.0 x.now me.old.number s)
        → FnReturnsAt T.Fn test.now x.now true → F.pre f x }
    requires may { (x y : U.Value) (r : X) (s : U.Share) → me.old.share ≡ Some s → U.fits p.now.world m.0 x me.old.number s
        → FnReturnsAt T.Fn test.now x true → FnOnceReturnsAtMut F.FnOnce f x r y
        → U.allows p.now.world m.0 me.old.number x y s (C.after p.now.world m.0 me.old.number x y s) }
    ensures rest { AtRest p.now me.new }
    ensures same { IsSame me.old me.new }
    ensures event { (k : ℕ) × Adds (acquire_event me.old.number m.0 ∷ (alert_waits me.old.number m.0 c.0 k
        ++ last_wait me.old.number m.0 c.0 (outcome_of result))) (release_event me.old.number m.0) me.old me.new
        × AreRefused (λ x. FnReturnsAt T.Fn test.now x false) (all_waits (outcome_of result) k) }
    ensures held { me.new.held ≡ me.old.held }
    ensures alerted { result ≡ None → me.new.share ≡ me.old.share }
    ensures answer { IfSome result (λ r. (x : U.Value) × (y : U.Value) × FnReturnsAt T.Fn test.now x true
        × FnOnceReturnsAtMut F.FnOnce f x r y × ((s : U.Share) → me.old.share ≡ Some s → U.fits p.now.world m.0 x me.old.number s
        × (me.new.share ≡ Some (C.after p.now.world m.0 me.old.number x y s)))) }
    ensures idle { (n : ℕ) (s : U.Share) → IsIdle p.now n s me.old → MatchOption result (IsIdle p.now n s me.new)
        (λ r. (x : U.Value) × (y : U.Value) × FnReturnsAt T.Fn test.now x true × FnOnceReturnsAtMut F.FnOnce f x r y
        × U.fits p.now.world m.0 x n s × IsIdle p.now n (C.after p.now.world m.0 n x y s) me.new) }
{
    let got = acquire(rt, p, me, m);
    let (outcome, mut value) = alert_wait_until(rt, p, me, m, c, got, test);
    match outcome {
        Outcome::Returned => {
            let answer = f(&mut value);
            release::<U, C, R>(rt, p, me, m, value);
            Some(answer)
        }
        Outcome::Alerted => {
            release::<U, NoChange, R>(rt, p, me, m, value);
            None
        }
    }
}
