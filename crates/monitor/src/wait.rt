//! Waiting until the value of a mutex passes a test.
ghost use Rattle.std.specs.Prelude.{◌≡◌, ℕ, ◌<◌, slice_set, Some, true, false};
ghost use Rattle.std.specs.Fn.{FnReturnsAt};
ghost use Rattle.monitor.specs.Waits.{IsRefused, waits};
ghost use Rattle.nub_rule.specs.Known.{Holds};
ghost use Rattle.nub.specs.Holding.{IsHolding};
ghost use Rattle.nub.specs.Rest.{Added, AtRest, IsSame};

use condition::wait;
use larch_actions::{CondId, MutexId};
use nub_rule::{NoChange, Package, Thread, Uses};
use std::sync::Wait;

/// Waits in the condition as long as the test doesn't accept the value of the mutex, and answers the value that it accepted. It begins no
/// wait but on a value that the test has refused.
///
/// The thread must hold the mutex, and holds it again afterwards. Each wait releases the mutex with
/// the value unchanged, which the use must allow. Blocks for ever if no value that the test accepts
/// ever comes, or if no thread signals the condition then.
///
/// ```rust
/// let value = wait_until(rt, p, me, turn.mutex, turn.cond, got, &|sum: &u64| may_go(*sum));
/// ```
#[inline]
pub fn wait_until<U: Uses, T: Fn(&U::Value) -> bool, R: Wait>(
    rt: &R,
    p: &Package<U>,
    me: &mut Thread<U>,
    m: MutexId,
    c: CondId,
    got: U::Value,
    test: &T,
) -> U::Value
    requires rest { AtRest p.now me.old }
    requires named { (m.0 < p.now.layout.mutexes) × (c.0 < p.now.layout.conditions) }
    requires world { me.old.world ≡ Some p.now.world }
    requires share { (s : U.Share) × (me.old.share ≡ Some s) }
    requires holds { Holds me.old m.0 got }
    requires fits { (s : U.Share) → me.old.share ≡ Some s → U.fits p.now.world m.0 got me.old.number s }
    requires testable { (x : _) → ((s : U.Share) → me.old.share ≡ Some s → U.fits p.now.world m.0 x.now me.old.number s)
        → T.pre test.now x }
    requires stays { (x : U.Value) (s : U.Share) → me.old.share ≡ Some s → U.fits p.now.world m.0 x me.old.number s
        → U.allows p.now.world m.0 me.old.number x x s s }
    ensures tested { FnReturnsAt T.Fn test.now result true }
    ensures rest { AtRest p.now me.new }
    ensures same { IsSame me.old me.new }
    ensures event { (k : ℕ) × Added (waits me.old.number m.0 c.0 k) me.old me.new
        × IsRefused (λ x. FnReturnsAt T.Fn test.now x false) got k result }
    ensures holds { Holds me.new m.0 result }
    ensures held { me.new.held ≡ slice_set me.old.held m.0 (Some result) }
    ensures share { me.new.share ≡ me.old.share }
    ensures fits { (s : U.Share) → me.old.share ≡ Some s → U.fits p.now.world m.0 result me.old.number s }
    ensures holding { (n : ℕ) (s : U.Share) (x : U.Value) → IsHolding p.now n m.0 s x me.old
        → IsHolding p.now n m.0 s result me.new × U.fits p.now.world m.0 result n s }
{
    let mut value = got;
    for _ in rt.forever() {
        if test(&value) {
            return value;
        }
        value = wait::<U, NoChange, R>(rt, p, me, m, c, value);
    }
    unreachable!()
}
