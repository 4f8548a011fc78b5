//! Working on the value of a mutex once it passes a test.
ghost use Rattle.std.specs.Prelude.{◌≡◌, ℕ, ◌<◌, ◌∷◌, Some, None, true, false};
ghost use Rattle.std.specs.Fn.{FnOnceReturnsAtMut, FnReturnsAt};
ghost use mathlib.Core.Option.{some};
ghost use lib.ListN.{get_elem?};
ghost use Rattle.monitor.specs.Waits.{AreRefused, waits};
ghost use Rattle.nub_rule.specs.Plays.{acquire_event, release_event};
ghost use Rattle.nub.specs.Idle.{IsIdle};
ghost use Rattle.nub.specs.Rest.{Adds, AtRest, IsSame};

use crate::wait::wait_until;
use larch_actions::{CondId, MutexId};
use nub_rule::{Change, Package, Thread, Uses};
use std::sync::Wait;
use user_mutex::{acquire, release};

/// Acquires the mutex, waits in the condition until the test accepts the mutex's value, lets `f`
/// work on that value, and releases the mutex. Returns the result of `f`.
///
/// Blocks as `acquire` and `wait` do. While `f` runs, all other threads that want the mutex wait.
/// The call wakes no thread: a thread that changes a value which others wait for must signal their
/// condition, before or after this call. Neither the test nor `f` gets the thread.
///
/// ```rust
/// let has_room = |mail: &Mail| mail.slot.is_none();
/// let put = |mail: &mut Mail| mail.slot = Some(message);
/// locked_when::<Post, Sends, (), _, _, R>(rt, p, me, MAIL, ROOM, &has_room, put);
/// signal(rt, p, me, MORE);
/// ```
#[inline]
pub fn locked_when<
    U: Uses,
    C: Change<U>,
    X,
    T: Fn(&U::Value) -> bool,
    F: FnOnce(&mut U::Value) -> X,
    R: Wait,
>(rt: &R, p: &Package<U>, me: &mut Thread<U>, m: MutexId, c: CondId, test: &T, f: F) -> X
    requires rest { AtRest p.now me.old }
    requires named { (m.0 < p.now.layout.mutexes) × (c.0 < p.now.layout.conditions) }
    requires lacks { get_elem? me.old.held m.0 ≡ some None }
    requires world { me.old.world ≡ Some p.now.world }
    requires share { (s : U.Share) × (me.old.share ≡ Some s) }
    requires testable { (x : _) → ((s : U.Share) → me.old.share ≡ Some s → U.fits p.now.world m.0 x.now me.old.number s)
        → T.pre test.now x }
    requires stays { (x : U.Value) (s : U.Share) → me.old.share ≡ Some s → U.fits p.now.world m.0 x me.old.number s
        → U.allows p.now.world m.0 me.old.number x x s s }
    requires callable { (x : _) → ((s : U.Share) → me.old.share ≡ Some s → U.fits p.now.world m.0 x.now me.old.number s)
        → FnReturnsAt T.Fn test.now x.now true → F.pre f x }
    requires may { (x y : U.Value) (r : X) (s : U.Share) → me.old.share ≡ Some s → U.fits p.now.world m.0 x me.old.number s
        → FnReturnsAt T.Fn test.now x true → FnOnceReturnsAtMut F.FnOnce f x r y
        → U.allows p.now.world m.0 me.old.number x y s (C.after p.now.world m.0 me.old.number x y s) }
    ensures rest { AtRest p.now me.new }
    ensures same { IsSame me.old me.new }
    ensures event { (k : ℕ) × Adds (acquire_event me.old.number m.0 ∷ waits me.old.number m.0 c.0 k)
        (release_event me.old.number m.0) me.old me.new × AreRefused (λ x. FnReturnsAt T.Fn test.now x false) k }
    ensures held { me.new.held ≡ me.old.held }
    ensures answer { (x : U.Value) × (y : U.Value) × FnReturnsAt T.Fn test.now x true × FnOnceReturnsAtMut F.FnOnce f x result y
        × ((s : U.Share) → me.old.share ≡ Some s → U.fits p.now.world m.0 x me.old.number s
        × (me.new.share ≡ Some (C.after p.now.world m.0 me.old.number x y s))) }
    ensures idle { (n : ℕ) (s : U.Share) → IsIdle p.now n s me.old → (x : U.Value) × (y : U.Value)
        × FnReturnsAt T.Fn test.now x true × FnOnceReturnsAtMut F.FnOnce f x result y
        × U.fits p.now.world m.0 x n s × IsIdle p.now n (C.after p.now.world m.0 n x y s) me.new }
{
    let got = acquire(rt, p, me, m);
    let mut value = wait_until(rt, p, me, m, c, got, test);
    let answer = f(&mut value);
    release::<U, C, R>(rt, p, me, m, value);
    answer
}
