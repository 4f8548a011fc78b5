//! Laws of threads at rest.
ghost use Rattle.std.specs.Prelude.{ℕ};
ghost use Rattle.nub_rule.specs.Known.{Known, Shape, with_room_for};
ghost use Rattle.nub.specs.Ended.{IsFirst};
ghost use Rattle.nub.specs.Forks.{IsRight};
ghost use Rattle.nub.specs.Holding.{IsHolding};
ghost use Rattle.nub.specs.Idle.{IsIdle};
ghost use Rattle.nub.specs.Rest.{AtRest, IsBoundNowhere};

use nub_rule::Uses;

/// A thread at rest needn't look at any mutex or semaphore. So a call that ends at rest has looked
/// wherever it had to.
pub fn rest_is_bound_nowhere<U: Uses>()
    ensures { (p : Shape U.World) (k : Known U.Value U.Share U.World) → AtRest p k → IsBoundNowhere k }
{}

/// A thread that has reserved room (`Thread::reserve`) may make the same calls as before.
pub fn reserving_changes_no_more<U: Uses>()
    ensures rest { (p : Shape U.World) (room : ℕ) (k : Known U.Value U.Share U.World) → AtRest p k → AtRest p (with_room_for room k) }
    ensures idle { (p : Shape U.World) (room : ℕ) (k : Known U.Value U.Share U.World) (n : ℕ) (s : U.Share) → IsIdle p n s k
        → IsIdle p n s (with_room_for room k) }
    ensures holding { (p : Shape U.World) (room : ℕ) (k : Known U.Value U.Share U.World) (n m : ℕ) (s : U.Share) (x : U.Value)
        → IsHolding p n m s x k → IsHolding p n m s x (with_room_for room k) }
    ensures first { (p : Shape U.World) (room : ℕ) (k : Known U.Value U.Share U.World) (n : ℕ) → IsFirst p U.begin n k
        → IsFirst p U.begin n (with_room_for room k) }
    ensures right { (p : Shape U.World) (room : ℕ) (k : Known U.Value U.Share U.World) (n : ℕ) → IsRight p U.begin n k
        → IsRight p U.begin n (with_room_for room k) }
{}
