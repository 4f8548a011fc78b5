//! What the rule says to threads that have left the barrier.
ghost use Rattle.std.specs.Prelude.{◌≡◌, ◌+◌, ◌≤◌, ℕ, List, Some};
ghost use mathlib.Core.Option.{some};
ghost use lib.ListN.{get_elem?};
ghost use Rattle.nub_rule.specs.Items.{Each};
ghost use Rattle.barrier_once.specs.declared.cell.Cell.{Cell};
ghost use Rattle.barrier_once.specs.declared.cell.Cell.TheVariants.{Bar};
ghost use Rattle.barrier_once.specs.declared.share.RoundShare.{RoundShare};
ghost use Rattle.barrier_once.specs.declared.share.RoundWorld.{RoundWorld};
ghost use Rattle.barrier_once.specs.Rounds.{AreRounds, IsOffered};

/// If the bar has reached a round, every thread has arrived as often as that.
pub fn all_have_arrived()
    ensures { (w : RoundWorld) (values : List Cell) (shares : List RoundShare) → AreRounds w values shares
        → (round arrived : ℕ) → get_elem? values w.at.bar.0 ≡ some (Bar round arrived)
        → (k : ℕ) → k + 1 ≤ round → Each (λ t s. k + 1 ≤ s.arrivals) shares }
{}

/// If one thread has left the barrier some number of times, every thread has arrived as often.
pub fn left_after_all()
    ensures { (w : RoundWorld) (values : List Cell) (shares : List RoundShare) → AreRounds w values shares
        → (n : ℕ) (own : RoundShare) → get_elem? shares n ≡ some own → Each (λ t s. own.left ≤ s.arrivals) shares }
{}

/// Two threads that have agreed have agreed on one value.
pub fn agreed_on_one()
    ensures { (w : RoundWorld) (values : List Cell) (shares : List RoundShare) → AreRounds w values shares
        → (n m : ℕ) (s r : RoundShare) (u v : ℕ) → get_elem? shares n ≡ some s → get_elem? shares m ≡ some r
        → s.agreed ≡ Some u → r.agreed ≡ Some v → u ≡ v }
{}

/// A value that a thread has agreed on was offered by one thread, and no other has offered any.
pub fn agreed_was_offered()
    ensures { (w : RoundWorld) (values : List Cell) (shares : List RoundShare) → AreRounds w values shares
        → (n : ℕ) (s : RoundShare) (v : ℕ) → get_elem? shares n ≡ some s → s.agreed ≡ Some v → IsOffered shares v }
{}
