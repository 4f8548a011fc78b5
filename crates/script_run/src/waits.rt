//! The waits of a line: the thread holds the mutex before and afterwards, and gets its number
//! again.
ghost use Rattle.std.specs.Prelude.{◌≡◌, ◌<◌, ◌≤◌, ◌∷◌, ◌++◌, [], List, slice_index};
ghost use Rattle.larch_actions.specs.Layout.{IsLawful};
ghost use Rattle.larch_actions.specs.declared.event.Event.{Event};
ghost use Rattle.alert_wait.specs.declared.outcome.Outcome.TheVariants.{Returned};
ghost use Rattle.script_text.specs.declared.line.Line.{Line};
ghost use Rattle.script_text.specs.Runs.{times, waited};
ghost use Rattle.script_text.specs.Visits.{Hand, Visit, gets, leaves};
ghost use Rattle.script_run.specs.Playing.{EndAs, HasMutex, HasWaited, IsInLine, alertable};

use alert_wait::{Outcome, alert_wait};
use condition::wait;
use larch_actions::{CondId, MutexId};
use nub_rule::{Package, Thread};
use std::sync::Wait;
use sum_uses::{AddChange, SumUses};

/// Waits in the condition once. Blocks until a Signal or Broadcast takes the thread out, and then
/// until it gets the mutex.
pub fn wait_once<R: Wait>(
    rt: &R,
    pkg: &Package<SumUses>,
    me: &mut Thread<SumUses>,
    numbers: &mut [u64],
    mutex: MutexId,
    cond: CondId,
)
    requires lawful { IsLawful pkg.now.layout }
    requires named { (mutex.0 < pkg.now.layout.mutexes) × (cond.0 < pkg.now.layout.conditions) }
    requires playing { (xs : List Line) × (es : List Event) × (vs : List Visit) × (start : Hand) × (hand : Hand)
        × IsInLine pkg.now me.old.number xs es vs start hand numbers.old me.old × HasMutex pkg.now.layout me.old.number xs mutex.0 }
    ensures { (xs : List Line) (es : List Event) (vs : List Visit) (start hand : Hand)
        → IsInLine pkg.now me.old.number xs es vs start hand numbers.old me.old → HasMutex pkg.now.layout me.old.number xs mutex.0
        → IsInLine pkg.now me.old.number xs (es ++ waited me.old.number mutex cond) (vs ++ leaves me.old.number mutex hand ∷ []) start
        (gets mutex (slice_index numbers.new mutex.0) hand) numbers.new me.new }
{
    let at = mutex.0 as usize;
    let number = numbers[at];
    numbers[at] = wait::<SumUses, AddChange, R>(rt, pkg, me, mutex, cond, number);
}

/// Waits in the condition once, until a Signal, a Broadcast or an alert of the thread ends the
/// wait, and then until it gets the mutex.
pub fn alert_wait_once<R: Wait>(
    rt: &R,
    pkg: &Package<SumUses>,
    me: &mut Thread<SumUses>,
    numbers: &mut [u64],
    mutex: MutexId,
    cond: CondId,
) -> Outcome
    requires lawful { IsLawful pkg.now.layout }
    requires named { (mutex.0 < pkg.now.layout.mutexes) × (cond.0 < pkg.now.layout.conditions) }
    requires playing { (xs : List Line) × (es : List Event) × (vs : List Visit) × (start : Hand) × (hand : Hand)
        × IsInLine pkg.now me.old.number xs es vs start hand numbers.old me.old × HasMutex pkg.now.layout me.old.number xs mutex.0 }
    ensures { (xs : List Line) (es : List Event) (vs : List Visit) (start hand : Hand)
        → IsInLine pkg.now me.old.number xs es vs start hand numbers.old me.old → HasMutex pkg.now.layout me.old.number xs mutex.0
        → IsInLine pkg.now me.old.number xs (es ++ alertable result me.old.number mutex cond)
        (vs ++ leaves me.old.number mutex hand ∷ []) start (gets mutex (slice_index numbers.new mutex.0) hand) numbers.new me.new }
{
    let at = mutex.0 as usize;
    let number = numbers[at];
    let (outcome, got) = alert_wait::<SumUses, AddChange, R>(rt, pkg, me, mutex, cond, number);
    numbers[at] = got;
    outcome
}

/// Waits in the condition while the number of the mutex is less than this one, and looks again
/// after each wait. May block for ever.
pub fn until<R: Wait>(
    rt: &R,
    pkg: &Package<SumUses>,
    me: &mut Thread<SumUses>,
    numbers: &mut [u64],
    mutex: MutexId,
    cond: CondId,
    awaited: u64,
)
    requires lawful { IsLawful pkg.now.layout }
    requires named { (mutex.0 < pkg.now.layout.mutexes) × (cond.0 < pkg.now.layout.conditions) }
    requires playing { (xs : List Line) × (hand : Hand) × IsInLine pkg.now me.old.number xs [] [] hand hand numbers.old me.old
        × HasMutex pkg.now.layout me.old.number xs mutex.0 }
    ensures played { (xs : List Line) (hand : Hand) → IsInLine pkg.now me.old.number xs [] [] hand hand numbers.old me.old
        → HasMutex pkg.now.layout me.old.number xs mutex.0
        → HasWaited pkg.now me.old.number xs (λ k es. es ≡ times k (waited me.old.number mutex cond)) awaited mutex hand
        numbers.new me.new }
    ensures enough { awaited ≤ slice_index numbers.new mutex.0 }
    ensures no_wait { awaited ≤ slice_index numbers.old mutex.0 → (numbers.new ≡ numbers.old) × (me.new ≡ me.old) }
{
    for _ in rt.forever() {
        if numbers[mutex.0 as usize] >= awaited {
            return;
        }
        wait_once(rt, pkg, me, numbers, mutex, cond);
    }
    unreachable!()
}

/// Does what `until` does, by waits that an alert of the thread may end. Gives up after the first
/// wait that an alert ended.
pub fn alert_until<R: Wait>(
    rt: &R,
    pkg: &Package<SumUses>,
    me: &mut Thread<SumUses>,
    numbers: &mut [u64],
    mutex: MutexId,
    cond: CondId,
    awaited: u64,
) -> Outcome
    requires lawful { IsLawful pkg.now.layout }
    requires named { (mutex.0 < pkg.now.layout.mutexes) × (cond.0 < pkg.now.layout.conditions) }
    requires playing { (xs : List Line) × (hand : Hand) × IsInLine pkg.now me.old.number xs [] [] hand hand numbers.old me.old
        × HasMutex pkg.now.layout me.old.number xs mutex.0 }
    ensures played { (xs : List Line) (hand : Hand) → IsInLine pkg.now me.old.number xs [] [] hand hand numbers.old me.old
        → HasMutex pkg.now.layout me.old.number xs mutex.0
        → HasWaited pkg.now me.old.number xs (EndAs result me.old.number mutex cond) awaited mutex hand numbers.new me.new }
    ensures enough { result ≡ Returned → awaited ≤ slice_index numbers.new mutex.0 }
    ensures no_wait { awaited ≤ slice_index numbers.old mutex.0 → (numbers.new ≡ numbers.old) × (me.new ≡ me.old) }
{
    for _ in rt.forever() {
        if numbers[mutex.0 as usize] >= awaited {
            return Outcome::Returned;
        }
        match alert_wait_once(rt, pkg, me, numbers, mutex, cond) {
            Outcome::Returned => {}
            Outcome::Alerted => return Outcome::Alerted,
        }
    }
    unreachable!()
}
