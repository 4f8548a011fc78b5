//! The explanation of a verdict.
ghost use Rattle.std.specs.Prelude.{◌≡◌, ◌≢◌, ◌-◌, ◌<◌, ◌≤◌, ◌^◌, List, ℕ, Some, IfOk, OnErr};
ghost use Rattle.firefly_outside.specs.Causes.{HasCause};
ghost use Rattle.trace_check.specs.declared.checker.Verdict.{Verdict};
ghost use Rattle.trace_check.specs.declared.checker.Verdict.TheVariants as verdict;
ghost use Rattle.trace_check.specs.Verdicts.{IsJust};
ghost use Rattle.trace_explain.specs.Explained.{GotText, GotPrefix};

use crate::explain_verdict::explain_verdict;
use crate::notes::Noting;
use firefly_outside::{Sink, SinkFault, Source};
use trace_board::board::TraceState;
use trace_check::{Verdict, check_with};

/// Checks at most `budget` bytes of the input, and writes why the verdict is as it is: of a legal trace its counts, of an illegal one the event,
/// the rule that it fails and the state before it, of a bad line what may stand there, and else nothing.
pub fn explain<I: Source, O: Sink>(
    input: &mut I,
    budget: u64,
    out: &mut O,
) -> Result<Verdict, SinkFault>
    requires { budget < 2 ^ 64 - 1 }
    // The verdict is just, and where no read failed no other is.
    ensures just { IfOk result (λ v. IsJust budget (I.left input.old) (I.left input.new) (I.faults input.old) (I.faults input.new) v) }
    ensures exact { IfOk result (λ v. (bytes : List ℕ) (other : Verdict) → I.left input.old ≡ Some bytes → v ≢ verdict.ReadFault
        → other ≢ verdict.ReadFault
        → IsJust budget (I.left input.old) (I.left input.new) (I.faults input.old) (I.faults input.new) other → v ≡ other) }
    // The sink got the text that explains it, or a prefix of such a text where it failed.
    ensures ok { IfOk result (λ v. GotText budget (I.left input.old) (O.held out.old) (O.held out.new) v) }
    ensures err { OnErr result (GotPrefix budget (I.left input.old) (I.left input.new) (I.faults input.old) (I.faults input.new)
        (O.held out.old) (O.held out.new)) }
    ensures cause { HasCause (O.faults out.old) (O.faults out.new) result }
    // From the byte that decides on nothing more is read.
    ensures reported { IfOk result (λ v. v ≢ verdict.ReadFault → I.faults input.new ≡ I.faults input.old) }
    ensures later { I.faults input.old ≤ I.faults input.new }
{
    explain_all(input, budget, out)
}

// Checks the input and writes why. `explain` says of the verdict that it is the one that is just.
fn explain_all<I: Source, O: Sink>(
    input: &mut I,
    budget: u64,
    out: &mut O,
) -> Result<Verdict, SinkFault>
    requires { budget < 2 ^ 64 - 1 }
    ensures just { IfOk result (λ v. IsJust budget (I.left input.old) (I.left input.new) (I.faults input.old) (I.faults input.new) v) }
    ensures ok { IfOk result (λ v. GotText budget (I.left input.old) (O.held out.old) (O.held out.new) v) }
    ensures err { OnErr result (GotPrefix budget (I.left input.old) (I.left input.new) (I.faults input.old) (I.faults input.new)
        (O.held out.old) (O.held out.new)) }
    ensures cause { HasCause (O.faults out.old) (O.faults out.new) result }
    ensures reported { IfOk result (λ v. v ≢ verdict.ReadFault → I.faults input.new ≡ I.faults input.old) }
    ensures later { I.faults input.old ≤ I.faults input.new }
{
    let mut noting = Noting {
        board: TraceState::new(),
    };
    let found = match check_with(input, budget, &mut noting) {
        Ok(found) => found,
        Err(()) => unreachable!(),
    };
    explain_verdict(&found, &noting.board, out)
}
