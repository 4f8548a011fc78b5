//! The lock order of a trace text.
ghost use Rattle.std.specs.Prelude.{◌≡◌, ◌≢◌, ◌≤◌, ◌^◌, ◌-◌, ◌<◌, List, ℕ, length, Some};
ghost use Rattle.larch_actions.specs.declared.event.Event.{Event};
ghost use Rattle.larch_actions.specs.Actions.{Spec};
ghost use Rattle.trace_check.specs.Verdicts.{IsJust};
ghost use Rattle.lock_order.specs.Answers.{IsJustAnswer, Agree};
ghost use Rattle.lock_order.specs.Kept.{IsKept, IsOrderOf, KeepsEdges};
ghost use Rattle.lock_order.specs.Circles.{AreLow};

use crate::answer::OrderAnswer;
use crate::cycle::cycle_in;
use crate::lock_graph::LockGraph;
use firefly_outside::Source;
use larch_actions::{Event, Layout};
use trace_check::{Verdict, Watch, check_with};

// Notes what a legal trace nests, where that is wanted.
#[derive(Drop)]
struct Noting {
    graph: LockGraph,
    on: bool,
}

impl Watch for Noting {
    type Stop = ();

    ghost keeps = { λ first l es now. (now.on ≡ first.on) × KeepsEdges first.graph l es now.on now.graph };

    ghost stops = { λ first l es now stop. ⊥ };

    #[inline(always)]
    fn begin(&mut self, _layout: &Layout) -> Result<(), ()> {
        Ok(())
    }

    #[inline(always)]
    fn see(&mut self, place: u64, e: &Event) -> Result<(), ()> {
        if self.on {
            self.graph.note(e, place);
        }
        Ok(())
    }
}

/// Reads at most `budget` bytes of the input, and reports a cycle of the order in which the threads of its trace got mutexes within one
/// another, if there is one. From the byte that decides on it reads nothing more.
pub fn lock_order<I: Source>(input: &mut I, budget: u64) -> OrderAnswer
    requires { budget < 2 ^ 64 - 1 }
    ensures just { IsJustAnswer budget (I.left input.old) (I.left input.new) (I.faults input.old) (I.faults input.new) result }
    // Where no read failed, no other answer is just, but for another cycle in place of a cycle.
    ensures exact { (bytes : List ℕ) (answer : OrderAnswer) → I.left input.old ≡ Some bytes → result ≢ OrderAnswer.ReadFault
        → answer ≢ OrderAnswer.ReadFault
        → IsJustAnswer budget (I.left input.old) (I.left input.new) (I.faults input.old) (I.faults input.new) answer → Agree result answer }
    // A failed read is reported, and a read can fail only where no answer is due yet. So nothing is asked once a byte decides.
    ensures reported { result ≢ OrderAnswer.ReadFault → I.faults input.new ≡ I.faults input.old }
    ensures later { I.faults input.old ≤ I.faults input.new }
{
    order_all(input, budget)
}

// The answer, of which `lock_order` says that it is the one that is just.
fn order_all<I: Source>(input: &mut I, budget: u64) -> OrderAnswer
    requires { budget < 2 ^ 64 - 1 }
    ensures just { IsJustAnswer budget (I.left input.old) (I.left input.new) (I.faults input.old) (I.faults input.new) result }
    ensures reported { result ≢ OrderAnswer.ReadFault → I.faults input.new ≡ I.faults input.old }
    ensures later { I.faults input.old ≤ I.faults input.new }
{
    let mut noting = Noting {
        graph: LockGraph::new(),
        on: true,
    };
    let verdict = match check_with(input, budget, &mut noting) {
        Ok(found) => found.verdict,
        Err(()) => unreachable!(),
    };
    match verdict {
        Verdict::Legal(summary) => order_of(&noting.graph, summary.events),
        Verdict::Illegal { place, why } => OrderAnswer::Illegal { place, why },
        Verdict::BadLine(line) => OrderAnswer::BadLine(line),
        Verdict::TooLong => OrderAnswer::TooLong,
        Verdict::ReadFault => OrderAnswer::ReadFault,
    }
}

/// The verdict on at most `budget` bytes of the input, as `trace_check::check` gives it. A program that also reports lock orders calls this
/// one: then it has one loop over events and not two, and the compiler makes an event of one loop faster.
pub fn check<I: Source>(input: &mut I, budget: u64) -> Verdict
    requires { budget < 2 ^ 64 - 1 }
    ensures just { IsJust budget (I.left input.old) (I.left input.new) (I.faults input.old) (I.faults input.new) result }
    // Where no read failed, no other verdict is just.
    ensures exact { (bytes : List ℕ) (verdict : Verdict) → I.left input.old ≡ Some bytes → result ≢ Verdict.ReadFault
        → verdict ≢ Verdict.ReadFault
        → IsJust budget (I.left input.old) (I.left input.new) (I.faults input.old) (I.faults input.new) verdict → result ≡ verdict }
    // A failed read is reported, and a read can fail only where no verdict is due yet. So nothing is asked once a byte decides.
    ensures reported { result ≢ Verdict.ReadFault → I.faults input.new ≡ I.faults input.old }
    ensures later { I.faults input.old ≤ I.faults input.new }
{
    let mut noting = Noting {
        graph: LockGraph::new(),
        on: false,
    };
    match check_with(input, budget, &mut noting) {
        Ok(found) => found.verdict,
        Err(()) => unreachable!(),
    }
}

// The answer on a legal trace.
fn order_of(graph: &LockGraph, events: u64) -> OrderAnswer
    requires { AreLow graph.now }
    ensures { (es : List Event) (now : Spec) → events ≡ length es → IsKept es now graph.now → IsOrderOf es result }
{
    match cycle_in(graph) {
        Some(cycle) => OrderAnswer::Found(cycle),
        None => OrderAnswer::NoCycle(events),
    }
}
