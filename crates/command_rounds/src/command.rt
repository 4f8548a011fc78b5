//! The command `rounds`.
ghost use Rattle.std.specs.Prelude.{◌≡◌, ◌≤◌, ℕ, List, [], ◌∷◌, Some};
ghost use Rattle.std.specs.List.{AllByRecursion};
ghost use Rattle.barrier_once.specs.declared.cell.Cell.TheVariants.{Bar, Sum, Once};
ghost use Rattle.command_endings.specs.Changes.{change_of};
ghost use Rattle.command_endings.specs.Printing.{Prints};
ghost use Rattle.larch_actions.specs.declared.event.Event.{Event};
ghost use Rattle.larch_actions.specs.Layout.{HasNames, IsLawful};
ghost use Rattle.command_rounds.specs.RoundsCommand.{RoundsAnswers, AreThree};
ghost use Rattle.trace_core.specs.Text.{ReadsAs, trace_text};
ghost use Rattle.trace_core.specs.Whole.{numbered};

use crate::run::play_rounds;
use barrier_once::{Cell, RoundUses};
use command_endings::{Ending, Status, ends};
use firefly_outside::Sink;
use nub::Closed;
use std::alloc::Global;
use std::sync::Wait;
use std::thread::Threads;
use trace_core::laws::print_whole;

// The round of the bar, the sum and the value.
fn numbers_of(cells: &[Cell]) -> (u64, u64, u64)
    requires { (round : ℕ) × (sum : ℕ) × (value : ℕ) × AreThree round sum value cells.now }
    ensures { (round sum value : ℕ) → AreThree round sum value cells.now → (result.0 ≡ round) × (result.1 ≡ sum) × (result.2 ≡ value) }
{
    let value = match cells[2].once() {
        Some(value) => value,
        None => 0,
    };
    (cells[0].round(), cells[1].sum(), value)
}

// Writes the trace of the run, followed by the three numbers.
fn print<O: Sink, N: Sink>(closed: &Closed<RoundUses>, out: &mut O, notes: &mut N) -> Status
    requires lawful { IsLawful closed.now.layout × (3 ≤ closed.now.layout.mutexes) }
    requires traced { (h : List Event) × (closed.now.trace ≡ Some h) × AllByRecursion (HasNames closed.now.layout) h }
    requires values { (round : ℕ) × (sum : ℕ) × (value : ℕ) × AreThree round sum value closed.now.values }
    ensures printed { (h : List Event) (round sum value : ℕ) → closed.now.trace ≡ Some h → AreThree round sum value closed.now.values
        → Prints (trace_text closed.now.layout h (numbered 0 (round ∷ sum ∷ value ∷ []))) Status.Done
        (change_of O.held O.faults out.old out.new) (change_of N.held N.faults notes.old notes.new) result }
    ensures reads { (h : List Event) (round sum value : ℕ) → closed.now.trace ≡ Some h → AreThree round sum value closed.now.values
        → ReadsAs (trace_text closed.now.layout h (numbered 0 (round ∷ sum ∷ value ∷ []))) closed.now.layout h
        (numbered 0 (round ∷ sum ∷ value ∷ [])) }
{
    let (round, sum, value) = numbers_of(closed.values());
    let Some(events) = closed.trace() else {
        unreachable!()
    };
    match print_whole(&closed.layout(), events, &[round, sum, value], out) {
        Ok(()) => Status::Done,
        Err(_) => ends(notes, Ending::OutputFault),
    }
}

/// Runs `rounds` rounds by `threads` threads, and writes the trace of the run, followed by its
/// three values. Returns the status.
pub fn run_rounds<R: Threads + Wait + Sync, O: Sink, N: Sink>(
    rt: &R,
    alloc: Global,
    threads: u32,
    rounds: u32,
    out: &mut O,
    notes: &mut N,
) -> Status
    requires threads { (1 ≤ threads) × (threads ≤ 64) }
    requires rounds { (1 ≤ rounds) × (rounds ≤ 1000) }
    ensures { RoundsAnswers threads rounds (change_of O.held O.faults out.old out.new) (change_of N.held N.faults notes.old notes.new)
        result }
{
    match play_rounds(rt, alloc, threads, rounds) {
        Ok(left) => {
            let status = print(&left.closed, out, notes);
            drop(left);
            status
        }
        Err(_) => ends(notes, Ending::Memory),
    }
}
