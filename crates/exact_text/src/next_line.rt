//! The line that comes next.
ghost use Rattle.std.specs.Prelude.{◌≡◌, ◌⊎◌, ◌+◌, ◌<◌, ◌≤◌, ℕ, List, length, IfOk, IfErr, OnOk, OnErr, Result, Ok, Err};
ghost use Rattle.std.specs.Io.KnownBytes.{Consumes};
ghost use Rattle.exact_text.specs.Codes.{IsCode};
ghost use Rattle.exact_text.specs.Exact.{IsStuck};
ghost use Rattle.exact_text.specs.Prefixes.{IsLine};
ghost use Rattle.exact_text.specs.Intake.{rest_of, room_of, IsReported};
ghost use Rattle.exact_text.specs.Reading.{Gives};
ghost use Rattle.exact_text.specs.declared.stop.Stop.{Stop};

use crate::{Intake, Stop, TextFault};
use firefly_outside::{Source, Window};

/// Which line may come next, and how it is read.
pub trait NextLine {
    /// What a line says.
    type Line;

    /// Some line may come.
    ghost is_possible: { Self → Type 0 };

    /// This line may come.
    ghost is_lawful: { Self → Self.Line → Type 0 };

    /// The text of a line, with its newline.
    ghost text: { Self → Self.Line → List ℕ };

    /// What reading gives: the line and what follows it, or why there is none.
    ghost reads: { Self → List ℕ → Result (Self.Line × List ℕ) Stop };

    /// Reads the line at the front of the bytes, and returns what follows it.
    fn read<'b>(&self, bytes: &'b [u8]) -> Result<(Self::Line, &'b [u8]), Stop>
        requires { is_possible self.now }
        ensures { Gives (λ x. (x.0, x.1.now)) result (reads self.now bytes.now) };

    ghost is_exact: { (s : Self) → is_possible s → IsCode (is_lawful s) (text s) (reads s) };

    ghost is_line: { (s : Self) → is_possible s → (x : Self.Line) → is_lawful s x → IsLine (text s x) × (length (text s x) < 65536) };

    ghost is_some: { (s : Self) → is_possible s → (x : Self.Line) × is_lawful s x };
}

// Reads the line that comes next from the window.
fn try_line<L: NextLine>(window: &mut Window, next: &L) -> Result<L::Line, Stop>
    requires { L.is_possible next.now }
    ensures line { IfOk result (λ x. L.reads next.now window.old ≡ Ok (x, window.new)) }
    ensures stop { IfErr result (λ s. L.reads next.now window.old ≡ Err s) }
    ensures same { OnErr result (window.new ≡ window.old) }
    ensures shorter { OnOk result (length window.new < length window.old) }
{
    let bytes = window.bytes();
    match next.read(bytes) {
        Ok((line, rest)) => {
            let used = bytes.len() - rest.len();
            window.skip(used);
            Ok(line)
        }
        Err(stop) => Err(stop),
    }
}

// Reads the line that comes next from the window, and counts it.
fn read<L: NextLine>(intake: &mut Intake, next: &L) -> Result<L::Line, Stop>
    requires { L.is_possible next.now }
    ensures line { IfOk result (λ x. L.reads next.now intake.old.window ≡ Ok (x, intake.new.window)) }
    ensures counted { OnOk result (intake.new.lines ≡ intake.old.lines + 1) }
    ensures given { intake.new.given ≡ intake.old.given }
    ensures budget { intake.new.budget ≡ intake.old.budget }
    ensures stop { IfErr result (λ s. L.reads next.now intake.old.window ≡ Err s) }
    ensures same_window { OnErr result (intake.new.window ≡ intake.old.window) }
    ensures same_lines { OnErr result (intake.new.lines ≡ intake.old.lines) }
{
    match try_line(&mut intake.window, next) {
        Ok(line) => {
            intake.lines += 1;
            Ok(line)
        }
        Err(stop) => Err(stop),
    }
}

/// Takes the line that comes next.
///
/// `BadLine` comes as soon as the bytes show it. `TooLong` and `Read` say that the bytes up to the budget, or up to the failed read, are
/// only a prefix of a line.
pub fn take_line<I: Source, L: NextLine>(
    intake: &mut Intake,
    input: &mut I,
    next: &L,
) -> Result<L::Line, TextFault>
    requires { L.is_possible next.now }
    ensures line { IfOk result (λ x. L.is_lawful next.now x × Consumes (rest_of intake.old (I.left input.old))
        (rest_of intake.new (I.left input.new)) (L.text next.now x)) }
    ensures room { IfOk result (λ x. room_of intake.new + length (L.text next.now x) ≡ room_of intake.old) }
    ensures lines { OnOk result (intake.new.lines ≡ intake.old.lines + 1) }
    ensures budget { OnOk result (intake.new.budget ≡ intake.old.budget) }
    ensures fault { IfErr result (IsStuck (L.reads next.now) intake.old.lines (room_of intake.old)
        (rest_of intake.old (I.left input.old)) (I.left input.new) (I.faults input.old) (I.faults input.new)) }
    ensures reported { IsReported (I.faults input.old) (I.faults input.new) result }
    // The source is asked only where the bytes held don't decide.
    ensures asks { IfOk result (λ x. ((input.new ≡ input.old) × (L.reads next.now intake.old.window ≡ Ok (x, intake.new.window)))
        ⊎ (L.reads next.now intake.old.window ≡ Err Stop.More)) }
    ensures asks_first { OnErr result ((input.new ≡ input.old) ⊎ (L.reads next.now intake.old.window ≡ Err Stop.More)) }
{
    loop {
        match read(intake, next) {
            Ok(line) => return Ok(line),
            Err(Stop::Dead) => return Err(TextFault::BadLine(intake.lines + 1)),
            Err(Stop::More) => {}
        }
        match intake.fill(input) {
            Ok(true) => {}
            Ok(false) => return Err(TextFault::BadLine(intake.lines + 1)),
            Err(fault) => return Err(fault),
        }
    }
}
