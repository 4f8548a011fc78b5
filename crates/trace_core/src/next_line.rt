//! The line that comes next.
ghost use Rattle.std.specs.Prelude.{◌≡◌, ◌⊎◌, ◌+◌, length, IfOk, IfErr, OnOk, OnErr};
ghost use Rattle.std.specs.Io.KnownBytes.{Consumes};
ghost use Rattle.trace_core.specs.Lines.{IsPossible, IsAllowed, IsTextFrom, line_text, line_at};
ghost use Rattle.exact_text.specs.Exact.{HasReason, bytes_room};
ghost use Rattle.exact_text.specs.Intake.{rest_of, room_of, IsReported};
ghost use Rattle.trace_core.specs.Lacking.{LacksAt};

use crate::line::{Expect, Line, line_of};
use exact_text::{Intake, NextLine, Stop, TextFault, take_line as take};
use firefly_outside::Source;

impl NextLine for Expect {
    ghost use Rattle.trace_core.specs.Readable.{IsReadable};

    type Line = Line;

    ghost is_possible = { IsReadable };

    ghost is_lawful = { IsAllowed };

    ghost text = { line_text };

    ghost reads = { line_at };

    ghost is_exact = { λ x ok. ok.exact };

    ghost is_line = { λ x ok. ok.lines };

    ghost is_some = { λ x ok. ok.some };

    fn read<'b>(&self, bytes: &'b [u8]) -> Result<(Line, &'b [u8]), Stop> {
        line_of(bytes, self)
    }
}

/// Takes the line that comes next.
pub fn take_line<I: Source>(
    intake: &mut Intake,
    input: &mut I,
    expect: &Expect,
) -> Result<Line, TextFault>
    requires { IsPossible expect.now }
    ensures line { IfOk result (λ x. IsAllowed expect.now x × Consumes (rest_of intake.old (I.left input.old))
        (rest_of intake.new (I.left input.new)) (line_text expect.now x)) }
    ensures room { IfOk result (λ x. room_of intake.new + length (line_text expect.now x) ≡ room_of intake.old) }
    ensures lines { OnOk result (intake.new.lines ≡ intake.old.lines + 1) }
    ensures budget { OnOk result (intake.new.budget ≡ intake.old.budget) }
    ensures fault { IfErr result (HasReason (IsTextFrom expect.now) (bytes_room (room_of intake.old)) intake.old.lines
        (rest_of intake.old (I.left input.old)) (I.left input.new) (I.faults input.old) (I.faults input.new)) }
    ensures lacks { IfErr result (LacksAt (IsAllowed expect.now) (line_text expect.now) (room_of intake.old)
        (rest_of intake.old (I.left input.old)) (I.left input.new)) }
    ensures reported { IsReported (I.faults input.old) (I.faults input.new) result }
    // The source is asked only where the bytes held don't decide.
    ensures asks { IfOk result (λ x. ((input.new ≡ input.old) × (line_at expect.now intake.old.window ≡ Ok (x, intake.new.window)))
        ⊎ (line_at expect.now intake.old.window ≡ Err Stop.More)) }
    ensures asks_first { OnErr result ((input.new ≡ input.old) ⊎ (line_at expect.now intake.old.window ≡ Err Stop.More)) }
{
    take(intake, input, expect)
}
