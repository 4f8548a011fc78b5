//! Texts that are lines of one kind.
ghost use Rattle.std.specs.Prelude.{◌≡◌, ◌+◌, ◌-◌, ◌<◌, ◌≤◌, [], IfOk, IfErr, IfSome, IfNone};
ghost use Rattle.std.specs.Io.KnownBytes.{Consumes, IsAtEnd};
ghost use Rattle.exact_text.specs.Exact.{HasReason, lines_room};
ghost use Rattle.exact_text.specs.Intake.{rest_of, room_of, IsReported};
ghost use Rattle.exact_text.specs.Unfolds.{AreLines};

use crate::{Intake, NextLine, TextFault, take_line};
use firefly_outside::Source;

/// Takes another line of a text that is at most so many lines of one kind. None says that the input has ended before it.
pub fn another_line<I: Source, L: NextLine>(
    intake: &mut Intake,
    input: &mut I,
    next: &L,
    most: u64,
) -> Result<Option<L::Line>, TextFault>
    requires possible { L.is_possible next.now }
    requires room { 65536 ≤ room_of intake.old }
    requires few { intake.old.lines ≤ most }
    ensures line { IfOk result (λ found. IfSome found (λ x. L.is_lawful next.now x × Consumes (rest_of intake.old (I.left input.old))
        (rest_of intake.new (I.left input.new)) (L.text next.now x))) }
    ensures counted { IfOk result (λ found. IfSome found (λ _. (intake.old.lines < most) × (intake.new.lines ≡ intake.old.lines + 1))) }
    ensures room { IfOk result (λ found. IfSome found (λ _. room_of intake.old ≤ room_of intake.new + 65536)) }
    ensures end { IfOk result (λ found. IfNone found (IfSome (rest_of intake.old (I.left input.old)) (λ bytes. bytes ≡ [])
        × IsAtEnd (I.left input.new))) }
    ensures fault { IfErr result (HasReason (AreLines (L.is_lawful next.now) (L.text next.now)) (lines_room (most - intake.old.lines))
        intake.old.lines (rest_of intake.old (I.left input.old)) (I.left input.new) (I.faults input.old) (I.faults input.new)) }
    ensures reported { IsReported (I.faults input.old) (I.faults input.new) result }
{
    match intake.goes_on(input) {
        Ok(true) => {}
        Ok(false) => return Ok(None),
        Err(fault) => return Err(fault),
    }
    if intake.lines >= most {
        return Err(TextFault::TooLong);
    }
    match take_line(intake, input, next) {
        Ok(line) => Ok(Some(line)),
        Err(fault) => Err(fault),
    }
}
