//! The head of a text, its events, and its end.
ghost use Rattle.std.specs.Prelude.{◌≡◌, ◌⊎◌, ◌+◌, ◌<◌, ◌≤◌, ◌++◌, [], length, IfOk, IfErr, IfSome, IfNone, OnOk, OnErr};
ghost use Rattle.std.specs.Io.KnownBytes.{Consumes};
ghost use Rattle.larch_actions.specs.Layout.{IsLawful, HasNames};
ghost use Rattle.trace_core.specs.Text.{head_text, event_line, IsTrace, IsRest, IsValues};
ghost use Rattle.exact_text.specs.Intake.{rest_of, room_of, IsReported};
ghost use Rattle.exact_text.specs.Exact.{HasReason, bytes_room};
ghost use Rattle.trace_core.specs.Lacking.{LacksAt, IsUndecided};
ghost use Rattle.trace_core.specs.Made.{IsMade};
ghost use Rattle.exact_text.specs.Prefixes.{Begins};
ghost use Rattle.trace_core.specs.Steps.{IsEnding};

use crate::line::{Expect, Line};
use crate::next_line::take_line;
use exact_text::{Intake, TextFault};
use firefly_outside::Source;
use larch_actions::{Event, Layout};

/// Takes the value lines of mutexes from `least` on, and the end of the input.
pub fn take_values<I: Source>(
    intake: &mut Intake,
    input: &mut I,
    layout: &Layout,
    least: u32,
) -> Result<(), TextFault>
    requires { IsLawful layout.now }
    ensures end { OnOk result (IfSome (rest_of intake.old (I.left input.old)) (λ bytes. IsValues layout.now least bytes
        × (length bytes ≤ room_of intake.old))) }
    ensures fault { IfErr result (HasReason (IsValues layout.now least) (bytes_room (room_of intake.old)) intake.old.lines
        (rest_of intake.old (I.left input.old)) (I.left input.new) (I.faults input.old) (I.faults input.new)) }
    ensures reported { IsReported (I.faults input.old) (I.faults input.new) result }
    ensures asks { (input.new ≡ input.old) ⊎ Begins (IsValues layout.now least) intake.old.window }
{
    match intake.goes_on(input) {
        Ok(true) => {}
        Ok(false) => return Ok(()),
        Err(fault) => return Err(fault),
    }
    if least >= layout.mutexes {
        return Err(TextFault::BadLine(intake.lines + 1));
    }
    let expect = Expect::Values {
        layout: *layout,
        least,
    };
    match take_line(intake, input, &expect) {
        Ok(Line::Value { mutex, .. }) => take_values(intake, input, layout, mutex + 1),
        Ok(_) => unreachable!(),
        Err(fault) => Err(fault),
    }
}

/// Takes the line of the event in this place, or the end line, the value lines and the end of the input.
pub fn take_event<I: Source>(
    intake: &mut Intake,
    input: &mut I,
    layout: &Layout,
    place: u64,
) -> Result<Option<Event>, TextFault>
    requires lawful { IsLawful layout.now }
    requires placed { place ≤ intake.old.lines }
    ensures event { IfOk result (λ found. IfSome found (λ e. HasNames layout.now e × IsMade e.action
        × Consumes (rest_of intake.old (I.left input.old)) (rest_of intake.new (I.left input.new)) (event_line place e))) }
    ensures room { IfOk result (λ found. IfSome found (λ e. room_of intake.new + length (event_line place e) ≡ room_of intake.old)) }
    ensures lines { IfOk result (λ found. IfSome found (λ _. intake.new.lines ≡ intake.old.lines + 1)) }
    ensures end { IfOk result (λ found. IfNone found (IfSome (rest_of intake.old (I.left input.old))
        (λ bytes. IsEnding layout.now place bytes × (length bytes ≤ room_of intake.old)))) }
    ensures fault { IfErr result (HasReason (IsRest layout.now place) (bytes_room (room_of intake.old)) intake.old.lines
        (rest_of intake.old (I.left input.old)) (I.left input.new) (I.faults input.old) (I.faults input.new)) }
    ensures lacks { IfErr result (LacksAt (HasNames layout.now) (event_line place) (room_of intake.old)
        (rest_of intake.old (I.left input.old)) (I.left input.new)) }
    ensures reported { IsReported (I.faults input.old) (I.faults input.new) result }
    ensures asks { (input.new ≡ input.old) ⊎ IsUndecided (IsRest layout.now place) (HasNames layout.now)
        (event_line place) intake.old.window }
{
    let expect = Expect::Events {
        layout: *layout,
        place,
    };
    match take_line(intake, input, &expect) {
        Ok(Line::Event(event)) => Ok(Some(event)),
        Ok(Line::End) => match take_values(intake, input, layout, 0) {
            Ok(()) => Ok(None),
            Err(fault) => Err(fault),
        },
        Ok(_) => unreachable!(),
        Err(fault) => Err(fault),
    }
}

/// Takes the first line and the layout line.
pub fn take_head<I: Source>(intake: &mut Intake, input: &mut I) -> Result<Layout, TextFault>
    ensures layout { IfOk result (λ l. IsLawful l × Consumes (rest_of intake.old (I.left input.old))
        (rest_of intake.new (I.left input.new)) (head_text l)) }
    ensures room { IfOk result (λ l. room_of intake.new + length (head_text l) ≡ room_of intake.old) }
    ensures lines { OnOk result (intake.new.lines ≡ intake.old.lines + 2) }
    ensures fault { IfErr result (HasReason IsTrace (bytes_room (room_of intake.old)) intake.old.lines (rest_of intake.old (I.left input.old))
        (I.left input.new) (I.faults input.old) (I.faults input.new)) }
    ensures lacks { IfErr result (LacksAt IsLawful head_text (room_of intake.old)
        (rest_of intake.old (I.left input.old)) (I.left input.new)) }
    ensures reported { IsReported (I.faults input.old) (I.faults input.new) result }
    ensures asks { (input.new ≡ input.old) ⊎ IsUndecided IsTrace IsLawful head_text intake.old.window }
{
    let version = match take_line(intake, input, &Expect::Head) {
        Ok(Line::Head(version)) => version,
        Ok(_) => unreachable!(),
        Err(fault) => return Err(fault),
    };
    match take_line(intake, input, &Expect::Counts(version)) {
        Ok(Line::Counts(layout)) => Ok(layout),
        Ok(_) => unreachable!(),
        Err(fault) => Err(fault),
    }
}
