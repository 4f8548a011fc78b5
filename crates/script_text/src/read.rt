//! Reading scripts.
ghost use Rattle.std.specs.Prelude.{◌≡◌, ◌+◌, ◌-◌, ◌*◌, ◌≤◌, [], length, IfSome, IfOk, IfErr, OnOk};
ghost use Rattle.std.specs.Io.KnownBytes.{Consumes, IsAtEnd};
ghost use Rattle.exact_text.specs.Exact.{HasReason, OrMemory, lines_room};
ghost use Rattle.exact_text.specs.Intake.{rest_of, room_of, IsReported};
ghost use Rattle.larch_actions.specs.Layout.{IsLawful};
ghost use Rattle.script_text.specs.Layouts.{head_lines};
ghost use Rattle.script_text.specs.Operations.{none_held, none_forked};
ghost use Rattle.script_text.specs.Text.{IsScript, IsScriptText, ReadsAs};
ghost use Rattle.script_text.specs.Texts.{head_text, most_lines, IsRest};
ghost use Rattle.script_text.specs.Drafts.{IsDraft, held_in, forked_in};
ghost use Rattle.script_text.specs.Finished.{IsFinished, OneRead};

use crate::draft::Draft;
use crate::heads::{FirstLine, SecondLine, Start};
use crate::line::Line;
use crate::parse;
use crate::script::Script;
use exact_text::{Intake, NextLine, Stop, TextFault, take_line};
use firefly_outside::Source;
use larch_actions::Layout;
use std::alloc::Global;

/// How many lines a script has at most, with those before the lines of the threads.
pub const MOST_LINES: u64 = 100_000;

impl NextLine for Draft {
    ghost use Rattle.script_text.specs.Operations.{MayCome};
    ghost use Rattle.script_text.specs.Drafts.{IsDraft, held_in, forked_in};
    ghost use Rattle.script_text.specs.Heads.{IsReadable};
    ghost use Rattle.script_text.specs.NextLine.{line_at, whole_line};

    type Line = Line;

    ghost is_possible = { λ d. IsDraft d × IsReadable (MayCome d.layout (held_in d) (forked_in d)) whole_line
        (line_at d.layout (held_in d) (forked_in d)) };

    ghost is_lawful = { λ d. MayCome d.layout (held_in d) (forked_in d) };

    ghost text = { λ d. whole_line };

    ghost reads = { λ d. line_at d.layout (held_in d) (forked_in d) };

    ghost is_exact = { λ d ok. ok.1.exact };

    ghost is_line = { λ d ok. ok.1.lines };

    ghost is_some = { λ d ok. ok.1.some };

    fn read<'b>(&self, bytes: &'b [u8]) -> Result<(Line, &'b [u8]), Stop> {
        parse::line(bytes, self)
    }
}

// Takes all that stands before the lines of the threads.
fn head<I: Source>(intake: &mut Intake, input: &mut I) -> Result<Layout, TextFault>
    requires fresh { intake.old.lines ≡ 0 }
    requires room { 131072 ≤ room_of intake.old }
    ensures layout { IfOk result (λ l. IsLawful l × Consumes (rest_of intake.old (I.left input.old))
        (rest_of intake.new (I.left input.new)) (head_text l)) }
    ensures lines { IfOk result (λ l. intake.new.lines ≡ head_lines l.version) }
    ensures room { OnOk result (room_of intake.old ≤ room_of intake.new + 131072) }
    ensures fault { IfErr result (HasReason IsScriptText (lines_room most_lines) 0 (rest_of intake.old (I.left input.old))
        (I.left input.new) (I.faults input.old) (I.faults input.new)) }
    ensures reported { IsReported (I.faults input.old) (I.faults input.new) result }
{
    match take_line(intake, input, &FirstLine) {
        Ok(Start::Layout(layout)) => Ok(layout),
        Ok(Start::Second) => match take_line(intake, input, &SecondLine) {
            Ok(layout) => Ok(layout),
            Err(fault) => Err(fault),
        },
        Err(fault) => Err(fault),
    }
}

// Takes the next line, and says whether there was one, or the input has ended where a script may end.
fn one<I: Source>(intake: &mut Intake, input: &mut I, draft: &mut Draft) -> Result<bool, TextFault>
    requires draft { IsDraft draft.old }
    requires counted { intake.old.lines ≡ head_lines draft.old.layout.version + length draft.old.lines.items }
    requires few { intake.old.lines ≤ most_lines }
    requires room { 65536 ≤ room_of intake.old }
    ensures read { IfOk result (OneRead draft.old draft.new intake.old intake.new (I.left input.old) (I.left input.new)) }
    ensures layout { draft.new.layout ≡ draft.old.layout }
    ensures fault { IfErr result (OrMemory (HasReason (IsRest draft.old.layout (held_in draft.old) (forked_in draft.old))
        (lines_room (most_lines - intake.old.lines)) intake.old.lines (rest_of intake.old (I.left input.old)) (I.left input.new)
        (I.faults input.old) (I.faults input.new))) }
    ensures reported { IsReported (I.faults input.old) (I.faults input.new) result }
{
    match intake.goes_on(input) {
        Ok(true) => {}
        Ok(false) => {
            if draft.is_free() {
                return Ok(false);
            }
            return Err(TextFault::BadLine(intake.lines + 1));
        }
        Err(fault) => return Err(fault),
    }
    if intake.lines >= MOST_LINES {
        return Err(TextFault::TooLong);
    }
    let line = match take_line(intake, input, &*draft) {
        Ok(line) => line,
        Err(fault) => return Err(fault),
    };
    match draft.take(line) {
        Ok(()) => Ok(true),
        Err(_) => Err(TextFault::Memory),
    }
}

// Takes all lines after those before them, and the end of the input.
fn lines<I: Source>(intake: &mut Intake, input: &mut I, draft: &mut Draft) -> Result<(), TextFault>
    requires draft { IsDraft draft.old }
    requires none { draft.old.lines.items ≡ [] }
    requires counted { intake.old.lines ≡ head_lines draft.old.layout.version }
    requires room { 65536 * 100001 ≤ room_of intake.old }
    ensures layout { draft.new.layout ≡ draft.old.layout }
    ensures done { OnOk result (IsFinished draft.new (rest_of intake.old (I.left input.old)) (I.left input.new)) }
    ensures fault { IfErr result (OrMemory (HasReason (IsRest draft.old.layout none_held none_forked)
        (lines_room (most_lines - intake.old.lines)) intake.old.lines (rest_of intake.old (I.left input.old)) (I.left input.new)
        (I.faults input.old) (I.faults input.new))) }
    ensures reported { IsReported (I.faults input.old) (I.faults input.new) result }
{
    loop {
        match one(intake, input, draft) {
            Ok(true) => {}
            Ok(false) => return Ok(()),
            Err(fault) => return Err(fault),
        }
    }
}

/// Reads the script that the input is.
///
/// `BadLine` names the first line at which the input is no prefix of a script text, as soon as the bytes show it; where the input ends too
/// early, that line. `TooLong` says that 100,000 lines stand first and that more bytes come, and `Read` that the source failed before the
/// bytes had shown one of these.
pub fn read_script<I: Source>(alloc: Global, input: &mut I) -> Result<Script, TextFault>
    ensures script { IfOk result (λ s. IfSome (I.left input.old) (λ bytes. ReadsAs bytes s.layout s.lines)) }
    ensures rules { IfOk result (λ s. IsScript s.layout s.lines) }
    ensures few { IfOk result (λ s. head_lines s.layout.version + length s.lines ≤ most_lines) }
    ensures end { OnOk result (IsAtEnd (I.left input.new)) }
    ensures fault { IfErr result (OrMemory (HasReason IsScriptText (lines_room most_lines) 0 (I.left input.old) (I.left input.new)
        (I.faults input.old) (I.faults input.new))) }
    ensures reported { IsReported (I.faults input.old) (I.faults input.new) result }
{
    let mut intake = Intake::new(u64::MAX - 1);
    let layout = match head(&mut intake, input) {
        Ok(layout) => layout,
        Err(fault) => return Err(fault),
    };
    let mut draft = Draft::new(alloc, layout);
    match lines(&mut intake, input, &mut draft) {
        Ok(()) => {}
        Err(fault) => return Err(fault),
    }
    let Draft {
        layout,
        lines,
        held: _,
        forked: _,
    } = draft;
    Ok(Script::new(layout, lines))
}
