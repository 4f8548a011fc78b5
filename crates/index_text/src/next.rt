//! The lines of an index text, taken from a source.
ghost use Rattle.std.specs.Prelude.{◌≡◌};
ghost use Rattle.std.specs.Option.{option_copied};
ghost use Rattle.exact_text.specs.Intake.{IsReported};
ghost use Rattle.index_print.specs.Text.{hit_line, skipped_line};
ghost use Rattle.index_text.specs.Texts.{IsHit};
ghost use Rattle.index_text.specs.Lines.{heading_at, hit_at, skipped_at};
ghost use Rattle.index_text.specs.Next.{IsLast, IsLastPath, IsHeading, IsNext, heading_text};
ghost use Rattle.index_text.specs.Next.{GoesOn, Tries, TakesLine, SaysHeading, SaysHit, SaysPath};

use crate::fault::Stop;
use crate::lines::{Prefix, heading, hit, skipped_line};
use crate::long::{await_heading, await_hit, await_skipped};
use exact_text::{LongIntake, TextFault};
use firefly_outside::Source;

/// More bytes, if they may complete the line; else why it isn't read.
pub fn after_stop<I: Source>(
    intake: &mut LongIntake,
    input: &mut I,
    stop: Stop,
) -> Result<(), TextFault>
    ensures goes_on { GoesOn stop intake.old intake.new (I.left input.old) (I.left input.new) (I.faults input.old) (I.faults input.new)
        result }
    ensures reported { IsReported (I.faults input.old) (I.faults input.new) result }
{
    match stop {
        Stop::Memory => return Err(TextFault::Memory),
        Stop::Dead => return Err(TextFault::BadLine(intake.lines() + 1)),
        Stop::More => {}
    }
    match intake.fill(input) {
        Ok(true) => Ok(()),
        Ok(false) => Err(TextFault::BadLine(intake.lines() + 1)),
        Err(fault) => Err(fault),
    }
}

// Reads the line of a word or of the first skipped path from the bytes held, and passes over it.
fn try_heading(
    intake: &mut LongIntake,
    last: Option<&[u8]>,
    out: &mut Vec<u8>,
) -> Result<Prefix, Stop>
    requires { IsLast (option_copied last) }
    ensures { Tries (heading_at (option_copied last.entry)) (SaysHeading out.new.items) intake.old intake.new result }
{
    let bytes = intake.bytes();
    let (prefix, left) = match heading(bytes, last, out) {
        Ok((prefix, rest)) => (prefix, rest.len()),
        Err(stop) => return Err(stop),
    };
    let used = bytes.len() - left;
    intake.pass_line(used);
    Ok(prefix)
}

/// Takes the line of a word or of the first skipped path, and lays the word or the path down.
pub fn next_heading<I: Source>(
    intake: &mut LongIntake,
    input: &mut I,
    last: Option<&[u8]>,
    out: &mut Vec<u8>,
) -> Result<Prefix, TextFault>
    requires { IsLast (option_copied last) }
    ensures taken { TakesLine (IsHeading (option_copied last.entry)) heading_text (heading_at (option_copied last.entry))
        (SaysHeading out.new.items) intake.old intake.new (I.left input.old) (I.left input.new) (I.faults input.old) (I.faults input.new)
        result }
    ensures reported { IsReported (I.faults input.old) (I.faults input.new) result }
{
    loop {
        match try_heading(intake, last, out) {
            Ok(prefix) => return Ok(prefix),
            Err(stop) => match after_stop(intake, input, stop) {
                Ok(()) => {}
                Err(fault) => return Err(fault),
            },
        }
        match await_heading(intake, input, last, out) {
            Ok(()) => {}
            Err(fault) => return Err(fault),
        }
    }
}

// Reads the line of a file from the bytes held, and passes over it.
fn try_hit(
    intake: &mut LongIntake,
    last: Option<&[u8]>,
    out: &mut Vec<u8>,
) -> Result<(u64, u64), Stop>
    requires { IsLastPath (option_copied last) }
    ensures { Tries (hit_at (option_copied last.entry)) (SaysHit out.new.items) intake.old intake.new result }
{
    let bytes = intake.bytes();
    let (figures, left) = match hit(bytes, last, out) {
        Ok((figures, rest)) => (figures, rest.len()),
        Err(stop) => return Err(stop),
    };
    let used = bytes.len() - left;
    intake.pass_line(used);
    Ok(figures)
}

/// Takes the line of a file, and lays the path down.
pub fn next_hit<I: Source>(
    intake: &mut LongIntake,
    input: &mut I,
    last: Option<&[u8]>,
    out: &mut Vec<u8>,
) -> Result<(u64, u64), TextFault>
    requires { IsLastPath (option_copied last) }
    ensures taken { TakesLine (IsHit (option_copied last.entry)) hit_line (hit_at (option_copied last.entry)) (SaysHit out.new.items)
        intake.old intake.new (I.left input.old) (I.left input.new) (I.faults input.old) (I.faults input.new) result }
    ensures reported { IsReported (I.faults input.old) (I.faults input.new) result }
{
    loop {
        match try_hit(intake, last, out) {
            Ok(figures) => return Ok(figures),
            Err(stop) => match after_stop(intake, input, stop) {
                Ok(()) => {}
                Err(fault) => return Err(fault),
            },
        }
        match await_hit(intake, input, last, out) {
            Ok(()) => {}
            Err(fault) => return Err(fault),
        }
    }
}

// Reads the line of a skipped path from the bytes held, and passes over it.
fn try_skipped(intake: &mut LongIntake, last: Option<&[u8]>, out: &mut Vec<u8>) -> Result<(), Stop>
    requires { IsLastPath (option_copied last) }
    ensures { Tries (skipped_at (option_copied last.entry)) (SaysPath out.new.items) intake.old intake.new result }
{
    let bytes = intake.bytes();
    let left = match skipped_line(bytes, last, out) {
        Ok(rest) => rest.len(),
        Err(stop) => return Err(stop),
    };
    let used = bytes.len() - left;
    intake.pass_line(used);
    Ok(())
}

/// Takes the line of a skipped path, and lays the path down.
pub fn next_skipped<I: Source>(
    intake: &mut LongIntake,
    input: &mut I,
    last: Option<&[u8]>,
    out: &mut Vec<u8>,
) -> Result<(), TextFault>
    requires { IsLastPath (option_copied last) }
    ensures taken { TakesLine (IsNext (option_copied last.entry)) skipped_line (skipped_at (option_copied last.entry))
        (SaysPath out.new.items) intake.old intake.new (I.left input.old) (I.left input.new) (I.faults input.old) (I.faults input.new)
        result }
    ensures reported { IsReported (I.faults input.old) (I.faults input.new) result }
{
    loop {
        match try_skipped(intake, last, out) {
            Ok(()) => return Ok(()),
            Err(stop) => match after_stop(intake, input, stop) {
                Ok(()) => {}
                Err(fault) => return Err(fault),
            },
        }
        match await_skipped(intake, input, last, out) {
            Ok(()) => {}
            Err(fault) => return Err(fault),
        }
    }
}
