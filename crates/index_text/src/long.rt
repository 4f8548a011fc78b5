//! Long paths: as more bytes of one come, it is read from where the bytes before them ended.
ghost use Rattle.std.specs.Prelude.{◌≡◌, ◌<◌, ◌≤◌, ◌-◌, length, take, drop, Err, IfOk, IfSome};
ghost use Rattle.std.specs.Option.{option_copied};
ghost use Rattle.exact_text.specs.Intake.{IsReported};
ghost use Rattle.exact_text.specs.declared.stop.Stop.TheVariants.{More};
ghost use Rattle.index_text.specs.Numerals.{is_digit};
ghost use Rattle.index_text.specs.Steps.{IsPassed};
ghost use Rattle.index_text.specs.Lines.{path_at, heading_at, hit_at, skipped_at};
ghost use Rattle.index_text.specs.Next.{IsLast, IsLastPath};
ghost use Rattle.index_text.specs.Long.{IsLeft, Settles, IsCut, IsCounted, Awaits, AsksMore};

use crate::fault::Stop;
use crate::key::{above, begins, key};
use crate::lines::hit_prefix;
use crate::next::after_stop;
use crate::path::{Ending, line_end, path, unescape};
use crate::token::{capped_numeral, word};
use exact_text::{LongIntake, TextFault};
use firefly_outside::Source;
use std::alloc::AllocError;
use std::str::from_utf8;

fn after<'l>(text: &'l [u8], count: usize) -> &'l [u8]
    requires { count ≤ length text.now }
    ensures { result.now ≡ drop count text.now }
{
    &text[count..]
}

// What the rest of a path has to be above where the path begins so: nothing, or what is left of the last path.
fn left_of<'l>(last: Option<&'l [u8]>, begun: &[u8]) -> Option<Option<&'l [u8]>>
    ensures { IfSome result (λ left. IsLeft (option_copied last.entry) begun.now (option_copied left)) }
{
    if above(last, begun) {
        return Some(None);
    }
    let Some(text) = last else {
        return None;
    };
    if begun.len() < text.len() && begins(begun, text) {
        Some(Some(after(text, begun.len())))
    } else {
        None
    }
}

// Reads bytes that stand for whole characters of a path.
fn characters<'l>(
    bytes: &[u8],
    last: Option<&'l [u8]>,
    out: &mut Vec<u8>,
) -> Result<Option<Option<&'l [u8]>>, AllocError>
    ensures { IfOk result (λ s. IfSome s (λ left. Settles (option_copied last.entry) bytes.now (option_copied left))) }
{
    if line_end(bytes) < bytes.len() {
        return Ok(None);
    }
    match unescape(bytes, out)? {
        Ending::Whole => {}
        Ending::Open => return Ok(None),
        Ending::Broken => return Ok(None),
    }
    match from_utf8(out) {
        Ok(_) => Ok(left_of(last, out)),
        Err(_) => Ok(None),
    }
}

// Reads as many of the bytes as stand for whole characters of a path: all but the last four at most.
fn settle<'l>(
    bytes: &[u8],
    last: Option<&'l [u8]>,
    out: &mut Vec<u8>,
) -> Result<(usize, Option<&'l [u8]>), AllocError>
    requires { IsLastPath (option_copied last) }
    ensures within { IfOk result (λ s. s.0 ≤ length bytes.now) }
    ensures settled { IfOk result (λ s. Settles (option_copied last.entry) (take s.0 bytes.now) (option_copied s.1)) }
{
    for short in 0..5 {
        if short <= bytes.len() {
            let count = bytes.len() - short;
            match characters(&bytes[..count], last, out)? {
                Some(left) => return Ok((count, left)),
                None => {}
            }
        }
    }
    Ok((0, last))
}

// Where the bytes after the first ones only begin a path, how many are read then, and what its rest has to be above.
fn further<'l>(
    bytes: &[u8],
    at: usize,
    last: Option<&'l [u8]>,
    out: &mut Vec<u8>,
) -> Result<Option<(usize, Option<&'l [u8]>)>, AllocError>
    requires within { at ≤ length bytes.now }
    requires last { IsLastPath (option_copied last) }
    ensures begun { IfOk result (λ s. IfSome s (λ p. path_at (option_copied last.entry) (drop at bytes.now) ≡ Err More)) }
    ensures within { IfOk result (λ s. IfSome s (λ p. (at ≤ p.0) × (p.0 ≤ length bytes.now))) }
    ensures settled { IfOk result (λ s. IfSome s (λ p. Settles (option_copied last.entry) (take (p.0 - at) (drop at bytes.now))
        (option_copied p.1))) }
{
    let rest = &bytes[at..];
    match path(rest, last, out) {
        Err(Stop::More) => {}
        Err(Stop::Memory) => return Err(AllocError),
        Err(Stop::Dead) => return Ok(None),
        Ok(_) => return Ok(None),
    }
    match settle(rest, last, out) {
        Ok((count, left)) => Ok(Some((at + count, left))),
        Err(fault) => Err(fault),
    }
}

// Takes more bytes for as long as those after the first ones only begin a path.
fn await_path<I: Source>(
    intake: &mut LongIntake,
    input: &mut I,
    start: usize,
    last: Option<&[u8]>,
    out: &mut Vec<u8>,
) -> Result<(), TextFault>
    requires within { start ≤ length intake.old.window }
    requires last { IsLastPath (option_copied last) }
    ensures awaits { Awaits (IsCut (option_copied last.entry) (take start intake.old.window)) intake.old intake.new (I.left input.old)
        (I.left input.new) (I.faults input.old) (I.faults input.new) result }
    ensures reported { IsReported (I.faults input.old) (I.faults input.new) result }
{
    let mut at = start;
    let mut above = last;
    loop {
        match further(intake.bytes(), at, above, out) {
            Ok(Some((end, left))) => {
                at = end;
                above = left;
            }
            Ok(None) => return Ok(()),
            Err(_) => return Err(TextFault::Memory),
        }
        match after_stop(intake, input, Stop::More) {
            Ok(()) => {}
            Err(fault) => return Err(fault),
        }
    }
}

/// Takes more bytes for as long as those held only begin the line of a file and its path has begun.
pub fn await_hit<I: Source>(
    intake: &mut LongIntake,
    input: &mut I,
    last: Option<&[u8]>,
    out: &mut Vec<u8>,
) -> Result<(), TextFault>
    requires { IsLastPath (option_copied last) }
    ensures awaits { Awaits (AsksMore (hit_at (option_copied last.entry))) intake.old intake.new (I.left input.old) (I.left input.new)
        (I.faults input.old) (I.faults input.new) result }
    ensures reported { IsReported (I.faults input.old) (I.faults input.new) result }
{
    let bytes = intake.bytes();
    let left = match hit_prefix(bytes) {
        Ok((_, _, rest)) => rest.len(),
        Err(_) => return Ok(()),
    };
    let start = bytes.len() - left;
    await_path(intake, input, start, last, out)
}

/// Takes more bytes for as long as those held only begin the line of a skipped path and the path has begun.
pub fn await_skipped<I: Source>(
    intake: &mut LongIntake,
    input: &mut I,
    last: Option<&[u8]>,
    out: &mut Vec<u8>,
) -> Result<(), TextFault>
    requires { IsLastPath (option_copied last) }
    ensures awaits { Awaits (AsksMore (skipped_at (option_copied last.entry))) intake.old intake.new (I.left input.old) (I.left input.new)
        (I.faults input.old) (I.faults input.new) result }
    ensures reported { IsReported (I.faults input.old) (I.faults input.new) result }
{
    let bytes = intake.bytes();
    let left = match word(bytes, b"skipped: ") {
        Ok(rest) => rest.len(),
        Err(_) => return Ok(()),
    };
    let start = bytes.len() - left;
    await_path(intake, input, start, last, out)
}

// The place of the first byte that is no digit, or the end.
fn digits_end(bytes: &[u8]) -> usize
    ensures within { result ≤ length bytes.now }
    ensures digits { IsPassed is_digit bytes.now result }
{
    let mut at = 0;
    while at < bytes.len() && bytes[at] >= b'0' && bytes[at] <= b'9' {
        at += 1;
    }
    at
}

// Takes more bytes for as long as those after the first ones only begin a number.
fn await_count<I: Source>(
    intake: &mut LongIntake,
    input: &mut I,
    start: usize,
) -> Result<(), TextFault>
    requires { start ≤ length intake.old.window }
    ensures awaits { Awaits (IsCounted start intake.old.window) intake.old intake.new (I.left input.old) (I.left input.new)
        (I.faults input.old) (I.faults input.new) result }
    ensures reported { IsReported (I.faults input.old) (I.faults input.new) result }
{
    let bytes = intake.bytes();
    if bytes.len() == start {
        return Ok(());
    }
    match capped_numeral(&bytes[start..], b'\n') {
        Err(Stop::More) => {}
        Err(Stop::Memory) => return Ok(()),
        Err(Stop::Dead) => return Ok(()),
        Ok(_) => return Ok(()),
    }
    let mut at = bytes.len();
    loop {
        let bytes = intake.bytes();
        let rest = &bytes[at..];
        if digits_end(rest) < rest.len() {
            return Ok(());
        }
        at = bytes.len();
        match after_stop(intake, input, Stop::More) {
            Ok(()) => {}
            Err(fault) => return Err(fault),
        }
    }
}

/// Takes more bytes for as long as those held only begin the line of a word or of the first skipped path.
pub fn await_heading<I: Source>(
    intake: &mut LongIntake,
    input: &mut I,
    last: Option<&[u8]>,
    out: &mut Vec<u8>,
) -> Result<(), TextFault>
    requires { IsLast (option_copied last) }
    ensures awaits { Awaits (AsksMore (heading_at (option_copied last.entry))) intake.old intake.new (I.left input.old) (I.left input.new)
        (I.faults input.old) (I.faults input.new) result }
    ensures reported { IsReported (I.faults input.old) (I.faults input.new) result }
{
    let bytes = intake.bytes();
    let left = match key(bytes, last) {
        Ok((_, rest)) => rest.len(),
        Err(_) => return await_skipped(intake, input, None, out),
    };
    let start = bytes.len() - left;
    await_count(intake, input, start)
}
