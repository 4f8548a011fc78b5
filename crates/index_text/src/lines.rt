//! The lines of an index text.
ghost use Rattle.std.specs.Prelude.{◌≡◌, OnOk};
ghost use Rattle.std.specs.Option.{option_copied};
ghost use Rattle.exact_text.specs.Reading.{as_value};
ghost use Rattle.index_text.specs.Lines.{capped_heading, capped_line, heading_at, hit_at, hit_from, key_line_at, skipped_at, hit_prefix_at};
ghost use Rattle.index_text.specs.Steps.{Gives, heading_of};

use crate::fault::Stop;
use crate::key::key;
use crate::path::path;
use crate::token::{capped_numeral, number_u64, word};
use std::alloc::AllocError;

/// The prefix of a row with its number of files as far as a counter goes, or a skipped path.
#[derive(Clone, Copy)]
pub enum Prefix {
    Word(u64),
    Skipped,
}

// Reads the line of a word: the word, its number of files as far as a counter goes, and what follows.
fn word_line<'b>(bytes: &'b [u8], last: Option<&[u8]>) -> Result<(&'b [u8], u64, &'b [u8]), Stop>
    ensures { Gives (λ x. ((x.0.now, x.1), x.2.now)) result
        (as_value capped_line (key_line_at (option_copied last.entry)) bytes.now) }
{
    let (name, rest) = match key(bytes, last) {
        Ok(read) => read,
        Err(stop) => return Err(stop),
    };
    match capped_numeral(rest, b'\n') {
        Ok((many, rest)) => Ok((name, many, rest)),
        Err(stop) => Err(stop),
    }
}

/// Reads the line of a skipped path above the last one, and lays the path down.
pub fn skipped_line<'b>(
    bytes: &'b [u8],
    last: Option<&[u8]>,
    out: &mut Vec<u8>,
) -> Result<&'b [u8], Stop>
    ensures { Gives (λ rest. (out.new.items, rest.now)) result (skipped_at (option_copied last.entry) bytes.now) }
{
    match word(bytes, b"skipped: ") {
        Ok(rest) => path(rest, last, out),
        Err(stop) => Err(stop),
    }
}

// Lays the word down.
fn lay(word: &[u8], out: &mut Vec<u8>) -> Result<(), AllocError>
    ensures { OnOk result (out.new.items ≡ word.now) }
{
    out.clear();
    out.extend_from_slice(word)
}

/// Reads the line of a word above the last one, or that of the first skipped path, and lays the word or the path down.
pub fn heading<'b>(
    bytes: &'b [u8],
    last: Option<&[u8]>,
    out: &mut Vec<u8>,
) -> Result<(Prefix, &'b [u8]), Stop>
    ensures { Gives (λ x. (heading_of out.new.items x.0, x.1.now)) result
        (as_value capped_heading (heading_at (option_copied last.entry)) bytes.now) }
{
    match word_line(bytes, last) {
        Err(Stop::Dead) => {}
        Err(Stop::More) => return Err(Stop::More),
        Err(Stop::Memory) => return Err(Stop::Memory),
        Ok((word, many, rest)) => {
            return match lay(word, out) {
                Ok(()) => Ok((Prefix::Word(many), rest)),
                Err(_) => Err(Stop::Memory),
            };
        }
    }
    match skipped_line(bytes, None, out) {
        Ok(rest) => Ok((Prefix::Skipped, rest)),
        Err(stop) => Err(stop),
    }
}

/// Reads the numbers of the line of a file.
pub fn hit_prefix(bytes: &[u8]) -> Result<(u64, u64, &[u8]), Stop>
    ensures { Gives (λ x. ((x.0, x.1), x.2.now)) result (hit_prefix_at bytes.now) }
{
    let rest = match word(bytes, b"  ") {
        Ok(rest) => rest,
        Err(stop) => return Err(stop),
    };
    let (count, rest) = match number_u64(rest, b' ') {
        Ok(read) => read,
        Err(stop) => return Err(stop),
    };
    match number_u64(rest, b' ') {
        Ok((line, rest)) => Ok((count, line, rest)),
        Err(stop) => Err(stop),
    }
}

/// Reads the line of a file with a path above the last one, and lays the path down.
pub fn hit<'b>(
    bytes: &'b [u8],
    last: Option<&[u8]>,
    out: &mut Vec<u8>,
) -> Result<((u64, u64), &'b [u8]), Stop>
    ensures { Gives (λ x. (hit_from (x.0, out.new.items), x.1.now)) result (hit_at (option_copied last.entry) bytes.now) }
{
    let (count, line, rest) = match hit_prefix(bytes) {
        Ok(read) => read,
        Err(stop) => return Err(stop),
    };
    match path(rest, last, out) {
        Ok(rest) => Ok(((count, line), rest)),
        Err(stop) => Err(stop),
    }
}
