//! Paths above the last one.
ghost use Rattle.std.specs.Prelude.{◌≡◌, ◌<◌, ◌≤◌, ◌++◌, length, Some, IfOk, OnOk, slice_index, if◌then◌else◌};
ghost use Rattle.std.specs.Option.{option_copied};
ghost use Rattle.index_text.specs.Lines.{path_at, prefix_of, is_path, is_path_prefix, is_no_newline, begins_last};
ghost use Rattle.index_text.specs.Escapes.{Unescapes, IsStep};
ghost use Rattle.index_text.specs.Steps.{Gives, IsPassed};

use crate::fault::Stop;
use crate::key::{above, begins};
use std::alloc::AllocError;
use std::str::from_utf8;

/// How the bytes of a path on a line end: well, after a backslash, or not at all.
#[derive(Clone, Copy)]
pub enum Ending {
    Whole,
    Open,
    Broken,
}

/// The place of the first newline, or the end.
pub fn line_end(bytes: &[u8]) -> usize
    ensures within { result ≤ length bytes.now }
    ensures ends { result < length bytes.now → slice_index bytes.now result ≡ 10 }
    ensures keys { IsPassed is_no_newline bytes.now result }
{
    let mut at = 0;
    while at < bytes.len() && bytes[at] != b'\n' {
        at += 1;
    }
    at
}

// What one byte says, after a backslash or not.
#[derive(Clone, Copy)]
enum Step {
    Wait,
    Put(u8),
    Fail,
}

fn step_of(pending: bool, b: u8) -> Step
    ensures { IsStep pending b result }
{
    if pending {
        if b == b'\\' {
            Step::Put(b'\\')
        } else if b == b'n' {
            Step::Put(b'\n')
        } else {
            Step::Fail
        }
    } else if b == b'\\' {
        Step::Wait
    } else {
        Step::Put(b)
    }
}

/// Lays down what the bytes stand for.
pub fn unescape(bytes: &[u8], out: &mut Vec<u8>) -> Result<Ending, AllocError>
    ensures { IfOk result (Unescapes bytes.now out.new.items) }
{
    out.clear();
    let mut pending = false;
    for b in bytes {
        match step_of(pending, *b) {
            Step::Wait => pending = true,
            Step::Put(byte) => {
                out.push(byte)?;
                pending = false;
            }
            Step::Fail => return Ok(Ending::Broken),
        }
    }
    if pending {
        Ok(Ending::Open)
    } else {
        Ok(Ending::Whole)
    }
}

// Whether it is a path above the last one.
fn good(last: Option<&[u8]>, path: &[u8]) -> bool
    ensures { result ≡ is_path (option_copied last.entry) (Some path.now) }
{
    if path.is_empty() {
        return false;
    }
    match from_utf8(path) {
        Ok(_) => above(last, path),
        Err(_) => false,
    }
}

// Whether it is a path above the last one with these bytes after it.
fn completes(last: Option<&[u8]>, prefix: &mut Vec<u8>, more: &[u8]) -> Result<bool, AllocError>
    ensures shows { IfOk result (λ b. b ≡ is_path (option_copied last.entry) (Some (prefix.old.items ++ more.now))) }
    ensures kept { OnOk result (prefix.new.items ≡ prefix.old.items) }
{
    let start = prefix.len();
    prefix.extend_from_slice(more)?;
    let answer = good(last, prefix);
    prefix.truncate(start);
    Ok(answer)
}

// Whether the last path begins so.
fn last_begins(last: Option<&[u8]>, prefix: &[u8]) -> bool
    ensures { result ≡ begins_last (option_copied last.entry) prefix.now }
{
    match last {
        None => false,
        Some(last) => begins(prefix, last),
    }
}

// Whether a path above the last one begins so. The bytes of a character that has begun are tried.
#[cold]
fn may_be(last: Option<&[u8]>, prefix: &mut Vec<u8>) -> Result<bool, AllocError>
    ensures { IfOk result (λ b. b ≡ is_path_prefix (option_copied last.entry) (Some prefix.old.items)) }
{
    if last_begins(last, prefix) || good(last, prefix) {
        return Ok(true);
    }
    Ok(
        completes(last, prefix, b"a")?
            || completes(last, prefix, b"\x80")?
            || completes(last, prefix, b"\x80\x80")?
            || completes(last, prefix, b"\x80\x80\x80")?
            || completes(last, prefix, b"\xa0\x80")?
            || completes(last, prefix, b"\x90\x80\x80")?,
    )
}

// Reads the prefix of a path, which has no end.
#[cold]
fn cut_path(bytes: &[u8], last: Option<&[u8]>, out: &mut Vec<u8>) -> Result<bool, AllocError>
    ensures { IfOk result (λ b. b ≡ is_path_prefix (option_copied last.entry) (prefix_of bytes.now)) }
{
    match unescape(bytes, out)? {
        Ending::Broken => Ok(false),
        Ending::Open => {
            out.push(b'\\')?;
            may_be(last, out)
        }
        Ending::Whole => may_be(last, out),
    }
}

/// Reads a path above the last one and the end of its line, and lays the path down.
pub fn path<'b>(bytes: &'b [u8], last: Option<&[u8]>, out: &mut Vec<u8>) -> Result<&'b [u8], Stop>
    ensures { Gives (λ rest. (out.new.items, rest.now)) result (path_at (option_copied last.entry) bytes.now) }
{
    let end = line_end(bytes);
    if end == bytes.len() {
        return match cut_path(bytes, last, out) {
            Ok(true) => Err(Stop::More),
            Ok(false) => Err(Stop::Dead),
            Err(_) => Err(Stop::Memory),
        };
    }
    match unescape(&bytes[..end], out) {
        Err(_) => Err(Stop::Memory),
        Ok(Ending::Whole) => {
            if good(last, out) {
                Ok(&bytes[end + 1..])
            } else {
                Err(Stop::Dead)
            }
        }
        Ok(Ending::Open) => Err(Stop::Dead),
        Ok(Ending::Broken) => Err(Stop::Dead),
    }
}
