//! Words above the last one.
ghost use Rattle.std.specs.Prelude.{◌≡◌, ◌<◌, ◌≤◌, false, length, slice_index, nat_lt};
ghost use Rattle.std.specs.List.{list_any};
ghost use Rattle.std.specs.Option.{option_copied};
ghost use Rattle.index_text.specs.Texts.{is_key_byte};
ghost use Rattle.index_text.specs.Lines.{is_prefix, is_good_word, may_be_word, key_at, is_above};
ghost use Rattle.index_text.specs.Steps.{Gives, IsPassed};

use crate::fault::Stop;
use std::cmp::Ordering;

#[inline(always)]
fn is_key(b: u8) -> bool
    ensures { result ≡ is_key_byte b }
{
    (b >= 97 && b <= 122) || (b >= 48 && b <= 57) || b == 95
}

/// Whether the text is above the last one.
pub fn above(last: Option<&[u8]>, text: &[u8]) -> bool
    ensures { result ≡ is_above (option_copied last.entry) text.now }
{
    match last {
        None => true,
        Some(last) => match last.cmp(&text) {
            Ordering::Less => true,
            _ => false,
        },
    }
}

/// Whether the one begins the other.
pub fn begins(one: &[u8], other: &[u8]) -> bool
    ensures { result ≡ is_prefix one.now other.now }
{
    if other.len() < one.len() {
        return false;
    }
    for i in 0..one.len() {
        if one[i] != other[i] {
            return false;
        }
    }
    true
}

fn good(last: Option<&[u8]>, word: &[u8]) -> bool
    ensures { result ≡ is_good_word (option_copied last.entry) word.now }
{
    !word.is_empty() && word.len() <= 64 && above(last, word)
}

// Whether a byte leaves room above it.
fn has_room(rest: &[u8]) -> bool
    ensures { result ≡ list_any (λ b. nat_lt b 122) rest.now }
{
    for b in rest {
        if *b < 122 {
            return true;
        }
    }
    false
}

// Whether a word above the last one begins so.
#[cold]
fn may_be(last: Option<&[u8]>, word: &[u8]) -> bool
    ensures { result ≡ may_be_word (option_copied last.entry) word.now }
{
    if word.len() > 64 {
        return false;
    }
    let Some(last) = last else {
        return true;
    };
    if above(Some(last), word) {
        return true;
    }
    if !begins(word, last) {
        return false;
    }
    if last.len() < 64 {
        return true;
    }
    let start = word.len().min(last.len());
    has_room(&last[start..])
}

// The first place with a byte that may not stand in a word.
fn key_end(bytes: &[u8]) -> usize
    ensures within { result ≤ length bytes.now }
    ensures ends { result < length bytes.now → is_key_byte (slice_index bytes.now result) ≡ false }
    ensures keys { IsPassed is_key_byte bytes.now result }
{
    let mut at = 0;
    while at < bytes.len() && is_key(bytes[at]) {
        at += 1;
    }
    at
}

/// Reads a word above the last one, and the space after it.
pub fn key<'b>(bytes: &'b [u8], last: Option<&[u8]>) -> Result<(&'b [u8], &'b [u8]), Stop>
    ensures { Gives (λ x. (x.0.now, x.1.now)) result (key_at (option_copied last.entry) bytes.now) }
{
    let at = key_end(bytes);
    if at == bytes.len() {
        if may_be(last, bytes) {
            return Err(Stop::More);
        }
        return Err(Stop::Dead);
    }
    let word = &bytes[..at];
    if bytes[at] != b' ' {
        return Err(Stop::Dead);
    }
    if good(last, word) {
        Ok((word, &bytes[at + 1..]))
    } else {
        Err(Stop::Dead)
    }
}
