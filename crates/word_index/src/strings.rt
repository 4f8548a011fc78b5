//! Byte strings in one block of memory.
ghost use Rattle.std.specs.Prelude.{◌≡◌, ◌+◌, ◌<◌, ◌≤◌, ℕ, List, [], ◌∷◌, ◌++◌, length, map, take, IfOk, OnOk, OnErr, slice_index, slice_index_or};
ghost use Rattle.word_index.specs.Words.{lower};

use crate::blocks::{end_part, part_of};
use std::alloc::{AllocError, Global};
use std::marker::Model;

#[inline(always)]
fn lower_byte(b: u8) -> u8
    ensures { result ≡ lower b }
{
    if b >= 65 && b <= 90 { b + 32 } else { b }
}

// Puts the letters into lower case.
fn make_lower(text: &mut [u8])
    ensures { text.new ≡ map lower text.old }
{
    for b in text.iter_mut() {
        *b = lower_byte(*b);
    }
}

// Adds the bytes with their letters in lower case.
fn add_lower(text: &mut Vec<u8>, s: &[u8]) -> Result<(), AllocError>
    ensures ok { OnOk result (text.new.items ≡ text.old.items ++ map lower s.now) }
    ensures kept { take (length text.old.items) text.new.items ≡ text.old.items }
{
    let start = text.len();
    text.extend_from_slice(s)?;
    make_lower(&mut text[start..]);
    Ok(())
}

/// Byte strings one after the other.
#[derive(Drop)]
pub struct Strings {
    text: Vec<u8>,
    ends: Vec<usize>,
}

impl Model for Strings {
    ghost use Rattle.std.specs.Prelude.{ℕ, List};
    ghost use Rattle.word_index.specs.Blocks.{parts, AreEnds};

    ghost Value = { List (List ℕ) };

    ghost view = { λ s. parts s.text.items 0 s.ends.items };

    ghost invariant = { λ s. AreEnds s.text.items 0 s.ends.items };
}

impl Strings {
    /// No strings.
    pub fn new(alloc: Global) -> Strings
        ensures { result ≡ [] }
    {
        Strings {
            text: Vec::new(alloc),
            ends: Vec::new(alloc),
        }
    }

    /// Strings with room for so many of so many bytes in all.
    pub(crate) fn with_room(alloc: Global, bytes: usize, many: usize) -> Result<Strings, AllocError>
        ensures { IfOk result (λ s. s ≡ []) }
    {
        Ok(Strings {
            text: Vec::with_capacity(alloc, bytes)?,
            ends: Vec::with_capacity(alloc, many)?,
        })
    }

    /// How many there are.
    #[inline(always)]
    pub fn len(&self) -> usize
        ensures { result ≡ length self.now }
    {
        self.ends.len()
    }

    /// The number of bytes of all.
    pub(crate) fn bytes(&self) -> usize {
        self.text.len()
    }

    /// The bytes of all, one after the other.
    pub(crate) fn text(&self) -> &[u8] {
        self.text.as_slice()
    }

    /// The string at this place.
    #[inline(always)]
    pub fn get(&self, at: usize) -> &[u8]
        requires { at < length self.now }
        ensures { result.now ≡ slice_index_or self.now at [] }
    {
        part_of(&self.text, &self.ends, at)
    }

    /// Adds a string at the end.
    pub fn push(&mut self, s: &[u8]) -> Result<(), AllocError>
        ensures added { OnOk result (self.new ≡ self.old ++ s.now ∷ []) }
        ensures kept { OnErr result (self.new ≡ self.old) }
    {
        self.ends.reserve(1)?;
        self.text.extend_from_slice(s)?;
        let end = self.text.len();
        self.ends.push_reserved(end);
        Ok(())
    }

    /// Adds the string with its letters in lower case.
    pub(crate) fn push_lower(&mut self, s: &[u8]) -> Result<(), AllocError>
        ensures { OnOk result (self.new ≡ self.old ++ map lower s.now ∷ []) }
    {
        let start = self.text.len();
        match add_lower(&mut self.text, s) {
            Ok(()) => {}
            Err(fault) => {
                self.text.truncate(start);
                return Err(fault);
            }
        }
        end_part(&mut self.text, &mut self.ends, start)
    }
}
