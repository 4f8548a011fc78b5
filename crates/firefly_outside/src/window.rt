//! The bytes that were taken from a source and aren't read yet.
ghost use Rattle.std.specs.Prelude.{◌≡◌, ℕ, ◌-◌, ◌+◌, ◌<◌, ◌≤◌, [], List, length, take, drop, IfOk, OnOk, OnErr, MatchResult};
ghost use Rattle.std.specs.Io.KnownBytes.{ReadConsumes, Keeps};
ghost use Rattle.firefly_outside.specs.Causes.{HasCause};
ghost use Rattle.firefly_outside.specs.Window.{Grows};

use crate::{Failed, Source};
use std::marker::Model;

/// How many bytes a window holds.
pub const WINDOW_ROOM: usize = 65536;

/// The bytes that were taken from a source and aren't read yet.
#[derive(Drop)]
pub struct Window {
    buf: [u8; 65536],
    start: usize,
    end: usize,
}

impl Model for Window {
    ghost Value = { List ℕ };

    ghost view = { λ w. take (w.end - w.start) (drop w.start w.buf) };

    ghost invariant = { λ w. (w.start ≤ w.end) × (w.end ≤ 65536) };
}

impl Window {
    /// A window that holds nothing.
    pub fn new() -> Window
        ensures { result ≡ [] }
    {
        Window {
            buf: [0; 65536],
            start: 0,
            end: 0,
        }
    }

    /// The bytes that it holds.
    pub fn bytes(&self) -> &[u8]
        ensures { result.now ≡ self.now }
    {
        &self.buf[self.start..self.end]
    }

    /// How many they are.
    pub fn len(&self) -> usize
        ensures { result ≡ length self.now }
    {
        self.end - self.start
    }

    /// Passes over the first bytes.
    pub fn skip(&mut self, count: usize)
        requires { count ≤ length self.old }
        ensures { self.new ≡ drop count self.old }
    {
        self.start += count;
    }

    /// Takes at most so many bytes from the source, and says how many.
    pub fn refill<I: Source>(&mut self, input: &mut I, most: usize) -> Result<usize, Failed>
        requires some { 0 < most }
        requires room { length self.old < 65536 }
        ensures bytes { Grows most (I.left input.old) (I.left input.new) self.old self.new result }
        ensures cause { HasCause (I.faults input.old) (I.faults input.new) result }
        ensures unfailed { OnOk result (I.faults input.new ≡ I.faults input.old) }
    {
        let kept = self.end - self.start;
        to_front(&mut self.buf, self.start, self.end);
        self.start = 0;
        self.end = kept;
        let count = read_after(input, &mut self.buf, kept, most)?;
        self.end = kept + count;
        Ok(count)
    }
}

// Moves the part to the front.
fn to_front(buf: &mut [u8], start: usize, end: usize)
    requires ordered { start ≤ end }
    requires within { end ≤ length buf.old }
    ensures { take (end - start) buf.new ≡ take (end - start) (drop start buf.old) }
{
    buf.copy_within(start..end, 0);
}

// Reads at most so many bytes to the place after the first ones.
fn read_after<I: Source>(
    input: &mut I,
    buf: &mut [u8],
    kept: usize,
    most: usize,
) -> Result<usize, Failed>
    requires room { kept < length buf.old }
    requires some { 0 < most }
    ensures front { take kept buf.new ≡ take kept buf.old }
    ensures within { IfOk result (λ n. kept + n ≤ length buf.new) }
    ensures most { IfOk result (λ n. n ≤ most) }
    ensures bytes { ReadConsumes (I.left input.old) (I.left input.new) result (drop kept buf.new) }
    ensures cause { HasCause (I.faults input.old) (I.faults input.new) result }
    ensures unfailed { OnOk result (I.faults input.new ≡ I.faults input.old) }
{
    let end = kept + most.min(buf.len() - kept);
    input.next(&mut buf[kept..end])
}
