//! What is taken from a source whose lines may have any length, within a budget of bytes.
ghost use Rattle.std.specs.Prelude.{◌≡◌, ◌⊎◌, ◌+◌, ◌-◌, ◌^◌, ◌<◌, ◌≤◌, [], ◌++◌, drop, length, OnOk};

use crate::{Intake, TextFault};
use firefly_outside::{Source, Window};
use std::alloc::{AllocError, Global};
use std::marker::Model;

/// What was taken from a source. Contracts see an `Intake` whose window may hold any number of bytes.
#[derive(Drop)]
pub struct LongIntake {
    intake: Intake,
    held: Vec<u8>,
    start: usize,
    ghost moved: { intake.window ≡ [] },
    ghost within: { start ≤ length held.items },
    ghost read: { intake.lines + length (drop start held.items) ≤ intake.given },
}

impl Model for LongIntake {
    ghost use Rattle.std.specs.Prelude.{drop};
    ghost use Rattle.exact_text.specs.declared.intake.Intake.{Intake};

    ghost Value = { Intake };

    ghost view = { λ l. record {
      window = drop l.start l.held.items;
      given = l.intake.given;
      budget = l.intake.budget;
      lines = l.intake.lines;
      read = l.read;
      within = l.intake.within;
      below = l.intake.below;
    } };
}

// Removes the first bytes. If there are none to remove, nothing is moved: while a long line comes, this
// is called for each of its parts.
fn cut_front(held: &mut Vec<u8>, count: usize)
    requires { count ≤ length held.old.items }
    ensures { held.new.items ≡ drop count held.old.items }
{
    if count == 0 {
        return;
    }
    let left = held.len() - count;
    held.copy_within(count.., 0);
    held.truncate(left);
}

// Moves what the window holds to the end of the bytes held.
fn move_over(window: &mut Window, held: &mut Vec<u8>) -> Result<(), AllocError>
    ensures added { OnOk result (held.new.items ≡ held.old.items ++ window.old) }
    ensures moved { OnOk result (window.new ≡ []) }
    ensures shorter { length window.new ≤ length window.old }
{
    held.extend_from_slice(window.bytes())?;
    let count = window.len();
    window.skip(count);
    Ok(())
}

// Passes over all bytes held: nothing is read after a fault.
fn lose(window: &mut Window, held: &mut Vec<u8>)
    ensures window { window.new ≡ [] }
    ensures held { held.new.items ≡ [] }
{
    let count = window.len();
    window.skip(count);
    held.clear();
}

impl LongIntake {
    ghost use Rattle.exact_text.specs.Intake.{IsReported};
    ghost use Rattle.exact_text.specs.Long.{IsLongFilled, IsLongAsked};

    /// Nothing, of which so many bytes may be read.
    pub fn new(alloc: Global, budget: u64) -> LongIntake
        requires { budget < 2 ^ 64 - 1 }
        ensures rest { result.window ≡ [] }
        ensures given { result.given ≡ 0 }
        ensures budget { result.budget ≡ budget }
        ensures lines { result.lines ≡ 0 }
    {
        LongIntake {
            intake: Intake::new(budget),
            held: Vec::new(alloc),
            start: 0,
        }
    }

    /// The bytes that aren't read yet.
    pub fn bytes(&self) -> &[u8]
        ensures { result.now ≡ self.now.window }
    {
        &self.held[self.start..]
    }

    /// How many lines were read.
    pub fn lines(&self) -> u64
        ensures many { result ≡ self.now.lines }
        ensures few { result < 2 ^ 64 - 1 }
    {
        self.intake.lines
    }

    /// Passes over the line that has so many bytes.
    pub fn pass_line(&mut self, count: usize)
        requires some { 0 < count }
        requires within { count ≤ length self.old.window }
        ensures window { self.new.window ≡ drop count self.old.window }
        ensures lines { self.new.lines ≡ self.old.lines + 1 }
        ensures given { self.new.given ≡ self.old.given }
        ensures budget { self.new.budget ≡ self.old.budget }
    {
        self.start += count;
        self.intake.lines += 1;
    }

    /// Takes more bytes, and says whether the source had any. It is asked for one byte past the budget.
    pub fn fill<I: Source>(&mut self, input: &mut I) -> Result<bool, TextFault>
        ensures filled { IsLongFilled self.old self.new (I.left input.old) (I.left input.new) (I.faults input.old) (I.faults input.new)
            result }
        ensures reported { IsReported (I.faults input.old) (I.faults input.new) result }
    {
        match self.intake.fill(input) {
            Ok(true) => {}
            Ok(false) => return Ok(false),
            Err(fault) => {
                lose(&mut self.intake.window, &mut self.held);
                self.start = 0;
                return Err(fault);
            }
        }
        cut_front(&mut self.held, self.start);
        self.start = 0;
        match move_over(&mut self.intake.window, &mut self.held) {
            Ok(()) => Ok(true),
            Err(_) => {
                lose(&mut self.intake.window, &mut self.held);
                Err(TextFault::Memory)
            }
        }
    }

    /// Whether a byte is left. Where none is held, the source is asked.
    pub fn goes_on<I: Source>(&mut self, input: &mut I) -> Result<bool, TextFault>
        ensures asked { IsLongAsked self.old self.new (I.left input.old) (I.left input.new) (I.faults input.old) (I.faults input.new)
            result }
        ensures reported { IsReported (I.faults input.old) (I.faults input.new) result }
        ensures asks { ((input.new ≡ input.old) × (self.new ≡ self.old)) ⊎ (self.old.window ≡ []) }
    {
        if self.start < self.held.len() {
            return Ok(true);
        }
        self.fill(input)
    }
}
