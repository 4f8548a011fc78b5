//! What is taken from a source, within a budget of bytes.
ghost use Rattle.std.specs.Prelude.{◌≡◌, ◌⊎◌, ◌+◌, ◌-◌, ◌^◌, ◌<◌, ◌≤◌, [], length};

use crate::TextFault;
use firefly_outside::{Source, Window};

/// What was taken from a source.
#[derive(Drop)]
pub struct Intake {
    /// The bytes that aren't read yet.
    pub window: Window,
    /// How many bytes the source gave.
    pub given: u64,
    /// How many of its bytes may be read.
    pub budget: u64,
    /// How many lines were read.
    pub lines: u64,
    ghost read: { lines + length window ≤ given },
    ghost within: { given ≤ budget },
    ghost below: { budget < 2 ^ 64 - 1 },
}

impl Intake {
    ghost use Rattle.exact_text.specs.Intake.{IsFilled, IsAsked, IsReported};

    /// Nothing, of which so many bytes may be read.
    pub fn new(budget: u64) -> Intake
        requires { budget < 2 ^ 64 - 1 }
        ensures rest { result.window ≡ [] }
        ensures given { result.given ≡ 0 }
        ensures budget { result.budget ≡ budget }
        ensures lines { result.lines ≡ 0 }
    {
        Intake {
            window: Window::new(),
            given: 0,
            budget,
            lines: 0,
        }
    }

    /// Takes more bytes, and says whether the source had any. It is asked for one byte past the budget.
    pub fn fill<I: Source>(&mut self, input: &mut I) -> Result<bool, TextFault>
        requires { length self.old.window < 65536 }
        ensures filled { IsFilled self.old self.new (I.left input.old) (I.left input.new) (I.faults input.old) (I.faults input.new) result }
        ensures reported { IsReported (I.faults input.old) (I.faults input.new) result }
    {
        if self.given < self.budget {
            let most = (self.budget - self.given).min(65536) as usize;
            match self.window.refill(input, most) {
                Err(_) => Err(TextFault::Read),
                Ok(count) => {
                    self.given += count as u64;
                    Ok(count > 0)
                }
            }
        } else {
            let mut past = [0; 1];
            match input.next(&mut past) {
                Err(_) => Err(TextFault::Read),
                Ok(0) => Ok(false),
                Ok(_) => Err(TextFault::TooLong),
            }
        }
    }

    /// Whether a byte is left. Where none is held, the source is asked.
    pub fn goes_on<I: Source>(&mut self, input: &mut I) -> Result<bool, TextFault>
        ensures asked { IsAsked self.old self.new (I.left input.old) (I.left input.new) (I.faults input.old) (I.faults input.new) result }
        ensures reported { IsReported (I.faults input.old) (I.faults input.new) result }
        ensures asks { ((input.new ≡ input.old) × (self.new ≡ self.old)) ⊎ (self.old.window ≡ []) }
    {
        if self.window.len() > 0 {
            return Ok(true);
        }
        self.fill(input)
    }
}
