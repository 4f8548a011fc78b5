//! The lines before those of the threads.
ghost use Rattle.std.specs.Prelude.{◌≡◌};
ghost use Rattle.exact_text.specs.Reading.{Gives};
ghost use Rattle.script_text.specs.Heads.{start_at};

use exact_text::{NextLine, Stop, word};
use larch_actions::{Layout, Version};
use trace_core::layout_line;

/// What a first line says.
#[derive(Clone, Copy)]
pub enum Start {
    /// The layout of version one.
    Layout(Layout),
    /// Version two, whose layout comes next.
    Second,
}

// Reads the first line, and returns what follows it.
fn first_line(bytes: &[u8]) -> Result<(Start, &[u8]), Stop>
    ensures { Gives (λ x. (x.0, x.1.now)) result (start_at bytes.now) }
{
    match word(bytes, b"firefly-script 2\n") {
        Err(Stop::Dead) => {}
        Err(Stop::More) => return Err(Stop::More),
        Ok(rest) => return Ok((Start::Second, rest)),
    }
    match layout_line(bytes, Version::One) {
        Ok((layout, rest)) => Ok((Start::Layout(layout), rest)),
        Err(stop) => Err(stop),
    }
}

/// The first line.
pub struct FirstLine;

impl NextLine for FirstLine {
    ghost use Rattle.script_text.specs.Heads.{IsReadable, IsStart, start_text, start_at};

    type Line = Start;

    ghost is_possible = { λ s. IsReadable IsStart start_text start_at };

    ghost is_lawful = { λ s. IsStart };

    ghost text = { λ s. start_text };

    ghost reads = { λ s. start_at };

    ghost is_exact = { λ s ok. ok.exact };

    ghost is_line = { λ s ok. ok.lines };

    ghost is_some = { λ s ok. ok.some };

    fn read<'b>(&self, bytes: &'b [u8]) -> Result<(Start, &'b [u8]), Stop> {
        first_line(bytes)
    }
}

/// The layout line of version two, the second line.
pub struct SecondLine;

impl NextLine for SecondLine {
    ghost use Rattle.larch_actions.specs.declared.event.Version.TheVariants.{Two};
    ghost use Rattle.trace_core.specs.Lines.{counts_at};
    ghost use Rattle.script_text.specs.Layouts.{IsLayoutIn};
    ghost use Rattle.script_text.specs.Heads.{IsReadable, whole_layout};

    type Line = Layout;

    ghost is_possible = { λ s. IsReadable (IsLayoutIn Two) whole_layout (counts_at Two) };

    ghost is_lawful = { λ s. IsLayoutIn Two };

    ghost text = { λ s. whole_layout };

    ghost reads = { λ s. counts_at Two };

    ghost is_exact = { λ s ok. ok.exact };

    ghost is_line = { λ s ok. ok.lines };

    ghost is_some = { λ s ok. ok.some };

    fn read<'b>(&self, bytes: &'b [u8]) -> Result<(Layout, &'b [u8]), Stop> {
        layout_line(bytes, Version::Two)
    }
}
