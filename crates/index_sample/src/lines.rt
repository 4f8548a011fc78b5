//! The lines of sample files, which repeat.
ghost use Rattle.std.specs.Prelude.{◌≡◌, ◌≤◌, ◌<◌, IfOk};
ghost use Rattle.firefly_outside.specs.Trees.{IsShown};
ghost use Rattle.firefly_outside.specs.Samples.{sample_line, sample_bytes};
ghost use Rattle.index_sample.specs.Lines.{all_lines};

use crate::short_text::{ShortText, push_number};
use firefly_outside::{FileBytes, Text};
use std::alloc::{AllocError, Global};

// There are as many lines as words: a line's first word decides the others.
const LINES: u32 = 499;

// The line that begins with the word of this number.
fn line_from(alloc: Global, first: u32) -> Result<Text, AllocError>
    requires { first < 499 }
    ensures { IfOk result (λ t. t ≡ sample_line first 0 0) }
{
    let mut line = ShortText::new();
    for q in 0..7 {
        push_number(&mut line, "w", (first + q * q) % LINES);
        line.push_str(" ");
    }
    push_number(&mut line, "w", (first + 49) % LINES);
    line.push_str("\n");
    Text::of(alloc, line.as_str())
}

/// Returns all lines, in the order of the numbers of their first words.
pub fn made_lines(alloc: Global) -> Result<Vec<Text>, AllocError>
    ensures { IfOk result (λ v. v.items ≡ all_lines) }
{
    let mut lines = Vec::with_capacity(alloc, LINES as usize)?;
    for first in 0..LINES {
        lines.push(line_from(alloc, first)?)?;
    }
    Ok(lines)
}

/// Returns the bytes of a file.
pub fn file_bytes(
    alloc: Global,
    lines: &[Text],
    seed: u64,
    file: u32,
) -> Result<Vec<u8>, AllocError>
    requires lines { lines.now ≡ all_lines }
    requires file { file < 20000 }
    ensures { IfOk result (λ v. v.items ≡ sample_bytes seed file) }
{
    let shift = (seed % 1000) as u32;
    let many = 1 + (shift + file) % 7;
    let mut bytes = Vec::with_capacity(alloc, many as usize * 40)?;
    for line in 0..many {
        let first = (shift + 31 * file + 17 * line) % LINES;
        bytes.extend_from_slice(lines[first as usize].as_str().as_bytes())?;
    }
    Ok(bytes)
}

// The greatest number of bytes of a file that is shown.
const MOST_BYTES: usize = 4_194_304;

/// Returns what a file of these bytes shows.
pub fn shown_bytes(alloc: Global, bytes: Vec<u8>) -> FileBytes
    ensures { IsShown bytes.items result }
{
    if bytes.len() > MOST_BYTES {
        return FileBytes {
            bytes: Vec::new(alloc),
            long: true,
        };
    }
    FileBytes { bytes, long: false }
}
