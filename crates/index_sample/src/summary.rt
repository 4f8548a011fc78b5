//! The sums of an index, and their lines.
ghost use Rattle.std.specs.Prelude.{◌≡◌, ◌≤◌, ◌+◌, ◌++◌, length, OnOk, OnErr, decimal};
ghost use Rattle.std.specs.Io.KnownBytes.{Appends};
ghost use Rattle.arrayvec.specs.ArrayString.{array_string_len};
ghost use Rattle.firefly_outside.specs.Causes.{HasCause, AppendsPrefix};
ghost use Rattle.index_sample.specs.Text.{summary_text};

use arrayvec::ArrayString;
use firefly_outside::{Sink, SinkFault, put_all};
use itoa::Buffer;

/// The numbers of files, of directories with the root, of distinct words and of entries of an
/// index, and the sum of the counts of all entries.
#[derive(Clone, Copy, Debug, PartialEq, Eq)]
pub struct SampleSums {
    pub files: u64,
    pub dirs: u64,
    pub words: u64,
    pub entries: u64,
    pub occurrences: u128,
}

// The five lines, of at most 5 newlines, 37 letters and spaces, 80 digits and 39 more.
type Lines = ArrayString<192>;

// Adds a word and a number of at most 20 digits, and ends the line.
fn push_count(lines: &mut Lines, word: &str, number: u64)
    requires { array_string_len lines.old + length word.now + 21 ≤ 192 }
    ensures bytes { lines.new.bytes ≡ lines.old.bytes ++ word.now ++ decimal number }
    ensures len { array_string_len lines.new ≤ array_string_len lines.old + length word.now + 20 }
{
    let mut buffer = Buffer::new();
    lines.push_str(word);
    lines.push_str(buffer.format(number));
}

// The five lines.
fn lines_of(sums: &SampleSums) -> Lines
    ensures { result.bytes ≡ summary_text sums.now }
{
    let mut lines = Lines::new();
    push_count(&mut lines, "files ", sums.files);
    push_count(&mut lines, "\ndirs ", sums.dirs);
    push_count(&mut lines, "\nwords ", sums.words);
    push_count(&mut lines, "\nentries ", sums.entries);
    lines.push_str("\noccurrences ");
    let mut buffer = Buffer::new();
    lines.push_str(buffer.format(sums.occurrences));
    lines.push_str("\n");
    lines
}

/// Writes the five lines. Allocates no memory. Fails if a write fails, and may then have written a
/// prefix.
pub fn print_summary<O: Sink>(sums: &SampleSums, out: &mut O) -> Result<(), SinkFault>
    ensures ok { OnOk result (Appends (O.held out.old) (O.held out.new) (summary_text sums.now)) }
    ensures err { OnErr result (AppendsPrefix (O.held out.old) (O.held out.new) (summary_text sums.now)) }
    ensures cause { HasCause (O.faults out.old) (O.faults out.new) result }
{
    put_all(out, lines_of(sums).as_str().as_bytes())
}
