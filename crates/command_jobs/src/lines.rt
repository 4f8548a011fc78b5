//! Prints values, each on a line after its place.
ghost use Rattle.std.specs.Prelude.{◌≡◌, ◌≤◌, length, OnOk, OnErr};
ghost use Rattle.std.specs.Io.KnownBytes.{Appends};
ghost use Rattle.firefly_outside.specs.Causes.{HasCause, AppendsPrefix};
ghost use Rattle.text_output.specs.Sent.{Puts};
ghost use Rattle.command_endings.specs.Changes.{change_of};
ghost use Rattle.command_endings.specs.Printing.{Prints};
ghost use Rattle.command_jobs.specs.Lines.{lines_of, value_line};

use command_endings::{Ending, Status, ends};
use firefly_outside::{Sink, SinkFault};
use text_output::{Held, flush, put, put_with_number};

// Puts the line of a value.
fn put_line<O: Sink>(held: &mut Held, place: u64, value: u64, out: &mut O) -> Result<(), SinkFault>
    ensures text { Puts (O.held out.old) held.old.items (value_line (place, value)) result (O.held out.new) held.new.items }
    ensures cause { HasCause (O.faults out.old) (O.faults out.new) result }
{
    put_with_number(held, b"", place, out)?;
    put_with_number(held, b" ", value, out)?;
    put(held, b"\n", out)
}

// Puts the lines of the values.
fn put_lines<O: Sink>(held: &mut Held, values: &[u64], out: &mut O) -> Result<(), SinkFault>
    ensures text { Puts (O.held out.old) held.old.items (lines_of values.now) result (O.held out.new) held.new.items }
    ensures cause { HasCause (O.faults out.old) (O.faults out.new) result }
{
    for (place, value) in values.iter().enumerate() {
        put_line(held, place as u64, *value, out)?;
    }
    Ok(())
}

// Writes the lines of the values.
fn write_lines<O: Sink>(values: &[u64], out: &mut O) -> Result<(), SinkFault>
    ensures ok { OnOk result (Appends (O.held out.old) (O.held out.new) (lines_of values.now)) }
    ensures err { OnErr result (AppendsPrefix (O.held out.old) (O.held out.new) (lines_of values.now)) }
    ensures cause { HasCause (O.faults out.old) (O.faults out.new) result }
{
    let mut held = Held::new();
    put_lines(&mut held, values, out)?;
    flush(&mut held, out)
}

/// Prints the values, each on a line after its place. Returns the status.
pub fn print_values<O: Sink, N: Sink>(values: &[u64], out: &mut O, notes: &mut N) -> Status
    ensures { Prints (lines_of values.now) Status.Done (change_of O.held O.faults out.old out.new)
        (change_of N.held N.faults notes.old notes.new) result }
{
    match write_lines(values, out) {
        Ok(()) => Status::Done,
        Err(_) => ends(notes, Ending::OutputFault),
    }
}
