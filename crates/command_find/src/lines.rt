//! Paths, each on a line.
ghost use Rattle.std.specs.Prelude.{◌≡◌, OnOk, OnErr};
ghost use Rattle.std.specs.Io.KnownBytes.{Appends};
ghost use Rattle.firefly_outside.specs.Causes.{HasCause, AppendsPrefix};
ghost use Rattle.text_output.specs.Sent.{Puts};
ghost use Rattle.command_endings.specs.Changes.{change_of};
ghost use Rattle.command_endings.specs.Printing.{Prints};
ghost use Rattle.command_find.specs.Lines.{lines_of};

use command_endings::{Ending, Status, ends};
use firefly_outside::{Sink, SinkFault, Text};
use text_output::{Held, flush, put_path_line};

// Puts the lines of the paths.
fn put_paths<O: Sink>(held: &mut Held, paths: &[Text], out: &mut O) -> Result<(), SinkFault>
    ensures text { Puts (O.held out.old) held.old.items (lines_of paths.now) result (O.held out.new) held.new.items }
    ensures cause { HasCause (O.faults out.old) (O.faults out.new) result }
{
    for path in paths {
        put_path_line(held, path.as_str().as_bytes(), out)?;
    }
    Ok(())
}

// Writes the lines of the paths.
fn write_paths<O: Sink>(paths: &[Text], out: &mut O) -> Result<(), SinkFault>
    ensures ok { OnOk result (Appends (O.held out.old) (O.held out.new) (lines_of paths.now)) }
    ensures err { OnErr result (AppendsPrefix (O.held out.old) (O.held out.new) (lines_of paths.now)) }
    ensures cause { HasCause (O.faults out.old) (O.faults out.new) result }
{
    let mut held = Held::new();
    put_paths(&mut held, paths, out)?;
    flush(&mut held, out)
}

/// Prints the paths, each on a line.
pub fn print_paths<O: Sink, N: Sink>(paths: &[Text], out: &mut O, notes: &mut N) -> Status
    ensures { Prints (lines_of paths.now) Status.Done (change_of O.held O.faults out.old out.new)
        (change_of N.held N.faults notes.old notes.new) result }
{
    match write_paths(paths, out) {
        Ok(()) => Status::Done,
        Err(_) => ends(notes, Ending::OutputFault),
    }
}
