//! Paths as they stand on a line.
ghost use Rattle.std.specs.Prelude.{◌≡◌, ◌++◌, IsTrue, OnOk, OnErr, true};
ghost use Rattle.std.specs.List.{list_all};
ghost use Rattle.std.specs.Io.KnownBytes.{Appends};
ghost use Rattle.firefly_outside.specs.Causes.{HasCause, AppendsPrefix};
ghost use Rattle.text_output.specs.Paths.{newline, is_plain_byte, escaped, escaped_byte};
ghost use Rattle.text_output.specs.Sent.{Puts};

use crate::held::{Held, flush, put};
use firefly_outside::{Sink, SinkFault};

/// Whether each byte of the path stands for itself on a line.
pub fn is_plain(path: &[u8]) -> bool
    ensures { result ≡ list_all is_plain_byte path.now }
{
    path.iter().all(|byte| *byte != b'\\' && *byte != b'\n')
}

// Puts a byte, or what stands for it on a line.
fn put_escaped_byte<O: Sink>(held: &mut Held, byte: u8, out: &mut O) -> Result<(), SinkFault>
    ensures text { Puts (O.held out.old) held.old.items (escaped_byte byte) result (O.held out.new) held.new.items }
    ensures cause { HasCause (O.faults out.old) (O.faults out.new) result }
{
    match byte {
        b'\\' => put(held, b"\\\\", out),
        b'\n' => put(held, b"\\n", out),
        _ => put(held, &[byte], out),
    }
}

// Puts a path byte by byte.
#[cold]
fn put_bytes<O: Sink>(held: &mut Held, path: &[u8], out: &mut O) -> Result<(), SinkFault>
    ensures text { Puts (O.held out.old) held.old.items (escaped path.now) result (O.held out.new) held.new.items }
    ensures cause { HasCause (O.faults out.old) (O.faults out.new) result }
{
    for byte in path {
        put_escaped_byte(held, *byte, out)?;
    }
    Ok(())
}

/// Puts a path as it stands on a line.
pub fn put_path<O: Sink>(held: &mut Held, path: &[u8], out: &mut O) -> Result<(), SinkFault>
    ensures text { Puts (O.held out.old) held.old.items (escaped path.now) result (O.held out.new) held.new.items }
    ensures cause { HasCause (O.faults out.old) (O.faults out.new) result }
{
    if is_plain(path) {
        put(held, path, out)
    } else {
        put_bytes(held, path, out)
    }
}

/// Puts a path as it stands on a line, and ends the line.
pub fn put_path_line<O: Sink>(held: &mut Held, path: &[u8], out: &mut O) -> Result<(), SinkFault>
    ensures text { Puts (O.held out.old) held.old.items (escaped path.now ++ newline) result (O.held out.new) held.new.items }
    ensures cause { HasCause (O.faults out.old) (O.faults out.new) result }
{
    put_path(held, path, out)?;
    put(held, b"\n", out)
}

/// Puts a path as it stands on a line. The bytes of a path that is known to be plain aren't looked at.
#[inline(always)]
pub fn put_known_path<O: Sink>(
    held: &mut Held,
    path: &[u8],
    is_known_plain: bool,
    out: &mut O,
) -> Result<(), SinkFault>
    requires known { IsTrue is_known_plain → list_all is_plain_byte path.now ≡ true }
    ensures text { Puts (O.held out.old) held.old.items (escaped path.now) result (O.held out.new) held.new.items }
    ensures cause { HasCause (O.faults out.old) (O.faults out.new) result }
{
    if is_known_plain {
        put(held, path, out)
    } else {
        put_path(held, path, out)
    }
}

/// Writes a path as it stands on a line, between two texts.
pub fn print_path<O: Sink>(
    before: &[u8],
    path: &[u8],
    after: &[u8],
    out: &mut O,
) -> Result<(), SinkFault>
    ensures ok { OnOk result (Appends (O.held out.old) (O.held out.new) (before.now ++ escaped path.now ++ after.now)) }
    ensures err { OnErr result (AppendsPrefix (O.held out.old) (O.held out.new) (before.now ++ escaped path.now ++ after.now)) }
    ensures cause { HasCause (O.faults out.old) (O.faults out.new) result }
{
    let mut held = Held::new();
    put(&mut held, before, out)?;
    put_path(&mut held, path, out)?;
    put(&mut held, after, out)?;
    flush(&mut held, out)
}
