//! Bytes on their way to a sink, in large pieces.
ghost use Rattle.std.specs.Prelude.{◌≡◌, [], ◌++◌, OnOk, OnErr, decimal};
ghost use Rattle.std.specs.Io.KnownBytes.{Appends};
ghost use Rattle.firefly_outside.specs.Causes.{HasCause, AppendsPrefix};
ghost use Rattle.text_output.specs.Sent.{Sends, Puts};

use arrayvec::ArrayVec;
use firefly_outside::{Sink, SinkFault, put_all};
use itoa::Buffer;

/// What is held back for now.
pub type Held = ArrayVec<u8, 16384>;

/// Puts all that is held.
pub fn flush<O: Sink>(held: &mut Held, out: &mut O) -> Result<(), SinkFault>
    ensures ok { OnOk result (Appends (O.held out.old) (O.held out.new) held.old.items) }
    ensures empty { OnOk result (held.new.items ≡ []) }
    ensures err { OnErr result (AppendsPrefix (O.held out.old) (O.held out.new) held.old.items) }
    ensures cause { HasCause (O.faults out.old) (O.faults out.new) result }
{
    match put_all(out, held.as_slice()) {
        Ok(()) => {
            held.clear();
            Ok(())
        }
        Err(fault) => Err(fault),
    }
}

// Puts what is held, and holds the piece, or puts it too where it is longer than all that may be held.
#[cold]
#[inline(never)]
fn put_both<O: Sink>(held: &mut Held, piece: &[u8], out: &mut O) -> Result<(), SinkFault>
    ensures text { Puts (O.held out.old) held.old.items piece.now result (O.held out.new) held.new.items }
    ensures cause { HasCause (O.faults out.old) (O.faults out.new) result }
{
    flush(held, out)?;
    if piece.len() > 16384 - held.len() {
        return put_all(out, piece);
    }
    match held.try_extend_from_slice(piece) {
        Ok(()) => Ok(()),
        Err(_) => unreachable!(),
    }
}

/// Holds the piece, or puts what is held and the piece where there is no room.
#[inline(always)]
pub fn put<O: Sink>(held: &mut Held, piece: &[u8], out: &mut O) -> Result<(), SinkFault>
    ensures text { Puts (O.held out.old) held.old.items piece.now result (O.held out.new) held.new.items }
    ensures cause { HasCause (O.faults out.old) (O.faults out.new) result }
{
    if piece.len() > 16384 - held.len() {
        return put_both(held, piece, out);
    }
    match held.try_extend_from_slice(piece) {
        Ok(()) => Ok(()),
        Err(_) => unreachable!(),
    }
}

// Puts a number.
fn put_number<O: Sink>(held: &mut Held, number: u64, out: &mut O) -> Result<(), SinkFault>
    ensures text { Puts (O.held out.old) held.old.items (decimal number) result (O.held out.new) held.new.items }
    ensures cause { HasCause (O.faults out.old) (O.faults out.new) result }
{
    let mut buffer = Buffer::new();
    put(held, buffer.format(number).as_bytes(), out)
}

/// Puts a piece and a number.
pub fn put_with_number<O: Sink>(
    held: &mut Held,
    piece: &[u8],
    number: u64,
    out: &mut O,
) -> Result<(), SinkFault>
    ensures text { Puts (O.held out.old) held.old.items (piece.now ++ decimal number) result (O.held out.new) held.new.items }
    ensures cause { HasCause (O.faults out.old) (O.faults out.new) result }
{
    put(held, piece, out)?;
    put_number(held, number, out)
}
