//! The lines of the index text.
ghost use Rattle.std.specs.Prelude.{◌≡◌, ◌<◌, ◌++◌, ◌↔◌, [], length, OnOk, OnErr, IsOk, IsTrue, slice_index_or};
ghost use Rattle.std.specs.List.{flat_map};
ghost use Rattle.std.specs.Io.KnownBytes.{Appends};
ghost use Rattle.firefly_outside.specs.Causes.{HasCause, AppendsPrefix};
ghost use Rattle.word_index.specs.Index.{row_at, hit_at};
ghost use Rattle.text_output.specs.Sent.{Puts};
ghost use Rattle.index_print.specs.Plain.{ArePlain};
ghost use Rattle.index_print.specs.Text.{word_start, hit_after, row_text, skipped_line, index_text};

use crate::prefix::put_lead;
use firefly_outside::{Sink, SinkFault};
use text_output::{Held, flush, is_plain, put, put_known_path, put_path_line, put_with_number};
use word_index::Piece;

// Puts the line of a word, without its end.
fn put_word<O: Sink>(
    held: &mut Held,
    piece: &Piece,
    at: usize,
    out: &mut O,
) -> Result<(), SinkFault>
    requires { at < length piece.now.rows }
    ensures text { Puts (O.held out.old) held.old.items (word_start (row_at piece.now at)) result (O.held out.new) held.new.items }
    ensures cause { HasCause (O.faults out.old) (O.faults out.new) result }
{
    put(held, piece.word(at), out)?;
    put_with_number(held, b" ", piece.hits(at) as u64, out)
}

// Ends the line before, and puts the line of a file that has a word, without its end.
#[inline(always)]
fn put_hit<O: Sink>(
    held: &mut Held,
    piece: &Piece,
    at: usize,
    number: usize,
    are_plain: bool,
    out: &mut O,
) -> Result<(), SinkFault>
    requires row { at < length piece.now.rows }
    requires hit { number < length (row_at piece.now at).hits }
    requires plain { IsTrue are_plain → ArePlain piece.now.paths }
    ensures text { Puts (O.held out.old) held.old.items (hit_after (hit_at (row_at piece.now at) number)) result
        (O.held out.new) held.new.items }
    ensures cause { HasCause (O.faults out.old) (O.faults out.new) result }
{
    let found = piece.hit(at, number);
    put_lead(held, found.count, found.line, out)?;
    put_known_path(held, found.path, are_plain, out)
}

// Puts the lines of the files that have a word, each after the end of the line before.
fn put_hits<O: Sink>(
    held: &mut Held,
    piece: &Piece,
    at: usize,
    are_plain: bool,
    out: &mut O,
) -> Result<(), SinkFault>
    requires row { at < length piece.now.rows }
    requires plain { IsTrue are_plain → ArePlain piece.now.paths }
    ensures text { Puts (O.held out.old) held.old.items (flat_map hit_after (row_at piece.now at).hits) result
        (O.held out.new) held.new.items }
    ensures cause { HasCause (O.faults out.old) (O.faults out.new) result }
{
    for number in 0..piece.hits(at) {
        put_hit(held, piece, at, number, are_plain, out)?;
    }
    Ok(())
}

// Puts the line of a word and those of the files that have it.
fn put_row<O: Sink>(
    held: &mut Held,
    piece: &Piece,
    at: usize,
    are_plain: bool,
    out: &mut O,
) -> Result<(), SinkFault>
    requires row { at < length piece.now.rows }
    requires plain { IsTrue are_plain → ArePlain piece.now.paths }
    ensures text { Puts (O.held out.old) held.old.items (row_text (row_at piece.now at)) result (O.held out.new) held.new.items }
    ensures cause { HasCause (O.faults out.old) (O.faults out.new) result }
{
    put_word(held, piece, at, out)?;
    put_hits(held, piece, at, are_plain, out)?;
    put(held, b"\n", out)
}

// Puts the line of a skipped file.
fn put_skipped<O: Sink>(held: &mut Held, path: &[u8], out: &mut O) -> Result<(), SinkFault>
    ensures text { Puts (O.held out.old) held.old.items (skipped_line path.now) result (O.held out.new) held.new.items }
    ensures cause { HasCause (O.faults out.old) (O.faults out.new) result }
{
    put(held, b"skipped: ", out)?;
    put_path_line(held, path, out)
}

// Whether each byte of all paths stands for itself on a line: looked at once, and not on each line.
fn are_all_plain(piece: &Piece) -> bool
    ensures { IsTrue result ↔ ArePlain piece.now.paths }
{
    for at in 0..piece.files() as usize {
        if !is_plain(piece.path(at)) {
            return false;
        }
    }
    true
}

// Puts all rows.
fn put_rows<O: Sink>(held: &mut Held, piece: &Piece, out: &mut O) -> Result<(), SinkFault>
    ensures text { Puts (O.held out.old) held.old.items (flat_map row_text piece.now.rows) result (O.held out.new) held.new.items }
    ensures cause { HasCause (O.faults out.old) (O.faults out.new) result }
{
    let are_plain = are_all_plain(piece);
    for at in 0..piece.rows() {
        put_row(held, piece, at, are_plain, out)?;
    }
    Ok(())
}

// Puts the lines of all skipped files.
fn put_all_skipped<O: Sink>(held: &mut Held, piece: &Piece, out: &mut O) -> Result<(), SinkFault>
    ensures text { Puts (O.held out.old) held.old.items (flat_map skipped_line piece.now.skipped) result (O.held out.new) held.new.items }
    ensures cause { HasCause (O.faults out.old) (O.faults out.new) result }
{
    for at in 0..piece.skipped_files() {
        put_skipped(held, piece.skipped_path(at), out)?;
    }
    Ok(())
}

/// Writes the index text of the piece. Of an empty piece the sink is asked nothing.
pub fn print_index<O: Sink>(piece: &Piece, out: &mut O) -> Result<(), SinkFault>
    ensures ok { OnOk result (Appends (O.held out.old) (O.held out.new) (index_text piece.now)) }
    ensures err { OnErr result (AppendsPrefix (O.held out.old) (O.held out.new) (index_text piece.now)) }
    ensures cause { HasCause (O.faults out.old) (O.faults out.new) result }
    ensures empty { piece.now.rows ≡ [] → piece.now.skipped ≡ [] → IsOk result × (out.new ≡ out.old) }
{
    if piece.rows() == 0 && piece.skipped_files() == 0 {
        return Ok(());
    }
    let mut held = Held::new();
    put_rows(&mut held, piece, out)?;
    put_all_skipped(&mut held, piece, out)?;
    flush(&mut held, out)
}
