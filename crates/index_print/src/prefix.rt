//! What stands before a file's path: the end of the line before, and the numbers.
ghost use Rattle.std.specs.Prelude.{◌≡◌, ◌+◌, ◌<◌, ◌≤◌, ◌∷◌, ◌++◌, length, drop, decimal};
ghost use Rattle.firefly_outside.specs.Causes.{HasCause};
ghost use Rattle.text_output.specs.Sent.{Puts};
ghost use Rattle.index_print.specs.Text.{hit_lead};

use firefly_outside::{Sink, SinkFault};
use itoa::write_digits;
use text_output::{Held, put};

// The room for it.
const ROOM: usize = 64;

// Writes a byte before what starts there, and says where it starts now.
#[inline(always)]
fn byte_before(text: &mut [u8], start: usize, byte: u8) -> usize
    requires some { 0 < start }
    requires within { start ≤ length text.old }
    ensures near { result + 1 ≡ start }
    ensures written { drop result text.new ≡ byte ∷ drop start text.old }
{
    text[start - 1] = byte;
    start - 1
}

// Writes a number before what starts there, and says where it starts now.
#[inline(always)]
fn number_before(text: &mut [u8], start: usize, number: u64) -> usize
    requires room { 20 ≤ start }
    requires within { start ≤ length text.old }
    ensures near { start ≤ result + 20 }
    ensures before { result ≤ start }
    ensures written { drop result text.new ≡ decimal number ++ drop start text.old }
{
    write_digits(number, text, start)
}

// Writes this to the end of the text, and says where it starts.
fn write_lead(text: &mut [u8], count: u64, line: u64) -> usize
    requires { length text.old ≡ 64 }
    ensures written { drop result text.new ≡ hit_lead count line }
    ensures size { result + length (hit_lead count line) ≡ 64 }
{
    let start = byte_before(text, ROOM, b' ');
    let start = number_before(text, start, line);
    let start = byte_before(text, start, b' ');
    let start = number_before(text, start, count);
    let start = byte_before(text, start, b' ');
    let start = byte_before(text, start, b' ');
    byte_before(text, start, b'\n')
}

// The digit of a number.
#[inline(always)]
fn digit(number: u32) -> u8
    requires { number < 10 }
    ensures { result ≡ 48 + number }
{
    b'0' + number as u8
}

// Puts it where both numbers have one digit.
#[inline(always)]
fn put_short<O: Sink>(held: &mut Held, count: u32, line: u32, out: &mut O) -> Result<(), SinkFault>
    requires count { count < 10 }
    requires line { line < 10 }
    ensures text { Puts (O.held out.old) held.old.items (hit_lead count line) result (O.held out.new) held.new.items }
    ensures cause { HasCause (O.faults out.old) (O.faults out.new) result }
{
    let lead = [b'\n', b' ', b' ', digit(count), b' ', digit(line), b' '];
    put(held, &lead, out)
}

// Puts it where the line has two digits.
#[inline(always)]
fn put_middle<O: Sink>(held: &mut Held, count: u32, line: u32, out: &mut O) -> Result<(), SinkFault>
    requires count { count < 10 }
    requires least { 10 ≤ line }
    requires most { line < 100 }
    ensures text { Puts (O.held out.old) held.old.items (hit_lead count line) result (O.held out.new) held.new.items }
    ensures cause { HasCause (O.faults out.old) (O.faults out.new) result }
{
    let tens = digit(line / 10);
    let ones = digit(line % 10);
    let lead = [b'\n', b' ', b' ', digit(count), b' ', tens, ones, b' '];
    put(held, &lead, out)
}

// Puts it whatever the numbers are.
fn put_long<O: Sink>(held: &mut Held, count: u32, line: u32, out: &mut O) -> Result<(), SinkFault>
    ensures text { Puts (O.held out.old) held.old.items (hit_lead count line) result (O.held out.new) held.new.items }
    ensures cause { HasCause (O.faults out.old) (O.faults out.new) result }
{
    let mut text = [0; ROOM];
    let start = write_lead(&mut text, count as u64, line as u64);
    put(held, &text[start..], out)
}

/// Puts the end of the line before, and the start of the line of a file that has a word so often, first on this line.
#[inline(always)]
pub fn put_lead<O: Sink>(
    held: &mut Held,
    count: u32,
    line: u32,
    out: &mut O,
) -> Result<(), SinkFault>
    ensures text { Puts (O.held out.old) held.old.items (hit_lead count line) result (O.held out.new) held.new.items }
    ensures cause { HasCause (O.faults out.old) (O.faults out.new) result }
{
    if count < 10 && line < 10 {
        put_short(held, count, line, out)
    } else if count < 10 && line < 100 {
        put_middle(held, count, line, out)
    } else {
        put_long(held, count, line, out)
    }
}
