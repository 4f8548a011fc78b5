//! Reading the place of an event, and a word with a name.
ghost use Rattle.std.specs.Prelude.{◌≡◌, ◌≤◌, ◌^◌, IfSome};
ghost use Rattle.exact_text.specs.Reading.{Gives, word_at, number_at};
ghost use Rattle.trace_core.specs.Lines.{named_at, place_at};

use exact_text::{Stop, number, word};
use itoa::Buffer;

// Reads a number of up to 18 digits, and the space after it.
fn short_number(bytes: &[u8]) -> Option<(u64, &[u8])>
    ensures { IfSome result (λ x. number_at 0 (2 ^ 64) 32 bytes.now ≡ Ok ((x.0, x.1.now))) }
{
    let [first, rest @ ..] = bytes else {
        return None;
    };
    if *first < b'0' || *first > b'9' {
        return None;
    }
    let mut value = u64::from(*first - b'0');
    let mut rest = rest;
    while let [c, after @ ..] = rest {
        if *c == b' ' {
            return Some((value, after));
        }
        if *c < b'0' || *c > b'9' || value == 0 || value >= 100_000_000_000_000_000 {
            return None;
        }
        value = 10 * value + u64::from(*c - b'0');
        rest = after;
    }
    None
}

// Reads the place and ` t`. Short places that are right are read without spelling the place out.
pub fn place_and_t(bytes: &[u8], place: u64) -> Result<&[u8], Stop>
    ensures { Gives (λ rest. rest.now) result (place_at place bytes.now) }
{
    if let Some((n, rest)) = short_number(bytes) {
        if n == place {
            return word(rest, b"t");
        }
    }
    let mut buffer = Buffer::new();
    match word(bytes, buffer.format(place).as_bytes()) {
        Ok(rest) => word(rest, b" t"),
        Err(stop) => Err(stop),
    }
}

// Reads a word, and a name below the bound up to the byte that stops it.
pub fn word_and_name<'b>(
    bytes: &'b [u8],
    before: &[u8],
    bound: u32,
    stop: u8,
) -> Result<(u32, &'b [u8]), Stop>
    requires { bound ≤ 1000 }
    ensures { Gives (λ x. (x.0, x.1.now)) result (named_at before.now bound stop bytes.now) }
{
    if bound == 0 {
        return Err(Stop::Dead);
    }
    match word(bytes, before) {
        Ok(rest) => number(rest, 0, bound, stop),
        Err(stop) => Err(stop),
    }
}
