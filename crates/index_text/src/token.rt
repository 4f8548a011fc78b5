//! Words that are known, and numbers.
ghost use Rattle.std.specs.Prelude.{◌≡◌, ◌<◌, ◌^◌, length};
ghost use Rattle.exact_text.specs.Reading.{as_value, word_at, number_at};
ghost use Rattle.index_text.specs.Numerals.{capped, leading_at, numeral_at};
ghost use Rattle.index_text.specs.Steps.{Gives};

use crate::fault::Stop;
use exact_text as exact;

/// Reads the word, and returns what follows it.
pub fn word<'b>(bytes: &'b [u8], word: &[u8]) -> Result<&'b [u8], Stop>
    ensures { Gives (λ rest. rest.now) result (word_at word.now bytes.now) }
{
    match exact::word(bytes, word) {
        Ok(rest) => Ok(rest),
        Err(exact::Stop::More) => Err(Stop::More),
        Err(exact::Stop::Dead) => Err(Stop::Dead),
    }
}

/// Reads a number from 1 on that fits 64 bits, and the byte that stops it.
pub fn number_u64(bytes: &[u8], stop: u8) -> Result<(u64, &[u8]), Stop>
    ensures { Gives (λ x. (x.0, x.1.now)) result (number_at 1 (2 ^ 64) stop bytes.now) }
{
    match exact::long_number(bytes, 1, stop) {
        Ok(read) => Ok(read),
        Err(exact::Stop::More) => Err(Stop::More),
        Err(exact::Stop::Dead) => Err(Stop::Dead),
    }
}

// Reads the first digit of a number from 1 on.
#[inline(always)]
fn leading(bytes: &[u8]) -> Result<(u64, &[u8]), Stop>
    ensures { Gives (λ x. (x.0, x.1.now)) result (leading_at bytes.now) }
{
    let [first, rest @ ..] = bytes else {
        return Err(Stop::More);
    };
    if *first < b'1' || *first > b'9' {
        return Err(Stop::Dead);
    }
    Ok((u64::from(*first - b'0'), rest))
}

/// Reads a number from 1 on, and the byte that stops it. A number that doesn't fit 64 bits is read as the greatest that does.
pub fn capped_numeral(bytes: &[u8], stop: u8) -> Result<(u64, &[u8]), Stop>
    ensures { Gives (λ x. (x.0, x.1.now)) result (as_value capped (numeral_at stop) bytes.now) }
{
    let (first, rest) = match leading(bytes) {
        Ok(read) => read,
        Err(stop) => return Err(stop),
    };
    let mut value = first;
    let mut rest = rest;
    while let [c, after @ ..] = rest {
        if *c == stop {
            return Ok((value, after));
        }
        if *c < b'0' || *c > b'9' {
            return Err(Stop::Dead);
        }
        value = value
            .saturating_mul(10)
            .saturating_add(u64::from(*c - b'0'));
        rest = after;
    }
    Err(Stop::More)
}
