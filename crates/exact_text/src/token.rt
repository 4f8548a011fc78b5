//! Reading words and numbers from bytes in memory, of which more may come.
ghost use Rattle.std.specs.Prelude.{◌≡◌, ◌≤◌, ◌<◌, ◌^◌, length};
ghost use Rattle.exact_text.specs.Reading.{Gives, word_at, number_at, flag_at};

use crate::Stop;

/// Reads the word, and returns what follows it.
pub fn word<'b>(bytes: &'b [u8], word: &[u8]) -> Result<&'b [u8], Stop>
    ensures { Gives (λ rest. rest.now) result (word_at word.now bytes.now) }
{
    if bytes.len() < word.len() {
        return cut_word(bytes, word);
    }
    for i in 0..word.len() {
        if bytes[i] != word[i] {
            return Err(Stop::Dead);
        }
    }
    Ok(&bytes[word.len()..])
}

// The same of bytes that end within the word.
#[cold]
fn cut_word<'b>(bytes: &'b [u8], word: &[u8]) -> Result<&'b [u8], Stop>
    requires { length bytes.now < length word.now }
    ensures { Gives (λ rest. rest.now) result (word_at word.now bytes.now) }
{
    for i in 0..bytes.len() {
        if bytes[i] != word[i] {
            return Err(Stop::Dead);
        }
    }
    Err(Stop::More)
}

/// Reads a number from `least` on and below the bound, and the byte that stops it.
pub fn number(bytes: &[u8], least: u32, bound: u32, stop: u8) -> Result<(u32, &[u8]), Stop>
    requires { bound ≤ 100000000 }
    ensures { Gives (λ x. (x.0, x.1.now)) result (number_at least bound stop bytes.now) }
{
    let [first, rest @ ..] = bytes else {
        return Err(Stop::More);
    };
    if *first < b'0' || *first > b'9' {
        return Err(Stop::Dead);
    }
    let mut value = u32::from(*first - b'0');
    if value < least || value >= bound {
        return Err(Stop::Dead);
    }
    let mut rest = rest;
    while let [c, after @ ..] = rest {
        if *c == stop {
            return Ok((value, after));
        }
        if *c < b'0' || *c > b'9' || value == 0 {
            return Err(Stop::Dead);
        }
        value = 10 * value + u32::from(*c - b'0');
        if value >= bound {
            return Err(Stop::Dead);
        }
        rest = after;
    }
    Err(Stop::More)
}

/// Reads a number of 64 bits from `least` on, and the byte that stops it.
pub fn long_number(bytes: &[u8], least: u64, stop: u8) -> Result<(u64, &[u8]), Stop>
    ensures { Gives (λ x. (x.0, x.1.now)) result (number_at least (2 ^ 64) stop bytes.now) }
{
    let [first, rest @ ..] = bytes else {
        return Err(Stop::More);
    };
    if *first < b'0' || *first > b'9' {
        return Err(Stop::Dead);
    }
    let mut value = u64::from(*first - b'0');
    if value < least {
        return Err(Stop::Dead);
    }
    let mut rest = rest;
    while let [c, after @ ..] = rest {
        if *c == stop {
            return Ok((value, after));
        }
        if *c < b'0' || *c > b'9' || value == 0 {
            return Err(Stop::Dead);
        }
        let digit = u64::from(*c - b'0');
        if value > (u64::MAX - digit) / 10 {
            return Err(Stop::Dead);
        }
        value = 10 * value + digit;
        rest = after;
    }
    Err(Stop::More)
}

/// Reads one word or the other, and says whether it was the one.
pub fn flag<'b>(bytes: &'b [u8], one: &[u8], other: &[u8]) -> Result<(bool, &'b [u8]), Stop>
    ensures { Gives (λ x. (x.0, x.1.now)) result (flag_at one.now other.now bytes.now) }
{
    match word(bytes, one) {
        Err(Stop::Dead) => {}
        Err(Stop::More) => return Err(Stop::More),
        Ok(rest) => return Ok((true, rest)),
    }
    match word(bytes, other) {
        Ok(rest) => Ok((false, rest)),
        Err(stop) => Err(stop),
    }
}
