//! Reading names in rising order.
ghost use Rattle.std.specs.Prelude.{◌≡◌, ◌+◌, ◌^◌, ◌<◌, ◌≤◌};
ghost use Rattle.exact_text.specs.Reading.{Gives, as_value};
ghost use Rattle.trace_core.specs.Names.{meets, reaches, may_stop, number_from, tail_at, names_at, set_from};

use exact_text::{Stop, word};
use larch_actions::{ThreadId, ThreadSet};

// Whether some of the `n` numbers from `v` on are from `least` on and below the bound, where `least` is below it.
fn meets(least: u32, bound: u32, v: u32, n: u32) -> bool
    requires { v + n < 2 ^ 32 }
    ensures { result ≡ meets least bound v n }
{
    v < bound && least < v + n
}

// Whether a number from `least` on and below the bound can begin with the digits of `v`.
fn reaches(least: u32, bound: u32, v: u32) -> bool
    requires { bound ≤ 256 }
    ensures { result ≡ reaches least bound v }
{
    v < bound
        && (least <= v
            || (v > 0 && (meets(least, bound, 10 * v, 10) || meets(least, bound, 100 * v, 100))))
}

// Whether the byte may stop the number `v`: among several names this one may be the last, or a
// higher one follows after a space. A single name stands before a space.
fn may_stop(several: bool, bound: u32, v: u32, c: u8) -> bool
    requires { v < bound }
    ensures { result ≡ may_stop several bound v c }
{
    if several {
        c == b'\n' || (c == b' ' && bound - v > 1)
    } else {
        c == b' '
    }
}

/// A number, the byte that stopped it, and the bytes after.
#[derive(Clone, Copy)]
pub struct Stopped<'b> {
    pub value: u32,
    pub stop: u8,
    pub rest: &'b [u8],
}

// Reads a number from `least` on and below the bound, and the byte that stops it.
pub fn number_from(bytes: &[u8], several: bool, least: u32, bound: u32) -> Result<Stopped<'_>, Stop>
    requires { bound ≤ 256 }
    ensures { Gives (λ x. ((x.value, x.stop), x.rest.now)) result (number_from several least bound bytes.now) }
{
    let [first, rest @ ..] = bytes else {
        return Err(Stop::More);
    };
    if *first < b'0' || *first > b'9' || !reaches(least, bound, u32::from(*first - b'0')) {
        return Err(Stop::Dead);
    }
    let mut value = u32::from(*first - b'0');
    let mut rest = rest;
    while let [c, after @ ..] = rest {
        if may_stop(several, bound, value, *c) && least <= value {
            return Ok(Stopped {
                value,
                stop: *c,
                rest: after,
            });
        }
        if *c < b'0' || *c > b'9' || value == 0 {
            return Err(Stop::Dead);
        }
        value = 10 * value + u32::from(*c - b'0');
        if !reaches(least, bound, value) {
            return Err(Stop::Dead);
        }
        rest = after;
    }
    Err(Stop::More)
}

// Reads the names after the first ` t`.
fn tail(bytes: &[u8], bound: u32) -> Result<(ThreadSet, &[u8]), Stop>
    requires some { 0 < bound }
    requires few { bound ≤ 256 }
    ensures { Gives (λ x. (x.0, x.1.now)) result (as_value set_from (tail_at bound 0 bound) bytes.now) }
{
    let mut left = ThreadSet::empty();
    let mut least = 0;
    let mut rest = bytes;
    loop {
        let name = match number_from(rest, true, least, bound) {
            Ok(name) => name,
            Err(stop) => return Err(stop),
        };
        left.insert(ThreadId(name.value));
        if name.stop == b'\n' {
            return Ok((left, name.rest));
        }
        rest = match word(name.rest, b"t") {
            Ok(rest) => rest,
            Err(stop) => return Err(stop),
        };
        least = name.value + 1;
    }
}

// Reads the names of the threads that stay, up to the end of the line.
pub fn names(bytes: &[u8], bound: u32) -> Result<(ThreadSet, &[u8]), Stop>
    requires some { 0 < bound }
    requires few { bound ≤ 256 }
    ensures { Gives (λ x. (x.0, x.1.now)) result (as_value set_from (names_at bound) bytes.now) }
{
    match word(bytes, b"\n") {
        Err(Stop::Dead) => {}
        Err(Stop::More) => return Err(Stop::More),
        Ok(rest) => return Ok((ThreadSet::empty(), rest)),
    }
    match word(bytes, b" t") {
        Ok(rest) => tail(rest, bound),
        Err(stop) => Err(stop),
    }
}
