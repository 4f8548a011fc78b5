//! How many digits a number has, and numbers written in place.
ghost use Rattle.std.specs.Prelude.{◌≡◌, ◌+◌, ◌<◌, ◌≤◌, ◌++◌, length, take, decimal};

use itoa::write_digits;

/// How many digits a number of at most four has.
#[inline(always)]
pub fn few_digits(n: u64) -> usize
    requires { n < 10000 }
    ensures count { result ≡ length (decimal n) }
    ensures few { result ≤ 4 }
{
    if n < 10 {
        1
    } else if n < 100 {
        2
    } else if n < 1000 {
        3
    } else {
        4
    }
}

// How many digits a number of at most eight has.
#[inline(always)]
fn digits(n: u64) -> usize
    requires { n < 100000000 }
    ensures count { result ≡ length (decimal n) }
    ensures few { result ≤ 8 }
{
    if n < 10_000 {
        few_digits(n)
    } else {
        few_digits(n / 10_000) + 4
    }
}

/// Adds a number of at most eight digits, which are written where they stay.
#[inline(always)]
pub fn add_short_number(buf: &mut [u8], at: usize, n: u64) -> usize
    requires short { n < 100000000 }
    requires room { at + 8 ≤ length buf.old }
    ensures text { take result buf.new ≡ take at buf.old ++ decimal n }
    ensures end { result ≡ at + length (decimal n) }
    ensures near { result ≤ at + 8 }
{
    let end = at + digits(n);
    write_digits(n, buf, end);
    end
}
