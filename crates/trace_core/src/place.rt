//! The place of the next event, kept with its text.
ghost use Rattle.std.specs.Prelude.{◌≡◌, ◌+◌, ◌*◌, ◌/◌, ◌^◌, ◌<◌, ◌≤◌, length, decimal, IfSome, ℕ};
ghost use Rattle.trace_core.specs.Usual.{Stands, little};

use crate::usual::eight;
use itoa::Buffer;
use std::marker::Model;

/// A place. Of at most eight digits it keeps the text as a number, which is counted up with it.
#[derive(Drop)]
pub struct Place {
    value: u64,
    text: u64,
    mask: u64,
    one: u64,
    last: u64,
    hundred: u64,
    size: usize,
}

impl Model for Place {
    ghost use Rattle.std.specs.Prelude.{ℕ};
    ghost use Rattle.trace_core.specs.Spelled.{IsSpelled};

    ghost Value = { ℕ };

    ghost view = { λ p. p.value };

    ghost invariant = { λ p. IsSpelled p.value p.text p.mask p.one p.last p.hundred p.size };
}

impl Place {
    /// The place of the first event.
    pub fn first() -> Place
        ensures { result ≡ 0 }
    {
        Place {
            value: 0,
            text: 48,
            mask: 255,
            one: 1,
            last: 9,
            hundred: 0,
            size: 1,
        }
    }

    pub fn value(&self) -> u64
        ensures { result ≡ self.now }
    {
        self.value
    }

    /// Where the place's text at the front of the bytes ends, if it stands there.
    #[inline(always)]
    pub fn text_end(&self, bytes: &[u8]) -> Option<usize>
        requires { 8 ≤ length bytes.now }
        ensures text { IfSome result (Stands bytes.now 0 (decimal self.now)) }
        ensures near { IfSome result (λ end. end ≤ 8) }
    {
        if eight(bytes, 0) & self.mask != self.text {
            return None;
        }
        Some(self.size)
    }

    /// This place with its text.
    #[cold]
    #[inline(never)]
    pub fn at(value: u64) -> Place
        ensures { result ≡ value }
    {
        if value >= 100_000_000 {
            return Place {
                value,
                text: 1,
                mask: 0,
                one: 0,
                last: u64::MAX,
                hundred: 0,
                size: 9,
            };
        }
        let mut buffer = Buffer::new();
        let digits = buffer.format(value).as_bytes();
        let size = digits.len();
        let one = 1u64 << (8 * (size - 1));
        Place {
            value,
            text: number_of(digits),
            mask: one - 1 + 255 * one,
            one,
            last: value / 10 * 10 + 9,
            hundred: last_of_hundred(value),
            size,
        }
    }

    /// Goes on to the next place.
    #[inline(always)]
    pub fn step(&mut self)
        requires { self.old + 1 < 2 ^ 64 }
        ensures { self.new ≡ self.old + 1 }
    {
        if self.value < self.last {
            self.value += 1;
            self.text += self.one;
        } else if self.value < self.hundred {
            // The last digit goes from nine to zero, and the one before it goes up.
            self.value += 1;
            self.text = self.text - 9 * self.one + self.one / 256;
            self.last += 10;
        } else {
            self.step_far();
        }
    }

    // The same where more than two digits change, or the text gets longer.
    #[cold]
    #[inline(never)]
    fn step_far(&mut self)
        requires { self.old + 1 < 2 ^ 64 }
        ensures { self.new ≡ self.old + 1 }
    {
        *self = Place::at(self.value + 1);
    }
}

// The last number of the same hundred, where there are two digits.
fn last_of_hundred(value: u64) -> u64
    requires { value < 100000000 }
    ensures { value < result → (10 ≤ value) × (result ≡ value / 100 * 100 + 99) }
{
    if value < 10 {
        return 0;
    }
    value / 100 * 100 + 99
}

// The bytes as a number, the first of them lowest.
fn number_of(bytes: &[u8]) -> u64
    requires { length bytes.now ≤ 8 }
    ensures { result ≡ little bytes.now }
{
    let mut number = 0u64;
    let mut at = bytes.len();
    while at > 0 {
        at -= 1;
        number = 256 * number + u64::from(bytes[at]);
    }
    number
}
