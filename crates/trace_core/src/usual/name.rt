//! Names of one or two digits, and those of threads, of up to three.
ghost use Rattle.std.specs.Prelude.{◌≡◌, ◌⊎◌, ◌≤◌, ◌<◌, ◌+◌, ◌*◌, ◌^◌, ◌∷◌, [], length, IfSome};
ghost use Rattle.trace_core.specs.Usual.{IsNameAt};

use crate::usual::word::has_byte;

/// A name, and where what was read ends.
#[derive(Clone, Copy)]
pub struct UsualName {
    pub value: u32,
    pub end: usize,
}

// What two digits stand for, or one, and where they end.
#[derive(Clone, Copy)]
struct Digits {
    value: u32,
    end: usize,
}

// A number of two digits where the second is one and the first isn't zero, and else of one. It makes no branch.
#[inline(always)]
fn digits_of(first: u32, second: u32, at: usize) -> Digits
    requires first { first ≤ 9 }
    requires at { at + 2 < 2 ^ 64 }
    ensures long { 0 < first → second < 10 → (result.value ≡ 10 * first + second) × (result.end ≡ at + 2) }
    ensures short { (first ≡ 0) ⊎ (10 ≤ second) → (result.value ≡ first) × (result.end ≡ at + 1) }
{
    if (first > 0) & (second < 10) {
        Digits {
            value: 10 * first + second,
            end: at + 2,
        }
    } else {
        Digits {
            value: first,
            end: at + 1,
        }
    }
}

// What the byte stands for, if it is a digit, and else 10 or more.
#[inline(always)]
fn digit(byte: u8) -> u32
    ensures { result < 10 → byte ≡ 48 + result }
{
    u32::from(byte).wrapping_sub(48)
}

/// The name of one or two digits that stands there, if it is below the bound.
#[inline(always)]
fn usual_name(bytes: &[u8], at: usize, bound: u32) -> Option<UsualName>
    requires { at + 2 ≤ length bytes.now }
    ensures name { IfSome result (IsNameAt bytes.now at bound []) }
    ensures small { IfSome result (λ x. x.value < 100) }
    ensures near { IfSome result (λ x. x.end ≤ at + 2) }
{
    let first = digit(bytes[at]);
    let second = digit(bytes[at + 1]);
    if first > 9 {
        return None;
    }
    let digits = digits_of(first, second, at);
    if digits.value >= bound {
        return None;
    }
    Some(UsualName {
        value: digits.value,
        end: digits.end,
    })
}

// The name that goes on with a further digit, if there is one, and it is below the bound.
#[inline(always)]
fn name_longer(bytes: &[u8], at: usize, bound: u32, name: UsualName) -> Option<UsualName>
    requires name { IsNameAt bytes.now at bound [] name }
    requires small { name.value < 100 }
    requires within { name.end < length bytes.now }
    ensures name { IfSome result (IsNameAt bytes.now at bound []) }
    ensures near { IfSome result (λ x. x.end ≤ name.end + 1) }
{
    let next = digit(bytes[name.end]);
    if next > 9 {
        return None;
    }
    let value = 10 * name.value + next;
    if value >= bound {
        return None;
    }
    if name.value < 1 {
        return None;
    }
    Some(UsualName {
        value,
        end: name.end + 1,
    })
}

/// The name of one or two digits that stands there with this byte after it, if it is below the bound.
#[inline(always)]
pub fn name_before(bytes: &[u8], at: usize, bound: u32, stop: u8) -> Option<UsualName>
    requires { at + 3 ≤ length bytes.now }
    ensures name { IfSome result (IsNameAt bytes.now at bound (stop ∷ [])) }
    ensures near { IfSome result (λ x. x.end ≤ at + 3) }
{
    let read = usual_name(bytes, at, bound)?;
    if !has_byte(bytes, read.end, stop) {
        return None;
    }
    Some(UsualName {
        value: read.value,
        end: read.end + 1,
    })
}

/// The same of one to three digits, as threads have.
#[inline(always)]
pub fn thread_before(bytes: &[u8], at: usize, bound: u32, stop: u8) -> Option<UsualName>
    requires { at + 4 ≤ length bytes.now }
    ensures name { IfSome result (IsNameAt bytes.now at bound (stop ∷ [])) }
    ensures near { IfSome result (λ x. x.end ≤ at + 4) }
{
    let read = usual_name(bytes, at, bound)?;
    if has_byte(bytes, read.end, stop) {
        return Some(UsualName {
            value: read.value,
            end: read.end + 1,
        });
    }
    let longer = name_longer(bytes, at, bound, read)?;
    if !has_byte(bytes, longer.end, stop) {
        return None;
    }
    Some(UsualName {
        value: longer.value,
        end: longer.end + 1,
    })
}
