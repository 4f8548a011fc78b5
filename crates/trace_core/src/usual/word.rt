//! Words of a fixed length.
ghost use Rattle.std.specs.Prelude.{◌≡◌, ◌≤◌, ◌<◌, ◌+◌, ◌∷◌, [], length, take, drop, IsTrue};
ghost use Rattle.trace_core.specs.Usual.{Stands, little};

/// The next eight bytes as a number, the first of them lowest.
#[inline(always)]
pub fn eight(bytes: &[u8], at: usize) -> u64
    requires { at + 8 ≤ length bytes.now }
    ensures { result ≡ little (take 8 (drop at bytes.now)) }
{
    u64::from_le_bytes([
        bytes[at],
        bytes[at + 1],
        bytes[at + 2],
        bytes[at + 3],
        bytes[at + 4],
        bytes[at + 5],
        bytes[at + 6],
        bytes[at + 7],
    ])
}

#[inline(always)]
fn four(bytes: &[u8], at: usize) -> u32
    requires { at + 4 ≤ length bytes.now }
    ensures { result ≡ little (take 4 (drop at bytes.now)) }
{
    u32::from_le_bytes([bytes[at], bytes[at + 1], bytes[at + 2], bytes[at + 3]])
}

#[inline(always)]
fn two(bytes: &[u8], at: usize) -> u16
    requires { at + 2 ≤ length bytes.now }
    ensures { result ≡ little (take 2 (drop at bytes.now)) }
{
    u16::from_le_bytes([bytes[at], bytes[at + 1]])
}

/// Whether this word of eight bytes stands there.
#[inline(always)]
pub fn has_eight(bytes: &[u8], at: usize, word: &[u8; 8]) -> bool
    requires { at + 8 ≤ length bytes.now }
    ensures { IsTrue result → Stands bytes.now at word.now (at + 8) }
{
    eight(bytes, at) == eight(word, 0)
}

/// Whether this word of four bytes stands there.
#[inline(always)]
pub fn has_four(bytes: &[u8], at: usize, word: &[u8; 4]) -> bool
    requires { at + 4 ≤ length bytes.now }
    ensures { IsTrue result → Stands bytes.now at word.now (at + 4) }
{
    four(bytes, at) == four(word, 0)
}

/// Whether this word of two bytes stands there.
#[inline(always)]
pub fn has_two(bytes: &[u8], at: usize, word: &[u8; 2]) -> bool
    requires { at + 2 ≤ length bytes.now }
    ensures { IsTrue result → Stands bytes.now at word.now (at + 2) }
{
    two(bytes, at) == two(word, 0)
}

/// Whether this byte stands there.
#[inline(always)]
pub fn has_byte(bytes: &[u8], at: usize, byte: u8) -> bool
    requires { at < length bytes.now }
    ensures { IsTrue result → Stands bytes.now at (byte ∷ []) (at + 1) }
{
    bytes[at] == byte
}
