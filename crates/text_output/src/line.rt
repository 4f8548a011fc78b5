//! Short texts, in a buffer of their own.
ghost use Rattle.std.specs.Prelude.{◌≡◌, ◌≤◌, ◌+◌, ◌++◌, length, decimal};
ghost use Rattle.arrayvec.specs.ArrayString.{array_string_len};

use arrayvec::ArrayString;
use itoa::Buffer;

/// Adds a word and a number, which has at most 20 digits.
pub fn push_with_number<const CAP: usize>(line: &mut ArrayString<CAP>, word: &str, number: u64)
    requires { array_string_len line.old + length word.now + 20 ≤ CAP }
    ensures bytes { line.new.bytes ≡ line.old.bytes ++ word.now ++ decimal number }
    ensures len { array_string_len line.new ≤ array_string_len line.old + length word.now + 20 }
{
    let mut buffer = Buffer::new();
    line.push_str(word);
    line.push_str(buffer.format(number));
}
