//! Short texts of a few words and numbers.
ghost use Rattle.std.specs.Prelude.{◌≡◌, ◌≤◌, ◌+◌, ◌++◌, length, decimal};
ghost use Rattle.arrayvec.specs.ArrayString.{array_string_len};

use arrayvec::ArrayString;
use itoa::Buffer;

/// A path or a line.
pub type ShortText = ArrayString<256>;

/// Appends letters and a number.
pub fn push_number(text: &mut ShortText, letters: &str, number: u32)
    requires { array_string_len text.old + length letters.now + 20 ≤ 256 }
    ensures bytes { text.new.bytes ≡ text.old.bytes ++ letters.now ++ decimal number }
    ensures len { array_string_len text.new ≤ array_string_len text.old + length letters.now + 20 }
{
    let mut buffer = Buffer::new();
    text.push_str(letters);
    text.push_str(buffer.format(number));
}
