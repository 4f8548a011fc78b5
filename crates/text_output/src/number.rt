//! Numbers in decimal, without a sign and without a leading zero.
ghost use Rattle.std.specs.Prelude.{ℕ, ◌↔◌, IfNone, IfSome, IsTrue};
ghost use Rattle.text_output.specs.Numbers.{IsNumber, IsPlain};

/// The number that the text is, where it lies from `least` to `most`.
pub fn read_number(text: &str, least: u64, most: u64) -> Option<u64>
    ensures number { IfSome result (IsNumber least most text.now) }
    ensures none { IfNone result ((n : ℕ) → IsNumber least most text.now n → ⊥) }
{
    if !is_plain(text) {
        return None;
    }
    match text.parse::<u64>() {
        Ok(number) if least <= number && number <= most => Some(number),
        _ => None,
    }
}

// The text has no sign and no leading zero.
fn is_plain(text: &str) -> bool
    ensures { IsTrue result ↔ IsPlain text.now }
{
    let bytes = text.as_bytes();
    !bytes.is_empty() && bytes[0] != b'+' && (bytes[0] != b'0' || bytes.len() == 1)
}
