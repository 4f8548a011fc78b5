//! The words after `find`.
ghost use Rattle.std.specs.Prelude.{◌≡◌, ◌≤◌, ℕ, List, IfNone, IfSome, map};
ghost use Rattle.std.specs.String.{string_bytes};
ghost use Rattle.index_find.specs.Grammar.{Token};
ghost use Rattle.index_text.specs.Faults.{budget, most_bytes};
ghost use Rattle.command_find.specs.Asking.{Asks, AsksWithin};

use std::string::String;
use text_output::read_number;

// How many bytes an index may have where the words don't say it, and at most.
const BUDGET: u64 = 67_108_864;

const MOST_BYTES: u64 = 1_099_511_627_776;

// A number of bytes, and the query after it.
fn read_within(words: &[String]) -> Option<(u64, &[String])>
    ensures found { IfSome result (λ r. AsksWithin (map string_bytes words.now) r.0 (map string_bytes r.1.now)) }
    ensures few { IfSome result (λ r. r.0 ≤ most_bytes) }
    ensures none { IfNone result ((n : ℕ) (ts : List Token) → AsksWithin (map string_bytes words.now) n ts → ⊥) }
{
    let Some((number, tokens)) = words.split_first() else {
        return None;
    };
    match read_number(number.as_str(), 1, MOST_BYTES) {
        Some(most) => Some((most, tokens)),
        None => None,
    }
}

/// Returns how many bytes the index may have, and the words of the query, or `None` if `--limit`
/// comes first without such a number.
pub fn read_limit(words: &[String]) -> Option<(u64, &[String])>
    ensures found { IfSome result (λ r. Asks (map string_bytes words.now) r.0 (map string_bytes r.1.now)) }
    ensures few { IfSome result (λ r. r.0 ≤ most_bytes) }
    ensures none { IfNone result ((n : ℕ) (ts : List Token) → Asks (map string_bytes words.now) n ts → ⊥) }
{
    match words.split_first() {
        Some((first, rest)) if first.as_str() == "--limit" => read_within(rest),
        _ => Some((BUDGET, words)),
    }
}
