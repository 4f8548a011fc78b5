//! The words of the command line.
ghost use Rattle.std.specs.Prelude.{◌≡◌, ℕ, ◌∷◌, [], codes, map, IfSome, IfNone};
ghost use Rattle.std.specs.String.{string_bytes};
ghost use Rattle.text_output.specs.Numbers.{IsNumber};
ghost use Rattle.command_explore.specs.Words.{AsksFor, most_states};

use std::string::String;
use text_output::read_number;

// The limit that follows this name.
fn read_named(name: &str, number: &str) -> Option<u32>
    ensures found { IfSome result (λ n. (name.now ≡ codes "--states") × IsNumber 1 most_states number.now n) }
    ensures none { IfNone result ((n : ℕ) → name.now ≡ codes "--states" → IsNumber 1 most_states number.now n → ⊥) }
{
    if name != "--states" {
        return None;
    }
    match read_number(number, 1, 1_000_000_000) {
        Some(states) => Some(states as u32),
        None => None,
    }
}

// The limit that one word asks for.
fn read_joined(word: &str) -> Option<u32>
    ensures found { IfSome result (AsksFor (word.now ∷ [])) }
    ensures none { IfNone result ((n : ℕ) → AsksFor (word.now ∷ []) n → ⊥) }
{
    match word.split_once('=') {
        Some((name, number)) => read_named(name, number),
        None => None,
    }
}

/// Returns how many states the words allow, or `None` if they are no such words.
pub fn read_limit(said: &[String]) -> Option<u32>
    ensures found { IfSome result (AsksFor (map string_bytes said.now)) }
    ensures none { IfNone result ((n : ℕ) → AsksFor (map string_bytes said.now) n → ⊥) }
{
    match said {
        [] => Some(1_000_000),
        [word] => read_joined(word.as_str()),
        [name, number] => read_named(name.as_str(), number.as_str()),
        _ => None,
    }
}
