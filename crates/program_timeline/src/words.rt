//! The words of the command line.
ghost use Rattle.std.specs.Prelude.{◌≡◌, ◌^◌, ◌<◌, ◌↔◌, ℕ, [], ◌∷◌, codes, decimal, map, IsTrue, Some, IfSome, IfNone};
ghost use Rattle.std.specs.String.{string_bytes};
ghost use Rattle.trace_shapes.specs.declared.view.DrawnRange.{DrawnRange};
ghost use Rattle.program_timeline.specs.Words.{AsksFor, AsksOrdered, IsPair, Requests, Wants};
ghost use Rattle.program_timeline.specs.declared.words.Request.{Request};
ghost use Rattle.program_timeline.specs.Words as asked;

use std::string::String;
use text_output::read_number;
use trace_shapes::DrawnRange;

/// What the words ask for: a picture of a part of the trace, or its events as JSON.
#[derive(Clone, Copy, Debug, PartialEq, Eq)]
pub enum Request {
    Picture(DrawnRange),
    Json,
}

// The part between two bounds, where there are any.
fn view_between(from: Option<u64>, to: Option<u64>) -> DrawnRange
    ensures { result ≡ asked.view_between from to }
{
    let first = from.unwrap_or(0);
    match to {
        Some(to) => DrawnRange {
            first,
            end: to.saturating_add(1),
            ordered: false,
        },
        None => DrawnRange {
            first,
            end: u64::MAX,
            ordered: false,
        },
    }
}

// The number that follows this name.
fn read_bound(name: &str, wanted: &str, number: &str) -> Option<u64>
    ensures found { IfSome result (λ n. (name.now ≡ wanted.now) × (number.now ≡ decimal n) × (n < 2 ^ 64)) }
    ensures none { IfNone result ((n : ℕ) → name.now ≡ wanted.now → number.now ≡ decimal n → n < 2 ^ 64 → ⊥) }
{
    if name == wanted {
        read_number(number, 0, u64::MAX)
    } else {
        None
    }
}

// The part that one bound asks for.
fn read_one(name: &str, number: &str) -> Option<DrawnRange>
    ensures found { IfSome result (AsksFor (name.now ∷ number.now ∷ [])) }
    ensures none { IfNone result ((v : DrawnRange) → AsksFor (name.now ∷ number.now ∷ []) v → ⊥) }
{
    if let Some(from) = read_bound(name, "--from", number) {
        return Some(view_between(Some(from), None));
    }
    match read_bound(name, "--to", number) {
        Some(to) => Some(view_between(None, Some(to))),
        None => None,
    }
}

// The part that two bounds ask for, the lower in front.
fn read_up(name: &str, number: &str, other: &str, last: &str) -> Option<DrawnRange>
    ensures found { IfSome result (λ v. (k n : ℕ) × IsPair (name.now ∷ number.now ∷ []) (other.now ∷ last.now ∷ []) k n
        × (v ≡ asked.view_between (Some k) (Some n))) }
    ensures none { IfNone result ((k n : ℕ) → IsPair (name.now ∷ number.now ∷ []) (other.now ∷ last.now ∷ []) k n → ⊥) }
{
    let Some(from) = read_bound(name, "--from", number) else {
        return None;
    };
    match read_bound(other, "--to", last) {
        Some(to) => Some(view_between(Some(from), Some(to))),
        None => None,
    }
}

// The part that two bounds ask for.
fn read_two(name: &str, number: &str, other: &str, last: &str) -> Option<DrawnRange>
    ensures found { IfSome result (AsksFor (name.now ∷ number.now ∷ other.now ∷ last.now ∷ [])) }
    ensures none { IfNone result ((v : DrawnRange) → AsksFor (name.now ∷ number.now ∷ other.now ∷ last.now ∷ []) v → ⊥) }
{
    if let Some(view) = read_up(name, number, other, last) {
        return Some(view);
    }
    read_up(other, last, name, number)
}

// The part of the trace that the words ask for: all of it, from an event on, up to an event, or both. There is none where they ask for
// nothing of this kind.
fn read_view(said: &[String]) -> Option<DrawnRange>
    ensures found { IfSome result (AsksFor (map string_bytes said.now)) }
    ensures none { IfNone result ((v : DrawnRange) → AsksFor (map string_bytes said.now) v → ⊥) }
{
    match said {
        [] => Some(view_between(None, None)),
        [name, number] => read_one(name.as_str(), number.as_str()),
        [name, number, other, last] => {
            read_two(
                name.as_str(),
                number.as_str(),
                other.as_str(),
                last.as_str(),
            )
        }
        _ => None,
    }
}

// The part that the words ask for after the word for the lock order.
fn read_ordered(word: &str, rest: &[String]) -> Option<DrawnRange>
    ensures found { IfSome result (AsksOrdered (word.now ∷ map string_bytes rest.now)) }
    ensures none { IfNone result ((v : DrawnRange) → AsksOrdered (word.now ∷ map string_bytes rest.now) v → ⊥) }
{
    if word != "--order" {
        return None;
    }
    match read_view(rest) {
        Some(view) => Some(DrawnRange {
            first: view.first,
            end: view.end,
            ordered: true,
        }),
        None => None,
    }
}

// The part of the trace that the words ask for, and whether with the lock order. There is none where they ask for nothing of this kind.
fn read_words(said: &[String]) -> Option<DrawnRange>
    ensures found { IfSome result (Wants (map string_bytes said.now)) }
    ensures none { IfNone result ((v : DrawnRange) → Wants (map string_bytes said.now) v → ⊥) }
{
    if let Some(view) = read_view(said) {
        return Some(view);
    }
    match said.split_first() {
        Some((word, rest)) => read_ordered(word.as_str(), rest),
        None => None,
    }
}

// Whether this is the word for JSON.
fn is_word(word: &str) -> bool
    ensures { IsTrue result ↔ (word.now ≡ codes "--json") }
{
    word == "--json"
}

// Whether the words are that one.
fn is_json(said: &[String]) -> bool
    ensures { IsTrue result ↔ (map string_bytes said.now ≡ codes "--json" ∷ []) }
{
    match said {
        [word] => is_word(word.as_str()),
        _ => false,
    }
}

/// Returns what the words ask for, or `None` if they are no such words.
pub fn read_request(said: &[String]) -> Option<Request>
    ensures found { IfSome result (Requests (map string_bytes said.now)) }
    ensures none { IfNone result ((r : Request) → Requests (map string_bytes said.now) r → ⊥) }
{
    if is_json(said) {
        return Some(Request::Json);
    }
    match read_words(said) {
        Some(view) => Some(Request::Picture(view)),
        None => None,
    }
}
