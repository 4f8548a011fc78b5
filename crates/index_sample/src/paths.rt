//! The paths of the sample tree, and the numbers in them.
ghost use Rattle.std.specs.Prelude.{◌≡◌, ◌≢◌, ◌⊎◌, ◌≤◌, ◌<◌, ◌+◌, ◌++◌, ◌∷◌, ℕ, List, length, Some, IfSome, IfNone, decimal};
ghost use Rattle.arrayvec.specs.ArrayString.{array_string_len};
ghost use Rattle.firefly_outside.specs.Samples.{dir_path, file_path, dir_count};

use crate::short_text::{ShortText, push_number};
use text_output::read_number;

// The path of a directory.
fn dir_text(dir: u32) -> ShortText
    ensures bytes { result.bytes ≡ dir_path dir }
    ensures len { array_string_len result ≤ 28 }
{
    let mut path = ShortText::new();
    push_number(&mut path, "sample/d", dir);
    path
}

// The path of a file.
fn file_text(file: u32) -> ShortText
    ensures { result.bytes ≡ file_path file }
{
    let mut path = dir_text(file / 100);
    push_number(&mut path, "/f", file);
    path
}

// The number after the last occurrence of this letter, if all that follows it is a number.
fn number_after(path: &str, letter: char) -> Option<u32>
    requires { (letter ≡ 100) ⊎ (letter ≡ 102) }
    ensures some { (prefix : List ℕ) (n : ℕ) → n < 20000 → path.now ≡ prefix ++ letter ∷ decimal n → result ≡ Some n }
    ensures few { IfSome result (λ n. n < 20000) }
{
    let Some((_, digits)) = path.rsplit_once(letter) else {
        return None;
    };
    let Some(number) = read_number(digits, 0, 19_999) else {
        return None;
    };
    Some(number as u32)
}

/// Returns the number of the directory below the root that has this path, in the tree of `files`
/// files.
pub fn dir_number(path: &str, files: u32) -> Option<u32>
    requires { files ≤ 20000 }
    ensures some { IfSome result (λ k. (k < dir_count files) × (path.now ≡ dir_path k)) }
    ensures none { IfNone result ((k : ℕ) → k < dir_count files → path.now ≢ dir_path k) }
{
    let Some(dir) = number_after(path, 'd') else {
        return None;
    };
    if dir < (files + 99) / 100 && dir_text(dir).as_str() == path {
        return Some(dir);
    }
    None
}

/// Returns the number of the file that has this path, in the tree of `files` files.
pub fn file_number(path: &str, files: u32) -> Option<u32>
    requires { files ≤ 20000 }
    ensures some { IfSome result (λ i. (i < files) × (path.now ≡ file_path i)) }
    ensures none { IfNone result ((i : ℕ) → i < files → path.now ≢ file_path i) }
{
    let Some(file) = number_after(path, 'f') else {
        return None;
    };
    if file < files && file_text(file).as_str() == path {
        return Some(file);
    }
    None
}
