//! Two rising lists of texts, joined.
ghost use Rattle.std.specs.Prelude.{◌≡◌, ◌<◌, ◌≤◌, ◌↔◌, ℕ, [], ◌⊎◌, List, length, slice_index_or, vec_capacity, IfOk, OnOk};
ghost use Rattle.std.specs.List.{Contains};
ghost use Rattle.word_index.specs.Index.{IsBelow, IsRising};
ghost use Rattle.word_index.specs.Numbered.{IsNumbered};

use crate::strings::Strings;
use std::alloc::{AllocError, Global};
use std::cmp::Ordering;

/// All texts of two lists, and the numbers that those of each have there.
#[derive(Drop)]
pub struct Union {
    pub all: Strings,
    pub of_a: Vec<u32>,
    pub of_b: Vec<u32>,
}

/// Which of the texts at these places comes first. Where one list has ended, the other's does.
pub fn order_at(a: &Strings, i: usize, b: &Strings, j: usize) -> Ordering
    requires { (i < length a.now) ⊎ (j < length b.now) }
    ensures less { result ≡ Ordering.Less → (i < length a.now)
        × (j < length b.now → IsBelow (slice_index_or a.now i []) (slice_index_or b.now j [])) }
    ensures greater { result ≡ Ordering.Greater → (j < length b.now)
        × (i < length a.now → IsBelow (slice_index_or b.now j []) (slice_index_or a.now i [])) }
    ensures equal { result ≡ Ordering.Equal → (i < length a.now) × (j < length b.now)
        × (slice_index_or a.now i [] ≡ slice_index_or b.now j []) }
{
    if i >= a.len() {
        Ordering::Greater
    } else if j >= b.len() {
        Ordering::Less
    } else {
        a.get(i).cmp(&b.get(j))
    }
}

/// The number as one of 32 bits. A list has no more.
pub fn number_of(n: usize) -> Result<u32, AllocError>
    ensures { IfOk result (λ m. m ≡ n) }
{
    match u32::try_from(n) {
        Ok(m) => Ok(m),
        Err(_) => Err(AllocError),
    }
}

/// The texts of both in order, each once.
pub fn join_texts(alloc: Global, a: &Strings, b: &Strings) -> Result<Union, AllocError>
    requires a_rises { IsRising a.now }
    requires b_rises { IsRising b.now }
    ensures first { IfOk result (λ u. IsNumbered a.now u.all u.of_a.items (length a.now)) }
    ensures second { IfOk result (λ u. IsNumbered b.now u.all u.of_b.items (length b.now)) }
    ensures rising { IfOk result (λ u. IsRising u.all) }
    ensures members { IfOk result (λ u. (x : List ℕ) →
        Contains u.all x ↔ (Contains a.now x ⊎ Contains b.now x)) }
{
    let mut of_a = Vec::with_capacity(alloc, a.len())?;
    let mut of_b = Vec::with_capacity(alloc, b.len())?;
    let mut all = Strings::with_room(alloc, a.bytes(), a.len())?;
    match join_into(a, b, &mut all, &mut of_a, &mut of_b) {
        Ok(()) => Ok(Union { all, of_a, of_b }),
        Err(fault) => {
            drop(all);
            Err(fault)
        }
    }
}

// Puts the texts of both in order into a list that is empty, and their numbers there into two that have room for them.
#[inline]
fn join_into(
    a: &Strings,
    b: &Strings,
    all: &mut Strings,
    of_a: &mut Vec<u32>,
    of_b: &mut Vec<u32>,
) -> Result<(), AllocError>
    requires a_rises { IsRising a.now }
    requires b_rises { IsRising b.now }
    requires none { all.old ≡ [] }
    requires none_of_a { of_a.old.items ≡ [] }
    requires none_of_b { of_b.old.items ≡ [] }
    requires room_of_a { length a.now ≤ vec_capacity of_a.old }
    requires room_of_b { length b.now ≤ vec_capacity of_b.old }
    ensures first { OnOk result (IsNumbered a.now all.new of_a.new.items (length a.now)) }
    ensures second { OnOk result (IsNumbered b.now all.new of_b.new.items (length b.now)) }
    ensures rising { OnOk result (IsRising all.new) }
    ensures members { OnOk result ((x : List ℕ) → Contains all.new x ↔ (Contains a.now x ⊎ Contains b.now x)) }
{
    let many_of_a = a.len();
    let many_of_b = b.len();
    let mut i = 0;
    let mut j = 0;
    while i < many_of_a || j < many_of_b {
        let place = number_of(all.len())?;
        match order_at(a, i, b, j) {
            Ordering::Less => {
                all.push(a.get(i))?;
                of_a.push_reserved(place);
                i += 1;
            }
            Ordering::Greater => {
                all.push(b.get(j))?;
                of_b.push_reserved(place);
                j += 1;
            }
            Ordering::Equal => {
                all.push(a.get(i))?;
                of_a.push_reserved(place);
                of_b.push_reserved(place);
                i += 1;
                j += 1;
            }
        }
    }
    Ok(())
}
