//! The places of words in one block of memory.
ghost use Rattle.std.specs.Prelude.{◌≡◌, ◌+◌, ◌<◌, ◌≤◌, ℕ, List, [], ◌∷◌, ◌++◌, ◌⊎◌, length, map, take, IfOk, OnOk, OnErr, slice_index, slice_index_or, sum_by};
ghost use Rattle.std.specs.Bool.{OnTrue, OnFalse};
ghost use Rattle.std.specs.List.{All, AllPairs, flat_map};
ghost use Rattle.word_index.specs.Numbered.{moved, AreApart};
ghost use Rattle.word_index.specs.Merged.{IsPathBelow, AddsMerged, PushesMerged, nowhere};
ghost use Rattle.word_index.specs.Links.{IsLinked, PushesLinked};

use crate::blocks::{end_part, part_of};
use crate::links::{Link, add_linked};
use std::alloc::{AllocError, Global};
use std::marker::Model;

/// A file that has a word, by the number of its path: how often it has it, and on which line first.
#[derive(Clone, Copy)]
pub struct Place {
    pub path: u32,
    pub count: u32,
    pub line: u32,
}

/// The place under the new number of its path.
#[inline(always)]
fn moved_place(place: Place, numbers: &[u32]) -> Place
    requires { place.path < length numbers.now }
    ensures { result ≡ moved numbers.now place }
{
    Place {
        path: numbers[place.path as usize],
        count: place.count,
        line: place.line,
    }
}

// Adds the places of a row under new numbers.
fn add_moved(out: &mut Vec<Place>, row: &[Place], numbers: &[u32]) -> Result<(), AllocError>
    requires { All (λ p. p.path < length numbers.now) row.now }
    ensures ok { OnOk result (out.new.items ≡ out.old.items ++ map (moved numbers.now) row.now) }
    ensures kept { take (length out.old.items) out.new.items ≡ out.old.items }
{
    out.reserve(row.len())?;
    for place in row {
        out.push_reserved(moved_place(*place, numbers));
    }
    Ok(())
}

// Whether the place of the first row comes next.
#[inline(always)]
fn takes_first(xs: &[Place], of_x: &[u32], i: usize, ys: &[Place], of_y: &[u32], j: usize) -> bool
    requires some { (i < length xs.now) ⊎ (j < length ys.now) }
    requires xs { All (λ p. p.path < length of_x.now) xs.now }
    requires ys { All (λ p. p.path < length of_y.now) ys.now }
    requires apart { AreApart of_x.now of_y.now }
    ensures first { OnTrue result ((i < length xs.now) × (j < length ys.now
        → IsPathBelow (slice_index_or (map (moved of_x.now) xs.now) i nowhere) (slice_index_or (map (moved of_y.now) ys.now) j nowhere))) }
    ensures second { OnFalse result ((j < length ys.now) × (i < length xs.now
        → IsPathBelow (slice_index_or (map (moved of_y.now) ys.now) j nowhere) (slice_index_or (map (moved of_x.now) xs.now) i nowhere))) }
{
    j >= ys.len() || i < xs.len() && of_x[xs[i].path as usize] < of_y[ys[j].path as usize]
}

// Adds the places of two rows under new numbers, in the order of their paths.
fn add_merged(
    out: &mut Vec<Place>,
    xs: &[Place],
    of_x: &[u32],
    ys: &[Place],
    of_y: &[u32],
) -> Result<(), AllocError>
    requires xs { All (λ p. p.path < length of_x.now) xs.now }
    requires ys { All (λ p. p.path < length of_y.now) ys.now }
    requires apart { AreApart of_x.now of_y.now }
    requires xs_rise { AllPairs IsPathBelow (map (moved of_x.now) xs.now) }
    requires ys_rise { AllPairs IsPathBelow (map (moved of_y.now) ys.now) }
    ensures ok { OnOk result (AddsMerged (map (moved of_x.now) xs.now) (map (moved of_y.now) ys.now) out.old.items out.new.items) }
    ensures kept { take (length out.old.items) out.new.items ≡ out.old.items }
{
    out.reserve(xs.len().saturating_add(ys.len()))?;
    let mut i = 0;
    let mut j = 0;
    while i < xs.len() || j < ys.len() {
        if takes_first(xs, of_x, i, ys, of_y, j) {
            out.push_reserved(moved_place(xs[i], of_x));
            i += 1;
        } else {
            out.push_reserved(moved_place(ys[j], of_y));
            j += 1;
        }
    }
    Ok(())
}

/// The places of one word, followed by those of the other.
#[derive(Drop)]
pub struct Rows {
    places: Vec<Place>,
    ends: Vec<usize>,
}

impl Model for Rows {
    ghost use Rattle.std.specs.Prelude.{ℕ, List};
    ghost use Rattle.word_index.specs.declared.rows.Place.{Place};
    ghost use Rattle.word_index.specs.Blocks.{parts, AreEnds};

    ghost Value = { List (List Place) };

    ghost view = { λ s. parts s.places.items 0 s.ends.items };

    ghost invariant = { λ s. AreEnds s.places.items 0 s.ends.items };
}

impl Rows {
    pub fn new(alloc: Global) -> Rows
        ensures { result ≡ [] }
    {
        Rows {
            places: Vec::new(alloc),
            ends: Vec::new(alloc),
        }
    }

    /// Rows with room for so many of so many places in all.
    pub fn with_room(alloc: Global, places: usize, many: usize) -> Result<Rows, AllocError>
        ensures { IfOk result (λ r. r ≡ []) }
    {
        Ok(Rows {
            places: Vec::with_capacity(alloc, places)?,
            ends: Vec::with_capacity(alloc, many)?,
        })
    }

    #[inline(always)]
    pub fn len(&self) -> usize
        ensures { result ≡ length self.now }
    {
        self.ends.len()
    }

    #[inline(always)]
    pub fn get(&self, at: usize) -> &[Place]
        requires { at < length self.now }
        ensures { result.now ≡ slice_index_or self.now at [] }
    {
        part_of(&self.places, &self.ends, at)
    }

    /// Adds a row under new numbers.
    pub fn push_moved(&mut self, row: &[Place], numbers: &[u32]) -> Result<(), AllocError>
        requires { All (λ p. p.path < length numbers.now) row.now }
        ensures { OnOk result (self.new ≡ self.old ++ map (moved numbers.now) row.now ∷ []) }
    {
        let start = self.places.len();
        match add_moved(&mut self.places, row, numbers) {
            Ok(()) => {}
            Err(fault) => {
                self.places.truncate(start);
                return Err(fault);
            }
        }
        end_part(&mut self.places, &mut self.ends, start)
    }

    /// Adds the row of the places of two rows under new numbers.
    pub fn push_merged(
        &mut self,
        xs: &[Place],
        of_x: &[u32],
        ys: &[Place],
        of_y: &[u32],
    ) -> Result<(), AllocError>
        requires xs { All (λ p. p.path < length of_x.now) xs.now }
        requires ys { All (λ p. p.path < length of_y.now) ys.now }
        requires apart { AreApart of_x.now of_y.now }
        requires xs_rise { AllPairs IsPathBelow (map (moved of_x.now) xs.now) }
        requires ys_rise { AllPairs IsPathBelow (map (moved of_y.now) ys.now) }
        ensures { OnOk result (PushesMerged (map (moved of_x.now) xs.now) (map (moved of_y.now) ys.now) self.old self.new) }
    {
        let start = self.places.len();
        match add_merged(&mut self.places, xs, of_x, ys, of_y) {
            Ok(()) => {}
            Err(fault) => {
                self.places.truncate(start);
                return Err(fault);
            }
        }
        end_part(&mut self.places, &mut self.ends, start)
    }

    /// Adds a row of the place of a link and those before it.
    pub fn push_linked(&mut self, last: Link, links: &[Link]) -> Result<(), AllocError>
        requires { (ps : List Place) × IsLinked links.now last ps }
        ensures { OnOk result (PushesLinked links.now last self.old self.new) }
    {
        let start = self.places.len();
        match add_linked(&mut self.places, last, links) {
            Ok(()) => {}
            Err(fault) => {
                self.places.truncate(start);
                return Err(fault);
            }
        }
        end_part(&mut self.places, &mut self.ends, start)
    }

    /// The number of places of all words.
    pub fn total(&self) -> usize
        ensures { result ≡ length (flat_map (λ r. r) self.now) }
    {
        self.places.len()
    }

    /// The sum of their counts.
    pub fn total_count(&self) -> u128
        ensures { result ≡ sum_by (λ p. p.count) (flat_map (λ r. r) self.now) }
    {
        let mut sum = 0u128;
        let places = self.places.as_slice();
        for place in places {
            sum += u128::from(place.count);
        }
        sum
    }
}
