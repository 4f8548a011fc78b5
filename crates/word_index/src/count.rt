//! How often files have each word, and where first.
ghost use Rattle.std.specs.Prelude.{◌≡◌, ℕ, ◌+◌, ◌<◌, ◌≤◌, ◌^◌, ◌++◌, List, [], length, take, map, drop, if◌then◌else◌, Some, None, IfOk, OnOk, IfSome};
ghost use Rattle.std.specs.List.{All};
ghost use Rattle.std.specs.Str.{bytes_eq};
ghost use Rattle.word_index.specs.Words.{lower, short_runs};
ghost use Rattle.word_index.specs.Counts.{seen_in};
ghost use Rattle.word_index.specs.Links.{link_at, HoldPlaces, AreAbove, bumped, seen_place, places_from};
ghost use Rattle.word_index.specs.Batch.{IsShort};
ghost use Rattle.word_index.specs.declared.rows.Place.{Place};

use crate::join::number_of;
use crate::keyed::Keyed;
use crate::links::{Link, next_link};
use crate::rows::Place;
use crate::strings::Strings;
use crate::words::next_run;
use indexmap::IndexMap;
use std::alloc::AllocError;

// A longer run is no word.
const LONGEST_WORD: usize = 64;

/// The words of files, each with the link of its place in the file that was counted last.
pub type Words<'a> = IndexMap<&'a [u8], Link, Keyed>;

// Counts one occurrence in the file of this number. Where memory fails, nothing is said of the counts.
fn add<'a>(
    words: &mut Words<'a>,
    links: &mut Vec<Link>,
    word: &'a [u8],
    path: u32,
    line: u32,
) -> Result<(), AllocError>
    requires { IfSome (link_at words.old word.now) (λ l. l.place.path ≡ path → l.place.count + 1 < 2 ^ 32) }
    ensures { OnOk result ((f : List ℕ → List Place) → HoldPlaces words.old links.old.items f
        → HoldPlaces words.new links.new.items (λ w. if bytes_eq word.now w then bumped path line (f word.now) else f w)) }
{
    match words.get_mut(&word) {
        Some(last) => {
            let next = next_link(*last, links, path, line)?;
            *last = next;
        }
        None => {
            let place = Place {
                path,
                count: 1,
                line,
            };
            words.insert(word, Link { place, earlier: 0 })?;
        }
    }
    Ok(())
}

// Counts the words of a file in lower case, which has this number. The files counted before have higher ones.
fn count_file<'a>(
    words: &mut Words<'a>,
    links: &mut Vec<Link>,
    low: &'a [u8],
    path: u32,
) -> Result<(), AllocError>
    requires short { IsShort low.now }
    requires held { (f : List ℕ → List Place) × HoldPlaces words.old links.old.items f × AreAbove path f }
    ensures { OnOk result ((f : List ℕ → List Place) → HoldPlaces words.old links.old.items f → AreAbove path f
        → HoldPlaces words.new links.new.items (λ w. seen_place path (seen_in w (short_runs low.now)) ++ f w)) }
{
    let mut at = 0;
    let mut line = 1;
    while let Some(run) = next_run(low, at, line) {
        let word = &low[run.start..run.end];
        if word.len() <= LONGEST_WORD {
            add(words, links, word, path, run.line)?;
        }
        at = run.end;
        line = run.line;
    }
    Ok(())
}

/// Counts the words of files in lower case, which are numbered in their order.
pub fn count_files<'a>(
    words: &mut Words<'a>,
    links: &mut Vec<Link>,
    lows: &'a Strings,
) -> Result<(), AllocError>
    requires empty { HoldPlaces words.old links.old.items (λ _. []) }
    requires short { All IsShort lows.now }
    ensures { OnOk result (HoldPlaces words.new links.new.items (λ w. places_from w 0 lows.now)) }
{
    let mut at = lows.len();
    while at > 0 {
        at -= 1;
        let path = number_of(at)?;
        count_file(words, links, lows.get(at), path)?;
    }
    Ok(())
}
