//! Words with their places.
ghost use Rattle.std.specs.Prelude.{◌≡◌, ◌<◌, ℕ, [], List, map, length, IfOk, OnOk};
ghost use Rattle.std.specs.List.{All};
ghost use Rattle.std.specs.Str.{bytes_eq};
ghost use Rattle.indexmap.specs.IndexMap.{keys};
ghost use Rattle.word_index.specs.Links.{HoldPlaces};
ghost use Rattle.word_index.specs.Batch.{IsShort, IsTableOf};
ghost use Rattle.word_index.specs.declared.rows.Place.{Place};

use crate::count::{Words, count_files};
use crate::keyed::Keyed;
use crate::links::Link;
use crate::rows::Rows;
use crate::strings::Strings;
use std::alloc::{AllocError, Global};

/// Words with their places.
#[derive(Drop)]
pub struct Table {
    pub words: Strings,
    pub places: Rows,
}

impl Table {
    /// A table with room for so many words of so many bytes and so many places in all.
    pub fn with_room(
        alloc: Global,
        bytes: usize,
        places: usize,
        many: usize,
    ) -> Result<Table, AllocError>
        ensures words { IfOk result (λ t. t.words ≡ []) }
        ensures places { IfOk result (λ t. t.places ≡ []) }
    {
        let words = Strings::with_room(alloc, bytes, many)?;
        match Rows::with_room(alloc, places, many) {
            Ok(places) => Ok(Table { words, places }),
            Err(fault) => {
                drop(words);
                Err(fault)
            }
        }
    }
}

// Room for the words of files of so many bytes, to begin with. A map that grows puts all its words to new places.
fn first_room(bytes: usize) -> usize {
    (bytes / 16).min(4096)
}

// The bytes of all words.
fn word_bytes(words: &Words<'_>) -> usize {
    let mut bytes = 0usize;
    for at in 0..words.len() {
        if let Some((word, _)) = words.get_index(at) {
            bytes = bytes.saturating_add(word.len());
        }
    }
    bytes
}

// The words in their order in the map, each with its places.
fn list_words(alloc: Global, words: &Words<'_>, links: &[Link]) -> Result<Table, AllocError>
    requires { (f : List ℕ → List Place) × HoldPlaces words.now links.now f }
    ensures words { IfOk result (λ t. t.words ≡ map (λ k. k.now) (keys words.now)) }
    ensures places { IfOk result (λ t. (f : List ℕ → List Place) → HoldPlaces words.now links.now f → t.places ≡ map f t.words) }
{
    let many = words.len();
    let total = links.len().saturating_add(many);
    let Table {
        words: mut texts,
        mut places,
    } = Table::with_room(alloc, word_bytes(words), total, many)?;
    match list_into(words, links, &mut texts, &mut places) {
        Ok(()) => Ok(Table {
            words: texts,
            places,
        }),
        Err(fault) => {
            drop(texts);
            drop(places);
            Err(fault)
        }
    }
}

// Puts the words in their order in the map into a list that is empty, and the places of each into another.
#[inline]
fn list_into(
    words: &Words<'_>,
    links: &[Link],
    texts: &mut Strings,
    places: &mut Rows,
) -> Result<(), AllocError>
    requires held { (f : List ℕ → List Place) × HoldPlaces words.now links.now f }
    requires no_texts { texts.old ≡ [] }
    requires no_places { places.old ≡ [] }
    ensures words { OnOk result (texts.new ≡ map (λ k. k.now) (keys words.now)) }
    ensures places { OnOk result ((f : List ℕ → List Place) → HoldPlaces words.now links.now f → places.new ≡ map f texts.new) }
{
    let many = words.len();
    for at in 0..many {
        match words.get_index(at) {
            Some((word, last)) => {
                texts.push(word)?;
                places.push_linked(*last, links)?;
            }
            None => unreachable!(),
        }
    }
    Ok(())
}

/// The words of files in lower case, each with its places, under the numbers of the files.
pub fn table_of(alloc: Global, lows: &Strings) -> Result<Table, AllocError>
    requires { All IsShort lows.now }
    ensures { IfOk result (λ t. IsTableOf lows.now t.words t.places) }
{
    let hasher = Keyed::by(lows.text());
    let mut words = Words::with_capacity_and_hasher(alloc, first_room(lows.bytes()), hasher)?;
    let mut links = Vec::new(alloc);
    count_into(alloc, &mut words, &mut links, lows)
}

// The same by way of a map and of links that are empty.
fn count_into<'a>(
    alloc: Global,
    words: &mut Words<'a>,
    links: &mut Vec<Link>,
    lows: &'a Strings,
) -> Result<Table, AllocError>
    requires empty { HoldPlaces words.old links.old.items (λ _. []) }
    requires short { All IsShort lows.now }
    ensures { IfOk result (λ t. IsTableOf lows.now t.words t.places) }
{
    count_files(words, links, lows)?;
    words.sort_unstable_keys()?;
    list_words(alloc, words, links.as_slice())
}
