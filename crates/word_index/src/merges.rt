//! The merge of two pieces.
ghost use Rattle.std.specs.Prelude.{◌≡◌, ◌++◌, [], List, ℕ, length, IfOk, OnOk, IfErr};
ghost use Rattle.std.specs.List.{Contains};
ghost use Rattle.word_index.specs.Index.{File, IsIndexOf, IsUnion, Meet, entries};
ghost use Rattle.word_index.specs.Numbered.{IsNumbered, AreApart};
ghost use Rattle.word_index.specs.Table.{IsTable};

use crate::Piece;
use crate::join::{Union, join_texts, order_at};
use crate::rows::Rows;
use crate::strings::Strings;
use crate::table::Table;
use std::alloc::AllocError;
use std::cmp::Ordering;

// The words of both, each with its places in both, under the numbers of the union of the paths.
fn join_tables(a: &Piece, b: &Piece, paths: &Union) -> Result<Table, AllocError>
    requires first { IsNumbered a.now.paths paths.now.all paths.now.of_a.items (length a.now.paths) }
    requires second { IsNumbered b.now.paths paths.now.all paths.now.of_b.items (length b.now.paths) }
    requires apart { AreApart paths.now.of_a.items paths.now.of_b.items }
    ensures { IfOk result (λ t. IsTable paths.now.all t.words t.places (entries a.now ++ entries b.now)) }
{
    let most = a.words.len().saturating_add(b.words.len());
    let bytes = a.words.bytes().saturating_add(b.words.bytes());
    let total = a.places.total().saturating_add(b.places.total());
    let Table {
        mut words,
        mut places,
    } = Table::with_room(a.alloc, bytes, total, most)?;
    match join_rows(a, b, paths, &mut words, &mut places) {
        Ok(()) => Ok(Table { words, places }),
        Err(fault) => {
            drop(words);
            drop(places);
            Err(fault)
        }
    }
}

// Puts the words of both in order into a list that is empty, and their places into another.
#[inline]
fn join_rows(
    a: &Piece,
    b: &Piece,
    paths: &Union,
    words: &mut Strings,
    places: &mut Rows,
) -> Result<(), AllocError>
    requires first { IsNumbered a.now.paths paths.now.all paths.now.of_a.items (length a.now.paths) }
    requires second { IsNumbered b.now.paths paths.now.all paths.now.of_b.items (length b.now.paths) }
    requires apart { AreApart paths.now.of_a.items paths.now.of_b.items }
    requires no_words { words.old ≡ [] }
    requires no_places { places.old ≡ [] }
    ensures { OnOk result (IsTable paths.now.all words.new places.new (entries a.now ++ entries b.now)) }
{
    let many_of_a = a.words.len();
    let many_of_b = b.words.len();
    let mut i = 0;
    let mut j = 0;
    while i < many_of_a || j < many_of_b {
        match order_at(&a.words, i, &b.words, j) {
            Ordering::Less => {
                words.push(a.words.get(i))?;
                places.push_moved(a.places.get(i), &paths.of_a)?;
                i += 1;
            }
            Ordering::Greater => {
                words.push(b.words.get(j))?;
                places.push_moved(b.places.get(j), &paths.of_b)?;
                j += 1;
            }
            Ordering::Equal => {
                words.push(a.words.get(i))?;
                places.push_merged(a.places.get(i), &paths.of_a, b.places.get(j), &paths.of_b)?;
                i += 1;
                j += 1;
            }
        }
    }
    Ok(())
}

fn merge_pieces(a: &Piece, b: &Piece) -> Result<Piece, AllocError>
    requires { ¬ Meet a.now b.now }
    ensures { IfOk result (IsUnion a.now b.now) }
{
    let paths = join_texts(a.alloc, &a.paths, &b.paths)?;
    let skipped = match join_texts(a.alloc, &a.skipped, &b.skipped) {
        Ok(skipped) => skipped.all,
        Err(fault) => {
            drop(paths.all);
            return Err(fault);
        }
    };
    match join_tables(a, b, &paths) {
        Ok(table) => Ok(Piece {
            alloc: a.alloc,
            paths: paths.all,
            skipped,
            words: table.words,
            places: table.places,
        }),
        Err(fault) => {
            drop(paths.all);
            drop(skipped);
            Err(fault)
        }
    }
}

/// The index of the files of both. Where memory fails, both come back as they were.
pub fn merge(a: Piece, b: Piece) -> Result<Piece, (Piece, Piece)>
    requires { ¬ Meet a b }
    ensures union { IfOk result (IsUnion a b) }
    ensures index { IfOk result (λ p. (fs gs : List File) →
        IsIndexOf fs a → IsIndexOf gs b → IsIndexOf (fs ++ gs) p) }
    ensures back { IfErr result (λ e. e ≡ (a, b)) }
{
    match merge_pieces(&a, &b) {
        Ok(p) => {
            drop(a);
            drop(b);
            Ok(p)
        }
        Err(_) => Err((a, b)),
    }
}

/// The index of the files of both. Where memory fails, both are dropped.
pub fn merge_or_drop(a: Piece, b: Piece) -> Result<Piece, AllocError>
    requires { ¬ Meet a b }
    ensures union { IfOk result (IsUnion a b) }
    ensures index { IfOk result (λ p. (fs gs : List File) →
        IsIndexOf fs a → IsIndexOf gs b → IsIndexOf (fs ++ gs) p) }
{
    match merge(a, b) {
        Ok(piece) => Ok(piece),
        Err((a, b)) => {
            drop(a);
            drop(b);
            Err(AllocError)
        }
    }
}
