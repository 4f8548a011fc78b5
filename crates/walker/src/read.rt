//! The files of a walk that was listed whole.
ghost use Rattle.std.specs.Prelude.{◌≡◌, ◌++◌, ◌∷◌, [], ◌+◌, ◌≤◌, ◌<◌, ℕ, List, Option, Some, length, IfSome, IfOk, OnOk, IfErr, AllPairs, Contains, map, take};
ghost use Rattle.firefly_outside.specs.Trees.{Calls};
ghost use Rattle.word_index.specs.Index.{File, Index, Meet, IsIndexOf};
ghost use Rattle.walker.specs.Walk.{IsWalkOf, IsSound};
ghost use Rattle.walker.specs.TreeIndex.{IsPartOf, IsFileAt};
ghost use Rattle.walker.specs.Closing.{HasRisen};
ghost use Rattle.walker.specs.Progress.{StepStays, IsListedWhole};
ghost use Rattle.walker.specs.Pile.{IsPileOf, AreApart, AreKept, AreDistinct, ReadsNext, ReadsRest, IsReadEnd, IsRead, ReadsAt, HasRead};
ghost use Rattle.word_index.specs.Read.{read_file};

use crate::listing::child_path;
use crate::{WalkAnswer, Walked};
use firefly_outside::{FileBytes, Tree, TreeError};
use std::alloc::{AllocError, Global};
use word_index::{Batch, Piece, merge_or_drop};

/// Reads what the piece doesn't cover, and gives the index of it all.
pub fn read_rest<S: Tree>(alloc: Global, tree: &mut S, walked: &Walked, piece: Piece) -> WalkAnswer
    requires sound { IsSound walked.now }
    requires listed { IsListedWhole walked.now }
    requires reported { IfSome (S.tree tree.old) (IsWalkOf walked.now) }
    requires part { IsPartOf (S.tree tree.old) walked.now piece }
    ensures tree_stays { S.tree tree.new ≡ S.tree tree.old }
    ensures weak_stays { S.may_fail tree.new ≡ S.may_fail tree.old }
    ensures count { HasRisen (S.faults tree.old) (S.faults tree.new) result }
    ensures end { IsReadEnd result }
    ensures reported { IfSome (S.tree tree.old) (ReadsRest walked.now piece.paths (S.may_fail tree.old) (S.calls tree.old)
        (S.calls tree.new) result) }
{
    let mut pile = Vec::new(alloc);
    match read_files(alloc, tree, walked, &piece, &mut pile) {
        Ok(()) => {
            let whole = whole_of(piece, &mut pile);
            drop(pile);
            match whole {
                Ok(index) => WalkAnswer::Done(index),
                Err(_) => WalkAnswer::Memory,
            }
        }
        Err(answer) => {
            drop(piece);
            drop(pile);
            answer
        }
    }
}

// Reads the files found that the piece doesn't cover, in their order. Where the piece covers as many as were found, it covers each.
fn read_files<S: Tree>(
    alloc: Global,
    tree: &mut S,
    walked: &Walked,
    piece: &Piece,
    pile: &mut Vec<Piece>,
) -> Result<(), WalkAnswer>
    requires sound { IsSound walked.now }
    requires empty { pile.old.items ≡ [] }
    requires reported { IfSome (S.tree tree.old) (IsWalkOf walked.now) }
    requires part { IsPartOf (S.tree tree.old) walked.now piece.now }
    ensures stays { StepStays (S.tree tree.old) (S.tree tree.new) (S.may_fail tree.old) (S.may_fail tree.new) (S.faults tree.old)
        (S.faults tree.new) result }
    ensures apart { OnOk result (AreApart pile.new.items) }
    ensures end { IfErr result IsReadEnd }
    ensures read { IsRead (S.tree tree.old) walked.now piece.now.paths (S.may_fail tree.old) (S.calls tree.old)
        (S.calls tree.new) pile.new.items result }
{
    if piece.files() == walked.files_found() {
        return Ok(());
    }
    let mut batch = Batch::new(alloc);
    for at in 0..walked.files_found() as usize {
        match read_at(alloc, tree, walked, piece, pile, batch, at) {
            Ok(next) => batch = next,
            Err(answer) => return Err(answer),
        }
    }
    match put_batch(pile, batch) {
        Ok(()) => Ok(()),
        Err(_) => Err(WalkAnswer::Memory),
    }
}

// Reads the file found at this place, if the piece doesn't cover it.
fn read_at<S: Tree>(
    alloc: Global,
    tree: &mut S,
    walked: &Walked,
    piece: &Piece,
    pile: &mut Vec<Piece>,
    batch: Batch,
    at: usize,
) -> Result<Batch, WalkAnswer>
    requires within { at < length walked.now.files }
    requires sound { IsSound walked.now }
    requires apart { AreApart pile.old.items }
    requires read { (start : Calls) × HasRead (S.tree tree.old) walked.now piece.now.paths start (S.calls tree.old) at
        (AreKept pile.old.items batch) }
    ensures stays { StepStays (S.tree tree.old) (S.tree tree.new) (S.may_fail tree.old) (S.may_fail tree.new) (S.faults tree.old)
        (S.faults tree.new) result }
    ensures apart { OnOk result (AreApart pile.new.items) }
    ensures end { IfErr result IsReadEnd }
    ensures step { ReadsAt (S.tree tree.old) walked.now piece.now.paths at (S.may_fail tree.old) (S.calls tree.old) (S.calls tree.new)
        (AreKept pile.old.items batch) (AreKept pile.new.items) result }
{
    let name = walked.file_at(at);
    if piece.covers(name) {
        return Ok(batch);
    }
    let file = match read_next(alloc, tree, walked, name) {
        Ok(file) => file,
        Err(answer) => {
            drop(batch);
            return Err(answer);
        }
    };
    match keep_file(alloc, pile, batch, name, &file) {
        Ok(batch) => Ok(batch),
        Err(_) => Err(WalkAnswer::Memory),
    }
}

// Reads one file.
fn read_next<S: Tree>(
    alloc: Global,
    tree: &mut S,
    walked: &Walked,
    name: &str,
) -> Result<FileBytes, WalkAnswer>
    ensures stays { StepStays (S.tree tree.old) (S.tree tree.new) (S.may_fail tree.old) (S.may_fail tree.new) (S.faults tree.old)
        (S.faults tree.new) result }
    ensures file { IfOk result (λ file. IfSome (S.tree tree.old) (λ t. IsFileAt t walked.now.root (read_file name.now file))) }
    ensures end { IfErr result IsReadEnd }
    ensures reported { IfSome (S.tree tree.old) (ReadsNext walked.now.root name.now (S.may_fail tree.old) (S.calls tree.old)
        (S.calls tree.new) result) }
{
    let Ok(path) = child_path(alloc, walked.root(), name) else {
        return Err(WalkAnswer::Memory);
    };
    match tree.read(alloc, path.as_str()) {
        Ok(file) => Ok(file),
        Err(TreeError::Memory) => Err(WalkAnswer::Memory),
        Err(TreeError::Failed) => Err(WalkAnswer::ReadFault(path)),
    }
}

// Puts a file into the batch, or where that takes no more, the batch on the pile and the file into a new one.
fn keep_file(
    alloc: Global,
    pile: &mut Vec<Piece>,
    batch: Batch,
    name: &str,
    file: &FileBytes,
) -> Result<Batch, AllocError>
    requires apart { AreApart pile.old.items }
    requires kept { (files : List File) × AreKept pile.old.items batch files × AreDistinct files }
    ensures apart { OnOk result (AreApart pile.new.items) }
    ensures kept { IfOk result (λ b. (files : List File) → AreKept pile.old.items batch files
        → AreKept pile.new.items b (files ++ read_file name.now file.now ∷ [])) }
{
    if batch.takes(name, file.bytes.len()) {
        return batch.add(name, file);
    }
    put_batch(pile, batch)?;
    Batch::new(alloc).add(name, file)
}

// Puts the piece of a batch on the pile.
fn put_batch(pile: &mut Vec<Piece>, batch: Batch) -> Result<(), AllocError>
    requires apart { AreApart pile.old.items }
    requires kept { (files : List File) × AreKept pile.old.items batch files × AreDistinct files }
    ensures apart { OnOk result (AreApart pile.new.items) }
    ensures index { OnOk result ((files : List File) → AreKept pile.old.items batch files → IsPileOf pile.new.items files) }
{
    let piece = batch.into_piece()?;
    add_piece(pile, piece)?;
    Ok(())
}

// Puts a piece on the pile, and merges those on top that are of like size.
fn add_piece(pile: &mut Vec<Piece>, next: Piece) -> Result<(), AllocError>
    requires { AreApart (pile.old.items ++ next ∷ []) }
    ensures apart { OnOk result (AreApart pile.new.items) }
    ensures index { OnOk result ((fs gs : List File) → IsPileOf pile.old.items fs → IsIndexOf gs next
        → IsPileOf pile.new.items (fs ++ gs)) }
{
    let mut top = next;
    while let Some(below) = pile.pop() {
        if below.files() > top.files() {
            return put_both(pile, below, top);
        }
        top = merge_or_drop(below, top)?;
    }
    put_on(pile, top)
}

fn put_both(pile: &mut Vec<Piece>, below: Piece, top: Piece) -> Result<(), AllocError>
    ensures { OnOk result (pile.new.items ≡ pile.old.items ++ below ∷ [] ++ top ∷ []) }
{
    match put_on(pile, below) {
        Ok(()) => put_on(pile, top),
        Err(error) => {
            drop(top);
            Err(error)
        }
    }
}

fn put_on(pile: &mut Vec<Piece>, top: Piece) -> Result<(), AllocError>
    ensures { OnOk result (pile.new.items ≡ pile.old.items ++ top ∷ []) }
{
    pile.push(top)?;
    Ok(())
}

// Merges all pieces of the pile with the first.
fn whole_of(first: Piece, pile: &mut Vec<Piece>) -> Result<Piece, AllocError>
    requires { AreApart (first ∷ pile.old.items) }
    ensures { IfOk result (λ p. (fs gs : List File) → IsIndexOf fs first → IsPileOf pile.old.items gs → IsIndexOf (fs ++ gs) p) }
{
    let Some(top) = pile.pop() else {
        return Ok(first);
    };
    match merged_onto(pile, top) {
        Ok(rest) => merge_first(first, rest),
        Err(error) => {
            drop(first);
            Err(error)
        }
    }
}

// Merges all pieces of the pile with the one that lay on top.
fn merged_onto(pile: &mut Vec<Piece>, last: Piece) -> Result<Piece, AllocError>
    requires { AreApart (pile.old.items ++ last ∷ []) }
    ensures apart { IfOk result (λ p. (first : Index) → AreApart (first ∷ pile.old.items ++ last ∷ []) → ¬ Meet first p) }
    ensures index { IfOk result (λ p. (files : List File) → IsPileOf (pile.old.items ++ last ∷ []) files → IsIndexOf files p) }
{
    let mut top = last;
    while let Some(below) = pile.pop() {
        top = merge_or_drop(below, top)?;
    }
    Ok(top)
}

// Merges the piece that the walk began with. An empty one of the two, which adds nothing, is dropped.
fn merge_first(first: Piece, rest: Piece) -> Result<Piece, AllocError>
    requires { ¬ Meet first rest }
    ensures { IfOk result (λ p. (fs gs : List File) → IsIndexOf fs first → IsIndexOf gs rest → IsIndexOf (fs ++ gs) p) }
{
    if first.files() == 0 {
        drop(first);
        return Ok(rest);
    }
    if rest.files() == 0 {
        drop(rest);
        return Ok(first);
    }
    merge_or_drop(first, rest)
}
