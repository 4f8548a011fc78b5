//! The work of a parser.
ghost use Rattle.std.specs.Prelude.{◌≡◌, ◌++◌, ◌||◌, ℕ, [], List, All, Bool, IfSome, IsTrue, Option, Some, None, false, true, not};
ghost use Rattle.firefly_outside.specs.Trees.{Calls, Path, Contents};
ghost use Rattle.firefly_outside.specs.declared.tree.Kind.TheVariants.{File};
ghost use Rattle.index_findings.specs.ReadFiles.{AreRead};
ghost use Rattle.index_findings.specs.Pieces.{IsFilesPiece};
ghost use Rattle.std.specs.List.{flat_map};
ghost use Rattle.index_rule.specs.Shares.{MayPut, covered};
ghost use Rattle.index_rule.specs.declared.value.IndexItem.TheVariants.{Piece as PieceItem};
ghost use Rattle.indexer.specs.Gets.{Gets, OfShare, nothing};
ghost use Rattle.indexer.specs.Jobs.{GivesTree};
ghost use Rattle.indexer.specs.ReadFiles.{HasGiven, HasParsed, HasPassed};
ghost use Rattle.indexer.specs.States.{HasGathered, IsPassedOn, MayPutPieces, ReadsInto, lot_paths};
ghost use Rattle.indexer.specs.Turns.{HasLists, IsBetween, IsReady, Run, Worker};
ghost use Rattle.indexer.specs.Walks.{HasDone, fault_of, lost_of};

use crate::calls::dir_list::end_parser;
use crate::calls::files::next_file;
use crate::calls::pieces::{put_piece, shut_pieces};
use crate::run::early_end::cancel;
use crate::work_end::WorkEnd;
use firefly_outside::{Text, Tree, TreeError};
use index_findings::{Fault, Findings, ReadFiles, pieces_of};
use index_rule::IndexUses;
use nub_rule::{Package, Thread};
use std::alloc::Global;
use std::sync::Wait;
use word_index::Piece;

// Reads one file into the read files. If memory runs out, the file is lost.
fn read_one<S: Tree>(
    alloc: Global,
    tree: &mut S,
    path: Text,
    loaded: &mut ReadFiles,
) -> Result<(), WorkEnd>
    ensures loaded { (more : List Path) × ReadsInto path (lot_paths loaded.old.files.items) (lot_paths loaded.new.files.items) more (lost_of result)
        × IfSome (S.tree tree.old) (λ t. (S.calls tree.new).files_read ≡ (S.calls tree.old).files_read ++ more) }
    ensures read { AreRead (S.tree tree.old) loaded.old.files.items → AreRead (S.tree tree.old) loaded.new.files.items }
    ensures done { (S.tree tree.new ≡ S.tree tree.old) × (S.may_fail tree.new ≡ S.may_fail tree.old)
        × ((root : Path) (count : ℕ) (before : Calls) (p : Run) (a b : Worker)
        → HasDone File (S.tree tree.old) root (S.may_fail tree.old) count (S.faults tree.old) before (S.calls tree.old) p 1 a b [] [] None
        false
        → HasDone File (S.tree tree.old) root (S.may_fail tree.old) count (S.faults tree.new) before (S.calls tree.new) p 0 a b [] []
        (fault_of result) (lost_of result)) }
{
    match tree.read(alloc, path.as_str()) {
        Ok(file) => match loaded.add(path, file) {
            Ok(()) => Ok(()),
            Err(_) => Err(WorkEnd::Lost),
        },
        Err(TreeError::Memory) => Err(WorkEnd::Lost),
        Err(TreeError::Failed) => Err(WorkEnd::Failed(Fault::File(path))),
    }
}

// Puts a piece into the buffer, or, if that returns it, to those that are kept. If memory runs out,
// the piece is lost, and all workers are to end. Returns whether the piece wasn't lost.
fn give_piece<R: Wait>(
    rt: &R,
    p: &Package<IndexUses>,
    me: &mut Thread<IndexUses>,
    piece: Piece,
    kept: &mut Vec<Piece>,
) -> bool
    requires layout { HasLists p.now.layout }
    requires between { IsBetween p.now me.old }
    requires piece { (o : Option Contents) × (root : Path) × IsFilesPiece o root piece }
    requires may { OfShare me.old (MayPut p.now.world 2 (PieceItem piece)) }
    ensures gets { (put : List Path) × Gets p.now (record nothing { pieces_put = put }) me.old me.new
        × IsPassedOn p.now.world (covered p.now.world piece) put kept.old.items kept.new.items result }
    ensures given { (o : Option Contents) (root : Path) (m : ℕ) → IsFilesPiece o root piece
        → HasGiven o root p.now m kept.old.items kept.new.items
        me.old me.new }
{
    match put_piece(rt, p, me, piece) {
        None => true,
        Some(piece) => match kept.push(piece) {
            Ok(()) => true,
            Err(failed) => {
                drop(failed.value);
                cancel(rt, p, me);
                false
            }
        },
    }
}

// Hands each of the pieces on like this. Returns whether none was lost.
fn give_pieces<R: Wait>(
    rt: &R,
    p: &Package<IndexUses>,
    me: &mut Thread<IndexUses>,
    pieces: Vec<Piece>,
    kept: &mut Vec<Piece>,
) -> bool
    requires layout { HasLists p.now.layout }
    requires between { IsBetween p.now me.old }
    requires pieces { (o : Option Contents) × (root : Path) × All (IsFilesPiece o root) pieces.items }
    requires may { OfShare me.old (MayPutPieces p.now.world pieces.items) }
    ensures gets { (put : List Path) × Gets p.now (record nothing { pieces_put = put }) me.old me.new
        × IsPassedOn p.now.world (flat_map (covered p.now.world) pieces.items) put kept.old.items kept.new.items result }
    ensures given { (o : Option Contents) (root : Path) (m : ℕ) → All (IsFilesPiece o root) pieces.items
        → HasGiven o root p.now m kept.old.items
        kept.new.items me.old me.new }
{
    for piece in pieces {
        if !give_piece(rt, p, me, piece, kept) {
            return false;
        }
    }
    true
}

// Makes pieces of the files of the read files, if it has any and is full or the last, and hands them on.
// The list is then empty; one that isn't full may grow. If memory runs out, files are lost, and all
// workers are to end. Returns whether none was lost.
fn pass_files<R: Wait>(
    rt: &R,
    alloc: Global,
    p: &Package<IndexUses>,
    me: &mut Thread<IndexUses>,
    root: &str,
    loaded: &mut ReadFiles,
    kept: &mut Vec<Piece>,
    last: bool,
) -> bool
    requires layout { HasLists p.now.layout }
    requires between { IsBetween p.now me.old }
    requires root { root.now ≡ p.now.world }
    requires read { (o : Option Contents) × AreRead o loaded.old.files.items }
    requires share { (files : List Path) × (lost : Bool)
        × OfShare me.old (HasGathered p.now.world (lot_paths loaded.old.files.items) kept.old.items files lost) }
    ensures share { (files : List Path) (lost : Bool)
        → OfShare me.old (HasGathered p.now.world (lot_paths loaded.old.files.items) kept.old.items files lost)
        → OfShare me.new (HasGathered p.now.world (lot_paths loaded.new.files.items) kept.new.items files (lost || not result)) }
    ensures empty { IsTrue last → loaded.new.files.items ≡ [] }
    ensures passed { (o : Option Contents) (m : ℕ) → AreRead o loaded.old.files.items
        → HasPassed o root.now p.now m loaded.new.files.items kept.old.items
        kept.new.items me.old me.new }
{
    if !loaded.is_due(last) {
        return true;
    }
    match pieces_of(alloc, root, loaded.take_all(alloc)) {
        Ok(pieces) => give_pieces(rt, p, me, pieces, kept),
        Err(_) => {
            cancel(rt, p, me);
            false
        }
    }
}

// One turn of a parser: it takes a file's path, reads the file into the read files, and makes pieces of a
// list that is full.
fn parse_once<R: Wait, S: Tree>(
    rt: &R,
    alloc: Global,
    p: &Package<IndexUses>,
    me: &mut Thread<IndexUses>,
    root: &str,
    tree: &mut S,
    loaded: &mut ReadFiles,
    kept: &mut Vec<Piece>,
) -> Result<(), WorkEnd>
    requires layout { HasLists p.now.layout }
    requires between { IsBetween p.now me.old }
    requires root { root.now ≡ p.now.world }
    requires read { AreRead (S.tree tree.old) loaded.old.files.items }
    requires share { (files : List Path)
        × OfShare me.old (HasGathered p.now.world (lot_paths loaded.old.files.items) kept.old.items files false) }
    ensures share { (files : List Path)
        → OfShare me.old (HasGathered p.now.world (lot_paths loaded.old.files.items) kept.old.items files false)
        → (more : List Path) × OfShare me.new (HasGathered p.now.world (lot_paths loaded.new.files.items) kept.new.items (files ++ more)
        (lost_of result))
        × IfSome (S.tree tree.old) (λ t. (S.calls tree.new).files_read ≡ (S.calls tree.old).files_read ++ more) }
    ensures parsed { HasParsed S.tree S.may_fail S.faults S.calls root.now p.now tree.old tree.new loaded.new.files.items kept.old.items
        kept.new.items
        me.old me.new (fault_of result) (lost_of result) }
{
    let Some(path) = next_file(rt, p, me) else {
        return Err(WorkEnd::Over);
    };
    match read_one(alloc, tree, path, loaded) {
        Ok(()) => {
            if pass_files(rt, alloc, p, me, root, loaded, kept, false) {
                Ok(())
            } else {
                Err(WorkEnd::Lost)
            }
        }
        Err(end) => {
            cancel(rt, p, me);
            Err(end)
        }
    }
}

// Hands on what is left in the read files, and notes that the parser has ended; the last parser shuts the
// buffer of pieces. Returns whether no file was lost.
fn end_pieces<R: Wait>(
    rt: &R,
    alloc: Global,
    p: &Package<IndexUses>,
    me: &mut Thread<IndexUses>,
    root: &str,
    loaded: &mut ReadFiles,
    kept: &mut Vec<Piece>,
) -> bool
    requires layout { HasLists p.now.layout }
    requires between { IsBetween p.now me.old }
    requires root { root.now ≡ p.now.world }
    requires read { (o : Option Contents) × AreRead o loaded.old.files.items }
    requires share { (files : List Path) × (lost : Bool)
        × OfShare me.old (HasGathered p.now.world (lot_paths loaded.old.files.items) kept.old.items files lost) }
    ensures share { (files : List Path) (lost : Bool)
        → OfShare me.old (HasGathered p.now.world (lot_paths loaded.old.files.items) kept.old.items files lost)
        → OfShare me.new (HasGathered p.now.world [] kept.new.items files (lost || not result)) }
    ensures given { (o : Option Contents) (m : ℕ) → AreRead o loaded.old.files.items
        → HasGiven o root.now p.now m kept.old.items kept.new.items me.old
        me.new }
{
    let all_given = pass_files(rt, alloc, p, me, root, loaded, kept, true);
    if end_parser(rt, p, me) {
        shut_pieces(rt, p, me);
    }
    all_given
}

/// Takes paths of files from their buffer, reads these files, makes pieces of them, and puts the
/// pieces into their buffer, until there are no more files. Keeps a piece that the buffer doesn't
/// take. If a file fails or memory runs out, alerts all workers.
///
/// Blocks as `next_file` and `put_piece` do.
pub fn parse<R: Wait, S: Tree>(
    rt: &R,
    alloc: Global,
    p: &Package<IndexUses>,
    me: &mut Thread<IndexUses>,
    root: &str,
    tree: &mut S,
) -> Findings
    requires layout { HasLists p.now.layout }
    requires ready { IsReady p.now me.old }
    requires root { root.now ≡ p.now.world }
    ensures { GivesTree S.tree S.may_fail S.faults S.calls root.now p.now File me.old me.new result (Some tree.old) (Some tree.new) }
{
    let mut loaded = ReadFiles::new(alloc);
    let mut kept = Vec::new(alloc);
    for _ in rt.forever() {
        match parse_once(rt, alloc, p, me, root, tree, &mut loaded, &mut kept) {
            Ok(()) => {}
            Err(end) => {
                let (fault, lost) = end.parts();
                let all_given = end_pieces(rt, alloc, p, me, root, &mut loaded, &mut kept);
                return Findings {
                    visits: Vec::new(alloc),
                    pieces: kept,
                    fault,
                    lost: lost | !all_given,
                };
            }
        }
    }
    unreachable!()
}
