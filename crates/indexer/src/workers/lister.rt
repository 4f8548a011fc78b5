//! The work of a walker.
ghost use Rattle.std.specs.Prelude.{◌≡◌, ℕ, [], List, All, Contains, IfOk, OnErr, Option, Some, None, false};
ghost use Rattle.firefly_outside.specs.Trees.{Calls, Path};
ghost use Rattle.firefly_outside.specs.declared.tree.Kind.TheVariants.{Dir};
ghost use Rattle.indexer.specs.Gets.{Makes, MayGive, OfShare, nothing};
ghost use Rattle.indexer.specs.Jobs.{GivesTree};
ghost use Rattle.indexer.specs.States.{HasWalked, KeepsListing};
ghost use Rattle.indexer.specs.Turns.{HasLists, IsBetween, IsReady, Run, Worker};
ghost use Rattle.indexer.specs.Walks.{HasDone, fault_of, lost_of};

use crate::calls::dir_list::{finish_dir, next_dir, put_dirs, shut_dirs};
use crate::calls::files::{put_files, shut_files};
use crate::run::early_end::cancel;
use crate::work_end::WorkEnd;
use alerts::test_alert;
use firefly_outside::{Text, Tree, TreeError};
use index_findings::{Fault, Findings, Visit, keep_listing};
use index_rule::IndexUses;
use nub_rule::{Package, Thread};
use std::alloc::Global;
use std::sync::Wait;
use walker::list_dir;

// Lists one directory, keeps its listing, and returns the directories and files found in it. If
// memory runs out, the listing is lost.
fn list_one<S: Tree>(
    alloc: Global,
    tree: &mut S,
    dir: Text,
    visits: &mut Vec<Visit>,
) -> Result<(Vec<Text>, Vec<Text>), WorkEnd>
    ensures found { IfOk result (λ r. KeepsListing dir visits.old.items visits.new.items r.0.items r.1.items) }
    ensures refused { OnErr result (visits.new.items ≡ visits.old.items) }
    ensures done { (S.tree tree.new ≡ S.tree tree.old) × (S.may_fail tree.new ≡ S.may_fail tree.old)
        × ((root : Path) (count : ℕ) (before : Calls) (p : Run) (a b : Worker)
        → HasDone Dir (S.tree tree.old) root (S.may_fail tree.old) count (S.faults tree.old) before
        (S.calls tree.old) p 1 a b visits.old.items [] None false
        → HasDone Dir (S.tree tree.old) root (S.may_fail tree.old) count (S.faults tree.new) before
        (S.calls tree.new) p 0 a b visits.new.items [] (fault_of result) (lost_of result)) }
{
    match list_dir(alloc, tree, dir.as_str()) {
        Ok(listing) => match keep_listing(visits, dir, listing) {
            Ok(found) => Ok(found),
            Err(_) => Err(WorkEnd::Lost),
        },
        Err(TreeError::Memory) => Err(WorkEnd::Lost),
        Err(TreeError::Failed) => Err(WorkEnd::Failed(Fault::Dir(dir))),
    }
}

// Puts what was found in a directory where other threads take it, and ends the work on the
// directory. Returns whether the thread is to go on: it isn't if it was alerted, or if a limit is
// passed, and then all workers are to end.
fn give_found<R: Wait>(
    rt: &R,
    p: &Package<IndexUses>,
    me: &mut Thread<IndexUses>,
    dirs: Vec<Text>,
    files: Vec<Text>,
) -> bool
    requires layout { HasLists p.now.layout }
    requires between { IsBetween p.now me.old }
    requires may { OfShare me.old (MayGive p.now.world dirs.items files.items) }
    ensures { (put : List Path) × (files_put : List Path) × Makes p.now (record nothing { put = put; files_put = files_put }) me.old me.new
        × All (Contains dirs.items) put × All (Contains files.items) files_put }
{
    // Counted before a file goes through the buffer: if a limit is passed, none of these is read.
    if !put_dirs(rt, p, me, dirs, files.len()).is_within() {
        cancel(rt, p, me);
        return false;
    }
    // The directory counts as being listed until its files are put: a walker that finds none being
    // listed shuts their buffer.
    if !put_files(rt, p, me, files) {
        return false;
    }
    finish_dir(rt, p, me);
    !test_alert(rt, p, me)
}

// Shuts the list and the buffer of files: nothing more comes.
fn end_files<R: Wait>(rt: &R, p: &Package<IndexUses>, me: &mut Thread<IndexUses>)
    requires layout { HasLists p.now.layout }
    requires between { IsBetween p.now me.old }
    ensures { Makes p.now nothing me.old me.new }
{
    shut_dirs(rt, p, me);
    shut_files(rt, p, me);
}

// One turn of a walker: it takes a directory, lists it, and hands on what was found there.
fn walk_once<R: Wait, S: Tree>(
    rt: &R,
    alloc: Global,
    p: &Package<IndexUses>,
    me: &mut Thread<IndexUses>,
    tree: &mut S,
    visits: &mut Vec<Visit>,
) -> Result<(), WorkEnd>
    requires layout { HasLists p.now.layout }
    requires between { IsBetween p.now me.old }
    requires share { OfShare me.old (HasWalked p.now.world visits.old.items) }
    ensures share { OfShare me.new (HasWalked p.now.world visits.new.items) }
    ensures done { (S.tree tree.new ≡ S.tree tree.old) × (S.may_fail tree.new ≡ S.may_fail tree.old)
        × ((root : Path) (count : ℕ) (before : Calls) (a : Worker)
        → HasDone Dir (S.tree tree.old) root (S.may_fail tree.old) count (S.faults tree.old) before
        (S.calls tree.old) p.now 0 a me.old visits.old.items [] None false
        → HasDone Dir (S.tree tree.old) root (S.may_fail tree.old) count (S.faults tree.new) before
        (S.calls tree.new) p.now 0 a me.new visits.new.items [] (fault_of result) (lost_of result)) }
{
    let Some(dir) = next_dir(rt, p, me) else {
        end_files(rt, p, me);
        return Err(WorkEnd::Over);
    };
    match list_one(alloc, tree, dir, visits) {
        Ok((dirs, files)) => {
            if give_found(rt, p, me, dirs, files) {
                Ok(())
            } else {
                Err(WorkEnd::Over)
            }
        }
        Err(end) => {
            cancel(rt, p, me);
            Err(end)
        }
    }
}

/// Lists directories from the list until it is over, and puts the directories found into it and the
/// files into their buffer. If a directory fails, memory runs out or a limit is passed, alerts all
/// workers.
///
/// Blocks as `next_dir` and `put_files` do.
pub fn walk<R: Wait, S: Tree>(
    rt: &R,
    alloc: Global,
    p: &Package<IndexUses>,
    me: &mut Thread<IndexUses>,
    tree: &mut S,
) -> Findings
    requires layout { HasLists p.now.layout }
    requires ready { IsReady p.now me.old }
    ensures { (root : Path) → GivesTree S.tree S.may_fail S.faults S.calls root p.now Dir me.old me.new result (Some tree.old)
        (Some tree.new) }
{
    let mut visits = Vec::new(alloc);
    for _ in rt.forever() {
        match walk_once(rt, alloc, p, me, tree, &mut visits) {
            Ok(()) => {}
            Err(end) => {
                let (fault, lost) = end.parts();
                return Findings {
                    visits,
                    pieces: Vec::new(alloc),
                    fault,
                    lost,
                };
            }
        }
    }
    unreachable!()
}
