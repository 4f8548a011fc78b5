//! The walk that lists what isn't listed and reads what isn't covered.
ghost use Rattle.std.specs.Prelude.{◌≡◌, ◌+◌, ◌≤◌, ◌<◌, ℕ, Option, Some, false, length, IfSome, OnOk, IfErr, MatchOption, slice_get};
ghost use Rattle.walker.specs.Walk.{IsWalkOf, IsSound, IsUnlisted};
ghost use Rattle.walker.specs.Progress.{IsWithinLimits, IsPassed, StepStays, Grows, IsListedBelow, IsListedWhole, ListsAt, ListsRest, EndsPassed};
ghost use Rattle.walker.specs.TreeIndex.{IsPartOf};
ghost use Rattle.walker.specs.Closing.{most_dirs, HasRisen, IsNumbered, Answers, CallsOnce};

use crate::read::read_rest;
use crate::{WalkAnswer, Walked, list_dir};
use firefly_outside::{Text, Tree, TreeError};
use std::alloc::Global;
use word_index::Piece;

/// The most directories of a tree that is indexed.
pub const MOST_DIRS: u64 = 1_000_000;

/// Lists what isn't listed, reads what isn't covered, and gives the index of all files under the root.
pub fn close_walk<S: Tree>(
    alloc: Global,
    tree: &mut S,
    root: &str,
    walked: Walked,
    piece: Piece,
    stop_after: Option<u64>,
) -> WalkAnswer
    requires root { walked.root ≡ root.now }
    requires stop { IfSome stop_after (λ n. n ≤ 1000000000) }
    requires reported { IfSome (S.tree tree.old) (IsWalkOf walked) }
    requires part { IsPartOf (S.tree tree.old) walked piece }

    // What stays, and the cause of a fault.
    ensures tree_stays { S.tree tree.new ≡ S.tree tree.old }
    ensures weak_stays { S.may_fail tree.new ≡ S.may_fail tree.old }
    ensures count { HasRisen (S.faults tree.old) (S.faults tree.new) result }

    // The numbers, and which limit is reported at the start.
    ensures numbers { IsNumbered stop_after result }
    ensures many_at_start { most_dirs < length walked.dirs → result ≡ WalkAnswer.TooMany (most_dirs + 1) }
    ensures stop_at_start { (n : ℕ) → stop_after ≡ Some n → length walked.dirs ≤ most_dirs → n < length walked.files
        → result ≡ WalkAnswer.Stopped (n + 1) }

    // Where the tree shows its contents: what the answer says of it, and which calls were made.
    ensures answer { IfSome (S.tree tree.old) (Answers root.now stop_after (S.may_fail tree.old) result) }
    ensures once { IfSome (S.tree tree.old) (λ t. CallsOnce t walked piece.paths (S.calls tree.old) (S.calls tree.new) result) }
    ensures passed { IfSome (S.tree tree.old) (EndsPassed walked stop_after (S.calls tree.old) (S.calls tree.new) result) }
{
    let mut walked = walked;
    close_rest(alloc, tree, &mut walked, piece, stop_after)
}

// Lists and reads what is left of a walk.
fn close_rest<S: Tree>(
    alloc: Global,
    tree: &mut S,
    walked: &mut Walked,
    piece: Piece,
    stop_after: Option<u64>,
) -> WalkAnswer
    requires stop { IfSome stop_after (λ n. n ≤ 1000000000) }
    requires reported { IfSome (S.tree tree.old) (IsWalkOf walked.old) }
    requires part { IsPartOf (S.tree tree.old) walked.old piece }
    ensures tree_stays { S.tree tree.new ≡ S.tree tree.old }
    ensures weak_stays { S.may_fail tree.new ≡ S.may_fail tree.old }
    ensures count { HasRisen (S.faults tree.old) (S.faults tree.new) result }
    ensures numbers { IsNumbered stop_after result }
    ensures many_at_start { most_dirs < length walked.old.dirs → result ≡ WalkAnswer.TooMany (most_dirs + 1) }
    ensures stop_at_start { (n : ℕ) → stop_after ≡ Some n → length walked.old.dirs ≤ most_dirs → n < length walked.old.files
        → result ≡ WalkAnswer.Stopped (n + 1) }
    ensures answer { IfSome (S.tree tree.old) (Answers walked.old.root stop_after (S.may_fail tree.old) result) }
    ensures once { IfSome (S.tree tree.old) (λ t. CallsOnce t walked.old piece.paths (S.calls tree.old) (S.calls tree.new) result) }
    ensures passed { IfSome (S.tree tree.old) (EndsPassed walked.old stop_after (S.calls tree.old) (S.calls tree.new) result) }
{
    match list_whole(alloc, tree, walked, stop_after) {
        Ok(()) => read_rest(alloc, tree, walked, piece),
        Err(answer) => {
            drop(piece);
            answer
        }
    }
}

// Lists what isn't listed, if neither limit is passed at the start.
fn list_whole<S: Tree>(
    alloc: Global,
    tree: &mut S,
    walked: &mut Walked,
    stop_after: Option<u64>,
) -> Result<(), WalkAnswer>
    requires stop { IfSome stop_after (λ n. n ≤ 1000000000) }
    requires reported { IfSome (S.tree tree.old) (IsWalkOf walked.old) }
    ensures stays { StepStays (S.tree tree.old) (S.tree tree.new) (S.may_fail tree.old) (S.may_fail tree.new) (S.faults tree.old)
        (S.faults tree.new) result }
    ensures grows { Grows walked.old walked.new }
    ensures start { OnOk result (IsWithinLimits walked.old stop_after) }
    ensures many_at_start { IfErr result (λ a. most_dirs < length walked.old.dirs → a ≡ WalkAnswer.TooMany (most_dirs + 1)) }
    ensures stop_at_start { IfErr result (λ a. (n : ℕ) → stop_after ≡ Some n → length walked.old.dirs ≤ most_dirs
        → n < length walked.old.files → a ≡ WalkAnswer.Stopped (n + 1)) }
    ensures limits { OnOk result (IsWithinLimits walked.new stop_after) }
    ensures listed { OnOk result (IsListedWhole walked.new) }
    ensures sound { OnOk result (IsSound walked.new) }
    ensures numbers { IfErr result (IsNumbered stop_after) }
    ensures reported { IfSome (S.tree tree.old) (ListsRest walked.old walked.new stop_after (S.may_fail tree.old) (S.calls tree.old)
        (S.calls tree.new) result) }
{
    if let Some(answer) = limit_reached(walked, stop_after) {
        return Err(answer);
    }
    list_rest(alloc, tree, walked, stop_after)
}

// The answer where a limit is passed: of the directories first.
fn limit_reached(walked: &Walked, stop_after: Option<u64>) -> Option<WalkAnswer>
    requires { IfSome stop_after (λ n. n ≤ 1000000000) }
    ensures limits { MatchOption result (IsWithinLimits walked.now stop_after) (IsPassed walked.now stop_after) }
    ensures sound { IsSound walked.now }
{
    if walked.dirs_found() > MOST_DIRS {
        return Some(WalkAnswer::TooMany(MOST_DIRS + 1));
    }
    match stop_after {
        Some(most) => {
            if walked.files_found() > most {
                Some(WalkAnswer::Stopped(most + 1))
            } else {
                None
            }
        }
        None => None,
    }
}

// Lists the directories that aren't listed, and those found then.
fn list_rest<S: Tree>(
    alloc: Global,
    tree: &mut S,
    walked: &mut Walked,
    stop_after: Option<u64>,
) -> Result<(), WalkAnswer>
    requires stop { IfSome stop_after (λ n. n ≤ 1000000000) }
    requires limits { IsWithinLimits walked.old stop_after }
    requires reported { IfSome (S.tree tree.old) (IsWalkOf walked.old) }
    ensures stays { StepStays (S.tree tree.old) (S.tree tree.new) (S.may_fail tree.old) (S.may_fail tree.new) (S.faults tree.old)
        (S.faults tree.new) result }
    ensures grows { Grows walked.old walked.new }
    ensures limits { OnOk result (IsWithinLimits walked.new stop_after) }
    ensures listed { OnOk result (IsListedWhole walked.new) }
    ensures sound { OnOk result (IsSound walked.new) }
    ensures numbers { IfErr result (IsNumbered stop_after) }
    ensures reported { IfSome (S.tree tree.old) (ListsRest walked.old walked.new stop_after (S.may_fail tree.old) (S.calls tree.old)
        (S.calls tree.new) result) }
{
    let mut at = 0;
    while at < walked.dirs_found() as usize {
        match list_at(alloc, tree, walked, at) {
            Ok(()) => {}
            Err(answer) => return Err(answer),
        }
        if let Some(answer) = limit_reached(walked, stop_after) {
            return Err(answer);
        }
        at += 1;
    }
    Ok(())
}

// Lists the directory found at this place, if it isn't listed.
fn list_at<S: Tree>(
    alloc: Global,
    tree: &mut S,
    walked: &mut Walked,
    at: usize,
) -> Result<(), WalkAnswer>
    requires within { at < length walked.old.dirs }
    ensures stays { StepStays (S.tree tree.old) (S.tree tree.new) (S.may_fail tree.old) (S.may_fail tree.new) (S.faults tree.old)
        (S.faults tree.new) result }
    ensures grows { Grows walked.old walked.new }
    ensures below { OnOk result (IsListedBelow walked.old at → IsListedBelow walked.new (at + 1)) }
    ensures numbers { IfErr result (λ a. (stop : Option ℕ) → IsNumbered stop a) }
    ensures reported { IfSome (S.tree tree.old) (ListsAt walked.old walked.new (S.may_fail tree.old) (S.calls tree.old)
        (S.calls tree.new) result) }
{
    let Some(dir) = walked.unlisted_at(at) else {
        return Ok(());
    };
    let Ok(dir) = Text::of(alloc, dir) else {
        return Err(WalkAnswer::Memory);
    };
    list_next(alloc, tree, walked, dir)
}

// Lists one directory that isn't listed.
fn list_next<S: Tree>(
    alloc: Global,
    tree: &mut S,
    walked: &mut Walked,
    dir: Text,
) -> Result<(), WalkAnswer>
    requires { IsUnlisted walked.old dir }
    ensures stays { StepStays (S.tree tree.old) (S.tree tree.new) (S.may_fail tree.old) (S.may_fail tree.new) (S.faults tree.old)
        (S.faults tree.new) result }
    ensures grows { Grows walked.old walked.new }
    ensures below { OnOk result ((at : ℕ) → slice_get walked.old.dirs at ≡ Some (dir, false) → IsListedBelow walked.old at
        → IsListedBelow walked.new (at + 1)) }
    ensures numbers { IfErr result (λ a. (stop : Option ℕ) → IsNumbered stop a) }
    ensures reported { IfSome (S.tree tree.old) (ListsAt walked.old walked.new (S.may_fail tree.old) (S.calls tree.old)
        (S.calls tree.new) result) }
{
    let path = dir.as_str();
    match list_dir(alloc, tree, path) {
        Ok(listing) => match walked.note(path, listing) {
            Ok(()) => Ok(()),
            Err(_) => Err(WalkAnswer::Memory),
        },
        Err(TreeError::Memory) => Err(WalkAnswer::Memory),
        Err(TreeError::Failed) => Err(WalkAnswer::ReadFault(dir)),
    }
}
