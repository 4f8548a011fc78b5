//! The index of the sample tree.
ghost use Rattle.std.specs.Prelude.{◌≤◌, IfOk};
ghost use Rattle.index_sample.specs.Summary.{IsSummary};
ghost use Rattle.index_sample.specs.Sums.{Sums, IsDoneOrMemory, SumsAnswer};

use crate::summary::SampleSums;
use crate::trees::five_trees;
use indexer::{BeginsAtOnce, IndexAnswer, Plan, index};
use std::alloc::{AllocError, Global};
use std::sync::Wait;
use std::thread::Threads;
use word_index::Piece;

// The sums of the index of `files` files.
fn sums_of(piece: &Piece, files: u32) -> SampleSums
    ensures { Sums files piece.now result }
{
    SampleSums {
        files: piece.files(),
        dirs: 1 + (files as u64 + 99) / 100,
        words: piece.words(),
        entries: piece.entries(),
        occurrences: piece.occurrences(),
    }
}

// The sums of the index, unless memory ran out.
fn sums_in(answer: IndexAnswer, files: u32) -> Result<SampleSums, AllocError>
    requires { IsDoneOrMemory answer }
    ensures { IfOk result (SumsAnswer files answer) }
{
    match answer {
        IndexAnswer::Done(piece, closed) => {
            let sums = sums_of(&piece, files);
            drop(piece);
            drop(closed);
            Ok(sums)
        }
        IndexAnswer::Memory => Err(AllocError),
        _ => unreachable!(),
    }
}

/// Returns the sums of the index of the sample tree of 1 to 20,000 files, made by two walkers, two
/// parsers and one merger. It may wait. Fails only if there is no memory.
pub fn index_summary<R: Threads + Wait + Sync>(
    rt: &R,
    alloc: Global,
    seed: u64,
    files: u32,
) -> Result<SampleSums, AllocError>
    requires some { 1 ≤ files }
    requires few { files ≤ 20000 }
    ensures { IfOk result (IsSummary seed files) }
{
    let plan = Plan {
        walkers: 2,
        parsers: 2,
        mergers: 1,
        stop_after: None,
        traced: false,
    };
    let mut trees = five_trees(alloc, seed, files)?;
    let answer = index(
        rt,
        alloc,
        "sample",
        &plan,
        trees.as_mut_slice(),
        &BeginsAtOnce,
    );
    drop(trees);
    sums_in(answer, files)
}
