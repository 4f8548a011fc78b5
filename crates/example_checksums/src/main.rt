//! An example of jobs: the checksums of the blocks of a text, computed by a pool of threads.
//!
//! Promises: whatever the number of workers, each block has its own checksum in its place. Built on
//! `job_pool`. Shows how a program passes its own jobs to a pool, and what it then knows of the
//! results. With three numbers as its words it can be timed: the numbers of blocks, of bytes in
//! each, and of workers.
#![tactic(auto)]

mod block;
mod checksums;

use block::Block;
use checksums::checksums;
use std::alloc::Global;
use std::sync::Wait;
use std::thread::Threads;
use std::{env, io};
use text_output::read_number;

const TEXT: &[u8] =
    b"a block is sixty-four bytes of this text, and the last one is what is left of it, so it may be shorter";

/// How many blocks are to be timed, of how many bytes each, and by how many workers.
#[derive(Clone, Copy)]
struct Timed {
    blocks: u64,
    bytes: u64,
    workers: u64,
}

/// Returns the number that a word says, up to the greatest one.
fn number_in(words: &[String], place: usize, most: u64) -> Option<u64> {
    match words.get(place) {
        Some(word) => read_number(word, 1, most),
        None => None,
    }
}

/// Returns what is to be timed, if the words say so.
fn timed_in(words: &[String]) -> Option<Timed> {
    let blocks = number_in(words, 0, 100_000)?;
    let bytes = number_in(words, 1, 1_000_000)?;
    let workers = number_in(words, 2, 8)?;
    Some(Timed {
        blocks,
        bytes,
        workers,
    })
}

/// Prints the sum of the checksums of blocks that are all alike.
fn time<R: Threads + Wait + Sync + Print>(rt: &R, alloc: Global, timed: Timed) -> io::Result<()> {
    let bytes = vec![in alloc; 7u8; timed.bytes.min(1_000_000) as usize]?;
    let mut blocks = Vec::new(alloc);
    for _block in 0..timed.blocks {
        blocks.push(Block(&bytes))?;
    }
    if blocks.len() > 100_000 {
        return println!(rt; "too many blocks");
    }
    let sums = checksums(rt, alloc, timed.workers.max(1).min(8) as u32, blocks)?;
    let sum = sums.iter().fold(0u64, |sum, one| sum.wrapping_add(*one));
    println!(rt;
        "{} blocks have checksums of the sum {sum:016x}",
        sums.len()
    )
}

/// Prints the checksum of each block of the text.
fn show<R: Threads + Wait + Sync + Print>(rt: &R, alloc: Global) -> io::Result<()> {
    let blocks: Vec<Block> = TEXT.chunks(64).map(Block).collect(alloc)?;
    if blocks.len() > 100_000 {
        return println!(rt; "too many blocks");
    }
    let sums = checksums(rt, alloc, 2, blocks)?;
    for (place, sum) in sums.iter().enumerate() {
        println!(rt; "block {place} has the checksum {sum:016x}")?;
    }
    Ok(())
}

fn main(rt: HostRuntime) -> io::Result<()> {
    let words: Vec<String> = env::args(&rt)?.skip(1).collect(rt.alloc())?;
    match timed_in(&words) {
        Some(timed) => time(&rt, rt.alloc(), timed),
        None => show(&rt, rt.alloc()),
    }
}
