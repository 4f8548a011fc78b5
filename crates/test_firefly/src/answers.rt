//! Calls of the program, and what they return and write.
ghost use Rattle.std.specs.Prelude.{◌≤◌, length};
ghost use Rattle.firefly.specs.Looks.{look_of, looks_of, Agree};

use crate::same::same;
use crate::trees::copies_of;
use firefly::{Status, firefly};
use firefly_outside::{MemSink, MemSource, MemTree, Tree};
use std::alloc::{AllocError, Global};
use std::process::Abort;
use std::sync::Wait;
use std::thread::Threads;

/// The status of a call, and what it wrote.
#[derive(Drop)]
pub struct Answer {
    pub status: Status,
    pub out: Vec<u8>,
    pub notes: Vec<u8>,
}

/// Checks the answer.
pub fn is_answer(rt: &impl Abort, found: &Answer, status: Status, out: &[u8], notes: &str) {
    same(rt, &found.status, &status);
    same(rt, &found.out.as_slice(), &out);
    same(rt, &found.notes.as_slice(), &notes.as_bytes());
}

// Appends these words. The list is borrowed, so no early return drops it.
fn add_words(alloc: Global, all: &mut Vec<String>, words: &[&str]) -> Result<(), AllocError> {
    for word in words {
        all.push(String::from_str(alloc, word)?)?;
    }
    Ok(())
}

// The words as the program gets them.
fn words_of(alloc: Global, words: &[&str]) -> Result<Vec<String>, AllocError> {
    let mut all = Vec::new(alloc);
    add_words(alloc, &mut all, words)?;
    Ok(all)
}

/// Calls the program on this input, with room for `room` bytes of its answer.
pub fn run_program<R: Threads + Wait + Sync>(
    rt: &R,
    alloc: Global,
    words: &[&str],
    input: &mut MemSource,
    room: usize,
) -> Result<Answer, AllocError> {
    run_on(rt, alloc, words, &MemTree::new(alloc), input, room)
}

/// Calls the program on copies of this tree.
pub fn run_on<R: Threads + Wait + Sync>(
    rt: &R,
    alloc: Global,
    words: &[&str],
    tree: &MemTree,
    input: &mut MemSource,
    room: usize,
) -> Result<Answer, AllocError> {
    let mut trees = copies_of(alloc, tree)?;
    answer_of(rt, alloc, words, &mut trees, input, room)
}

// The status of a call. This is a function of its own so that what is known of the call isn't alive
// while the answer is put together.
fn status_of<R: Threads + Wait + Sync, S: Tree>(
    rt: &R,
    alloc: Global,
    words: &[String],
    trees: &mut [Option<S>],
    input: &mut MemSource,
    out: &mut MemSink,
    notes: &mut MemSink,
) -> Status
    requires enough { 17 ≤ length trees.old }
    requires agree { Agree (looks_of (look_of S.tree S.may_fail S.calls S.faults) trees.old) }
{
    firefly(rt, alloc, words, trees, input, out, notes)
}

// The status, with what these sinks hold.
fn answer_with(
    alloc: Global,
    status: Status,
    out: &MemSink,
    notes: &MemSink,
) -> Result<Answer, AllocError> {
    let out = out.bytes().to_vec(alloc)?;
    let notes = notes.bytes().to_vec(alloc)?;
    Ok(Answer { status, out, notes })
}

/// Calls the program on these trees.
pub fn answer_of<R: Threads + Wait + Sync, S: Tree>(
    rt: &R,
    alloc: Global,
    words: &[&str],
    trees: &mut [Option<S>],
    input: &mut MemSource,
    room: usize,
) -> Result<Answer, AllocError>
    requires enough { 17 ≤ length trees.old }
    requires agree { Agree (looks_of (look_of S.tree S.may_fail S.calls S.faults) trees.old) }
{
    let words = words_of(alloc, words)?;
    let mut out = MemSink::with_room(alloc, room)?;
    let mut notes = MemSink::with_room(alloc, 200)?;
    let status = status_of(rt, alloc, &words, trees, input, &mut out, &mut notes);
    answer_with(alloc, status, &out, &notes)
}
