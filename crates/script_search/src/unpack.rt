//! A board from its bytes.
ghost use Rattle.std.specs.Prelude.{◌≡◌, ℕ, List, IfOk};
ghost use Rattle.script_search.specs.Boards.{moment_of, is_second};
ghost use Rattle.script_search.specs.Keys.{read_byte, read_wide, read_number, still_place, waiting_place, read_wait, read_place, read_thread, read_holder, read_available, read_all, moment_in};

use crate::board::first::is_second;
use crate::board::{Board, Place, Thread};
use larch_actions::Layout;
use std::alloc::{AllocError, Global};

// Each of these reads the first bytes, and returns what they say and the bytes after them.

fn byte(bytes: &[u8]) -> (u8, &[u8])
    ensures { (result.0, result.1.now) ≡ read_byte bytes.now }
{
    match bytes.split_first() {
        None => (0, bytes),
        Some((first, rest)) => (*first, rest),
    }
}

fn wide(bytes: &[u8]) -> (u32, &[u8])
    ensures { (result.0, result.1.now) ≡ read_wide bytes.now }
{
    let (a, rest) = byte(bytes);
    let (b, rest) = byte(rest);
    let (c, rest) = byte(rest);
    let (d, rest) = byte(rest);
    (
        a as u32 + 256 * b as u32 + 65536 * c as u32 + 16777216 * d as u32,
        rest,
    )
}

fn number(bytes: &[u8]) -> (u32, &[u8])
    ensures { (result.0, result.1.now) ≡ read_number bytes.now }
{
    let (first, rest) = byte(bytes);
    if first < 255 {
        return (first as u32, rest);
    }
    wide(rest)
}

fn still_place(tag: u8) -> Place
    ensures { result ≡ still_place tag }
{
    match tag {
        0 => Place::Unborn,
        1 => Place::Running,
        _ => Place::Ended,
    }
}

fn waiting_place(tag: u8, mutex: u32, cond: u32) -> Place
    ensures { result ≡ waiting_place tag mutex cond }
{
    let inside = tag == 3 || tag == 5;
    if tag == 3 || tag == 4 {
        Place::Waiting {
            mutex,
            cond,
            inside,
        }
    } else {
        Place::AlertWaiting {
            mutex,
            cond,
            inside,
        }
    }
}

fn wait(tag: u8, bytes: &[u8]) -> (Place, &[u8])
    ensures { (result.0, result.1.now) ≡ read_wait tag bytes.now }
{
    let (mutex, rest) = number(bytes);
    let (cond, rest) = number(rest);
    (waiting_place(tag, mutex, cond), rest)
}

fn place(tag: u8, bytes: &[u8]) -> (Place, &[u8])
    ensures { (result.0, result.1.now) ≡ read_place tag bytes.now }
{
    if tag < 3 {
        return (still_place(tag), bytes);
    }
    wait(tag, bytes)
}

fn thread(bytes: &[u8]) -> (Thread, &[u8])
    ensures { (result.0, result.1.now) ≡ read_thread bytes.now }
{
    let (mark, rest) = byte(bytes);
    let (played, rest) = number(rest);
    let (place, rest) = place(mark % 8, rest);
    let alerted = 8 <= mark;
    let thread = Thread {
        played,
        place,
        alerted,
    };
    (thread, rest)
}

fn holder(bytes: &[u8]) -> (Option<u32>, &[u8])
    ensures { (result.0, result.1.now) ≡ read_holder bytes.now }
{
    let (first, rest) = byte(bytes);
    if first == 0 {
        return (None, rest);
    }
    let (t, rest) = number(rest);
    (Some(t), rest)
}

fn available(bytes: &[u8]) -> (bool, &[u8])
    ensures { (result.0, result.1.now) ≡ read_available bytes.now }
{
    let (first, rest) = byte(bytes);
    (first == 1, rest)
}

fn threads(alloc: Global, count: u32, bytes: &[u8]) -> Result<(Vec<Thread>, &[u8]), AllocError>
    ensures { IfOk result (λ r. (r.0.items, r.1.now) ≡ read_all read_thread count bytes.now) }
{
    let mut threads = Vec::with_capacity(alloc, count as usize)?;
    let mut rest = bytes;
    for k in 0..count {
        let (next, after) = thread(rest);
        threads.push(next)?;
        rest = after;
    }
    Ok((threads, rest))
}

fn holders(alloc: Global, count: u32, bytes: &[u8]) -> Result<(Vec<Option<u32>>, &[u8]), AllocError>
    ensures { IfOk result (λ r. (r.0.items, r.1.now) ≡ read_all read_holder count bytes.now) }
{
    let mut holders = Vec::with_capacity(alloc, count as usize)?;
    let mut rest = bytes;
    for k in 0..count {
        let (next, after) = holder(rest);
        holders.push(next)?;
        rest = after;
    }
    Ok((holders, rest))
}

fn all_available(alloc: Global, count: u32, bytes: &[u8]) -> Result<Vec<bool>, AllocError>
    ensures { IfOk result (λ v. v.items ≡ (read_all read_available count bytes.now).0) }
{
    let mut all = Vec::with_capacity(alloc, count as usize)?;
    let mut rest = bytes;
    for k in 0..count {
        let (next, after) = available(rest);
        all.push(next)?;
        rest = after;
    }
    Ok(all)
}

/// The board of this layout that has these bytes.
pub fn unpack(alloc: Global, layout: &Layout, bytes: &[u8]) -> Result<Board, AllocError>
    ensures { IfOk result (λ b. moment_of b ≡ moment_in layout.now bytes.now) }
{
    let (threads, rest) = threads(alloc, layout.threads, bytes)?;
    let (holders, rest) = holders(alloc, layout.mutexes, rest)?;
    let available = all_available(alloc, layout.semaphores, rest)?;
    let second = is_second(layout.version);
    Ok(Board {
        second,
        threads,
        holders,
        available,
    })
}
