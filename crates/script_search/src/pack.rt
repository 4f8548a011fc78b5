//! A board as bytes, by which it is kept and looked up.
ghost use Rattle.std.specs.Prelude.{◌≡◌, ◌<◌, ◌++◌, IfOk, OnOk, length};
ghost use Rattle.std.specs.List.{flat_map};
ghost use Rattle.script_search.specs.Boards.{moment_of};
ghost use Rattle.script_search.specs.Keys.{tag_of, mark_of, bit, wide_cells, number_cells, wait_cells, thread_cells, holder_cells, available_cells, key_of};

use crate::board::{Board, Place, Thread};
use smallvec::SmallVec;
use std::alloc::{AllocError, Global};

/// The bytes of a board. Those of a small script lie in the value itself.
pub type Key = SmallVec<u8, 24>;

fn tag(place: Place) -> u8
    ensures value { result ≡ tag_of place }
    ensures low { result < 8 }
{
    match place {
        Place::Unborn => 0,
        Place::Running => 1,
        Place::Ended => 2,
        Place::Waiting { inside, .. } => { if inside { 3 } else { 4 } }
        Place::AlertWaiting { inside, .. } => { if inside { 5 } else { 6 } }
    }
}

fn mark(place: Place, alerted: bool) -> u8
    ensures { result ≡ mark_of place alerted }
{
    let tag = tag(place);
    if alerted { tag + 8 } else { tag }
}

fn bit(value: bool) -> u8
    ensures { result ≡ bit value }
{
    if value { 1 } else { 0 }
}

fn push_wide(key: &mut Key, number: u32) -> Result<(), AllocError>
    ensures { OnOk result (key.new.items ≡ key.old.items ++ wide_cells number) }
{
    let cells = [
        255,
        (number % 256) as u8,
        (number / 256 % 256) as u8,
        (number / 256 / 256 % 256) as u8,
        (number / 256 / 256 / 256) as u8,
    ];
    key.extend_from_slice(&cells)?;
    Ok(())
}

fn push_number(key: &mut Key, number: u32) -> Result<(), AllocError>
    ensures { OnOk result (key.new.items ≡ key.old.items ++ number_cells number) }
{
    if number < 255 {
        key.push(number as u8)?;
        return Ok(());
    }
    push_wide(key, number)
}

fn push_wait(key: &mut Key, place: Place) -> Result<(), AllocError>
    ensures { OnOk result (key.new.items ≡ key.old.items ++ wait_cells place) }
{
    match place {
        Place::Waiting { mutex, cond, .. } => {
            push_number(key, mutex)?;
            push_number(key, cond)
        }
        Place::AlertWaiting { mutex, cond, .. } => {
            push_number(key, mutex)?;
            push_number(key, cond)
        }
        _ => Ok(()),
    }
}

fn push_thread(key: &mut Key, thread: &Thread) -> Result<(), AllocError>
    ensures { OnOk result (key.new.items ≡ key.old.items ++ thread_cells thread.now) }
{
    key.push(mark(thread.place, thread.alerted))?;
    push_number(key, thread.played)?;
    push_wait(key, thread.place)
}

fn push_holder(key: &mut Key, holder: Option<u32>) -> Result<(), AllocError>
    ensures { OnOk result (key.new.items ≡ key.old.items ++ holder_cells holder) }
{
    match holder {
        None => {
            key.push(0)?;
            Ok(())
        }
        Some(t) => {
            key.push(1)?;
            push_number(key, t)
        }
    }
}

fn push_threads(key: &mut Key, threads: &[Thread]) -> Result<(), AllocError>
    ensures { OnOk result (key.new.items ≡ key.old.items ++ flat_map thread_cells threads.now) }
{
    for thread in threads {
        push_thread(key, thread)?;
    }
    Ok(())
}

fn push_holders(key: &mut Key, holders: &[Option<u32>]) -> Result<(), AllocError>
    ensures { OnOk result (key.new.items ≡ key.old.items ++ flat_map holder_cells holders.now) }
{
    for holder in holders {
        push_holder(key, *holder)?;
    }
    Ok(())
}

fn push_available(key: &mut Key, available: &[bool]) -> Result<(), AllocError>
    ensures { OnOk result (key.new.items ≡ key.old.items ++ flat_map available_cells available.now) }
{
    for is_available in available {
        key.push(bit(*is_available))?;
    }
    Ok(())
}

/// The bytes of the board.
pub fn pack(alloc: Global, board: &Board) -> Result<Key, AllocError>
    ensures { IfOk result (λ v. v.items ≡ key_of (moment_of board.now)) }
{
    let mut key = Key::new(alloc);
    push_threads(&mut key, board.threads.as_slice())?;
    push_holders(&mut key, board.holders.as_slice())?;
    push_available(&mut key, board.available.as_slice())?;
    Ok(key)
}
