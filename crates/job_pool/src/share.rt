//! Shares batches out to workers through a buffer, and puts them back at their places.
ghost use Rattle.std.specs.Prelude.{◌≡◌, ◌≤◌, ◌<◌, ◌+◌, ◌∷◌, [], ℕ, None, length, reverse, vec_len, vec_capacity, IfOk, IfErr, replicate};
ghost use Rattle.std.specs.List.{AllZip, AllByRecursion};
ghost use Rattle.nub.specs.Ended.{IsFirst};
ghost use Rattle.job_pool.specs.Crews.{AreReady};
ghost use Rattle.job_pool.specs.Batches.{Comes, IsPlaced, numbered};
ghost use Rattle.job_pool.specs.Slots.{MayBeWorked};
ghost use Rattle.job_pool.specs.Working.{AreFirst, HasBuffer, HasMoved, IsBetween, WasShared, Worker};

use crate::batch::Batch;
use crate::calls::{put_in, shut_off};
use crate::crew::{run_workers, workers_of};
use crate::item::{Batches, Item, Worked};
use crate::job::Job;
use crate::opening::{Rooms, open, rooms_for};
use crate::places::{batches_out, place_all, take_rest};
use nub::close_package;
use nub_rule::{Package, Thread};
use std::alloc::Global;
use std::sync::Wait;
use std::thread::Threads;

/// Puts all batches into the buffer, each with its place, and shuts the buffer.
fn put_all<J: Job, R: Wait>(
    rt: &R,
    p: &Package<Batches<Batch<J>>>,
    me: &mut Thread<Batches<Batch<J>>>,
    batches: Vec<Batch<J>>,
)
    requires named { HasBuffer p.now.layout }
    requires between { (n : ℕ) × IsBetween p.now n me.old }
    ensures { HasMoved p.now (reverse (numbered 0 batches.items)) [] me.old me.new }
{
    let mut place = 0;
    for batch in batches {
        put_in(rt, p, me, Item { place, batch });
        place += 1;
    }
    shut_off(rt, p, me);
}

/// Lets the workers and then the caller take all batches. Returns all threads, the caller's first.
fn share_all<J: Job, R: Threads + Wait + Sync>(
    rt: &R,
    alloc: Global,
    p: &Package<Batches<Batch<J>>>,
    mut me: Thread<Batches<Batch<J>>>,
    workers: Vec<Worked<Batch<J>>>,
    batches: Vec<Batch<J>>,
    places: &mut [Option<Batch<J>>],
    mut threads: Vec<Thread<Batches<Batch<J>>>>,
) -> Vec<Thread<Batches<Batch<J>>>>
    requires named { HasBuffer p.now.layout }
    requires first { IsFirst p.now (λ w t. []) 0 me }
    requires workers { AreReady p.now (length batches.items) 1 workers.items }
    requires places { places.old ≡ replicate (length batches.items) None }
    requires threads { (threads.items ≡ []) × (vec_len workers + 1 ≤ vec_capacity threads) }
    ensures { WasShared (MayBeWorked J.state J.gives J.next) p.now (vec_len workers + 1) batches.items result.items places.new }
{
    let room = batches.len();
    put_all(rt, p, &mut me, batches);
    let done = run_workers(rt, alloc, p, room, workers);
    take_rest(rt, p, &mut me, places);
    threads.push_reserved(me);
    place_all(done, threads, places)
}

/// Shares the batches out to `count` workers, which work until none is left or a batch says that all
/// are to stop. Returns what became of each batch, in its place. Fails only if there is no memory:
/// then nothing was worked on, and the batches come back.
pub fn share_out<J: Job, R: Threads + Wait + Sync>(
    rt: &R,
    alloc: Global,
    count: u32,
    batches: Vec<Batch<J>>,
) -> Result<Vec<Batch<J>>, Vec<Batch<J>>>
    requires count { (1 ≤ count) × (count ≤ 8) }
    requires many { (1 ≤ length batches.items) × (length batches.items ≤ 4096) }
    ensures out { IfOk result (λ v. AllZip (Comes (MayBeWorked J.state J.gives J.next)) batches.items v.items) }
    ensures back { IfErr result (λ v. v ≡ batches) }
{
    let many = batches.len();
    let Ok((p, mut threads)) = open::<Batch<J>>(alloc, count, many) else {
        return Err(batches);
    };
    let Ok(rooms) = rooms_for::<Batch<J>>(alloc, count, many) else {
        return Err(batches);
    };
    let me = threads.remove(0);
    let Ok(workers) = workers_of(alloc, &p, threads, many) else {
        return Err(batches);
    };
    let Rooms {
        mut places,
        threads,
        out,
    } = rooms;
    let threads = share_all(
        rt,
        alloc,
        &p,
        me,
        workers,
        batches,
        places.as_mut_slice(),
        threads,
    );
    let Ok(closed) = close_package(p, threads) else {
        unreachable!()
    };
    drop(closed);
    Ok(batches_out(places, out))
}
