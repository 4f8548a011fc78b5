//! A writer that comes while another thread reads.
ghost use Rattle.nub.specs.Ended.{IsDone};
ghost use Rattle.readers_writers.specs.declared.role.Role.TheVariants.{Idle};
ghost use Rattle.test_condition.specs.Acting.{IsActing, HasState};

use crate::notes::{await_count, linger};
use crate::roles::{start_read, start_write, stop_read, stop_write};
use crate::turns::open_state;
use nub::{Closed, Package, Thread, close_package};
use package_crew::at_once;
use readers_writers::RwUses;
use std::alloc::{AllocError, Global};
use std::sync::Wait;
use std::sync::atomic::{AtomicU64, Ordering};
use std::thread::Threads;

/// How many times sixteen the reader looks at the note after the writer has come: long enough for
/// the writer to be in its wait.
const LONG: u32 = 2000;

/// Reads `times` times, each time until the writer has come and a while longer, and goes on once
/// the writer has written.
fn read_until_it_comes<R: Wait>(
    rt: &R,
    pkg: &Package<RwUses>,
    mut me: Thread<RwUses>,
    times: u32,
    note: &AtomicU64,
) -> Thread<RwUses>
    requires named { HasState pkg.now.layout }
    requires acts { IsActing pkg.now me.number Idle me }
    ensures { IsDone pkg.now me.number result }
{
    for i in 0..times {
        let step = 3 * u64::from(i);
        start_read(rt, pkg, &mut me);
        let _ = note.fetch_add(1, Ordering::SeqCst);
        await_count(rt, note, step + 2);
        linger(note, LONG);
        stop_read(rt, pkg, &mut me);
        await_count(rt, note, step + 3);
    }
    me
}

/// Writes `times` times, each time that it finds the other thread reading.
fn write_while_it_reads<R: Wait>(
    rt: &R,
    pkg: &Package<RwUses>,
    mut me: Thread<RwUses>,
    times: u32,
    note: &AtomicU64,
) -> Thread<RwUses>
    requires named { HasState pkg.now.layout }
    requires acts { IsActing pkg.now me.number Idle me }
    ensures { IsDone pkg.now me.number result }
{
    for i in 0..times {
        await_count(rt, note, 3 * u64::from(i) + 1);
        let _ = note.fetch_add(1, Ordering::SeqCst);
        start_write(rt, pkg, &mut me);
        stop_write(rt, pkg, &mut me);
        let _ = note.fetch_add(1, Ordering::SeqCst);
    }
    me
}

/// Thread 0 reads, and the other writes.
fn read_or_write<R: Wait>(
    rt: &R,
    pkg: &Package<RwUses>,
    me: Thread<RwUses>,
    times: u32,
    note: &AtomicU64,
) -> (Thread<RwUses>, ())
    requires named { HasState pkg.now.layout }
    requires acts { IsActing pkg.now me.number Idle me }
    ensures { IsDone pkg.now me.number result.0 }
{
    if me.number() == 0 {
        (read_until_it_comes(rt, pkg, me, times, note), ())
    } else {
        (write_while_it_reads(rt, pkg, me, times, note), ())
    }
}

/// Thread 0 reads, and thread 1 comes to write meanwhile, `times` times. The note is 0 at first.
pub fn run_coming<R: Threads + Wait + Sync>(
    rt: &R,
    alloc: Global,
    times: u32,
    note: &AtomicU64,
) -> Result<Closed<RwUses>, AllocError> {
    let (pkg, threads) = open_state(alloc, 2)?;
    let Ok((threads, nothing)) = at_once(
        rt,
        alloc,
        threads,
        &|me: Thread<RwUses>| -> (Thread<RwUses>, ())
            requires { HasState pkg.layout × IsActing pkg me.number Idle me }
            ensures { IsDone pkg me.number result.0 }
        { read_or_write(rt, &pkg, me, times, note) },
    ) else {
        drop(pkg);
        return Err(AllocError);
    };
    drop(nothing);
    close_package(pkg, threads)
}
