//! The work of threads of a test of readers and writers, and packages whose threads do it.
ghost use Rattle.std.specs.Prelude.{◌≤◌, ◌≡◌, ◌∷◌, [], IfOk, length};
ghost use Rattle.larch_actions.specs.declared.event.Version.TheVariants.{One};
ghost use Rattle.nub.specs.Ended.{IsDone};
ghost use Rattle.nub_rule.specs.Items.{Each};
ghost use Rattle.readers_writers.specs.declared.role.Role.TheVariants.{Idle};
ghost use Rattle.test_condition.specs.Acting.{IsActing, HasState};

use crate::roles::{start_read, start_write, stop_read, stop_write};
use nub::{Closed, Layout, Package, Thread, close_package, open_package};
use package_crew::at_once;
use readers_writers::{RwState, RwUses};
use std::alloc::{AllocError, Global};
use std::sync::Wait;
use std::sync::atomic::{AtomicU64, Ordering};
use std::thread::Threads;

/// Two numbers that are equal whenever no thread writes.
#[derive(Drop)]
pub struct Pair {
    pub first: AtomicU64,
    pub second: AtomicU64,
}

/// The first state: no thread reads or writes.
fn one_state(alloc: Global) -> Result<Vec<RwState>, AllocError>
    ensures { IfOk result (λ v. v.items ≡ record { readers = 0; writer = None } ∷ []) }
{
    let mut values = Vec::new(alloc);
    let state = RwState {
        readers: 0,
        writer: None,
    };
    values.push(state)?;
    Ok(values)
}

/// Opens a package of `threads` threads with one state, and returns it with the threads.
pub fn open_state(
    alloc: Global,
    threads: u32,
) -> Result<(Package<RwUses>, Vec<Thread<RwUses>>), AllocError>
    requires { (1 ≤ threads) × (threads ≤ 64) }
    ensures named { IfOk result (λ o. HasState o.0.layout) }
    ensures version { IfOk result (λ o. o.0.layout.version ≡ One) }
    ensures count { IfOk result (λ o. (o.0.layout.threads ≡ threads) × (length o.1.items ≡ threads)) }
    ensures threads { IfOk result (λ o. Each (λ n t. IsActing o.0 n Idle t) o.1.items) }
{
    let layout = Layout::of(threads, 1, 1, 0);
    let values = one_state(alloc)?;
    let (pkg, threads) = open_package::<RwUses>(alloc, layout, &(), values, false)?;
    Ok((pkg, threads))
}

/// Splits a list of two.
fn both<T: Drop>(mut two: Vec<T>) -> (T, T)
    requires { length two.items ≡ 2 }
    ensures { two.items ≡ result.0 ∷ result.1 ∷ [] }
{
    let Some(second) = two.pop() else {
        unreachable!()
    };
    let Some(first) = two.pop() else {
        unreachable!()
    };
    (first, second)
}

/// Makes a list of two.
fn row<T: Drop>(alloc: Global, first: T, second: T) -> Result<Vec<T>, AllocError>
    ensures { IfOk result (λ v. v.items ≡ first ∷ second ∷ []) }
{
    let mut two = Vec::new(alloc);
    two.push(first)?;
    two.push(second)?;
    Ok(two)
}

/// Both read at once, and then the second writes.
fn read_both<R: Wait>(
    rt: &R,
    pkg: &Package<RwUses>,
    mut first: Thread<RwUses>,
    mut second: Thread<RwUses>,
) -> (Thread<RwUses>, Thread<RwUses>)
    requires named { HasState pkg.now.layout }
    requires acts { IsActing pkg.now 0 Idle first × IsActing pkg.now 1 Idle second }
    ensures { IsDone pkg.now 0 result.0 × IsDone pkg.now 1 result.1 }
{
    start_read(rt, pkg, &mut first);
    start_read(rt, pkg, &mut second);
    stop_read(rt, pkg, &mut first);
    stop_read(rt, pkg, &mut second);
    start_write(rt, pkg, &mut second);
    stop_write(rt, pkg, &mut second);
    (first, second)
}

/// Runs a package whose two threads' calls are all made by one caller.
pub fn run_two<R: Wait>(rt: &R, alloc: Global) -> Result<Closed<RwUses>, AllocError> {
    let (pkg, threads) = open_state(alloc, 2)?;
    let (first, second) = both(threads);
    let (first, second) = read_both(rt, &pkg, first, second);
    let Ok(threads) = row(alloc, first, second) else {
        drop(pkg);
        return Err(AllocError);
    };
    close_package(pkg, threads)
}

/// Writes both numbers `times` times, one more than they were, and returns how often they weren't
/// equal before.
fn write_often<R: Wait>(
    rt: &R,
    pkg: &Package<RwUses>,
    mut me: Thread<RwUses>,
    times: u32,
    pair: &Pair,
) -> (Thread<RwUses>, u64)
    requires named { HasState pkg.now.layout }
    requires acts { IsActing pkg.now me.number Idle me }
    ensures { IsDone pkg.now me.number result.0 }
{
    let mut torn: u64 = 0;
    for _i in 0..times {
        start_write(rt, pkg, &mut me);
        let was = pair.first.load(Ordering::Relaxed);
        if pair.second.load(Ordering::Relaxed) != was {
            torn = torn.saturating_add(1);
        }
        pair.first.store(was.wrapping_add(1), Ordering::Relaxed);
        pair.second.store(was.wrapping_add(1), Ordering::Relaxed);
        stop_write(rt, pkg, &mut me);
    }
    (me, torn)
}

/// Reads both numbers `times` times, and returns how often they weren't equal.
fn read_often<R: Wait>(
    rt: &R,
    pkg: &Package<RwUses>,
    mut me: Thread<RwUses>,
    times: u32,
    pair: &Pair,
) -> (Thread<RwUses>, u64)
    requires named { HasState pkg.now.layout }
    requires acts { IsActing pkg.now me.number Idle me }
    ensures { IsDone pkg.now me.number result.0 }
{
    let mut torn: u64 = 0;
    for _i in 0..times {
        start_read(rt, pkg, &mut me);
        let first = pair.first.load(Ordering::Relaxed);
        if pair.second.load(Ordering::Relaxed) != first {
            torn = torn.saturating_add(1);
        }
        stop_read(rt, pkg, &mut me);
    }
    (me, torn)
}

/// Threads 0 and 1 write, and the others read.
fn write_or_read<R: Wait>(
    rt: &R,
    pkg: &Package<RwUses>,
    me: Thread<RwUses>,
    times: u32,
    pair: &Pair,
) -> (Thread<RwUses>, u64)
    requires named { HasState pkg.now.layout }
    requires acts { IsActing pkg.now me.number Idle me }
    ensures { IsDone pkg.now me.number result.0 }
{
    if me.number() < 2 {
        write_often(rt, pkg, me, times, pair)
    } else {
        read_often(rt, pkg, me, times, pair)
    }
}

/// Lets two threads write a pair and two read it, `times` times each, all at once. Returns how
/// often each found the pair torn.
pub fn run_four<R: Threads + Wait + Sync>(
    rt: &R,
    alloc: Global,
    times: u32,
    pair: &Pair,
) -> Result<Vec<u64>, AllocError> {
    let (pkg, threads) = open_state(alloc, 4)?;
    let Ok((threads, torn)) = at_once(
        rt,
        alloc,
        threads,
        &|me: Thread<RwUses>| -> (Thread<RwUses>, u64)
            requires { HasState pkg.layout × IsActing pkg me.number Idle me }
            ensures { IsDone pkg me.number result.0 }
        { write_or_read(rt, &pkg, me, times, pair) },
    ) else {
        drop(pkg);
        return Err(AllocError);
    };
    let Ok(closed) = close_package(pkg, threads) else {
        drop(torn);
        return Err(AllocError);
    };
    drop(closed);
    Ok(torn)
}
