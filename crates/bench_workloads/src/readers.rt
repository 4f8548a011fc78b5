//! Readers of two numbers, and writers.
ghost use Rattle.std.specs.Prelude.{[], ◌∷◌, ◌≡◌, ◌+◌, ◌*◌, ℕ, length, IfOk, None};
ghost use Rattle.std.specs.List.{sum};
ghost use Rattle.nub_rule.specs.Items.{Each};
ghost use Rattle.nub.specs.Ended.{IsFirst};
ghost use Rattle.bench_workloads.specs.Reading.{HasCounted, HasPlayed, HasState, HasTurns, role_if};

use crate::numbers::Sides;
use nub::{Closed, CondId, Layout, MutexId, Package, Thread, close_package, open_package};
use package_crew::at_once;
use readers_writers::{RwAt, RwState, RwUses, begin_read, begin_write, end_read, end_write};
use std::alloc::{AllocError, Global};
use std::sync::Wait;
use std::sync::atomic::{AtomicU64, Ordering};
use std::thread::Threads;

/// Two numbers that are equal whenever no thread writes, and how often a reader found that they
/// weren't.
#[derive(Drop)]
pub struct Pair {
    first: AtomicU64,
    second: AtomicU64,
    torn: AtomicU64,
}

/// The package in which threads read and wrote, and how often each thread wrote.
#[derive(Drop)]
pub struct Played {
    pub closed: Closed<RwUses>,
    pub writes: Vec<u64>,
}

const AT: RwAt = RwAt {
    mutex: MutexId(0),
    changed: CondId(0),
};

impl Pair {
    pub fn new() -> Pair {
        Pair {
            first: AtomicU64::new(0),
            second: AtomicU64::new(0),
            torn: AtomicU64::new(0),
        }
    }

    /// Returns how often a reader found the numbers torn, plus one for each number that isn't
    /// `last` in the end.
    pub fn torn(&self, last: u64) -> u64 {
        let first = (self.first.load(Ordering::SeqCst) != last) as u64;
        let second = (self.second.load(Ordering::SeqCst) != last) as u64;
        self.torn
            .load(Ordering::SeqCst)
            .wrapping_add(first)
            .wrapping_add(second)
    }

    /// Returns 1 if the numbers differ.
    #[inline]
    fn differ(&self) -> u64 {
        let first = self.first.load(Ordering::Relaxed);
        (self.second.load(Ordering::Relaxed) != first) as u64
    }

    /// Adds 1 to both.
    #[inline]
    fn add_one(&self) {
        let first = self.first.load(Ordering::Relaxed);
        self.first.store(first.wrapping_add(1), Ordering::Relaxed);
        let second = self.second.load(Ordering::Relaxed);
        self.second.store(second.wrapping_add(1), Ordering::Relaxed);
    }
}

/// Takes one turn: reads, and returns 1 if the numbers differ, or writes.
#[inline]
fn take_turn<R: Wait>(
    rt: &R,
    shared: &Package<RwUses>,
    me: &mut Thread<RwUses>,
    reads: bool,
    pair: &Pair,
) -> u64
    requires named { HasState shared.now.layout }
    requires idle { (n : ℕ) × (i : ℕ) × HasTurns shared.now (role_if reads) n i me.old }
    ensures { (n i : ℕ) → HasTurns shared.now (role_if reads) n i me.old → HasTurns shared.now (role_if reads) n (i + 1) me.new }
{
    if reads {
        begin_read(rt, shared, me, &AT);
        let torn = pair.differ();
        end_read(rt, shared, me, &AT);
        torn
    } else {
        begin_write(rt, shared, me, &AT);
        pair.add_one();
        end_write(rt, shared, me, &AT);
        0
    }
}

/// Reads or writes `times` times, by the thread's number, notes in the pair how often the numbers
/// differed, and returns how often it has written.
fn play<R: Wait>(
    rt: &R,
    shared: &Package<RwUses>,
    mut me: Thread<RwUses>,
    readers: u32,
    times: u32,
    pair: &Pair,
) -> (Thread<RwUses>, u64)
    requires named { HasState shared.now.layout }
    requires first { IsFirst shared.now (λ w t. []) me.number me }
    ensures { HasCounted shared.now readers times me.number result.1 result.0 }
{
    let reads = me.number() < readers;
    let mut torn = 0u64;
    let mut writes = 0u64;
    for _i in 0..times {
        torn = torn.wrapping_add(take_turn(rt, shared, &mut me, reads, pair));
        writes += (!reads) as u64;
    }
    pair.torn.fetch_add(torn, Ordering::SeqCst);
    (me, writes)
}

/// Returns one state, in which no thread reads or writes.
fn one_state(alloc: Global) -> Result<Vec<RwState>, AllocError>
    ensures { IfOk result (λ v. v.items ≡ record { readers = 0; writer = None } ∷ []) }
{
    let mut values = Vec::new(alloc);
    values.push(RwState {
        readers: 0,
        writer: None,
    })?;
    Ok(values)
}

/// Lets readers and writers use the pair, each `times` times, all at once.
pub fn read_at_once<R: Threads + Wait + Sync>(
    rt: &R,
    alloc: Global,
    sides: Sides,
    times: u32,
    pair: &Pair,
) -> Result<Played, AllocError>
    ensures free { IfOk result (λ r. r.closed.values ≡ record { readers = 0; writer = None } ∷ []) }
    ensures count { IfOk result (λ r. length r.closed.threads ≡ sides.first + sides.second) }
    ensures each { IfOk result (λ r. Each (HasPlayed sides.first times) r.closed.threads) }
    ensures sum { IfOk result (λ r. sum r.writes.items ≡ sides.second * times) }
{
    let layout = Layout::of(sides.first + sides.second, 1, 1, 0);
    let values = one_state(alloc)?;
    let (shared, threads) = open_package::<RwUses>(alloc, layout, &(), values, false)?;
    let readers = sides.first;
    let Ok((threads, writes)) = at_once(
        rt,
        alloc,
        threads,
        &|me: Thread<RwUses>| -> (Thread<RwUses>, u64)
            requires { HasState shared.layout × IsFirst shared (λ w t. []) me.number me }
            ensures { HasCounted shared readers times me.number result.1 result.0 }
        { play(rt, &shared, me, readers, times, pair) },
    ) else {
        drop(shared);
        return Err(AllocError);
    };
    let closed = close_package(shared, threads)?;
    Ok(Played { closed, writes })
}
