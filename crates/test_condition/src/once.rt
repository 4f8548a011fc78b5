//! The once cell of one thread.
ghost use Rattle.std.specs.Prelude.{◌≡◌};
ghost use Rattle.barrier_once.specs.Calls.{IsPlaced};
ghost use Rattle.barrier_once.specs.Rounds.{fresh_share};
ghost use Rattle.nub.specs.Ended.{IsDone, IsFirst};
ghost use Rattle.command_rounds.specs.Playing.{round_at};

use barrier_once::{Cell, RoundAt, RoundUses, RoundWorld, agree};
use nub::{CondId, Layout, MutexId, Package, Thread, close_package, open_package};
use package_crew::at_once;
use std::alloc::{AllocError, Global};
use std::process::Abort;
use std::sync::Wait;
use std::sync::atomic::{AtomicU64, Ordering};
use std::test::Fail;
use std::thread::Threads;

// Where the cells are.
fn places() -> RoundAt
    ensures { result ≡ round_at }
{
    RoundAt {
        bar: MutexId(0),
        cond: CondId(0),
        sum: MutexId(1),
        once: MutexId(2),
    }
}

// Returns 6, and counts the call.
fn six(calls: &AtomicU64) -> u64
    ensures { result ≡ 6 }
{
    calls.fetch_add(1, Ordering::SeqCst);
    6
}

// Offers 5, and then 6.
fn offer_both<R: Wait>(
    rt: &R,
    p: &Package<RoundUses>,
    mut me: Thread<RoundUses>,
    calls: &AtomicU64,
) -> (Thread<RoundUses>, (u64, u64))
    requires placed { IsPlaced p.now round_at }
    requires most { p.now.world.most ≡ 6 }
    requires first { IsFirst p.now (λ w t. fresh_share) me.number me }
    ensures { IsDone p.now me.number result.0 }
{
    let at = places();
    let first = agree(rt, p, &mut me, &at, || 5);
    let second = agree(rt, p, &mut me, &at, || six(calls));
    (me, (first, second))
}

// What one thread got.
fn offered_alone<R: Threads + Wait + Sync>(
    rt: &R,
    alloc: Global,
    calls: &AtomicU64,
) -> Result<Vec<(u64, u64)>, AllocError> {
    let layout = Layout::of(1, 3, 1, 0);
    let world = RoundWorld {
        parties: 1,
        most: 6,
        at: places(),
    };
    let bar = Cell::Bar {
        round: 0,
        arrived: 0,
    };
    let cells = vec![in alloc; bar, Cell::Sum(0), Cell::Once(None)]?;
    let (p, threads) = open_package::<RoundUses>(alloc, layout, &world, cells, false)?;
    let (threads, answers) = at_once(
        rt,
        alloc,
        threads,
        &|me: Thread<RoundUses>| -> (Thread<RoundUses>, (u64, u64))
            requires { IsPlaced p round_at × (p.world.most ≡ 6) × IsFirst p (λ w t. fresh_share) me.number me }
            ensures { IsDone p me.number result.0 }
        { offer_both(rt, &p, me, calls) },
    )?;
    drop(close_package(p, threads)?);
    Ok(answers)
}

// The cell is empty, and takes the 5. After that it is full and stays as it is, and no call asks
// for a 6.
#[test]
fn a_full_cell_stays(rt: HostRuntime) -> Result<(), Fail> {
    let calls = AtomicU64::new(0);
    let answers = offered_alone(&rt, rt.alloc(), &calls)?;
    let stays = answers.as_slice() == [(5, 5)].as_slice();
    drop(answers);
    assert!(rt; stays);
    assert!(rt; calls.load(Ordering::SeqCst) == 0);
    Ok(())
}
