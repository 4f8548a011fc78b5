//! The call that runs rounds.
ghost use Rattle.std.specs.Prelude.{◌≡◌, ◌*◌, ◌<◌, ◌≤◌, ℕ, IfOk, IfSome, List, [], ◌∷◌, length, None, Some};
ghost use Rattle.std.specs.List.{AllByRecursion};
ghost use mathlib.Core.Option.{some};
ghost use lib.ListN.{get_elem?};
ghost use Rattle.larch_actions.specs.Actions.{IsClosed, by_thread};
ghost use Rattle.larch_actions.specs.declared.event.Version.TheVariants.{One};
ghost use Rattle.larch_actions.specs.declared.event.Event.{Event};
ghost use Rattle.larch_actions.specs.Layout.{HasNames, layout_of};
ghost use Rattle.barrier_once.specs.declared.cell.Cell.TheVariants.{Bar, Sum, Once};
ghost use Rattle.barrier_once.specs.Rounds.{fresh_share, triangle};
ghost use Rattle.nub.specs.Ended.{IsFirst};
ghost use Rattle.nub_rule.specs.Items.{Each};
ghost use Rattle.command_rounds.specs.Playing.{AreTotals, IsPlaying, IsTable};
ghost use Rattle.command_rounds.specs.RoundEvents.{AllHaveCome, AreEventsOf, IsOfFirst};

use crate::play::{places, play};
use barrier_once::{Cell, RoundUses, RoundWorld};
use nub::{Closed, Layout, Package, Thread, close_package, open_package};
use package_crew::at_once;
use std::alloc::{AllocError, Global};
use std::sync::Wait;
use std::thread::Threads;

/// What the rounds leave: the totals that thread 0 took, and the closed package.
#[derive(Drop)]
pub struct Rounds {
    pub totals: Vec<u64>,
    pub closed: Closed<RoundUses>,
}

// Plays the rounds of each thread in an operating-system thread of its own.
fn play_all<R: Threads + Wait + Sync>(
    rt: &R,
    alloc: Global,
    p: &Package<RoundUses>,
    threads: Vec<Thread<RoundUses>>,
    rounds: u32,
) -> Result<(Vec<Thread<RoundUses>>, Vec<Option<Vec<u64>>>), AllocError>
    requires table { IsTable p.now }
    requires rounds { rounds ≤ 1000 }
    requires count { length threads.items ≡ p.now.world.parties }
    requires threads { Each (IsFirst p.now (λ w t. fresh_share)) threads.items }
    ensures count { IfOk result (λ r. length r.0.items ≡ length threads.items) }
    ensures played { IfOk result (λ r. Each (λ t k. IsPlaying p.now t rounds k) r.0.items) }
    ensures results { IfOk result (λ r. length r.1.items ≡ length threads.items) }
    ensures totals { IfOk result (λ r. Each (λ t o. t ≡ 0 → IfSome o (λ v. AreTotals p.now.world.parties rounds v.items)) r.1.items) }
{
    let (threads, kept) = at_once(
        rt,
        alloc,
        threads,
        &|me: Thread<RoundUses>| -> (Thread<RoundUses>, Option<Vec<u64>>)
            requires { IsTable p.now × (me.number < p.now.world.parties) × (rounds ≤ 1000)
                × IsFirst p.now (λ w t. fresh_share) me.number me }
            ensures { IsPlaying p.entry.now me.number rounds result.0
                × (me.number ≡ 0 → IfSome result.1 (λ v. AreTotals p.entry.now.world.parties rounds v.items)) }
        { play(rt, alloc, p, me, rounds) },
    )?;
    Ok((threads, kept))
}

// What thread 0 has kept.
fn kept_first(mut kept: Vec<Option<Vec<u64>>>) -> Result<Vec<u64>, AllocError>
    requires { 0 < length kept.items }
    ensures { IfOk result (λ v. get_elem? kept.items 0 ≡ some (Some v)) }
{
    match kept.swap_remove(0) {
        Some(totals) => Ok(totals),
        None => Err(AllocError),
    }
}

// The cells at first.
fn first_cells(alloc: Global) -> Result<Vec<Cell>, AllocError>
    ensures { IfOk result (λ v. v.items ≡ Bar 0 0 ∷ Sum 0 ∷ Once None ∷ []) }
{
    let bar = Cell::Bar {
        round: 0,
        arrived: 0,
    };
    let cells = vec![in alloc; bar, Cell::Sum(0), Cell::Once(None)]?;
    Ok(cells)
}

/// Opens a traced package with `threads` threads, and lets each agree on a value once and play
/// `rounds` rounds, all at once. In a round a thread adds its number and 1, arrives at the barrier,
/// and arrives again; thread 0 takes the total between its two arrivals.
///
/// Blocks until all threads have ended. A thread that can't be started is run on the caller's
/// thread after all others have been started, and then the call may block for ever. Fails only if
/// there is no memory.
pub fn play_rounds<R: Threads + Wait + Sync>(
    rt: &R,
    alloc: Global,
    threads: u32,
    rounds: u32,
) -> Result<Rounds, AllocError>
    requires threads { (1 ≤ threads) × (threads ≤ 64) }
    requires rounds { (1 ≤ rounds) × (rounds ≤ 1000) }
    ensures layout { IfOk result (λ r. r.closed.layout ≡ layout_of threads 3 1 0) }
    ensures trace { IfOk result (λ r. (h : List Event) × (r.closed.trace ≡ Some h) × IsClosed One h
        × AllByRecursion (HasNames (layout_of threads 3 1 0)) h × ((t : ℕ) → t < threads → AreEventsOf t rounds (by_thread t h))) }
    ensures apart { IfOk result (λ r. (h : List Event) → r.closed.trace ≡ Some h → AllHaveCome threads h) }
    ensures first { IfOk result (λ r. (h : List Event) (v : ℕ) → r.closed.trace ≡ Some h
        → get_elem? r.closed.values 2 ≡ some (Once (Some v)) → IsOfFirst v h) }
    ensures values { IfOk result (λ r. (v : ℕ) × (1 ≤ v) × (v ≤ threads)
        × (r.closed.values ≡ Bar (2 * rounds) 0 ∷ Sum (rounds * triangle threads) ∷ Once (Some v) ∷ [])) }
    ensures totals { IfOk result (λ r. AreTotals threads rounds r.totals.items) }
{
    let layout = Layout::of(threads, 3, 1, 0);
    let world = RoundWorld {
        parties: threads,
        most: u64::from(threads),
        at: places(),
    };
    let cells = first_cells(alloc)?;
    let (p, threads) = open_package::<RoundUses>(alloc, layout, &world, cells, true)?;
    let (threads, kept) = play_all(rt, alloc, &p, threads, rounds)?;
    let closed = close_package(p, threads)?;
    let totals = kept_first(kept)?;
    Ok(Rounds { totals, closed })
}
