//! The race.
ghost use Rattle.std.specs.Prelude.{◌≡◌, ◌≤◌, ◌<◌, ◌∷◌, ◌++◌, [], List, ℕ, IfOk, Some, true};
ghost use Rattle.firefly_threads.specs.Idle.{IsIdle};
ghost use Rattle.firefly_threads.specs.Names.{Event, by_thread};
ghost use Rattle.firefly_threads.specs.Plays.{event, signal_action};
ghost use Rattle.firefly_threads.specs.Rest.{Added};
ghost use Rattle.firefly_threads.specs.Traces.{IsTraced};
ghost use Rattle.example_race.specs.Races.{IsPart, IsRun, arrived, begins, runner, saw, starter, starts, works};

use crate::uses::{Arrives, Race, Sees, Track};
use firefly_threads::{
    Closed, CondId, Layout, MutexId, NoChange, Package, Thread, Work, broadcast, locked,
    locked_when, run_package, signal,
};
use std::alloc::{AllocError, Global};
use std::sync::Wait;
use std::thread::Threads;

/// The mutex of the track.
const TRACK: MutexId = MutexId(0);

/// That the race has begun.
const START: CondId = CondId(0);

/// That a runner has arrived.
const ARRIVED: CondId = CondId(1);

/// Begins the race, and wakes all runners.
fn begin<R: Wait>(rt: &R, p: &Package<Race>, me: &mut Thread<Race>)
    requires named { (1 ≤ p.now.layout.mutexes) × (2 ≤ p.now.layout.conditions) }
    requires idle { IsIdle p.now me.old.number starter me.old }
    ensures idle { IsIdle p.now me.old.number starter me.new }
    ensures event { Added (starts me.old.number) me.old me.new }
{
    locked::<Race, NoChange, (), _, R>(rt, p, me, TRACK, |track| track.begun = true);
    broadcast(rt, p, me, START);
}

/// Waits for the start, and arrives.
fn arrive<R: Wait>(rt: &R, p: &Package<Race>, me: &mut Thread<Race>)
    requires named { (1 ≤ p.now.layout.mutexes) × (2 ≤ p.now.layout.conditions) }
    requires idle { IsIdle p.now me.old.number runner me.old }
    ensures idle { IsIdle p.now me.old.number arrived me.new }
    ensures event { (k : ℕ) × (left : List ℕ)
        × Added (works me.old.number 0 k ++ event me.old.number (signal_action 1 left) ∷ []) me.old me.new }
{
    let has_begun = |track: &Track| track.begun;
    locked_when::<Race, Arrives, (), _, _, R>(rt, p, me, TRACK, START, &has_begun, |track| {
        track.left -= 1
    });
    signal(rt, p, me, ARRIVED);
}

/// Waits until all have arrived.
fn see<R: Wait>(rt: &R, p: &Package<Race>, me: &mut Thread<Race>)
    requires named { (1 ≤ p.now.layout.mutexes) × (2 ≤ p.now.layout.conditions) }
    requires idle { IsIdle p.now me.old.number starter me.old }
    ensures idle { IsIdle p.now me.old.number saw me.new }
    ensures event { (k : ℕ) × Added (works me.old.number 1 k) me.old me.new }
{
    let none_left = |track: &Track| track.left == 0;
    locked_when::<Race, Sees, (), _, _, R>(rt, p, me, TRACK, ARRIVED, &none_left, |_track| ());
}

/// Thread 0 begins the race, and the others run.
struct Racing;

impl Work<Race> for Racing {
    type Left = ();

    ghost asks = { λ job layout w. (1 ≤ layout.mutexes) × (2 ≤ layout.conditions) };

    ghost did = { λ job w n es left s. IsPart n s × IsRun n es };

    fn work<R: Wait>(&self, rt: &R, _alloc: Global, p: &Package<Race>, me: &mut Thread<Race>) {
        if me.number() == 0 {
            begin(rt, p, me);
            see(rt, p, me);
        } else {
            arrive(rt, p, me);
        }
    }
}

/// Runs the race, and returns the package that it was run in, with the history of all threads.
pub fn race<R: Threads + Wait + Sync>(rt: &R, alloc: Global) -> Result<Closed<Race>, AllocError>
    ensures over { IfOk result (λ c. c.values ≡ record { begun = true; left = 0 } ∷ []) }
    ensures traced { IfOk result (λ c. IsTraced c) }
    ensures ran { IfOk result (λ c. (h : List Event) × (c.trace ≡ Some h) × ((n : ℕ) → n < 4 → IsRun n (by_thread n h))) }
{
    let layout = Layout::of(4, 1, 2, 0);
    let track = vec![in alloc;
        Track {
            begun: false,
            left: 3
        },
    ]?;
    let (_, closed) = run_package::<Race, Racing, R>(rt, alloc, layout, &(), track, true, &Racing)?;
    Ok(closed)
}
