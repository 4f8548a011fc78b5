//! The threads, and what each does.
ghost use Rattle.std.specs.Prelude.{◌≡◌, ◌<◌, ◌≤◌, ◌∷◌, [], IfOk};
ghost use Rattle.firefly_threads.specs.Idle.{IsIdle};

use crate::uses::{Countdown, CountsDown};
use firefly_threads::{Closed, Layout, MutexId, Package, Thread, Work, locked, run_package};
use std::alloc::{AllocError, Global};
use std::sync::Wait;
use std::thread::Threads;

/// Counts down by one. Blocks until the mutex is free.
fn count_down<R: Wait>(rt: &R, p: &Package<Countdown>, me: &mut Thread<Countdown>)
    requires named { 0 < p.now.layout.mutexes }
    requires idle { IsIdle p.now me.old.number 1 me.old }
    ensures { IsIdle p.now me.old.number 0 me.new }
{
    locked::<Countdown, CountsDown, (), _, R>(rt, p, me, MutexId(0), |left| *left -= 1);
}

/// What each thread does.
struct Counting;

impl Work<Countdown> for Counting {
    type Left = ();

    ghost asks = { λ job layout w. 0 < layout.mutexes };

    ghost did = { λ job w n es left s. s ≡ 0 };

    fn work<R: Wait>(
        &self,
        rt: &R,
        _alloc: Global,
        p: &Package<Countdown>,
        me: &mut Thread<Countdown>,
    ) {
        count_down(rt, p, me)
    }
}

/// Lets so many threads count down from their number, and returns the package that they have closed.
pub fn count<R: Threads + Wait + Sync>(
    rt: &R,
    alloc: Global,
    threads: u32,
) -> Result<Closed<Countdown>, AllocError>
    requires { (1 ≤ threads) × (threads ≤ 64) }
    ensures { IfOk result (λ c. c.values ≡ 0 ∷ []) }
{
    let layout = Layout::of(threads, 1, 0, 0);
    let left = vec![in alloc; threads]?;
    let (_, closed) = run_package::<Countdown, Counting, R>(
        rt,
        alloc,
        layout,
        &(),
        left,
        false,
        &Counting,
    )?;
    Ok(closed)
}
