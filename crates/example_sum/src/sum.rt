//! The call that adds numbers up.
ghost use Rattle.std.specs.Prelude.{◌≡◌, ◌≤◌, ◌^◌, ◌∷◌, [], List, sum, IfOk, Some};
ghost use Rattle.larch_actions.specs.Actions.{IsClosed};
ghost use Rattle.larch_actions.specs.declared.event.Event.{Event};
ghost use Rattle.larch_actions.specs.declared.event.Version.TheVariants.{Two};

use crate::tree::{Crew, add_all};
use crate::uses::Numbers;
use nub::{Closed, Layout, Version, close_forked, end_thread, open_forked};
use std::alloc::{AllocError, Global};
use std::sync::Wait;
use std::thread::Threads;

/// Adds the numbers up by at most `threads` threads, and returns their closed package. Fails only
/// if there is no memory.
pub fn forked_sum<R: Threads + Wait + Sync>(
    rt: &R,
    alloc: Global,
    numbers: &[u32],
    threads: u32,
) -> Result<Closed<Numbers>, AllocError>
    requires some { (1 ≤ threads) × (threads ≤ 256) }
    requires small { sum numbers.now ≤ 2 ^ 55 }
    ensures value { IfOk result (λ c. c.values ≡ sum numbers.now ∷ []) }
    ensures trace { IfOk result (λ c. (h : List Event) × (c.trace ≡ Some h) × IsClosed Two h) }
{
    let layout = Layout::of_version(Version::Two, threads, 1, 0, 0);
    let zero = vec![in alloc; 0u64]?;
    let (p, first, rights) = open_forked::<Numbers>(alloc, layout, &(), zero, true)?;
    let (first, crew) = add_all(rt, &p, first, numbers, rights);
    let first = end_thread(rt, &p, first);
    let Crew { mut ended, unborn } = crew?;
    ended.push(first)?;
    let closed = close_forked(p, ended, unborn)?;
    Ok(closed)
}
