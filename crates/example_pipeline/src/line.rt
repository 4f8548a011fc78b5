//! The whole pipeline.
ghost use Rattle.std.specs.Prelude.{◌≡◌, ◌≤◌, ◌<◌, ◌∷◌, [], true, length, map, IfOk, ℕ};
ghost use Rattle.std.specs.List.{range_with_len};
ghost use mathlib.Core.Option.{some};
ghost use lib.ListN.{get_elem?};
ghost use Rattle.nub_rule.specs.Items.{Each};
ghost use Rattle.nub.specs.Ended.{IsFirst};
ghost use Rattle.bounded_buffer.specs.Rings.{Held, fresh};
ghost use Rattle.example_pipeline.specs.Stages.{squared, HasBuffers, HasEnded, HasPassed, IsOver, IsStage};

use crate::stages::{Came, Numbers, stage};
use bounded_buffer::Ring;
use nub::{Closed, Layout, Thread, close_package, open_package};
use package_crew::at_once;
use std::alloc::{AllocError, Global};
use std::sync::Wait;
use std::thread::Threads;

/// Two empty buffers.
fn two_rings(alloc: Global) -> Result<Vec<Ring<u64>>, AllocError>
    ensures { IfOk result (λ v. v.items ≡ fresh 16 ∷ fresh 16 ∷ []) }
{
    let mut rings = Vec::new(alloc);
    rings.push(Ring::new(alloc, 16)?)?;
    rings.push(Ring::new(alloc, 16)?)?;
    Ok(rings)
}

/// Returns what the third thread left.
fn third(mut left: Vec<Came>) -> Came
    requires { length left.items ≡ 3 }
    ensures { get_elem? left.items 2 ≡ some result }
{
    let Some(last) = left.pop() else {
        unreachable!()
    };
    last
}

/// Makes the numbers below `count` in one thread, squares each in a second, and takes the squares
/// in a third. Returns what the third took, and the closed package. Fails only if there is no
/// memory.
pub fn run<R: Threads + Wait + Sync>(
    rt: &R,
    alloc: Global,
    count: u32,
) -> Result<(Vec<u64>, Closed<Numbers>), AllocError>
    ensures squares { IfOk result (λ r. r.0.items ≡ map squared (range_with_len 0 count)) }
    ensures three { IfOk result (λ r. length r.1.threads ≡ 3) }
    ensures stages { IfOk result (λ r. Each (HasPassed count) r.1.threads) }
    ensures over { IfOk result (λ r. (length r.1.values ≡ 2) × Each (IsOver count) r.1.values) }
{
    let layout = Layout::of(3, 2, 4, 0);
    let rings = two_rings(alloc)?;
    let (p, threads) = open_package::<Numbers>(alloc, layout, &(), rings, false)?;
    let (threads, left) = at_once(
        rt,
        alloc,
        threads,
        &|me: Thread<Numbers>| -> (Thread<Numbers>, Came)
            requires { HasBuffers p.layout × IsFirst p (λ w t. []) me.number me }
            ensures { HasEnded (IsStage count result.1 me.number) p me.number result.0 }
        { stage(rt, alloc, &p, me, count) },
    )?;
    let closed = close_package(p, threads)?;
    let Came { items, lost } = third(left);
    if lost {
        return Err(AllocError);
    }
    Ok((items, closed))
}
