//! The part of one thread.
ghost use Rattle.std.specs.Prelude.{◌≡◌, ◌≤◌, ◌^◌, sum};
ghost use Rattle.nub.specs.Idle.{IsIdle};
ghost use Rattle.example_sum.specs.Trees.{HasJoined};

use crate::uses::{Adds, Numbers};
use nub::{MutexId, Package, Thread};
use std::sync::Wait;
use user_mutex::locked;

/// The sum of the numbers.
fn sum_of(numbers: &[u32]) -> u64
    requires { sum numbers.now ≤ 2 ^ 55 }
    ensures { result ≡ sum numbers.now }
{
    let mut all = 0u64;
    for one in numbers {
        all += u64::from(*one);
    }
    all
}

/// Adds the numbers to the sum that the mutex protects.
pub fn add<R: Wait>(rt: &R, p: &Package<Numbers>, me: &mut Thread<Numbers>, numbers: &[u32])
    requires mutex { 1 ≤ p.now.layout.mutexes }
    requires small { sum numbers.now ≤ 2 ^ 55 }
    requires idle { IsIdle p.now me.old.number 0 me.old }
    ensures idle { IsIdle p.now me.old.number (sum numbers.now) me.new }
    ensures joined { HasJoined me.old me.new }
{
    let part = sum_of(numbers);
    locked::<Numbers, Adds, (), _, R>(rt, p, me, MutexId(0), |sum| *sum += part);
}
