//! An example of threads that fork others: the sum of many numbers, by a tree of threads.
//!
//! Promises: in every schedule the value that comes out of the closed package is the sum of all
//! numbers, and its history is legal and closed. Built on `nub` for threads that begin and end in
//! the history, and on `user_mutex`.
#![tactic(auto)]

ghost use Rattle.std.specs.Prelude.{◌≤◌, ◌^◌, sum, IfOk};

mod part;
mod sum;
mod tree;
mod uses;

use std::alloc::{AllocError, Global};
use std::io;
use sum::forked_sum;

/// The numbers from 1 to `last`.
fn numbers_to(alloc: Global, last: u16) -> Result<Vec<u32>, AllocError>
    ensures { IfOk result (λ v. sum v.items ≤ 2 ^ 55) }
{
    let mut numbers = Vec::new(alloc);
    for i in 0..last {
        numbers.push(u32::from(i) + 1)?;
    }
    Ok(numbers)
}

fn main(rt: HostRuntime) -> io::Result<()> {
    let numbers = numbers_to(rt.alloc(), 10000)?;
    let closed = forked_sum(&rt, rt.alloc(), numbers.as_slice(), 20)?;
    let sum = closed.values()[0];
    let events = match closed.trace() {
        Some(events) => events.len(),
        None => 0,
    };
    println!(rt; "1 to 10000 add up to {sum}, in {events} events")?;
    Ok(())
}
