//! An example of the package: threads that sell tickets, which one mutex protects.
//!
//! Promises: in every schedule each ticket is sold once, so the numbers that the threads say they
//! have sold add up to all tickets, and none is left in the package, which was closed. Built on
//! `user_mutex`. Shows how a use of the package says what its values and its threads' shares have
//! to do with one another.
#![tactic(auto)]

mod sale;
mod uses;

use sale::{count, sale};
use std::io;

fn main(rt: HostRuntime) -> io::Result<()> {
    let (sold, closed) = sale(&rt, rt.alloc(), 1000, 8)?;
    let left = closed.values()[0];
    println!(rt; "8 threads sold {} tickets, {left} are left", count(&sold))?;
    Ok(())
}
