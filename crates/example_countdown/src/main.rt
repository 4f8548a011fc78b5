//! A first program over the package: a number that a mutex protects, from which each thread takes one.
//!
//! Promises: in every schedule nothing is left. `tools/new` copies this crate.
#![tactic(auto)]

mod count;
mod uses;

use count::count;
use std::io;

fn main(rt: HostRuntime) -> io::Result<()> {
    let closed = count(&rt, rt.alloc(), 1)?;
    println!(rt; "{} are left", closed.values()[0])?;
    Ok(())
}
