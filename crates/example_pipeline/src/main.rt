//! An example of buffers: three threads in a row, with a buffer between each two.
//!
//! Promises: in every schedule what comes out is what went in, with each number worked on once and
//! in order. Nothing is left in the buffers of the package, which was closed. Built on
//! `bounded_buffer`. Shows how a stage passes its items on and then announces that there are no
//! more, and what follows from the shares of threads if only one puts into a buffer and only one
//! takes from it.
#![tactic(auto)]

mod line;
mod stages;

use line::run;
use std::io;

fn main(rt: HostRuntime) -> io::Result<()> {
    let (squares, closed) = run(&rt, rt.alloc(), 1000)?;
    let last = squares.last().copied().unwrap_or(0);
    let left = closed.values()[1].len();
    println!(rt;
        "{} squares came out, the last is {last}, and {left} items are left",
        squares.len()
    )?;
    Ok(())
}
