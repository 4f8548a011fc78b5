//! An example of a monitor: three threads send messages, and one receives them all and writes them
//! into a log.
//!
//! Promises: in every schedule each message that was sent is in the log once, and nothing else is;
//! no message is left, and no thread may send any more. Built on `monitor`. Shows how to write and
//! prove calls that wait, under a mutex, until its value is right.
#![tactic(auto)]

mod mail;
mod post;
mod run;

use run::run;
use std::io;

fn main(rt: HostRuntime) -> io::Result<()> {
    let (log, closed) = run(&rt, rt.alloc(), 1000)?;
    let left = closed.values()[0].senders;
    println!(rt; "{} messages came, and {left} senders are left", log.len())?;
    Ok(())
}
