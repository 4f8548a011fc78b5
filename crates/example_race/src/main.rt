//! An example of two conditions on one mutex: runners wait for the start of a race, and the starter waits until all have arrived.
//!
//! Promises: in every schedule nobody arrives before the start, and the starter goes on only when all have arrived. With any word the
//! program writes its trace, which `timeline` draws.
#![tactic(auto)]

mod run;
mod uses;

use firefly_threads::{WriterSink, write_trace};
use run::race;
use std::process::ExitCode;
use std::{env, io};

fn main(rt: HostRuntime) -> io::Result<ExitCode> {
    let closed = race(&rt, rt.alloc())?;
    if env::args(&rt)?.skip(1).next().is_some() {
        let mut out = WriterSink::new(rt.stdout());
        return match write_trace(&closed, &mut out) {
            Ok(()) => Ok(ExitCode::SUCCESS),
            Err(_) => Ok(ExitCode::FAILURE),
        };
    }
    println!(rt;
        "3 runners, {} of them still on the way",
        closed.values()[0].left
    )?;
    Ok(ExitCode::SUCCESS)
}
