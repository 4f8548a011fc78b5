//! The messages, a line each.
ghost use Rattle.std.specs.Prelude.{◌≡◌};
ghost use Rattle.command_endings.specs.Changes.{Notes, change_of};
ghost use Rattle.command_endings.specs.Messages.{bad_line_message, stopped_by_message, stopped_message, unreadable_message};

use arrayvec::ArrayString;
use firefly_outside::{Sink, put_all};
use text_output::{print_path, push_with_number};

pub const USAGE: &str = concat!(
    "usage: firefly check | run | index DIR [options] | trace DIR [options] | sample SEED FILES",
    " | jobs WORKERS | find QUERY | order | rounds THREADS ROUNDS\n"
);

pub const INPUT_FAULT: &str = "firefly: input could not be read\n";

pub const OUTPUT_FAULT: &str = "firefly: output could not be written\n";

pub const OUT_OF_MEMORY: &str = "firefly: out of memory\n";

pub const TOO_MANY: &str = "firefly: 1000001 directories found, 1000000 allowed\n";

pub const TOO_LONG: &str = "firefly: input too long\n";

/// Writes the message, or as much as the notes take before they fail.
pub fn say<N: Sink>(notes: &mut N, message: &str)
    ensures { Notes (change_of N.held N.faults notes.old notes.new) message.now }
{
    let _ = put_all(notes, message.as_bytes());
}

// The message on a bad line.
fn bad_line(line: u64) -> ArrayString<64>
    ensures { result.bytes ≡ bad_line_message line }
{
    let mut message = ArrayString::<64>::new();
    push_with_number(&mut message, "firefly: bad line ", line);
    message.push_str("\n");
    message
}

/// Says which line is bad.
pub fn say_bad_line<N: Sink>(notes: &mut N, line: u64)
    ensures { Notes (change_of N.held N.faults notes.old notes.new) (bad_line_message line) }
{
    say(notes, bad_line(line).as_str());
}

// The message on a stop.
fn stop_message(found: u64, allowed: u64) -> ArrayString<128>
    ensures { result.bytes ≡ stopped_message found allowed }
{
    let mut message = ArrayString::<128>::new();
    push_with_number(&mut message, "firefly: stopped, ", found);
    push_with_number(&mut message, " files found, ", allowed);
    message.push_str(" allowed\n");
    message
}

/// Says how many files were found, and how many are allowed.
pub fn say_stopped<N: Sink>(notes: &mut N, found: u64, allowed: u64)
    ensures { Notes (change_of N.held N.faults notes.old notes.new) (stopped_message found allowed) }
{
    say(notes, stop_message(found, allowed).as_str());
}

// The message on a stop by a job.
fn stopped_by(job: u64) -> ArrayString<64>
    ensures { result.bytes ≡ stopped_by_message job }
{
    let mut message = ArrayString::<64>::new();
    push_with_number(&mut message, "firefly: stopped by job ", job);
    message.push_str("\n");
    message
}

/// Says which job has stopped the others.
pub fn say_stopped_by<N: Sink>(notes: &mut N, job: u64)
    ensures { Notes (change_of N.held N.faults notes.old notes.new) (stopped_by_message job) }
{
    say(notes, stopped_by(job).as_str());
}

/// Says which path could not be read.
pub fn say_unreadable<N: Sink>(notes: &mut N, path: &str)
    ensures { Notes (change_of N.held N.faults notes.old notes.new) (unreadable_message path.now) }
{
    let _ = print_path(
        b"firefly: ",
        path.as_bytes(),
        b" could not be read\n",
        notes,
    );
}
