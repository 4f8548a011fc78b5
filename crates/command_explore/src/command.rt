//! The search of the script that an input is.
ghost use Rattle.std.specs.Prelude.{◌≡◌, ◌+◌, ℕ, map, OnOk, OnErr};
ghost use Rattle.std.specs.String.{string_bytes};
ghost use Rattle.std.specs.Io.KnownBytes.{Appends};
ghost use Rattle.firefly_outside.specs.Causes.{HasCause, AppendsPrefix};
ghost use Rattle.trace_core.specs.Text.{ReadsAs};
ghost use Rattle.trace_core.specs.Whole.{numbered};
ghost use Rattle.script_text.specs.Text.{IsScript};
ghost use Rattle.script_search.specs.Boards.{moment_of, scene_of};
ghost use Rattle.script_search.specs.Explored.{IsAnswer, IsStuckAt};
ghost use Rattle.command_endings.specs.Changes.{Notes, change_of};
ghost use Rattle.command_explore.specs.Words.{AsksFor};
ghost use Rattle.command_explore.specs.Messages.{stopped_message};
ghost use Rattle.command_explore.specs.Waits.{stuck_text};
ghost use Rattle.command_explore.specs.Explore.{Answers, Decides, Explores, ReportsFault, WordsAnswer, trace_of};

use crate::report::report;
use crate::stuck::ExploreStatus;
use crate::words::read_limit;
use arrayvec::ArrayString;
use command_endings::{Ending, Status, ends, ends_unread, print, say};
use firefly_outside::{Sink, SinkFault, Source};
use script_search::{Answer, Stop, Stuck, explore};
use script_text::{Script, read_script};
use std::alloc::Global;
use text_output::push_with_number;
use trace_core::laws::print_whole;

const USAGE: &str = "usage: explore [--states N] < SCRIPT\n";

// The message on a stop.
fn stop_message(allowed: u32) -> ArrayString<128>
    ensures { result.bytes ≡ stopped_message (allowed + 1) allowed }
{
    let mut message = ArrayString::<128>::new();
    push_with_number(&mut message, "firefly: stopped, ", u64::from(allowed) + 1);
    push_with_number(&mut message, " states found, ", u64::from(allowed));
    message.push_str(" allowed\n");
    message
}

// Says how many states were found, and how many are allowed.
fn say_stopped<N: Sink>(notes: &mut N, allowed: u32)
    ensures { Notes (change_of N.held N.faults notes.old notes.new) (stopped_message (allowed + 1) allowed) }
{
    say(notes, stop_message(allowed).as_str());
}

// Prints the trace of a play that gets stuck.
fn print_trace<O: Sink>(script: &Script, stuck: &Stuck, out: &mut O) -> Result<(), SinkFault>
    requires script { IsScript script.now.layout script.now.lines }
    requires stuck { IsStuckAt script.now.layout script.now.lines stuck.now }
    ensures ok { OnOk result (Appends (O.held out.old) (O.held out.new) (trace_of script.now.layout stuck.now)) }
    ensures reads { ReadsAs (trace_of script.now.layout stuck.now) script.now.layout stuck.now.events.items
        (numbered 0 stuck.now.numbers.items) }
    ensures err { OnErr result (AppendsPrefix (O.held out.old) (O.held out.new) (trace_of script.now.layout stuck.now)) }
    ensures cause { HasCause (O.faults out.old) (O.faults out.new) result }
{
    let layout = script.layout();
    let events = stuck.events.as_slice();
    let values = stuck.numbers.as_slice();
    print_whole(&layout, events, values, out)
}

// Prints the trace of a play that gets stuck, and says what each thread waits for.
fn print_reported<O: Sink, N: Sink>(
    script: &Script,
    limit: u32,
    stuck: &Stuck,
    text: &str,
    out: &mut O,
    notes: &mut N,
) -> ExploreStatus
    requires script { IsScript script.now.layout script.now.lines }
    requires stuck { IsStuckAt script.now.layout script.now.lines stuck.now }
    requires text { text.now ≡ stuck_text script.now.layout script.now.lines stuck.now.events.items stuck.now.numbers.items
        (scene_of (moment_of stuck.now.board)) }
    ensures { Explores limit script.now.layout script.now.lines (change_of O.held O.faults out.old out.new)
        (change_of N.held N.faults notes.old notes.new) result }
{
    match print_trace(script, stuck, out) {
        Ok(()) => {
            say(notes, text);
            ExploreStatus::Stuck
        }
        Err(_) => ExploreStatus::As(ends(notes, Ending::OutputFault)),
    }
}

// The same, if there is memory for what is said.
fn print_stuck<O: Sink, N: Sink>(
    alloc: Global,
    script: &Script,
    limit: u32,
    stuck: &Stuck,
    out: &mut O,
    notes: &mut N,
) -> ExploreStatus
    requires script { IsScript script.now.layout script.now.lines }
    requires stuck { IsStuckAt script.now.layout script.now.lines stuck.now }
    ensures { Explores limit script.now.layout script.now.lines (change_of O.held O.faults out.old out.new)
        (change_of N.held N.faults notes.old notes.new) result }
{
    match report(alloc, script, stuck) {
        Ok(text) => print_reported(script, limit, stuck, text.as_str(), out, notes),
        Err(_) => ExploreStatus::As(ends(notes, Ending::Memory)),
    }
}

// Prints what a search has found.
fn print_answer<O: Sink, N: Sink>(
    alloc: Global,
    script: &Script,
    limit: u32,
    answer: &Answer,
    out: &mut O,
    notes: &mut N,
) -> ExploreStatus
    requires script { IsScript script.now.layout script.now.lines }
    requires answer { IsAnswer script.now.layout script.now.lines answer.now }
    ensures { Explores limit script.now.layout script.now.lines (change_of O.held O.faults out.old out.new)
        (change_of N.held N.faults notes.old notes.new) result }
{
    match answer {
        Answer::Ends => ExploreStatus::As(print("ends\n", Status::Done, out, notes)),
        Answer::Stuck(stuck) => print_stuck(alloc, script, limit, stuck, out, notes),
    }
}

// Searches the script, and prints what was found.
fn explore_read<O: Sink, N: Sink>(
    alloc: Global,
    script: &Script,
    limit: u32,
    out: &mut O,
    notes: &mut N,
) -> ExploreStatus
    requires { IsScript script.now.layout script.now.lines }
    ensures { Explores limit script.now.layout script.now.lines (change_of O.held O.faults out.old out.new)
        (change_of N.held N.faults notes.old notes.new) result }
{
    match explore(alloc, script, limit) {
        Ok(answer) => print_answer(alloc, script, limit, &answer, out, notes),
        Err(stop) => match stop {
            Stop::Limit => {
                say_stopped(notes, limit);
                ExploreStatus::As(Status::Stopped)
            }
            Stop::Memory => ExploreStatus::As(ends(notes, Ending::Memory)),
        },
    }
}

// Searches the script that the input is, with so many states allowed.
fn explore_limited<I: Source, O: Sink, N: Sink>(
    alloc: Global,
    limit: u32,
    input: &mut I,
    out: &mut O,
    notes: &mut N,
) -> ExploreStatus
    ensures answers { Answers limit (change_of I.left I.faults input.old input.new) (change_of O.held O.faults out.old out.new)
        (change_of N.held N.faults notes.old notes.new) result }
    ensures exact { Decides (change_of I.left I.faults input.old input.new) result }
    ensures reported { ReportsFault (change_of I.left I.faults input.old input.new) result }
{
    match read_script(alloc, input) {
        Ok(script) => explore_read(alloc, &script, limit, out, notes),
        Err(fault) => ExploreStatus::As(ends_unread(notes, fault)),
    }
}

/// Searches the plays of the script that the input is, with as many states allowed as the words say. Prints `ends`, or the trace of a play
/// that gets stuck, and says on `notes` what each thread then waits for. Returns the status.
pub fn explore_input<I: Source, O: Sink, N: Sink>(
    alloc: Global,
    words: &[String],
    input: &mut I,
    out: &mut O,
    notes: &mut N,
) -> ExploreStatus
    // The results, with the cause of each status, or the usage line if the words ask for nothing.
    ensures answers { WordsAnswer (map string_bytes words.now) (change_of I.left I.faults input.old input.new)
        (change_of O.held O.faults out.old out.new) (change_of N.held N.faults notes.old notes.new) result }
    // Which status it is, if the input decides that.
    ensures exact { (n : ℕ) → AsksFor (map string_bytes words.now) n → Decides (change_of I.left I.faults input.old input.new) result }
    ensures reported { ReportsFault (change_of I.left I.faults input.old input.new) result }
{
    match read_limit(words) {
        Some(limit) => explore_limited(alloc, limit, input, out, notes),
        None => {
            say(notes, USAGE);
            ExploreStatus::As(Status::Usage)
        }
    }
}
