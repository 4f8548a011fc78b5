//! The call that runs any command.
ghost use Rattle.std.specs.Prelude.{◌≡◌, ◌≢◌, ◌⊎◌, ◌≤◌, length, map};
ghost use Rattle.std.specs.String.{string_bytes};
ghost use Rattle.command_line.specs.Grammar.{BeginOptions, Task, Say, SayNothing, HasOptions};
ghost use Rattle.command_endings.specs.Changes.{change_of};
ghost use Rattle.firefly.specs.Looks.{look_of, looks_of, Agree, AreOwn, KeepTrees};
ghost use Rattle.firefly.specs.Top.{Answers, UsageAnswers, WordsWant, effects_of};

use crate::index_command::run_index;
use crate::run_command::run_input;
use crate::sample_command::run_sample;
use crate::trace_command::run_trace;
use command_check::{run_check, run_order};
use command_endings::{Ending, Status, ends};
use command_find::run_find;
use command_jobs::run_jobs_command;
use command_line::{Command, WordsFault, read_words};
use command_rounds::run_rounds;
use firefly_outside::{Sink, Source, Tree};
use std::alloc::Global;
use std::sync::Wait;
use std::thread::Threads;

/// Runs the command that the words name. The words are those after the program's name. Returns the
/// status.
pub fn firefly<R: Threads + Wait + Sync, S: Tree, I: Source, O: Sink, N: Sink>(
    rt: &R,
    alloc: Global,
    words: &[String],
    trees: &mut [Option<S>],
    input: &mut I,
    out: &mut O,
    notes: &mut N,
) -> Status
    requires enough { 17 ≤ length trees.old }
    requires agree { Agree (looks_of (look_of S.tree S.may_fail S.calls S.faults) trees.old) }
    // Words that name no command.
    ensures usage { let e = effects_of (looks_of (look_of S.tree S.may_fail S.calls S.faults) trees.old)
        (looks_of (look_of S.tree S.may_fail S.calls S.faults) trees.new) (change_of I.left I.faults input.old input.new)
        (change_of O.held O.faults out.old out.new) (change_of N.held N.faults notes.old notes.new) in
        SayNothing (map string_bytes words.now) → UsageAnswers e result ⊎ (BeginOptions (map string_bytes words.now) × WordsWant e result) }
    // A command: its results, with the cause of each status, and exactly which one if what it read
    // decides that.
    ensures answers { let e = effects_of (looks_of (look_of S.tree S.may_fail S.calls S.faults) trees.old)
        (looks_of (look_of S.tree S.may_fail S.calls S.faults) trees.new) (change_of I.left I.faults input.old input.new)
        (change_of O.held O.faults out.old out.new) (change_of N.held N.faults notes.old notes.new) in
        (t : Task) → Say (map string_bytes words.now) t → Answers t e result ⊎ (HasOptions t × WordsWant e result) }
    // Each tree is in its place. If memory runs out, some places may be empty, and none has the
    // tree of another.
    ensures kept { result ≢ Status.Memory → KeepTrees (looks_of (look_of S.tree S.may_fail S.calls S.faults) trees.old)
        (looks_of (look_of S.tree S.may_fail S.calls S.faults) trees.new) }
    ensures own { AreOwn (looks_of (look_of S.tree S.may_fail S.calls S.faults) trees.old)
        (looks_of (look_of S.tree S.may_fail S.calls S.faults) trees.new) }
{
    match read_words(alloc, words) {
        Ok(Command::Check) => run_check(input, out, notes),
        Ok(Command::Index(options)) => run_index(rt, alloc, &options, trees, out, notes),
        Ok(Command::Run) => run_input(rt, alloc, input, out, notes),
        Ok(Command::Trace(options)) => run_trace(rt, alloc, &options, trees, out, notes),
        Ok(Command::Sample { seed, files }) => run_sample(rt, alloc, seed, files, out, notes),
        Ok(Command::Jobs { workers }) => run_jobs_command(rt, alloc, workers, input, out, notes),
        Ok(Command::Find(tokens)) => run_find(alloc, tokens, input, out, notes),
        Ok(Command::Order) => run_order(input, out, notes),
        Ok(Command::Rounds { threads, rounds }) => {
            run_rounds(rt, alloc, threads, rounds, out, notes)
        }
        Err(WordsFault::Usage) => ends(notes, Ending::Usage),
        Err(WordsFault::Memory) => ends(notes, Ending::Memory),
    }
}
