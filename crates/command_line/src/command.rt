//! The commands, and the reading of all words.
ghost use Rattle.std.specs.Prelude.{◌≡◌, ◌≢◌, [], ◌∷◌, IfOk, IsErr, codes, map};
ghost use Rattle.std.specs.String.{string_bytes};
ghost use Rattle.command_line.specs.Grammar.{BeginOptions, HasOptions, IsInRange, Say, SayNothing, Task};
ghost use Rattle.command_line.specs.Tasks.{task_of};

use crate::options::read_options;
use std::alloc::Global;
use text_output::read_number;
use thiserror::Error;

/// What follows `index` or `trace`. The directory is lent by the words.
#[derive(Clone, Copy, Debug, PartialEq)]
pub struct IndexOptions<'a> {
    pub dir: &'a str,
    pub walkers: u32,
    pub parsers: u32,
    pub mergers: u32,
    pub stop_after: Option<u64>,
}

/// A command, as the words say it.
#[derive(Clone, Copy, Debug, PartialEq)]
pub enum Command<'a> {
    Check,
    Run,
    Index(IndexOptions<'a>),
    Trace(IndexOptions<'a>),
    Sample { seed: u64, files: u32 },
    Jobs { workers: u32 },
    Find(&'a [String]),
    Order,
    Rounds { threads: u32, rounds: u32 },
}

/// Why words were not read: they say no command, or memory ran out.
#[derive(Clone, Copy, Debug, PartialEq, Error)]
pub enum WordsFault {
    #[error("the words are no command")]
    Usage,
    #[error("out of memory")]
    Memory,
}

/// The command that the words after the program's name say. Memory may run out only where the first
/// word is `index` or `trace`.
pub fn read_words<'a>(alloc: Global, words: &'a [String]) -> Result<Command<'a>, WordsFault>
    ensures said { IfOk result (λ c. Say (map string_bytes words.entry.now) (task_of c)) }
    ensures only { IfOk result (λ c. (t : Task)
        → Say (map string_bytes words.entry.now) t → t ≡ task_of c) }
    ensures in_range { IfOk result (λ c. IsInRange (task_of c)) }
    ensures usage { result ≡ Err WordsFault.Usage
        → SayNothing (map string_bytes words.entry.now) }
    ensures memory { result ≡ Err WordsFault.Memory → (t : Task)
        → Say (map string_bytes words.entry.now) t → HasOptions t }
    ensures begun { result ≡ Err WordsFault.Memory → BeginOptions (map string_bytes words.entry.now) }
{
    read_command(alloc, words)
}

// The command that the words say.
fn read_command<'a>(alloc: Global, words: &'a [String]) -> Result<Command<'a>, WordsFault>
    ensures said { IfOk result (λ c. Say (map string_bytes words.entry.now) (task_of c)) }
    ensures usage { result ≡ Err WordsFault.Usage
        → SayNothing (map string_bytes words.entry.now) }
    ensures begun { result ≡ Err WordsFault.Memory → BeginOptions (map string_bytes words.entry.now) }
{
    let Some((first, rest)) = words.split_first() else {
        return Err(WordsFault::Usage);
    };
    match first.as_str() {
        "check" => alone(rest, Command::Check),
        "run" => alone(rest, Command::Run),
        "index" => Ok(Command::Index(read_options(alloc, rest)?)),
        "trace" => Ok(Command::Trace(read_options(alloc, rest)?)),
        "sample" => read_sample(rest),
        "jobs" => read_jobs(rest),
        "find" => Ok(Command::Find(rest)),
        "order" => alone(rest, Command::Order),
        "rounds" => read_rounds(rest),
        _ => Err(WordsFault::Usage),
    }
}

// The command, where no word follows.
fn alone<'a>(rest: &[String], command: Command<'a>) -> Result<Command<'a>, WordsFault>
    ensures ok { IfOk result (λ c. (c ≡ command.entry) × (map string_bytes rest.now ≡ [])) }
    ensures usage { IsErr result → map string_bytes rest.now ≢ [] }
    ensures memory { result ≢ Err WordsFault.Memory }
{
    if rest.is_empty() {
        Ok(command)
    } else {
        Err(WordsFault::Usage)
    }
}

// The words after `sample`.
fn read_sample<'a>(rest: &[String]) -> Result<Command<'a>, WordsFault>
    ensures said { IfOk result (λ c. Say (codes "sample" ∷ map string_bytes rest.now) (task_of c)) }
    ensures usage { IsErr result → SayNothing (codes "sample" ∷ map string_bytes rest.now) }
    ensures memory { result ≢ Err WordsFault.Memory }
{
    let [seed, files] = rest else {
        return Err(WordsFault::Usage);
    };
    let seed = read_number(seed.as_str(), 0, u64::MAX);
    let files = read_number(files.as_str(), 1, 20_000);
    match (seed, files) {
        (Some(seed), Some(files)) => Ok(Command::Sample {
            seed,
            files: files as u32,
        }),
        _ => Err(WordsFault::Usage),
    }
}

// The word after `jobs`.
fn read_jobs<'a>(rest: &[String]) -> Result<Command<'a>, WordsFault>
    ensures said { IfOk result (λ c. Say (codes "jobs" ∷ map string_bytes rest.now) (task_of c)) }
    ensures usage { IsErr result → SayNothing (codes "jobs" ∷ map string_bytes rest.now) }
    ensures memory { result ≢ Err WordsFault.Memory }
{
    let [workers] = rest else {
        return Err(WordsFault::Usage);
    };
    match read_number(workers.as_str(), 1, 8) {
        Some(workers) => Ok(Command::Jobs {
            workers: workers as u32,
        }),
        None => Err(WordsFault::Usage),
    }
}

// The words after `rounds`.
fn read_rounds<'a>(rest: &[String]) -> Result<Command<'a>, WordsFault>
    ensures said { IfOk result (λ c. Say (codes "rounds" ∷ map string_bytes rest.now) (task_of c)) }
    ensures usage { IsErr result → SayNothing (codes "rounds" ∷ map string_bytes rest.now) }
    ensures memory { result ≢ Err WordsFault.Memory }
{
    let [threads, rounds] = rest else {
        return Err(WordsFault::Usage);
    };
    let threads = read_number(threads.as_str(), 1, 64);
    let rounds = read_number(rounds.as_str(), 1, 1_000);
    match (threads, rounds) {
        (Some(threads), Some(rounds)) => Ok(Command::Rounds {
            threads: threads as u32,
            rounds: rounds as u32,
        }),
        _ => Err(WordsFault::Usage),
    }
}
