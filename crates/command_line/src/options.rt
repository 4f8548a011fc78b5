//! The words after `index` and `trace`.
ghost use Rattle.std.specs.Prelude.{◌≡◌, ◌≢◌, ◌↔◌, ℕ, Option, [], false, All, IfNone, IfOk, IfSome, IsTrue, map, option_map};
ghost use Rattle.std.specs.String.{string_bytes};
ghost use Rattle.clap.specs.Words.{App, app_of, with_rule, fault_of, found_of, matches_of, rows_of, rule_of};
ghost use Rattle.command_line.specs.Grammar.{Options, SayOptions};
ghost use Rattle.command_line.specs.Reading.{HoldOptions, IsNumberOr, IsOffered, IsStop, bare_app, directory_rule, index_app, option_rule};
ghost use Rattle.command_line.specs.Tasks.{options_of};

use crate::command::{IndexOptions, WordsFault};
use clap::error::ErrorKind;
use clap::{Arg, ArgAction, ArgMatches};
use std::alloc::{AllocError, Global};
use text_output::read_number;

/// Reads the options from the words after `index` or `trace`.
pub(crate) fn read_options<'a>(
    alloc: Global,
    words: &'a [String],
) -> Result<IndexOptions<'a>, WordsFault>
    ensures said { IfOk result (λ o. SayOptions (map string_bytes words.entry.now) (options_of o)) }
    ensures usage { result ≡ Err WordsFault.Usage → (p : Options)
        → SayOptions (map string_bytes words.entry.now) p → ⊥ }
{
    if !are_offered(words) {
        return Err(WordsFault::Usage);
    }
    let matches = match parse(alloc, words) {
        Ok(matches) => matches,
        Err(fault) => return Err(fault),
    };
    match options_in(&matches) {
        Some(options) => Ok(options),
        None => Err(WordsFault::Usage),
    }
}

// Each word may go to `clap`.
fn are_offered(words: &[String]) -> bool
    ensures { IsTrue result ↔ All (λ w. IsOffered (string_bytes w)) words.now }
{
    words.iter().all(|word| is_offered(word.as_str()))
}

// The word is not empty, `-` or `--`, which `clap` would read in ways of its own.
fn is_offered(word: &str) -> bool
    ensures { IsTrue result ↔ IsOffered word.now }
{
    !matches!(word, "" | "-" | "--")
}

// The words as `clap` takes them.
fn parse<'a>(alloc: Global, words: &'a [String]) -> Result<ArgMatches<'a>, WordsFault>
    ensures taken { IfOk result (λ m.
        (fault_of index_app (map string_bytes words.entry.now) ≡ [])
        × (rows_of (found_of m) ≡ matches_of index_app (map string_bytes words.entry.now))) }
    ensures refused { result ≡ Err WordsFault.Usage
        → fault_of index_app (map string_bytes words.entry.now) ≢ [] }
{
    let Ok(command) = index_command(alloc) else {
        return Err(WordsFault::Memory);
    };
    match command.try_get_matches_from(words) {
        Ok(matches) => Ok(matches),
        Err(error) => match error.kind() {
            ErrorKind::OutOfMemory => Err(WordsFault::Memory),
            _ => Err(WordsFault::Usage),
        },
    }
}

// The options and DIR, with no help and no name of the program before them.
fn index_command<'a>(alloc: Global) -> Result<clap::Command<'a>, AllocError>
    ensures { IfOk result (λ c. app_of c ≡ index_app) }
{
    let walkers = with_option(alloc, Ok(bare_command(alloc)), "walkers");
    let parsers = with_option(alloc, walkers, "parsers");
    let mergers = with_option(alloc, parsers, "mergers");
    let stop = with_option(alloc, mergers, "stop-after");
    with_dir(alloc, stop)
}

// No help, no name of the program, and nothing else yet.
fn bare_command<'a>(alloc: Global) -> clap::Command<'a>
    ensures { app_of result ≡ bare_app }
{
    clap::Command::new(alloc, "firefly")
        .no_binary_name(true)
        .disable_help_flag(true)
}

// One more option, where there is a command.
fn with_option<'a>(
    alloc: Global,
    command: Result<clap::Command<'a>, AllocError>,
    name: &'a str,
) -> Result<clap::Command<'a>, AllocError>
    ensures { (a : App) → IfOk command.entry (λ c. app_of c ≡ a) → IfOk result (λ c. app_of c ≡ with_rule a (option_rule name.entry.now)) }
{
    match command {
        Ok(command) => command.arg(option_named(alloc, name)),
        Err(error) => Err(error),
    }
}

// Adds DIR at the end, if there is a command.
fn with_dir<'a>(
    alloc: Global,
    command: Result<clap::Command<'a>, AllocError>,
) -> Result<clap::Command<'a>, AllocError>
    ensures { (a : App) → IfOk command.entry (λ c. app_of c ≡ a) → IfOk result (λ c. app_of c ≡ with_rule a directory_rule) }
{
    match command {
        Ok(command) => command.arg(directory(alloc)),
        Err(error) => Err(error),
    }
}

fn option_named<'a>(alloc: Global, name: &'a str) -> Arg<'a>
    ensures rule { rule_of result ≡ option_rule name.entry.now }
    ensures global { result.global ≡ false }
{
    Arg::new(alloc, name).long(name).action(ArgAction::Set)
}

fn directory<'a>(alloc: Global) -> Arg<'a>
    ensures rule { rule_of result ≡ directory_rule }
    ensures global { result.global ≡ false }
{
    Arg::new(alloc, "dir").required(true).action(ArgAction::Set)
}

// The values, read as numbers.
fn options_in<'a>(matches: &ArgMatches<'a>) -> Option<IndexOptions<'a>>
    ensures held { IfSome result (λ o. HoldOptions (rows_of (found_of matches.now)) (options_of o)) }
    ensures none { IfNone result ((o : Options)
        → HoldOptions (rows_of (found_of matches.now)) o → ⊥) }
{
    Some(IndexOptions {
        dir: matches.get_str("dir")?,
        walkers: read_count(matches.get_str("walkers"), 2)?,
        parsers: read_count(matches.get_str("parsers"), 4)?,
        mergers: read_count(matches.get_str("mergers"), 2)?,
        stop_after: read_stop(matches.get_str("stop-after"))?,
    })
}

// A number of threads from 1 to 8, or the default where there is no text.
fn read_count(text: Option<&str>, default: u32) -> Option<u32>
    ensures number { IfSome result (IsNumberOr default (option_map (λ t. t.now) text.entry)) }
    ensures none { IfNone result ((n : ℕ)
        → IsNumberOr default (option_map (λ t. t.now) text.entry) n → ⊥) }
{
    match text {
        None => Some(default),
        Some(text) => match read_number(text, 1, 8) {
            Some(number) => Some(number as u32),
            None => None,
        },
    }
}

// After how many files the walk stops, or `None` where there is no text.
fn read_stop(text: Option<&str>) -> Option<Option<u64>>
    ensures number { IfSome result (IsStop (option_map (λ t. t.now) text.entry)) }
    ensures none { IfNone result ((stop : Option ℕ)
        → IsStop (option_map (λ t. t.now) text.entry) stop → ⊥) }
{
    match text {
        None => Some(None),
        Some(text) => match read_number(text, 0, 1_000_000_000) {
            Some(number) => Some(Some(number)),
            None => None,
        },
    }
}
