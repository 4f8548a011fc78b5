//! The lines of all threads at a scene where a script is stuck.
ghost use Rattle.std.specs.Prelude.{◌≡◌, ◌<◌, ◌++◌, [], vec_len, IfOk, OnOk};
ghost use Rattle.std.specs.String.{string_bytes};
ghost use Rattle.script_plays.specs.Scenes.{rest_of};
ghost use Rattle.script_search.specs.Boards.{moment_of, played_of, scene_of, spec_of, IsBoard};
ghost use Rattle.command_explore.specs.Messages.{stuck_line};
ghost use Rattle.command_explore.specs.Waits.{after_text, life_text, stands_text, stuck_text, unborn_text};

use crate::line::{head, place_of};
use crate::waits::{Text, at_line, said_of};
use larch_actions::{Layout, Version};
use script_search::{Board, Place, Stuck, is_born};
use script_text::{Line, Script};
use std::alloc::{AllocError, Global};
use text_output::push_with_number;

// What is said of a thread that is finished.
fn nothing() -> Text
    ensures { result.bytes ≡ [] }
{
    Text::new()
}

// The line of a thread after its last line.
fn after_last(version: Version, thread: u32) -> Text
    ensures { result.bytes ≡ after_text version thread }
{
    match version {
        Version::One => nothing(),
        Version::Two => said_of(thread, " can't end\n"),
    }
}

// The line of a thread that lives, after so many of its lines.
fn stands(
    layout: &Layout,
    lines: &[Line],
    board: &Board,
    numbers: &[u64],
    thread: u32,
    played: u32,
) -> Text
    requires thread { thread < vec_len board.now.threads }
    requires played { played ≡ played_of (moment_of board.now) thread }
    ensures { result.bytes ≡ stands_text layout.now lines.now numbers.now (scene_of (moment_of board.now)) thread
        (rest_of lines.now (played_of (moment_of board.now)) thread) }
{
    match place_of(lines, thread, played) {
        Some(place) => {
            let line = head(layout.version) + place as u64 + 1;
            at_line(board, numbers, thread, line, &lines[place].operation)
        }
        None => after_last(layout.version, thread),
    }
}

// The line of a thread that isn't forked, if some line forks it.
fn unborn(lines: &[Line], thread: u32) -> Text
    ensures { result.bytes ≡ unborn_text lines.now thread }
{
    if is_born(lines, thread) {
        said_of(thread, " is not forked yet\n")
    } else {
        nothing()
    }
}

// The line of the thread.
fn line_of(layout: &Layout, lines: &[Line], board: &Board, numbers: &[u64], thread: u32) -> Text
    requires { thread < vec_len board.now.threads }
    ensures { result.bytes ≡ life_text layout.now lines.now numbers.now (scene_of (moment_of board.now)) thread
        ((spec_of (moment_of board.now)).life thread) }
{
    let found = board.threads[thread as usize];
    match found.place {
        Place::Unborn => unborn(lines, thread),
        Place::Ended => nothing(),
        _ => stands(layout, lines, board, numbers, thread, found.played),
    }
}

// The line that says how many events led there.
fn first_line(events: u64) -> Text
    ensures { result.bytes ≡ stuck_line events }
{
    let mut line = Text::new();
    push_with_number(&mut line, "firefly: stuck after ", events);
    line.push_str(" events\n");
    line
}

fn push_line(text: &mut String, line: &Text) -> Result<(), AllocError>
    ensures { OnOk result (string_bytes text.new ≡ string_bytes text.old ++ line.now.bytes) }
{
    text.push_str(line.as_str())
}

/// Returns what is reported of a play that gets stuck.
pub fn report(alloc: Global, script: &Script, stuck: &Stuck) -> Result<String, AllocError>
    requires { IsBoard script.now.layout (moment_of stuck.now.board) }
    ensures { IfOk result (λ text. string_bytes text ≡ stuck_text script.now.layout script.now.lines stuck.now.events.items
        stuck.now.numbers.items (scene_of (moment_of stuck.now.board))) }
{
    let layout = script.layout();
    let lines = script.lines();
    let numbers = stuck.numbers.as_slice();
    let mut text = String::new(alloc);
    push_line(&mut text, &first_line(stuck.events.len() as u64))?;
    for thread in 0..layout.threads {
        let line = line_of(&layout, lines, &stuck.board, numbers, thread);
        push_line(&mut text, &line)?;
    }
    Ok(text)
}
