//! Chains: how far a search goes along events that may be looked at alone.
ghost use Rattle.std.specs.Prelude.{◌≡◌, ◌<◌, Some, IfOk};
ghost use Rattle.script_text.specs.Text.{IsScript};
ghost use Rattle.script_text.specs.Runs.{event};
ghost use Rattle.larch_actions.specs.declared.event.Event.{Event};
ghost use Rattle.script_plays.specs.declared.choice.Choice.{Choice};
ghost use Rattle.script_plays.specs.Scenes.{Scene};
ghost use Rattle.script_plays.specs.Reduced.{GoesAlone};
ghost use Rattle.script_search.specs.Boards.{moment_of, scene_of, IsBoard};
ghost use Rattle.script_search.specs.Chains.{IsAloneOf, IsNext, Chains};
ghost use Rattle.script_search.specs.Tries.{MayTry};

use crate::board::Board;
use crate::moves::next_scenes;
use crate::plan::Plan;
use crate::step::last_choices;
use larch_actions::{Event, ThreadId};
use script_plays::{Choice, choices, is_alone};
use std::alloc::{AllocError, Global};

// The first choice of the thread at its line, or after its last one. No other may be looked at alone.
fn first_choice(plan: &Plan, board: &Board, thread: u32) -> Option<Choice>
    requires board { IsBoard plan.now.layout (moment_of board.now) }
    requires thread { thread < plan.now.layout.threads }
    requires script { IsScript plan.now.layout plan.now.lines }
    ensures may { (c : Choice) → result ≡ Some c → MayTry plan.now.layout plan.now.lines (moment_of board.now) thread c }
    ensures only { (e : Event) (s : Scene) → e.thread.0 ≡ thread
        → GoesAlone plan.now.layout plan.now.lines (scene_of (moment_of board.now)) e s
        → (c : Choice) × (result ≡ Some c) × (e ≡ event thread c.action) }
{
    let played = board.played(thread);
    match plan.line(thread, played) {
        None => last_choices(plan.layout().version)[0],
        Some(line) => choices(&line.operation)[0],
    }
}

// The event of the thread that may be looked at alone, if it has one that is possible, and the board after it.
fn alone_of(
    alloc: Global,
    plan: &Plan,
    board: &Board,
    thread: u32,
) -> Result<Option<(Event, Board)>, AllocError>
    requires board { IsBoard plan.now.layout (moment_of board.now) }
    requires thread { thread < plan.now.layout.threads }
    requires script { IsScript plan.now.layout plan.now.lines }
    ensures { IfOk result (IsAloneOf plan.now.layout plan.now.lines (moment_of board.now) thread) }
{
    let choice = match first_choice(plan, board, thread) {
        None => return Ok(None),
        Some(choice) => choice,
    };
    if !is_alone(&choice.action) {
        return Ok(None);
    }
    match next_scenes(alloc, plan, board, thread, &choice)? {
        None => Ok(None),
        Some(next) => {
            let thread = ThreadId(thread);
            let action = choice.action;
            Ok(Some((Event { thread, action }, next)))
        }
    }
}

// The same of the first thread that has one.
fn next_alone(
    alloc: Global,
    plan: &Plan,
    board: &Board,
) -> Result<Option<(Event, Board)>, AllocError>
    requires board { IsBoard plan.now.layout (moment_of board.now) }
    requires script { IsScript plan.now.layout plan.now.lines }
    ensures { IfOk result (IsNext plan.now.layout plan.now.lines (moment_of board.now)) }
{
    for thread in 0..plan.layout().threads {
        if let Some(alone) = alone_of(alloc, plan, board, thread)? {
            return Ok(Some(alone));
        }
    }
    Ok(None)
}

/// Makes the event of the first thread whose next one may be looked at alone, again and again until no thread has such an event. Adds
/// the events to those given, and returns the board after them.
pub fn go_along(
    alloc: Global,
    plan: &Plan,
    board: Board,
    events: &mut Vec<Event>,
) -> Result<Board, AllocError>
    requires board { IsBoard plan.now.layout (moment_of board) }
    requires script { IsScript plan.now.layout plan.now.lines }
    ensures { IfOk result (λ b. Chains plan.now.layout plan.now.lines (moment_of board) events.old.items events.new.items (moment_of b)) }
{
    let mut at = board;
    while let Some((event, next)) = next_alone(alloc, plan, &at)? {
        events.push(event)?;
        at = next;
    }
    Ok(at)
}
