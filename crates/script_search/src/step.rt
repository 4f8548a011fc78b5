//! Which event, and the chain after it, lead from one board to another.
ghost use Rattle.std.specs.Prelude.{◌≡◌, ◌<◌, ◌≤◌, ◌↔◌, ℕ, IsTrue, IfOk};
ghost use Rattle.larch_actions.specs.declared.event.Event.{Event};
ghost use Rattle.larch_actions.specs.Sets.{in_set};
ghost use Rattle.script_text.specs.Runs.{event};
ghost use Rattle.script_text.specs.Text.{IsScript};
ghost use Rattle.script_plays.specs.Choices.{three};
ghost use Rattle.script_search.specs.Boards.{moment_of, spec_of, IsBoard};
ghost use Rattle.script_search.specs.Keys.{key_of};
ghost use Rattle.script_search.specs.Tries.{MayTry};
ghost use Rattle.script_search.specs.Ways.{Leads, LeadsBy, IsStep, AreWays, last_choices};

use crate::board::Board;
use crate::chain::go_along;
use crate::moves::next_scenes;
use crate::pack::pack;
use crate::plan::Plan;
use larch_actions::{Action, Event, ThreadId, ThreadSet, Version};
use script_plays::{Choice, Choices, Turn, choices};
use script_text::Operation;
use std::alloc::{AllocError, Global};

// The threads in the condition.
fn members(plan: &Plan, board: &Board, cond: u32) -> ThreadSet
    requires few { plan.now.layout.threads ≤ 256 }
    requires board { IsBoard plan.now.layout (moment_of board.now) }
    ensures { (u : ℕ) → in_set result u ≡ (spec_of (moment_of board.now)).members cond u }
{
    let mut set = ThreadSet::empty();
    for t in 0..plan.layout().threads {
        if board.is_inside(cond, t) {
            set.insert(ThreadId(t));
        }
    }
    set
}

/// The choices of a thread after its last line.
pub fn last_choices(version: Version) -> Choices
    ensures { result ≡ three (last_choices version) }
{
    match version {
        Version::One => [None, None, None],
        Version::Two => {
            let end = Choice {
                action: Action::End,
                turn: Turn::Stays,
            };
            [Some(end), None, None]
        }
    }
}

// The choices by which the thread may lead from the one board to the other: a signal leaves those that are in the condition then.
fn ways(plan: &Plan, from: &Board, to: &Board, t: u32) -> Choices
    requires from { IsBoard plan.now.layout (moment_of from.now) }
    requires to { IsBoard plan.now.layout (moment_of to.now) }
    requires thread { t < plan.now.layout.threads }
    requires few { plan.now.layout.threads ≤ 256 }
    requires script { IsScript plan.now.layout plan.now.lines }
    ensures { AreWays plan.now.layout plan.now.lines (moment_of from.now) (moment_of to.now) t result }
{
    let played = from.played(t);
    match plan.line(t, played) {
        None => last_choices(plan.layout().version),
        Some(line) => match line.operation {
            Operation::Signal { cond } => {
                let left = members(plan, to, cond.0);
                let signal = Choice {
                    action: Action::Signal { cond, left },
                    turn: Turn::Next,
                };
                [Some(signal), None, None]
            }
            _ => choices(&line.operation),
        },
    }
}

// Whether the boards have the same numbers.
fn is_same(alloc: Global, a: &Board, b: &Board) -> Result<bool, AllocError>
    ensures { IfOk result (λ same. IsTrue same ↔ (key_of (moment_of a.now) ≡ key_of (moment_of b.now))) }
{
    let key = pack(alloc, a)?;
    let other = pack(alloc, b)?;
    Ok(key.as_slice() == other.as_slice())
}

// The events from the one board to the other if they are this choice and the chain after it.
fn leads(
    alloc: Global,
    plan: &Plan,
    from: &Board,
    to: &Board,
    t: u32,
    choice: &Choice,
) -> Result<Option<Vec<Event>>, AllocError>
    requires from { IsBoard plan.now.layout (moment_of from.now) }
    requires to { IsBoard plan.now.layout (moment_of to.now) }
    requires may { MayTry plan.now.layout plan.now.lines (moment_of from.now) t choice.now }
    requires script { IsScript plan.now.layout plan.now.lines }
    ensures { IfOk result (IsStep plan.now.layout plan.now.lines (moment_of from.now) (moment_of to.now)
        (λ e. e ≡ event t choice.now.action)) }
{
    let board = match next_scenes(alloc, plan, from, t, choice)? {
        None => return Ok(None),
        Some(board) => board,
    };
    let thread = ThreadId(t);
    let action = choice.action;
    let mut events = Vec::new(alloc);
    events.push(Event { thread, action })?;
    let end = go_along(alloc, plan, board, &mut events)?;
    if is_same(alloc, &end, to)? {
        return Ok(Some(events));
    }
    Ok(None)
}

// The events from the one board to the other, if they are one of the thread and the chain after it.
fn step_of(
    alloc: Global,
    plan: &Plan,
    from: &Board,
    to: &Board,
    t: u32,
) -> Result<Option<Vec<Event>>, AllocError>
    requires from { IsBoard plan.now.layout (moment_of from.now) }
    requires to { IsBoard plan.now.layout (moment_of to.now) }
    requires thread { t < plan.now.layout.threads }
    requires few { plan.now.layout.threads ≤ 256 }
    requires script { IsScript plan.now.layout plan.now.lines }
    ensures { IfOk result (IsStep plan.now.layout plan.now.lines (moment_of from.now) (moment_of to.now) (λ e. e.thread.0 ≡ t)) }
{
    let ways = ways(plan, from, to, t);
    for k in 0..3 {
        if let Some(choice) = ways[k] {
            if let Some(events) = leads(alloc, plan, from, to, t, &choice)? {
                return Ok(Some(events));
            }
        }
    }
    Ok(None)
}

/// The events that lead from the one board to the other: one, and the chain after it.
pub fn step(alloc: Global, plan: &Plan, from: &Board, to: &Board) -> Result<Vec<Event>, AllocError>
    requires from { IsBoard plan.now.layout (moment_of from.now) }
    requires to { IsBoard plan.now.layout (moment_of to.now) }
    requires few { plan.now.layout.threads ≤ 256 }
    requires script { IsScript plan.now.layout plan.now.lines }
    requires some { (e : Event) × Leads plan.now.layout plan.now.lines (moment_of from.now) (moment_of to.now) e }
    ensures { IfOk result (λ v. LeadsBy plan.now.layout plan.now.lines (moment_of from.now) (moment_of to.now) v.items) }
{
    for t in 0..plan.layout().threads {
        if let Some(events) = step_of(alloc, plan, from, to, t)? {
            return Ok(events);
        }
    }
    unreachable!()
}
