//! All that may come next at one scene.
ghost use Rattle.std.specs.Prelude.{◌≡◌, ◌<◌, ◌≤◌, ◌||◌, ℕ, true, IfOk, IfErr, Some, None, slice_get, ⊤};
ghost use Rattle.script_text.specs.Text.{IsScript};
ghost use Rattle.script_text.specs.Runs.{event, lines_of};
ghost use Rattle.script_plays.specs.declared.choice.Choice.{Choice};
ghost use Rattle.script_search.specs.declared.found.Stop.TheVariants as Stop;
ghost use Rattle.script_search.specs.Boards.{moment_of, played_of, IsBoard};
ghost use Rattle.script_search.specs.Tries.{IsSound, IsAt, Tries, Exceeds, MayTry, MayTryAll, IsTried, AreTried, MaySignal, Leaves};
ghost use Rattle.larch_actions.specs.Sets.{in_set};

use crate::board::Board;
use crate::chain::go_along;
use crate::found::{Found, Stop};
use crate::moves::next_scenes;
use crate::plan::Plan;
use larch_actions::{Action, CondId, ThreadId, ThreadSet, Version};
use script_plays::{Choice, Choices, Turn, choices};
use script_text::Operation;
use std::alloc::Global;

/// A thread at a scene, which stands at this place among those found.
#[derive(Clone, Copy)]
pub struct Node<'a> {
    pub board: &'a Board,
    pub place: u32,
    pub thread: u32,
}

// Tries one choice of the thread, and says whether it may make it. Adds the scene at the end of the chain after it.
fn attempt(
    alloc: Global,
    plan: &Plan,
    found: &mut Found,
    node: &Node,
    choice: &Choice,
) -> Result<bool, Stop>
    requires sound { IsSound plan.now.layout plan.now.lines found.old }
    requires there { IsAt found.old node.now.place (moment_of node.now.board.now) }
    requires board { IsBoard plan.now.layout (moment_of node.now.board.now) }
    requires may { MayTry plan.now.layout plan.now.lines (moment_of node.now.board.now) node.now.thread choice.now }
    requires script { IsScript plan.now.layout plan.now.lines }
    ensures ok { IfOk result (Tries plan.now.layout plan.now.lines found.old found.new (moment_of node.now.board.now)
        (λ e. e ≡ event node.now.thread choice.now.action)) }
    ensures full { IfErr result (λ stop. stop ≡ Stop.Limit → Exceeds plan.now.layout plan.now.lines found.old.limit) }
{
    let next = match next_scenes(alloc, plan, node.board, node.thread, choice)? {
        None => return Ok(false),
        Some(next) => next,
    };
    let mut events = Vec::new(alloc);
    let end = go_along(alloc, plan, next, &mut events)?;
    match found.add(alloc, &end, node.place) {
        Ok(()) => Ok(true),
        Err(stop) => Err(stop),
    }
}

// Tries the choice, if there is one.
fn maybe(
    alloc: Global,
    plan: &Plan,
    found: &mut Found,
    node: &Node,
    choice: &Option<Choice>,
) -> Result<bool, Stop>
    requires sound { IsSound plan.now.layout plan.now.lines found.old }
    requires there { IsAt found.old node.now.place (moment_of node.now.board.now) }
    requires board { IsBoard plan.now.layout (moment_of node.now.board.now) }
    requires may { (c : Choice) → choice.now ≡ Some c
        → MayTry plan.now.layout plan.now.lines (moment_of node.now.board.now) node.now.thread c }
    requires script { IsScript plan.now.layout plan.now.lines }
    ensures ok { IfOk result (Tries plan.now.layout plan.now.lines found.old found.new (moment_of node.now.board.now)
        (IsTried node.now.thread choice.now)) }
    ensures full { IfErr result (λ stop. stop ≡ Stop.Limit → Exceeds plan.now.layout plan.now.lines found.old.limit) }
{
    match choice {
        None => Ok(false),
        Some(choice) => match attempt(alloc, plan, found, node, choice) {
            Ok(moves) => Ok(moves),
            Err(stop) => Err(stop),
        },
    }
}

fn either(a: bool, b: bool) -> bool
    ensures { result ≡ (a || b) }
{
    a || b
}

// Tries each of these choices.
fn each_choice(
    alloc: Global,
    plan: &Plan,
    found: &mut Found,
    node: &Node,
    choices: &Choices,
) -> Result<bool, Stop>
    requires sound { IsSound plan.now.layout plan.now.lines found.old }
    requires there { IsAt found.old node.now.place (moment_of node.now.board.now) }
    requires board { IsBoard plan.now.layout (moment_of node.now.board.now) }
    requires may { MayTryAll plan.now.layout plan.now.lines (moment_of node.now.board.now) node.now.thread choices.now }
    requires script { IsScript plan.now.layout plan.now.lines }
    ensures ok { IfOk result (Tries plan.now.layout plan.now.lines found.old found.new (moment_of node.now.board.now)
        (AreTried node.now.thread choices.now)) }
    ensures full { IfErr result (λ stop. stop ≡ Stop.Limit → Exceeds plan.now.layout plan.now.lines found.old.limit) }
{
    let first = match maybe(alloc, plan, found, node, &choices[0]) {
        Ok(first) => first,
        Err(stop) => return Err(stop),
    };
    let second = match maybe(alloc, plan, found, node, &choices[1]) {
        Ok(second) => second,
        Err(stop) => return Err(stop),
    };
    let third = match maybe(alloc, plan, found, node, &choices[2]) {
        Ok(third) => third,
        Err(stop) => return Err(stop),
    };
    Ok(either(either(first, second), third))
}

// A set that a signal leaves in the condition, as far as it is decided: for the threads before this one.
#[derive(Clone, Copy)]
struct Part {
    cond: CondId,
    before: u32,
    left: ThreadSet,
}

// Tries each signal whose set is like this one as far as that is decided.
fn signals(
    alloc: Global,
    plan: &Plan,
    found: &mut Found,
    node: &Node,
    part: &Part,
) -> Result<bool, Stop>
    requires sound { IsSound plan.now.layout plan.now.lines found.old }
    requires there { IsAt found.old node.now.place (moment_of node.now.board.now) }
    requires board { IsBoard plan.now.layout (moment_of node.now.board.now) }
    requires may { MaySignal plan.now.layout plan.now.lines (moment_of node.now.board.now) node.now.thread part.now.cond }
    requires before { part.now.before ≤ plan.now.layout.threads }
    requires few { plan.now.layout.threads ≤ 256 }
    requires left { (u : ℕ) → in_set part.now.left u ≡ true → u < part.now.before }
    requires script { IsScript plan.now.layout plan.now.lines }
    ensures ok { IfOk result (Tries plan.now.layout plan.now.lines found.old found.new (moment_of node.now.board.now)
        (Leaves (moment_of node.now.board.now) plan.now.layout.threads node.now.thread part.now.cond part.now.left part.now.before)) }
    ensures full { IfErr result (λ stop. stop ≡ Stop.Limit → Exceeds plan.now.layout plan.now.lines found.old.limit) }
{
    let cond = part.cond;
    let before = part.before;
    let left = part.left;
    if before == plan.layout().threads {
        let choice = Choice {
            action: Action::Signal { cond, left },
            turn: Turn::Next,
        };
        return match attempt(alloc, plan, found, node, &choice) {
            Ok(moves) => Ok(moves),
            Err(stop) => Err(stop),
        };
    }
    let after = before + 1;
    let out = Part {
        cond,
        before: after,
        left,
    };
    let without = match signals(alloc, plan, found, node, &out) {
        Ok(without) => without,
        Err(stop) => return Err(stop),
    };
    if !node.board.is_inside(cond.0, before) {
        return Ok(without);
    }
    let mut more = left;
    more.insert(ThreadId(before));
    let stays = Part {
        cond,
        before: after,
        left: more,
    };
    let with = match signals(alloc, plan, found, node, &stays) {
        Ok(with) => with,
        Err(stop) => return Err(stop),
    };
    Ok(either(without, with))
}

// All that a thread may do after its last line.
fn at_end(alloc: Global, plan: &Plan, found: &mut Found, node: &Node) -> Result<bool, Stop>
    requires sound { IsSound plan.now.layout plan.now.lines found.old }
    requires there { IsAt found.old node.now.place (moment_of node.now.board.now) }
    requires board { IsBoard plan.now.layout (moment_of node.now.board.now) }
    requires thread { node.now.thread < plan.now.layout.threads }
    requires script { IsScript plan.now.layout plan.now.lines }
    requires past { slice_get (lines_of node.now.thread plan.now.lines) (played_of (moment_of node.now.board.now) node.now.thread) ≡ None }
    ensures ok { IfOk result (Tries plan.now.layout plan.now.lines found.old found.new (moment_of node.now.board.now)
        (λ e. e.thread.0 ≡ node.now.thread)) }
    ensures full { IfErr result (λ stop. stop ≡ Stop.Limit → Exceeds plan.now.layout plan.now.lines found.old.limit) }
{
    match plan.layout().version {
        Version::One => Ok(false),
        Version::Two => {
            let choice = Choice {
                action: Action::End,
                turn: Turn::Stays,
            };
            match attempt(alloc, plan, found, node, &choice) {
                Ok(moves) => Ok(moves),
                Err(stop) => Err(stop),
            }
        }
    }
}

// All that one thread may do.
fn expand(alloc: Global, plan: &Plan, found: &mut Found, node: &Node) -> Result<bool, Stop>
    requires sound { IsSound plan.now.layout plan.now.lines found.old }
    requires there { IsAt found.old node.now.place (moment_of node.now.board.now) }
    requires board { IsBoard plan.now.layout (moment_of node.now.board.now) }
    requires thread { node.now.thread < plan.now.layout.threads }
    requires few { plan.now.layout.threads ≤ 256 }
    requires script { IsScript plan.now.layout plan.now.lines }
    ensures ok { IfOk result (Tries plan.now.layout plan.now.lines found.old found.new (moment_of node.now.board.now)
        (λ e. e.thread.0 ≡ node.now.thread)) }
    ensures full { IfErr result (λ stop. stop ≡ Stop.Limit → Exceeds plan.now.layout plan.now.lines found.old.limit) }
{
    let played = node.board.played(node.thread);
    match plan.line(node.thread, played) {
        None => at_end(alloc, plan, found, node),
        Some(line) => match line.operation {
            Operation::Signal { cond } => {
                let part = Part {
                    cond,
                    before: 0,
                    left: ThreadSet::empty(),
                };
                match signals(alloc, plan, found, node, &part) {
                    Ok(moves) => Ok(moves),
                    Err(stop) => Err(stop),
                }
            }
            _ => match each_choice(alloc, plan, found, node, &choices(&line.operation)) {
                Ok(moves) => Ok(moves),
                Err(stop) => Err(stop),
            },
        },
    }
}

/// All that may come next at the scene at this place, and whether there is anything.
pub fn expand_all(
    alloc: Global,
    plan: &Plan,
    found: &mut Found,
    board: &Board,
    place: u32,
) -> Result<bool, Stop>
    requires sound { IsSound plan.now.layout plan.now.lines found.old }
    requires there { IsAt found.old place (moment_of board.now) }
    requires board { IsBoard plan.now.layout (moment_of board.now) }
    requires few { plan.now.layout.threads ≤ 256 }
    requires script { IsScript plan.now.layout plan.now.lines }
    ensures ok { IfOk result (Tries plan.now.layout plan.now.lines found.old found.new (moment_of board.now) (λ e. ⊤)) }
    ensures full { IfErr result (λ stop. stop ≡ Stop.Limit → Exceeds plan.now.layout plan.now.lines found.old.limit) }
{
    let mut moves = false;
    for thread in 0..plan.layout().threads {
        let node = Node {
            board,
            place,
            thread,
        };
        match expand(alloc, plan, found, &node) {
            Ok(more) => moves = either(moves, more),
            Err(stop) => return Err(stop),
        }
    }
    Ok(moves)
}
