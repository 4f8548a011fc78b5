//! The search of a script: whether it ends, or a play that gets stuck.
ghost use Rattle.std.specs.Prelude.{◌≡◌, ◌+◌, ◌<◌, ◌≤◌, IfOk, IfErr, MatchBool, MatchOption, length};
ghost use Rattle.script_text.specs.Text.{IsScript};
ghost use Rattle.script_plays.specs.Plays.{Ends};
ghost use Rattle.script_search.specs.declared.found.Stop.TheVariants as Stop;
ghost use Rattle.script_search.specs.Boards.{moment_of, played_of, IsBoard};
ghost use Rattle.script_search.specs.Explored.{AreNumbers, IsStuckAt, IsAnswer};
ghost use Rattle.script_search.specs.Founds.{moments_of};
ghost use Rattle.script_search.specs.Searches.{Searched, IsDead};
ghost use Rattle.script_search.specs.Tries.{Exceeds};

use crate::board::Board;
use crate::expand::expand_all;
use crate::found::{Found, Stop};
use crate::plan::Plan;
use crate::trace::trace;
use crate::whole::is_whole;
use larch_actions::Event;
use script_text::Script;
use std::alloc::{AllocError, Global};

/// A play that can't go on though not all threads are finished.
#[derive(Drop)]
pub struct Stuck {
    /// The events of the play.
    pub events: Vec<Event>,
    /// The number of each mutex after it, in order.
    pub numbers: Vec<u64>,
    /// The scene to which it leads.
    pub board: Board,
}

/// What a search says of a script.
#[derive(Drop)]
pub enum Answer {
    /// Each play is whole or can go on.
    Ends,
    /// This play is neither.
    Stuck(Stuck),
}

// The search at its start, with the first scene alone.
fn start(alloc: Global, plan: &Plan, limit: u32) -> Result<Found, Stop>
    ensures ok { IfOk result (λ f. Searched plan.now.layout plan.now.lines limit f 0) }
    ensures full { IfErr result (λ stop. stop ≡ Stop.Limit → Exceeds plan.now.layout plan.now.lines limit) }
{
    let layout = plan.layout();
    let board = Board::first(alloc, &layout)?;
    match Found::first(alloc, &layout, &board, limit) {
        Ok(found) => Ok(found),
        Err(stop) => Err(stop),
    }
}

// Looks at the board at the place: adds the scenes to which it leads, and says whether it is whole or goes on.
fn look(alloc: Global, plan: &Plan, found: &mut Found, place: u32, limit: u32) -> Result<bool, Stop>
    requires searched { Searched plan.now.layout plan.now.lines limit found.old place }
    requires there { place < length (moments_of found.old) }
    requires few { plan.now.layout.threads ≤ 256 }
    requires script { IsScript plan.now.layout plan.now.lines }
    ensures ok { IfOk result (λ b. MatchBool b (Searched plan.now.layout plan.now.lines limit found.new (place + 1))
        (IsDead plan.now.layout plan.now.lines found.new place)) }
    ensures full { IfErr result (λ stop. stop ≡ Stop.Limit → Exceeds plan.now.layout plan.now.lines limit) }
{
    let board = found.board(alloc, place)?;
    let moves = match expand_all(alloc, plan, found, &board, place) {
        Ok(moves) => moves,
        Err(stop) => return Err(stop),
    };
    if moves {
        return Ok(true);
    }
    Ok(is_whole(plan, &board))
}

// Looks at one board after another, and stops at one that is neither whole nor goes on.
fn search(alloc: Global, plan: &Plan, found: &mut Found, limit: u32) -> Result<Option<u32>, Stop>
    requires searched { Searched plan.now.layout plan.now.lines limit found.old 0 }
    requires few { plan.now.layout.threads ≤ 256 }
    requires script { IsScript plan.now.layout plan.now.lines }
    ensures ok { IfOk result (λ o. MatchOption o (Ends plan.now.layout plan.now.lines)
        (λ place. IsDead plan.now.layout plan.now.lines found.new place)) }
    ensures full { IfErr result (λ stop. stop ≡ Stop.Limit → Exceeds plan.now.layout plan.now.lines limit) }
{
    let mut place = 0;
    while found.has(place) {
        match look(alloc, plan, found, place, limit) {
            Ok(true) => place += 1,
            Ok(false) => return Ok(Some(place)),
            Err(stop) => return Err(stop),
        }
    }
    Ok(None)
}

// The number of each mutex.
fn numbers(alloc: Global, plan: &Plan, board: &Board) -> Result<Vec<u64>, AllocError>
    requires { IsBoard plan.now.layout (moment_of board.now) }
    ensures { IfOk result (λ v.
        AreNumbers plan.now.layout plan.now.lines (played_of (moment_of board.now)) plan.now.layout.mutexes v.items) }
{
    let mut numbers = Vec::new(alloc);
    for m in 0..plan.layout().mutexes {
        numbers.push(plan.number(board, m))?;
    }
    Ok(numbers)
}

// The play to the board at the place, which is neither whole nor goes on.
fn stuck_at(alloc: Global, plan: &Plan, found: &Found, place: u32) -> Result<Stuck, AllocError>
    requires dead { IsDead plan.now.layout plan.now.lines found.now place }
    requires few { plan.now.layout.threads ≤ 256 }
    requires script { IsScript plan.now.layout plan.now.lines }
    ensures { IfOk result (IsStuckAt plan.now.layout plan.now.lines) }
{
    let board = found.board(alloc, place)?;
    let events = trace(alloc, plan, found, place)?;
    let numbers = numbers(alloc, plan, &board)?;
    Ok(Stuck {
        events,
        numbers,
        board,
    })
}

// The search over a plan.
fn explore_plan(alloc: Global, plan: &Plan, limit: u32) -> Result<Answer, Stop>
    requires few { plan.now.layout.threads ≤ 256 }
    requires script { IsScript plan.now.layout plan.now.lines }
    ensures answer { IfOk result (IsAnswer plan.now.layout plan.now.lines) }
    ensures limit { IfErr result (λ stop. stop ≡ Stop.Limit → Exceeds plan.now.layout plan.now.lines limit) }
{
    let mut found = match start(alloc, plan, limit) {
        Ok(found) => found,
        Err(stop) => return Err(stop),
    };
    match search(alloc, plan, &mut found, limit) {
        Ok(None) => Ok(Answer::Ends),
        Ok(Some(place)) => Ok(Answer::Stuck(stuck_at(alloc, plan, &found, place)?)),
        Err(stop) => Err(stop),
    }
}

/// Searches all plays of the script for one that gets stuck. Fails with `Limit` if more scenes than `limit` are reached by plays before
/// the answer is known, and with `Memory` if memory runs out.
pub fn explore(alloc: Global, script: &Script, limit: u32) -> Result<Answer, Stop>
    ensures answer { IfOk result (IsAnswer script.now.layout script.now.lines) }
    ensures limit { IfErr result (λ stop. stop ≡ Stop.Limit → Exceeds script.now.layout script.now.lines limit) }
{
    let plan = Plan::new(alloc, script)?;
    match explore_plan(alloc, &plan, limit) {
        Ok(answer) => Ok(answer),
        Err(stop) => Err(stop),
    }
}
