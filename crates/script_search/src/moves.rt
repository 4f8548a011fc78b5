//! How a scene goes on.
ghost use Rattle.std.specs.Prelude.{◌≡◌, ◌<◌, IfOk, length};
ghost use Rattle.larch_actions.specs.Layout.{HasNames};
ghost use Rattle.script_text.specs.Runs.{event, lines_of};
ghost use Rattle.script_plays.specs.declared.choice.Turn.TheVariants as Turn;
ghost use Rattle.script_plays.specs.Choices.{Gives};
ghost use Rattle.script_plays.specs.Scenes.{rest_of, turned};
ghost use Rattle.script_search.specs.Boards.{moment_of, spec_of, played_of, IsBoard, SameSize};
ghost use Rattle.script_search.specs.Moves.{Moves};

use crate::board::Board;
use crate::plan::Plan;
use script_plays::{Choice, Turn};
use std::alloc::{AllocError, Global};

// The thread stays at its line, or goes on to the next.
fn turn(board: &mut Board, t: u32, turn: Turn)
    requires thread { t < length (moment_of board.old).threads }
    requires few { turn ≡ Turn.Next → played_of (moment_of board.old) t < 100000 }
    ensures sizes { SameSize (moment_of board.old) (moment_of board.new) }
    ensures spec { spec_of (moment_of board.new) ≡ spec_of (moment_of board.old) }
    ensures played { played_of (moment_of board.new) ≡ turned turn t (played_of (moment_of board.old)) }
{
    match turn {
        Turn::Stays => {}
        Turn::Next => {
            let played = board.played(t) + 1;
            board.set_played(t, played);
        }
    }
}

/// The board after this choice of the thread, if it may make it.
pub fn next_scenes(
    alloc: Global,
    plan: &Plan,
    board: &Board,
    t: u32,
    choice: &Choice,
) -> Result<Option<Board>, AllocError>
    requires board { IsBoard plan.now.layout (moment_of board.now) }
    requires named { HasNames plan.now.layout (event t choice.now.action) }
    requires gives { Gives plan.now.layout.version (rest_of plan.now.lines (played_of (moment_of board.now)) t) choice.now }
    ensures { IfOk result (Moves plan.now.layout plan.now.lines (moment_of board.now) (event t choice.now.action)) }
{
    let mut next = board.copy(alloc)?;
    if !next.act(&plan.layout(), t, &choice.action) {
        return Ok(None);
    }
    turn(&mut next, t, choice.turn);
    plan.settle(&mut next, t);
    Ok(Some(next))
}
