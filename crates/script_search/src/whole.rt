//! Whether all threads of a scene are finished.
ghost use Rattle.std.specs.Prelude.{◌≡◌, ◌<◌, ◌↔◌, IsTrue};
ghost use Rattle.script_plays.specs.Plays.{IsFinished, AllFinished};
ghost use Rattle.script_search.specs.Boards.{moment_of, scene_of, IsBoard};

use crate::board::Board;
use crate::plan::Plan;
use larch_actions::Version;

fn is_finished(plan: &Plan, board: &Board, t: u32) -> bool
    requires thread { t < plan.now.layout.threads }
    requires board { IsBoard plan.now.layout (moment_of board.now) }
    ensures { IsTrue result ↔ IsFinished plan.now.layout.version plan.now.lines (scene_of (moment_of board.now)) t }
{
    match plan.layout().version {
        Version::One => plan.count(t) <= board.played(t),
        Version::Two => board.has_ended(t) || !plan.is_born(t),
    }
}

/// Whether all threads are finished.
pub fn is_whole(plan: &Plan, board: &Board) -> bool
    requires { IsBoard plan.now.layout (moment_of board.now) }
    ensures { IsTrue result ↔ AllFinished plan.now.layout plan.now.lines (scene_of (moment_of board.now)) }
{
    for t in 0..plan.layout().threads {
        if !is_finished(plan, board, t) {
            return false;
        }
    }
    true
}
