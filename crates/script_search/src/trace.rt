//! The play that leads to a board.
ghost use Rattle.std.specs.Prelude.{◌≡◌, ◌<◌, ◌≤◌, ℕ, IfOk, length};
ghost use Rattle.script_text.specs.Text.{IsScript};
ghost use Rattle.script_plays.specs.Plays.{IsPlayTo};
ghost use Rattle.script_search.specs.Boards.{Moment, moment_of, scene_of};
ghost use Rattle.script_search.specs.Founds.{moments_of};
ghost use Rattle.script_search.specs.Tries.{IsSound, IsAt};

use crate::found::Found;
use crate::plan::Plan;
use crate::step::step;
use larch_actions::Event;
use std::alloc::{AllocError, Global};

/// The events of a play to the board at the place.
pub fn trace(
    alloc: Global,
    plan: &Plan,
    found: &Found,
    place: u32,
) -> Result<Vec<Event>, AllocError>
    requires sound { IsSound plan.now.layout plan.now.lines found.now }
    requires there { place < length (moments_of found.now) }
    requires few { plan.now.layout.threads ≤ 256 }
    requires script { IsScript plan.now.layout plan.now.lines }
    ensures { IfOk result (λ v. (m : Moment) → IsAt found.now place m → IsPlayTo plan.now.layout plan.now.lines v.items (scene_of m)) }
{
    let mut events = Vec::new(alloc);
    let mut at = place;
    while at > 0 {
        let parent = found.parent(at);
        let from = found.board(alloc, parent)?;
        let to = found.board(alloc, at)?;
        let mut last = step(alloc, plan, &from, &to)?;
        last.reverse();
        events.extend_from_slice(last.as_slice())?;
        at = parent;
    }
    events.reverse();
    Ok(events)
}
