//! What is kept of the events that a check shows.
ghost use Rattle.std.specs.Prelude.{◌≡◌, []};
ghost use Rattle.trace_board.specs.Tracked.{tracked_of, tracked_since, extended, nothing_tracked};

use larch_actions::{Event, Layout};
use trace_board::board::TraceState;
use trace_check::Watch;

/// Notes each event on its board.
#[derive(Drop)]
pub struct Noting {
    pub board: TraceState,
}

impl Watch for Noting {
    type Stop = ();

    ghost keeps = { λ first l es now. tracked_of first.board ≡ nothing_tracked → tracked_of now.board ≡ tracked_since (extended [] es) };

    ghost stops = { λ first l es now stop. ⊥ };

    fn begin(&mut self, _layout: &Layout) -> Result<(), ()> {
        Ok(())
    }

    fn see(&mut self, place: u64, e: &Event) -> Result<(), ()> {
        self.board.note(place, e);
        Ok(())
    }
}
