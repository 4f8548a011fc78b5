//! What is shown the events of a trace while it is checked.
ghost use Rattle.std.specs.Prelude.{List, ℕ, [], ◌∷◌, ◌++◌, OnOk, IfErr};
ghost use Rattle.larch_actions.specs.Layout.{IsLawful};
ghost use Rattle.larch_actions.specs.declared.event.Layout.{Layout};
ghost use Rattle.larch_actions.specs.declared.event.Event.{Event};
ghost use Rattle.trace_check.specs.Watching.{IsNext};

use larch_actions::{Event, Layout};

/// What is shown the events of a trace, one after another, while the trace is checked (`check_with`). It may stop the check.
pub trait Watch {
    /// Why it stopped the check.
    type Stop: Drop;

    // What has become of a watcher that was shown this layout and these events of a trace.
    ghost keeps: { Self → Layout → List Event → Self → Type 0 };

    // What has become of one that stopped when it was shown the last of these events, or the layout where there are none.
    ghost stops: { Self → Layout → List Event → Self → Self.Stop → Type 0 };

    /// Is shown the layout of the trace. Called once, and first.
    fn begin(&mut self, layout: &Layout) -> Result<(), Self::Stop>
        requires { IsLawful layout.now }
        ensures kept { OnOk result (keeps self.old layout.now [] self.new) }
        ensures stopped { IfErr result (stops self.old layout.now [] self.new) };

    /// Is shown the next event and its place. The event keeps the published rules.
    fn see(&mut self, place: u64, e: &Event) -> Result<(), Self::Stop>
        requires { (first : Self) × (l : Layout) × (es : List Event) × keeps first l es self.old × IsNext l es place e.now }
        ensures kept { (first : Self) (l : Layout) (es : List Event) → keeps first l es self.old → IsNext l es place e.now
            → OnOk result (keeps first l (es ++ e.now ∷ []) self.new) }
        ensures stopped { (first : Self) (l : Layout) (es : List Event) → keeps first l es self.old → IsNext l es place e.now
            → IfErr result (stops first l (es ++ e.now ∷ []) self.new) };
}
