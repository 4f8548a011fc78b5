//! Scripts.
ghost use Rattle.std.specs.Prelude.{◌≡◌, ◌<◌, length};

use crate::line::Line;
use larch_actions::Layout;
use std::marker::Model;

/// A layout, and lines of which each may come after those before it, at whose end no thread holds a mutex.
#[derive(Drop)]
pub struct Script {
    layout: Layout,
    lines: Vec<Line>,
}

impl Model for Script {
    ghost use Rattle.std.specs.Prelude.{◌≡◌, ◌<◌, length};
    ghost use Rattle.script_text.specs.Seen.{Seen};
    ghost use Rattle.script_text.specs.Text.{IsScript};

    ghost Value = { Seen };

    ghost view = { λ s. record { layout = s.layout; lines = s.lines.items } };

    ghost invariant = { λ s. IsScript s.layout s.lines.items × (length s.lines.items < 100000) };
}

impl Script {
    ghost use Rattle.larch_actions.specs.Layout.{IsLawful};
    ghost use Rattle.script_text.specs.Text.{IsScript};

    /// A script of these lines.
    pub(crate) fn new(layout: Layout, lines: Vec<Line>) -> Script
        requires script { IsScript layout lines.items }
        requires few { length lines.items < 100000 }
        ensures layout { result.layout ≡ layout }
        ensures lines { result.lines ≡ lines.items }
    {
        Script { layout, lines }
    }

    /// Its version, and how many threads, mutexes, conditions and semaphores it has.
    pub fn layout(&self) -> Layout
        ensures layout { result ≡ self.now.layout }
        ensures lawful { IsLawful result }
    {
        self.layout
    }

    /// Its lines, in order.
    pub fn lines(&self) -> &[Line]
        ensures lines { result.now ≡ self.now.lines }
        ensures script { IsScript self.now.layout self.now.lines }
        ensures few { length self.now.lines < 100000 }
    {
        self.lines.as_slice()
    }
}
