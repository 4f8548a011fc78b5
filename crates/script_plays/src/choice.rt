//! The choices that a call has at its line.
ghost use Rattle.std.specs.Prelude.{◌≡◌, ◌∷◌, []};
ghost use Rattle.larch_actions.specs.declared.event.Action.TheVariants as Action;
ghost use Rattle.script_plays.specs.declared.choice.Turn.TheVariants as Turn;
ghost use Rattle.script_plays.specs.Choices.{choices, next, stays, three};

use larch_actions::{Action, CondId, MutexId};
use script_text::Operation;

/// Whether a thread stays at its line after an action, or goes on to its next one.
#[derive(Clone, Copy, Debug, PartialEq, Eq)]
pub enum Turn {
    Stays,
    Next,
}

/// An action that a thread may make at its line, and where the thread is then.
#[derive(Clone, Copy, Debug, PartialEq, Eq)]
pub struct Choice {
    pub action: Action,
    pub turn: Turn,
}

/// The choices of a line, of which there are at most three.
pub type Choices = [Option<Choice>; 3];

// The action, after which the thread goes on to its next line.
fn next(action: Action) -> Choice
    ensures { result ≡ record { action = action; turn = Turn.Next } }
{
    Choice {
        action,
        turn: Turn::Next,
    }
}

// The action, after which the thread stays at its line.
fn stays(action: Action) -> Choice
    ensures { result ≡ record { action = action; turn = Turn.Stays } }
{
    Choice {
        action,
        turn: Turn::Stays,
    }
}

fn none() -> Choices
    ensures { result ≡ three [] }
{
    [None, None, None]
}

fn one(first: Choice) -> Choices
    ensures { result ≡ three (first ∷ []) }
{
    [Some(first), None, None]
}

fn two(first: Choice, second: Choice) -> Choices
    ensures { result ≡ three (first ∷ second ∷ []) }
{
    [Some(first), Some(second), None]
}

fn each(first: Choice, second: Choice, third: Choice) -> Choices
    ensures { result ≡ three (first ∷ second ∷ third ∷ []) }
{
    [Some(first), Some(second), Some(third)]
}

// The choices of a wait that goes on so.
fn waits(mutex: MutexId, cond: CondId, then: Choice) -> Choices
    ensures { result ≡ three (stays (Action.Enqueue mutex cond) ∷ then ∷ []) }
{
    two(stays(Action::Enqueue { mutex, cond }), then)
}

// The choices of a wait that may be alerted, and goes on so where it isn't.
fn alertable(mutex: MutexId, cond: CondId, then: Choice) -> Choices
    ensures { result ≡ three (stays (Action.AlertEnqueue mutex cond) ∷ then ∷ next (Action.AlertRaise mutex cond) ∷ []) }
{
    each(
        stays(Action::AlertEnqueue { mutex, cond }),
        then,
        next(Action::AlertRaise { mutex, cond }),
    )
}

/// The choices of the operation, but for a signal.
pub fn choices(operation: &Operation) -> Choices
    ensures { result ≡ three (choices operation.now) }
{
    match *operation {
        Operation::Acquire { mutex } => one(next(Action::Acquire { mutex })),
        Operation::Release { mutex } => one(next(Action::Release { mutex })),
        Operation::Wait { mutex, cond } => waits(mutex, cond, next(Action::Resume { mutex, cond })),
        Operation::AlertWait { mutex, cond } => {
            alertable(mutex, cond, next(Action::AlertReturn { mutex, cond }))
        }
        Operation::Signal { .. } => none(),
        Operation::Broadcast { cond } => one(next(Action::Broadcast { cond })),
        Operation::P { sem } => one(next(Action::P { sem })),
        Operation::V { sem } => one(next(Action::V { sem })),
        Operation::Alert { who } => one(next(Action::Alert { who })),
        Operation::TestAlert => two(
            next(Action::TestAlert { yes: true }),
            next(Action::TestAlert { yes: false }),
        ),
        Operation::AlertP { sem } => two(
            next(Action::AlertPReturn { sem }),
            next(Action::AlertPRaise { sem }),
        ),
        Operation::Add { .. } => none(),
        Operation::Until { mutex, cond, .. } => {
            waits(mutex, cond, stays(Action::Resume { mutex, cond }))
        }
        Operation::AlertUntil { mutex, cond, .. } => {
            alertable(mutex, cond, stays(Action::AlertReturn { mutex, cond }))
        }
        Operation::Fork { who } => one(next(Action::Fork { who })),
        Operation::Join { who } => one(next(Action::Join { who })),
    }
}
