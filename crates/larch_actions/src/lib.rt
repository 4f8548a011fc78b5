//! The published atomic actions of the threads package as plain data, the state that they speak of, and what each does to it.
//!
//! Promises: `State::apply` is an action's row exactly, or names the first clause that fails; `State::summary` counts the state;
//! `Action::row` gives the word, the names and the ending of an action, and `Row::action` the action back.
//! Stands on nothing. It does not know how the package carries the actions out.
#![tactic(auto)]

mod event;
mod kind;
mod rows;
mod state;
mod thread_set;

pub use event::{
    Action, Broken, CondId, Event, Layout, Life, MOST_OBJECTS, MOST_THREADS, MutexId, Pending,
    SemId, ThreadId, Version,
};
pub use kind::Kind;
pub use rows::{Ending, Endings, Kinds, Numbers, Row, WORDS, Word};
pub use state::{State, Totals};
pub use thread_set::ThreadSet;
