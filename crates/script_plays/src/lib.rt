//! The plays of a script: the histories that the published table allows for its lines.
//!
//! A scene is how many lines of each thread are played, and the state of the specification. The definitions say which choices a line
//! gives, how a scene goes on to the next, and when a script can get stuck (specs/Plays.antt). They know no search.
//! Promises: `choices` gives the choices of an operation. The laws say that a play is legal, has one scene and is bounded, that no play
//! of a script that ends gets stuck, and that each such play can be finished.
//! `is_alone` says which events may be looked at alone (specs/Reduced.antt): if a play gets stuck, so does one of those that a search sees
//! which follows, in a scene where such an event is possible, one of them and no other event.
//! Stands on script_text and larch_actions.
#![tactic(auto)]

mod alone;
mod choice;
pub mod laws;

pub use alone::is_alone;
pub use choice::{Choice, Choices, Turn, choices};
