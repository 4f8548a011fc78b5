//! The search of all plays of a script, for one that gets stuck.
//!
//! Promises: `explore` says that a script ends only where each play of it is whole or can go on. Where it gives events, these are a play
//! that isn't whole and can't go on. Where it stops at a limit, more scenes than that are reached by plays.
//! Where a scene has an event that may be looked at alone, the search follows this one only, and doesn't keep the scene: it keeps the one
//! at the end of such events (`script_plays`). No stuck play is missed.
//! Stands on script_plays, whose definitions know no search, on indexmap and on smallvec. The boards found are kept as bytes, and are also the
//! queue of those to be looked at.
#![tactic(auto)]

mod board;
mod born;
mod chain;
mod expand;
mod explorer;
mod found;
mod moves;
mod pack;
mod plan;
mod step;
mod trace;
mod unpack;
mod whole;

pub use board::{Board, Place, Thread};
pub use born::is_born;
pub use explorer::{Answer, Stuck, explore};
pub use found::Stop;
