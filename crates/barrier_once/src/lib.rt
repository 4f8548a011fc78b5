//! A cyclic barrier, a sum and a once cell.
//!
//! Promises: all threads of a package arrive at the barrier equally often, but for one round; a
//! thread that leaves the barrier knows that every thread has arrived as often as itself. So every
//! thread that asks for the sum between two arrivals gets the same number, and all agree on one
//! value of the once cell. Built on mutexes and a condition of the package. Nothing is promised
//! about waiting: not that a thread ever leaves the barrier.
#![tactic(auto)]

mod calls;
mod cell;
pub mod laws;
mod round_uses;
mod share;

pub use calls::{add_own, agree, arrive, total};
pub use cell::{Cell, RoundAt};
pub use round_uses::{AddsOwn, Agrees, Arrives, Leaves, Passes, RoundUses};
pub use share::{RoundShare, RoundWorld};
