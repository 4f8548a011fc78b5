//! The checker on traces that are cut short by a budget or by a read that fails, at each byte. A source that counts its questions shows that none
//! is asked once the bytes decide. The traces that tie the definitions to the table of actions stand in runs/actions.runs, and .ci/every_byte
//! compares the program with a slow checker on changed and drawn traces.
//! Below it, the tests of what the checker stands on: sources and sinks, the state and its actions, the lines of a trace.
#![tactic(auto)]

#[cfg(test)]
mod actions;
#[cfg(test)]
mod cut_traces;
#[cfg(test)]
mod every_byte;
#[cfg(test)]
mod forks;
#[cfg(test)]
mod lines;
#[cfg(test)]
mod questions;
#[cfg(test)]
mod same;
#[cfg(test)]
mod sources;
#[cfg(test)]
mod streams;
#[cfg(test)]
mod verdicts;
