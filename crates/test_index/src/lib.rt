//! Tests of the index by threads, over trees in memory: runs of several plans that find the whole,
//! that are stopped, in which paths fail, and in which two workers wait for each other. Further
//! tests are of what the index is built on: trees in memory and of the system, pieces of files,
//! walks over small trees, and the words of the command line.
#![tactic(auto)]

#[cfg(test)]
mod command_words;
#[cfg(test)]
mod copies;
#[cfg(test)]
mod faults;
#[cfg(test)]
mod meetings;
#[cfg(test)]
mod pieces;
#[cfg(test)]
mod runs;
#[cfg(test)]
mod samples;
#[cfg(test)]
mod starts;
#[cfg(test)]
mod traces;
#[cfg(test)]
mod tree_calls;
#[cfg(test)]
mod trees;
#[cfg(test)]
mod walks;
#[cfg(test)]
mod wholes;
