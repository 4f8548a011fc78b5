//! Tests of the program that its words, texts and status can't show: sources, sinks and trees that
//! fail where they are made to. Also tests of the reader of scripts, of crews of threads whose jobs
//! wait for one another, as the threads of a script do, and of what faults and endings of public
//! calls print. What the program answers to its words and input is in runs/, without a proof.
#![tactic(auto)]

#[cfg(test)]
mod answers;
#[cfg(test)]
mod crew_meetings;
#[cfg(test)]
mod crowd;
#[cfg(test)]
mod faults;
#[cfg(test)]
mod index_calls;
#[cfg(test)]
mod index_limits;
#[cfg(test)]
mod same;
#[cfg(test)]
mod script_meetings;
#[cfg(test)]
mod script_texts;
#[cfg(test)]
mod statuses;
#[cfg(test)]
mod texts;
#[cfg(test)]
mod trees;
