//! Tests of packages whose threads begin and end in the history: forks, ends and joins by threads
//! that are all at work at once.
#![tactic(auto)]

#[cfg(test)]
mod chain;
#[cfg(test)]
mod family;
#[cfg(test)]
mod forks;
#[cfg(test)]
mod late;
#[cfg(test)]
mod lives;
#[cfg(test)]
mod notes;
#[cfg(test)]
mod package_end;
#[cfg(test)]
mod run;
