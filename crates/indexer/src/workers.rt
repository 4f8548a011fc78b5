//! The three kinds of worker: walkers, parsers and mergers.

pub mod lister;
pub mod mergers;
pub mod parser;
