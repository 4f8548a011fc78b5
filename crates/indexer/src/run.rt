//! A run: what it opens, its crew, and what it hands on at its end.

pub mod crew;
pub mod early_end;
pub mod entry;
pub mod opening;
pub mod package;
pub mod trees;
