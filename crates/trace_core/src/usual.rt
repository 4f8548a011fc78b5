//! Reading a whole event line from bytes that are held, where no byte's presence has to be tested.

mod action;
mod event;
mod name;
mod wait;
mod word;

pub use event::{UsualEvent, usual_event};
pub use word::eight;
