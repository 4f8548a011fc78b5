//! What a picture of a trace is drawn with: places, marks and their legend, bars, rows and arrows, each written as text into a buffer.
//!
//! Promises: each call adds exactly the text that specs/Shapes.antt, Legend.antt and Arrows.antt define, and says where it ended.
//! Stands on the texts of trace_core and on what trace_board keeps of the events. It takes no memory.
//! How a mark looks is no promise.
#![tactic(auto)]

pub mod arrows;
pub mod geometry;
pub mod legend;
mod numbers;
pub mod places;
pub mod shapes;
pub mod tags;
pub mod view;

pub use view::{
    Band, BandRow, DrawnRange, Freeing, Link, Plan, Reach, RowKind, Shape, Strip, Turn, Way,
};
