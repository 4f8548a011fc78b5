//! Trace texts of both versions: a reader that gives the events of a text one after another, and printers of its lines.
//!
//! Promises: the reader gives what the text says, or the text's bad line as soon as the bytes show it; what is printed reads as what was
//! given. Stands on the exact reading of exact_text, the sources and sinks of firefly_outside and the events of larch_actions. It takes no
//! memory, and says nothing of whether a trace is legal.
#![tactic(auto)]

mod action;
mod digits;
pub mod laws;
mod line;
mod line_texts;
mod names;
mod next_line;
mod phases;
mod place;
mod print;
mod reader;
mod reader_state;
mod sections;
mod token;
mod usual;
mod whole_texts;

pub use digits::few_digits;
pub use exact_text::TextFault;
pub use line::layout_line;
pub use line_texts::{add, add_event, add_number};
pub use print::{print_end, print_event, print_head, print_value};
pub use reader::EventReader;
