//! Text on its way to a sink, gathered in a buffer, and numbers in decimal as words say them.
//!
//! Promises: what is sent followed by what is still held is what was put, in order. After a fault of the sink it got a proper prefix of
//! that. A path is put as it stands on a line: a backslash twice, and a newline as a backslash and `n`. `read_number` answers the number
//! that a text is, where it lies between two bounds, and none exactly where the text is no such number. Each number has one text:
//! without a sign and without a leading zero. Stands on `firefly_outside`, `arrayvec` and `itoa`. It takes no memory: the buffer has
//! 16 KiB on the stack. It does not know what the text says.
#![tactic(auto)]

mod held;
mod line;
mod number;
mod paths;

pub use held::{Held, flush, put, put_with_number};
pub use line::push_with_number;
pub use number::read_number;
pub use paths::{is_plain, print_path, put_known_path, put_path, put_path_line};
