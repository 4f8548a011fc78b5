//! The lines of a cycle, or of none.
ghost use Rattle.std.specs.Prelude.{◌≡◌, ◌≤◌, ◌+◌, ◌++◌, length};
ghost use Rattle.arrayvec.specs.ArrayString.{array_string_len};
ghost use Rattle.command_check.specs.OrderLines.{cycle_text, edge_line, no_cycle_line};

use arrayvec::ArrayString;
use lock_order::{Cycle, Edge};
use text_output::push_with_number;

/// The lines of a cycle of at most 64 mutexes, each of at most 87 bytes.
pub type Lines = ArrayString<8192>;

/// Returns the line of a trace that has no cycle.
pub fn no_cycle(events: u64) -> ArrayString<64>
    ensures { result.bytes ≡ no_cycle_line events }
{
    let mut line = ArrayString::<64>::new();
    push_with_number(&mut line, "no cycle ", events);
    line.push_str("\n");
    line
}

// Adds the line of a mutex that was got while another was held.
fn push_edge(text: &mut Lines, edge: &Edge)
    requires { array_string_len text.old + 87 ≤ 8192 }
    ensures bytes { text.new.bytes ≡ text.old.bytes ++ edge_line edge.now }
    ensures len { array_string_len text.new ≤ array_string_len text.old + 87 }
{
    push_with_number(text, "m", edge.outer.0 as u64);
    push_with_number(text, " m", edge.inner.0 as u64);
    push_with_number(text, " t", edge.thread.0 as u64);
    push_with_number(text, " ", edge.place);
    text.push_str("\n");
}

/// Returns the lines of a cycle.
pub fn lines_of(cycle: &Cycle) -> Lines
    ensures { result.bytes ≡ cycle_text cycle.now }
{
    let mut text = Lines::new();
    push_with_number(&mut text, "cycle ", cycle.len() as u64);
    text.push_str("\n");
    for k in 0..cycle.len() {
        push_edge(&mut text, &cycle.at(k));
    }
    text
}
