//! The lines of the verdicts.
ghost use Rattle.std.specs.Prelude.{◌≡◌, ◌≤◌, length};
ghost use Rattle.command_check.specs.Lines.{legal_line, illegal_line, clause_word};

use arrayvec::ArrayString;
use larch_actions::Broken;
use text_output::push_with_number;
use trace_check::Summary;

/// A line with its newline.
pub type Line = ArrayString<128>;

/// Returns the line of a legal trace.
pub fn legal(s: &Summary) -> Line
    ensures { result.bytes ≡ legal_line s.now }
{
    let mut line = Line::new();
    push_with_number(&mut line, "legal ", s.events);
    push_with_number(&mut line, " held ", s.held);
    push_with_number(&mut line, " waiting ", s.waiting);
    push_with_number(&mut line, " alerted ", s.alerted);
    line.push_str("\n");
    line
}

// The word of a clause.
fn word_of(why: Broken) -> &'static str
    ensures word { result.now ≡ clause_word why }
    ensures short { length result.now ≤ 8 }
{
    match why {
        Broken::Order => "order",
        Broken::Requires => "requires",
        Broken::When => "when",
        Broken::Ensures => "ensures",
    }
}

/// Returns the line of the first event that fails.
pub fn illegal(place: u64, why: Broken) -> Line
    ensures { result.bytes ≡ illegal_line place why }
{
    let mut line = Line::new();
    push_with_number(&mut line, "illegal ", place);
    line.push_str(" ");
    line.push_str(word_of(why));
    line.push_str("\n");
    line
}
