//! Which threads of a script ever live.
ghost use Rattle.std.specs.Prelude.{◌≡◌};
ghost use Rattle.script_text.specs.Table.{fate_of};
ghost use Rattle.script_text.specs.Operations.{is_born, none_forked, forked_with, forked_after};

use script_text::{Line, Operation};

// Whether the line forks the thread, or one did before.
fn forked_by(line: &Line, t: u32, before: bool) -> bool
    ensures { result ≡ forked_with (λ _. before) (fate_of line.now.operation) t }
{
    match line.operation {
        Operation::Fork { who } => who.0 == t || before,
        _ => before,
    }
}

// Whether one of the lines forks the thread.
fn is_forked(lines: &[Line], t: u32) -> bool
    ensures { result ≡ forked_after none_forked lines.now t }
{
    let mut forked = false;
    for line in lines {
        forked = forked_by(line, t, forked);
    }
    forked
}

/// Whether the thread is thread 0, or one that a line forks.
pub fn is_born(lines: &[Line], t: u32) -> bool
    ensures { result ≡ is_born (forked_after none_forked lines.now) t }
{
    t == 0 || is_forked(lines, t)
}
