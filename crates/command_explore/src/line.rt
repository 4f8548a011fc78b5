//! Where a thread stands in the text of its script.
ghost use Rattle.std.specs.Prelude.{◌≡◌, ◌≢◌, ◌⊎◌, ◌+◌, ◌<◌, List, ◌∷◌, [], drop, length, slice_get, Some, MatchOption};
ghost use Rattle.larch_actions.specs.declared.event.Version.{Version};
ghost use Rattle.script_text.specs.declared.line.Line.{Line};
ghost use Rattle.script_text.specs.Layouts.{head_lines};
ghost use Rattle.script_text.specs.Runs.{lines_of};
ghost use Rattle.command_explore.specs.Waits.{lines_before};

use larch_actions::Version;
use script_text::Line;

// How many lines of the thread are left to pass after this one. There is none where this is the line itself.
fn left_after(line: &Line, thread: u32, left: u32) -> Option<u32>
    ensures { MatchOption result ((line.now.thread.0 ≡ thread) × (left ≡ 0))
        (λ less. ((line.now.thread.0 ≡ thread) × (left ≡ less + 1)) ⊎ ((line.now.thread.0 ≢ thread) × (left ≡ less))) }
{
    if line.thread.0 != thread {
        return Some(left);
    }
    if left == 0 { None } else { Some(left - 1) }
}

/// Returns the place of the thread's line that comes after `played` of its lines, if there is one.
pub fn place_of(lines: &[Line], thread: u32, played: u32) -> Option<usize>
    ensures { MatchOption result (drop played (lines_of thread lines.now) ≡ [])
        (λ i. (i ≡ lines_before thread played lines.now) × (i < length lines.now)
        × ((x : Line) × (rest : List Line) × (slice_get lines.now i ≡ Some x) × (drop played (lines_of thread lines.now) ≡ x ∷ rest))) }
{
    let mut left = played;
    for i in 0..lines.len() {
        let Some(less) = left_after(&lines[i], thread, left) else {
            return Some(i);
        };
        left = less;
    }
    None
}

/// Returns how many lines the text has before those of the threads.
pub fn head(version: Version) -> u64
    ensures { result ≡ head_lines version }
{
    match version {
        Version::One => 1,
        Version::Two => 2,
    }
}
