//! The runs of a file's bytes.
ghost use Rattle.std.specs.Prelude.{◌≡◌, ℕ, ◌+◌, ◌<◌, ◌≤◌, ◌^◌, length, drop, [], ◌∷◌, MatchOption, slice_range, false};
ghost use Rattle.std.specs.List.{prefix_len};
ghost use Rattle.word_index.specs.Words.{is_word_byte, lower, runs};

/// Where a run lies, and the line on which it stands.
#[derive(Clone, Copy)]
pub struct Run {
    pub start: usize,
    pub end: usize,
    pub line: u32,
}

#[inline(always)]
pub fn is_word(b: u8) -> bool
    ensures { result ≡ is_word_byte b }
{
    (b >= 97 && b <= 122) || (b >= 65 && b <= 90) || (b >= 48 && b <= 57) || b == 95
}

/// The first place at or after `from` with a byte that may not stand in a word.
fn run_end(bytes: &[u8], from: usize) -> usize
    requires { from ≤ length bytes.now }
    ensures within { result ≤ length bytes.now }
    ensures longest { result ≡ from + prefix_len is_word_byte (drop from bytes.now) }
{
    let mut at = from;
    while at < bytes.len() && is_word(bytes[at]) {
        at += 1;
    }
    at
}

/// The first run that begins at or after `from`, which stands on this line and follows no byte of a run.
pub fn next_run(bytes: &[u8], from: usize, line: u32) -> Option<Run>
    requires within { from ≤ length bytes.now }
    requires early { line ≤ from + 1 }
    requires short { length bytes.now + 1 < 2 ^ 32 }
    ensures { MatchOption result
        (runs false line (drop from bytes.now) ≡ [])
        (λ r. (from ≤ r.start) × (r.start < r.end) × (r.end ≤ length bytes.now) × (r.line ≤ r.start + 1)
        × (runs false line (drop from bytes.now)
        ≡ (slice_range bytes.now r.start r.end, r.line) ∷ runs false r.line (drop r.end bytes.now))) }
{
    let mut line = line;
    let mut at = from;
    while at < bytes.len() {
        let b = bytes[at];
        if is_word(b) {
            let end = run_end(bytes, at);
            return Some(Run {
                start: at,
                end,
                line,
            });
        }
        if b == 10 {
            line += 1;
        }
        at += 1;
    }
    None
}
