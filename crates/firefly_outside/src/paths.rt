//! Paths as a directory's path, a slash and a name.
ghost use Rattle.std.specs.Prelude.{◌≡◌, ◌≢◌, All, MatchOption};
ghost use Rattle.firefly_outside.specs.Trees.{child, slash};

// The path before its last slash and the name after it.
pub fn split_last(path: &str) -> Option<(&str, &str)>
    ensures { MatchOption result (All (λ b. b ≢ slash) path.now) (λ p. (path.now ≡ child p.0.now p.1.now) × All (λ b. b ≢ slash) p.1.now) }
{
    path.rsplit_once('/')
}
