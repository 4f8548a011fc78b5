//! Paths below a root.
ghost use Rattle.std.specs.Prelude.{◌≡◌, ◌≢◌, MatchOption};
ghost use Rattle.firefly_outside.specs.Trees.{Path, child};

/// The path without the root and the slash after it, where it begins with them.
pub fn below<'a>(root: &str, path: &'a str) -> Option<&'a str>
    ensures { MatchOption result ((name : Path) → path.now ≢ child root.now name) (λ name. path.now ≡ child root.now name.now) }
{
    match path.strip_prefix(root) {
        Some(rest) => rest.strip_prefix('/'),
        None => None,
    }
}
