//! Laws over the definitions.
ghost use Rattle.std.specs.Prelude.{◌≡◌, List, map, filter};
ghost use Rattle.word_index.specs.Words.{is_short, lowered, file_words};
ghost use Rattle.word_index.specs.Index.{File, Index, IsIndexOf};
ghost use Rattle.word_index.specs.Places.{begins_run, run_at, places};

/// The words of a file are its runs of at most 64 bytes, in lower case and in order. A run begins at each word byte that
/// follows none, goes on as long as word bytes follow, and stands on the line that is 1 plus the newlines before it.
pub fn words_are_runs(bytes: &[u8])
    ensures { file_words bytes.now
        ≡ map lowered (filter is_short (map (run_at bytes.now) (filter (begins_run bytes.now) (places bytes.now)))) }
{
    let _ = bytes;
}

/// Two indexes of the same files are one.
pub fn one_index()
    ensures { (fs : List File) (a b : Index) → IsIndexOf fs a → IsIndexOf fs b → a ≡ b }
{}
