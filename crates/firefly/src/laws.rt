//! Laws of the commands.
ghost use Rattle.firefly.specs.Laws.{AcceptsRuns, AcceptsIndexRuns, AcceptsRounds, FindsIndexed, IsOneIndex, RunsAreWholePlays};

/// `check` accepts what `run` writes.
pub fn check_accepts_runs()
    ensures { AcceptsRuns }
{}

/// What `run` writes is a whole play of its script: one of the histories that `explore` searches.
pub fn runs_are_whole_plays()
    ensures { RunsAreWholePlays }
{}

/// `check` accepts what `trace` writes.
pub fn check_accepts_index_runs()
    ensures { AcceptsIndexRuns }
{}

/// `check` accepts what `rounds` writes.
pub fn check_accepts_rounds()
    ensures { AcceptsRounds }
{}

/// A tree has one index: `index` and `trace`, by threads in any schedule, and the walk of one
/// thread give the same.
pub fn one_index_of_a_tree()
    ensures { IsOneIndex }
{}

/// `find` reads what `index` writes: a query on the index text of a tree names exactly the files of the tree that the query means.
///
/// The paths of the files are UTF-8 and not empty, and the files and the bytes of each are fewer than 2 to the power of 64.
pub fn find_reads_what_index_writes()
    ensures { FindsIndexed }
{}
