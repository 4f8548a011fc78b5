//! Laws of texts of jobs.
ghost use Rattle.command_jobs.specs.JobLines.{IsDecided};

/// Proves that an input has one answer, and is the text of one list of lines.
pub fn one_answer()
    ensures { IsDecided }
{}
