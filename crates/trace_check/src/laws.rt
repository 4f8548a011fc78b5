//! Laws of the verdicts.
ghost use Rattle.trace_check.specs.Readings.{OneReading};
ghost use Rattle.trace_check.specs.Verdicts.{OneVerdict};

/// The verdict is decided by the bytes.
pub fn one_verdict()
    ensures { OneVerdict }
{}

/// A trace text reads as one layout, one list of events, but for how their sets of threads are kept, and one list of values.
pub fn a_trace_reads_as_one()
    ensures { OneReading }
{}
