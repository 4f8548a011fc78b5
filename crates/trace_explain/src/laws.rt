//! Laws of the explanations.
ghost use Rattle.trace_explain.specs.Laws.{FactsAreSo};

/// What is said of the state before an event is so.
pub fn facts_are_so()
    ensures { FactsAreSo }
{}
