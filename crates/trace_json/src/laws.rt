//! Laws of the spans.
ghost use Rattle.trace_json.specs.Laws.{MutexesInTurn, WaitsInTurn};

/// Along a legal trace the spans of a mutex begin and end in turn.
pub fn mutexes_in_turn()
    ensures { MutexesInTurn }
{}

/// So do the waits of a thread.
pub fn waits_in_turn()
    ensures { WaitsInTurn }
{}
