//! Laws of plays.
ghost use Rattle.script_plays.specs.Reduced.{StuckPlaysAreReduced, ReducedPlaysDecide};
ghost use Rattle.script_plays.specs.Laws.{PlaysAreLegal, PlaysHaveOneScene, EndsExcludesStuck, PlaysAreBounded, PlaysCanBeFinished, BeginningsArePlays, RunsAreWhole};

/// A play is a legal list of events.
pub fn plays_are_legal()
    ensures { PlaysAreLegal }
{}

/// A play leads to one scene.
pub fn plays_have_one_scene()
    ensures { PlaysHaveOneScene }
{}

/// Where each play is whole or can go on, none is stuck.
pub fn ends_excludes_stuck()
    ensures { EndsExcludesStuck }
{}

/// A play has at most so many events as the lines and the threads say: no script plays for ever.
pub fn plays_are_bounded()
    ensures { PlaysAreBounded }
{}

/// Where each play is whole or can go on, each is the beginning of a whole one.
pub fn plays_can_be_finished()
    ensures { PlaysCanBeFinished }
{}

/// If a play gets stuck, so does one in which events that may be looked at alone are, whichever of them is picked in a scene.
pub fn stuck_plays_are_reduced()
    ensures { StuckPlaysAreReduced }
{}

/// Where each of those is whole or can go on, each play is.
pub fn reduced_plays_decide()
    ensures { ReducedPlaysDecide }
{}

/// The history of a run, with the numbers that its threads got and left, is a whole play of its script.
pub fn runs_are_whole()
    ensures { RunsAreWhole }
{}

/// The beginning of a play is a play, so no run of a script that ends is stuck at any time.
pub fn beginnings_are_plays()
    ensures { BeginningsArePlays }
{}
