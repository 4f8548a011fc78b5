//! The rule, in public words.
ghost use Rattle.nub_rule.specs.Consequences.{EntersToSignal, Excludes, ForkChangesTwo};
ghost use Rattle.nub_rule.specs.PackageRule.{EachStep, OneHistory, RuleHolds};

use crate::uses::Uses;

/// Between any two steps each item of the rule holds of the words, the slots at home and the views
/// of the threads. Words and views determine the history and the state of the specification. A step
/// makes the events by which its thread's own events grow, or leaves both as they were.
pub fn the_rule_says<U: Uses>()
    ensures items { RuleHolds U.begin U.holds }
    ensures one_history { OneHistory U.holds }
    ensures each_step { EachStep U.holds }
{}

/// What the rule excludes: a mutex with two owners, a thread that two others owe its wake, a begun wait that no Signal sees, a wake that
/// is up to a thread that has ended, anything left over once every call is over, and a fork that changes one view alone.
pub fn the_rule_excludes<U: Uses>()
    ensures follows { Excludes U.holds }
    ensures fork { ForkChangesTwo U.holds }
    ensures signal { EntersToSignal U.Value U.Share U.World }
{}
