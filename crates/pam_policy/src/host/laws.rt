//! Laws of the definitions that the contracts cite: each is the contract of an empty function.

ghost use Rattle.pam_policy.specs.host.Laws.{EachPlaceIsJudged, IdleRuleHolds, SilentRuleHolds};

/// If nothing is found of a rule, the host has what it names, and it holds at each place of which it speaks.
pub fn silence_is_true()
    ensures { SilentRuleHolds }
{}

/// The classes that are judged are those of the places of which a rule speaks, and no others.
pub fn each_place_is_judged()
    ensures { EachPlaceIsJudged }
{}

/// Nothing breaks a rule that says nothing.
pub fn idle_rules_hold()
    ensures { IdleRuleHolds }
{}
