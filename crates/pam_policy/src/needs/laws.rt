//! Laws of the definitions that the contracts cite: each is the contract of an empty function.

ghost use Rattle.pam_policy.specs.needs.Laws.{ArgumentsSayNoMore, EachNameIsThere, EachRuleHolds, FewestAreNeeded, NoneCanBeLeftOut, OneFewest};

/// The fewest of some events that are needed together are needed, none of them can be left out, and there is one way to find them.
pub fn the_fewest()
    ensures needed { FewestAreNeeded }
    ensures none { NoneCanBeLeftOut }
    ensures one { OneFewest }
{}

/// Each rule that is suggested holds, and `needs` of a single name is among them if it holds; that of a name with an argument says
/// no more.
pub fn suggestions_hold()
    ensures each { EachRuleHolds }
    ensures names { EachNameIsThere }
    ensures arguments { ArgumentsSayNoMore }
{}
