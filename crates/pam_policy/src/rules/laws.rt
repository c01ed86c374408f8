//! Laws of the definitions that the contracts cite: each is the contract of an empty function.

ghost use Rattle.pam_policy.specs.rules.Laws.{AsksSays, LessAllowedHolds, MoreAllowedSettles, NeedsSays, ObeysSays, OneWitness, RulesAreJudged};

/// What settles a rule where less is allowed does so where more is, so what holds where more is allowed holds where less is; and there
/// is at most one witness.
pub fn witnesses()
    ensures more { MoreAllowedSettles }
    ensures less { LessAllowedHolds }
    ensures one { OneWitness }
{}

/// What breaks a sentence of each verb that is short for another.
pub fn verbs()
    ensures needs { NeedsSays }
    ensures obeys { ObeysSays }
    ensures asks { AsksSays }
{}

/// Each rule of a file that is read is judged, unless an allocation fails.
pub fn rules_are_judged()
    ensures { RulesAreJudged }
{}
