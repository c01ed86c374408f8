//! Laws of the definitions that the contracts cite: each is the contract of an empty function.

ghost use Rattle.pam_policy.specs.text.Laws.{MostBytes, MostRules, MostTogether, RulesAreFew};

/// A policy file has at most 1,048,576 bytes, all files together have at most 1000 rules, and at most four events are joined by
/// `and` after `with`, `never asks` and `can ask`.
pub fn limits()
    ensures bytes { MostBytes }
    ensures rules { MostRules }
    ensures together { MostTogether }
{}

/// The rules of a file that is read and those before it are at most 1000.
pub fn rules_are_few()
    ensures { RulesAreFew }
{}
