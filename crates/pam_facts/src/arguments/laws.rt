//! Laws of the definitions that the contracts cite: each is the contract of an empty function.

ghost use Rattle.pam_facts.specs.arguments.Laws.{ArgumentsAreKnown, FreeTakesAny, OtherKindFitsNone, UnknownFitsNone};

/// A word that is an argument of this kind is known, whatever else it begins with; only its value may be wrong.
pub fn arguments_are_known()
    ensures { ArgumentsAreKnown }
{}

/// A word that is not known, or that is one of another kind, is no argument of this kind, and is taken for none.
pub fn others_fit_none()
    ensures unknown { UnknownFitsNone }
    ensures other_kind { OtherKindFitsNone }
{}

/// Only a module that takes any word is free.
pub fn free_takes_any()
    ensures { FreeTakesAny }
{}
