//! Laws of the definitions: each is the contract of an empty function.

ghost use Rattle.pam_explain.specs.Laws.{EachIsFound};

/// Each explanation is found by its number, so no number is there twice.
pub fn each_is_found()
    ensures { EachIsFound }
{}
