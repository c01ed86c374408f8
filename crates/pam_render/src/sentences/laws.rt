//! Laws of the definitions that the contracts cite: each is the contract of an empty function.

ghost use Rattle.pam_render.specs.sentences.Laws.{MostShown};

/// Of a word at most 64 bytes are shown.
pub fn limit()
    ensures { MostShown }
{}
