//! Laws of the definitions that the contracts cite: each is the contract of an empty function.

ghost use Rattle.pam_render.specs.full_text.Laws.{CaretsAreBelow, LinesFit, NoControls};

/// Carets begin below the word: there are as many spaces before them as characters before the word.
pub fn carets_are_below()
    ensures { CaretsAreBelow }
{}

/// At most 72 characters are shown of a line.
pub fn lines_fit()
    ensures { LinesFit }
{}

/// No byte that is shown of a line is a control character.
pub fn no_controls()
    ensures { NoControls }
{}
