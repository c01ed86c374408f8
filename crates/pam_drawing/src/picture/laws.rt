//! Laws of the definitions that the contracts cite: each is the contract of an empty function.

ghost use Rattle.pam_drawing.specs.picture.Laws.{AllCodesHaveNoLabel, AtMostOneIsElse, FewCodesAreNamed, LongNamesAreCut};
ghost use Rattle.pam_drawing.specs.picture.Laws.{MoreCodesHaveNote, MostCodesAreElse, ShortNamesAreWhole};

/// Over its column a module's name of up to 24 bytes is shown whole, and of a longer one the first 22 bytes and two points.
pub fn names()
    ensures short { ShortNamesAreWhole }
    ensures long { LongNamesAreCut }
{}

/// The label of up to two codes is their names, that of 3 to 15 the first and a note, and that of 16 to 30 is `else`; all codes have
/// none. Of two classes that share no code, at most one is `else`.
pub fn labels()
    ensures few { FewCodesAreNamed }
    ensures more { MoreCodesHaveNote }
    ensures most { MostCodesAreElse }
    ensures all { AllCodesHaveNoLabel }
    ensures once { AtMostOneIsElse }
{}
