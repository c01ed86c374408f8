//! Laws of the definitions that the contracts cite: each is the contract of an empty function.

ghost use Rattle.pam_findings.specs.misspelled.Laws.{CertainIsNearer, DoneIsNearer, MostNames, NumbersGetDigits, WordsAreWritten};

/// A word for a number is mended to its digits, and `done` is suggested only where no word for a number is as near.
pub fn actions()
    ensures numbers { NumbersGetDigits }
    ensures done { DoneIsNearer }
{}

/// Of a name that is wrong, the nearest of at most 1,000 is found.
pub fn limit()
    ensures { MostNames }
{}

/// Where a finding has a word with a spot, the bytes of the file from this line and column on, as many as the spot says, are those of the
/// word as it is written; and they are all of it, unless the line goes on in the next one there.
pub fn spots()
    ensures { WordsAreWritten }
{}

/// A nearest word that is certain has fewer typing errors than each other right word.
pub fn certain()
    ensures { CertainIsNearer }
{}
