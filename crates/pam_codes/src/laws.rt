//! Laws of the definitions: each is the contract of an empty function.

ghost use Rattle.pam_codes.specs.Laws.{ReadsAsWritten};

/// Reading the written text of a control returns the same control.
pub fn control_text()
    ensures { ReadsAsWritten }
{}
