//! Laws of the definitions that the contracts cite: each is the contract of an empty function.

ghost use Rattle.pam_lsp.specs.Laws.{ClosedIsGone, OpenedIsHeld, OthersStay};

/// A document that is opened counts, in the place of any other with its URI.
pub fn opened_documents_count()
    ensures { OpenedIsHeld }
{}

/// A document that is closed counts no more, and the others stay as they were.
pub fn closed_documents_are_gone()
    ensures gone { ClosedIsGone }
    ensures others { OthersStay }
{}
