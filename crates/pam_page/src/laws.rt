//! Laws of the definitions that contracts use. Each is the contract of a function with an empty body.

ghost use Rattle.pam_page.specs.Laws.{FirstOfPages};

/// The page of a listing is the first of its pages, so the laws of pages hold for it.
pub fn first_page()
    ensures { FirstOfPages }
{}
