//! Laws of the definitions that the contracts cite: each is the contract of an empty function.

ghost use Rattle.pam_report.specs.Laws.{MostPictureNodes};

/// A picture has at most 400 nodes.
pub fn limit()
    ensures { MostPictureNodes }
{}
