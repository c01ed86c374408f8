//! Laws of the definitions that the contracts cite: each is the contract of an empty function.

ghost use Rattle.pam_compare.specs.Laws.{EachWalkEnds, HeldOnce, MostSituations, OneSituation, SameItemsDecideAlike};

/// Two stacks that ask no module have no more than one situation.
pub fn one_situation()
    ensures { OneSituation }
{}

/// Wherever the walk of two stacks is, it holds one answer of each module at most.
pub fn held_once()
    ensures { HeldOnce }
{}

/// The walk of two stacks ends, whatever their modules answer.
pub fn each_walk_ends()
    ensures { EachWalkEnds }
{}

/// `MAX_SITUATIONS` is a million.
pub fn most_situations()
    ensures { MostSituations }
{}

/// Stacks with the same items decide alike, whatever their modules answer.
pub fn same_items()
    ensures { SameItemsDecideAlike }
{}
