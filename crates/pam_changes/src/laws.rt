//! Laws of the definitions that the contracts cite: each is the contract of an empty function.

ghost use Rattle.pam_changes.specs.Laws.{AskedAreShownOnce, AskedOfPairIsShownOnce, EqualStacksAreKnownAlike, SameItemsAreKnownAlike, SameItemsGuardAlike};

/// Of the modules of stacks with the same items the same is known, and they guard a login alike. Such stacks decide alike (`pam_compare::laws::same_items`), so
/// nothing changes where stacks are equal, and what a pair of stacks says holds for every stack with its items.
pub fn same_items()
    ensures known { SameItemsAreKnownAlike }
    ensures equal { EqualStacksAreKnownAlike }
    ensures guards { SameItemsGuardAlike }
{}

/// Of the modules that either of two stacks asks, each is shown once and with its answer, and no other module is shown. Those that are
/// matched and answer alike are shown as one.
pub fn asked_modules()
    ensures asked { AskedAreShownOnce }
    ensures pair { AskedOfPairIsShownOnce }
{}
