//! Laws of the definitions that the contracts cite: each is the contract of an empty function.

ghost use Rattle.pam_policy.specs.names.Laws.{SilenceIsTrue};

/// Nothing is said of a rule if and only if the host has what it names: the services of its exact names, one that it fits, the
/// modules of its events, and the keys of its tests, of which one may also be near to none.
pub fn silence_is_true()
    ensures { SilenceIsTrue }
{}
