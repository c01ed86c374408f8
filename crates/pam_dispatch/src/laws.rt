//! Laws of the definitions that the contracts cite: each is the contract of an empty function.

ghost use Rattle.pam_dispatch.specs.Laws.{RunOfModule, RunOfNothing, RunOfSubstack, AskedOfModule, AskedOfNothing, AskedOfSubstack};
ghost use Rattle.pam_dispatch.specs.Laws.{EqualRestsAsk, EqualRestsEnd, LastItemsCount, LeftFits, OpenRunAsks, OpenRunDecides, OpenRunEnds};
ghost use Rattle.pam_dispatch.specs.Laws.{OutcomeIsRetold, OutcomeIsShared, OutcomesDiffer, SettledAsks, SettledEnds, StackAsksRise};

/// The run of a list of items: empty, or beginning with a substack or a module.
pub fn run_of_items()
    ensures nothing { RunOfNothing }
    ensures substack { RunOfSubstack }
    ensures module { RunOfModule }
{}

/// The modules that the run of a list of items asks.
pub fn asked_of_items()
    ensures nothing { AskedOfNothing }
    ensures substack { AskedOfSubstack }
    ensures module { AskedOfModule }
{}

/// The number of items that an outcome leaves.
pub fn items_left()
    ensures fits { LeftFits }
    ensures count { LastItemsCount }
{}

/// The open run of a stack is the run of its tree.
pub fn open_run()
    ensures ends { OpenRunEnds }
    ensures asks { OpenRunAsks }
    ensures decides { OpenRunDecides }
{}

/// The run of a stack asks modules in the order of their numbers.
pub fn rising_run()
    ensures { StackAsksRise }
{}

/// The outcome of a code determines those of the other codes with its action.
pub fn outcomes_of_one_action()
    ensures retold { OutcomeIsRetold }
    ensures shared { OutcomeIsShared }
{}

/// Codes whose actions look at the code have different outcomes, unless both fail as perm_denied.
pub fn outcomes_that_differ()
    ensures { OutcomesDiffer }
{}

/// A settled run asks its modules in order and ends in its state, whatever they answer.
pub fn settled_run()
    ensures asks { SettledAsks }
    ensures ends { SettledEnds }
{}

/// Equal rests of a run ask the same modules and end in one state, whatever these answer.
pub fn equal_rests()
    ensures asks { EqualRestsAsk }
    ensures ends { EqualRestsEnd }
{}
