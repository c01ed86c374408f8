//! Laws of the definitions: each is the contract of an empty function.

ghost use Rattle.pam_facts.specs.Laws.{ArgumentsFail, CheckingModulesFail, FunctionlessIsUnknown, LastRowCounts, MissingIsUnknown};
ghost use Rattle.pam_facts.specs.Laws.{NoRowIsUnknown, TwiceIsOnce};

/// A row that fits counts if no later one does, whatever the rows before it say; a row that does not fit changes nothing.
/// So rows that are read again after themselves, as those that `write_facts` writes, change nothing.
pub fn last_row_counts()
    ensures last { LastRowCounts }
    ensures twice { TwiceIsOnce }
{}

/// Of a module that no row fits nothing is known: it is taken for one that checks who logs in, and can answer any code.
pub fn no_row()
    ensures { NoRowIsUnknown }
{}

/// Where checks fail, no module that checks who logs in answers `success` or `new_authtok_reqd`, and `ignore` only if it may.
pub fn checks_fail()
    ensures { CheckingModulesFail }
{}

/// A module that is not there, or has no function in the kind, answers `module_unknown` alone.
pub fn no_function()
    ensures missing { MissingIsUnknown }
    ensures functionless { FunctionlessIsUnknown }
{}

/// A module that always fails by what its arguments are answers no success and no `ignore`, whatever its row says.
pub fn arguments_fail()
    ensures { ArgumentsFail }
{}
