//! Laws of the definitions that the contracts cite: each is the contract of an empty function.

ghost use Rattle.pam_conf.specs.Laws.{DeepWhereAllAreOpen, FaultlessHasStack, FaultsAreFew, FirstFaultOrRules, ListIsOfWalk};
ghost use Rattle.pam_conf.specs.Laws.{MostFollows, MostModules, MostOpenFiles, NextFollowIsRefused, NextModuleIsRefused, WithinIsAllowed};
ghost use Rattle.pam_conf.specs.Laws.{ResolvedIsStack, StackBeginsATrail, StackIsSoundSurvey, WalkFollowsItsTrail, WordsAreOneSplit};

/// A line has words if and only if it can be written as blanks and spellings of words, and then in only one way.
pub fn words_are_one_split()
    ensures { WordsAreOneSplit }
{}

/// A file without a fault of its own has the rules of its lines. The result of any other is the first of its faults.
pub fn first_fault_or_rules()
    ensures { FirstFaultOrRules }
{}

/// A walk may open `MAX_OPEN_FILES` files less those of its trail. So the trail alone determines the walk, and a target
/// is too deep if and only if 16 files are open.
pub fn room_and_trail()
    ensures begins { StackBeginsATrail }
    ensures followed { WalkFollowsItsTrail }
    ensures too_deep { DeepWhereAllAreOpen }
{}

/// A stack has at most 256 modules, a walk follows at most 256 includes and substacks, and 16 files are open at most.
pub fn limits()
    ensures modules { MostModules }
    ensures follows { MostFollows }
    ensures open_files { MostOpenFiles }
{}

/// A walk without a fault, with 256 modules and 256 follows at most, is not refused. A 257th module is E13, and a 257th follow E18.
/// A walk that goes on after faults has at most 257 of them.
pub fn refusals()
    ensures allowed { WithinIsAllowed }
    ensures one_more_module { NextModuleIsRefused }
    ensures one_more_follow { NextFollowIsRefused }
    ensures faults { FaultsAreFew }
{}

/// The modules of a resolved stack are numbered from the left. It has at most `MAX_MODULES` of them, and at most
/// `MAX_OPEN_FILES` of its lists are open at once.
pub fn resolved_stack()
    ensures { ResolvedIsStack }
{}

/// A service has a stack if and only if its survey has no fault, neither of the walk nor of a file that the walk reached. It is
/// then the survey's stack. A survey without a fault of the walk has one.
pub fn stack_is_sound_survey()
    ensures sound { StackIsSoundSurvey }
    ensures stack { FaultlessHasStack }
{}

/// Where the walk from a file has no fault, the list of the file has the walk's items, in order: `RuleFiles::list` only adds by
/// which includes they came in.
pub fn list_of_a_walk()
    ensures { ListIsOfWalk }
{}
