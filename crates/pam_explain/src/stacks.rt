//! Faults of a stack: files that rules name, and limits.

ghost use Rattle.std.specs.Prelude.{◌≡◌};
ghost use Rattle.std.specs.List.{slice_get};
ghost use Rattle.std.specs.Option.{option_map};
ghost use Rattle.pam_explain.specs.Stacks.{of_stacks};
ghost use Rattle.pam_explain.specs.Views.{explanation_view};

use crate::explanation::{Explanation, Level};
use crate::shared::{
    FAULT_OF_RUN, FAULT_OF_WORDS, FREE_MEMORY, NO_LIMIT, OWN_LIMIT, deep_substacks,
};

pub const MISSING_TARGET: Explanation = Explanation {
    number: "E9",
    name: "MissingTarget",
    level: Level::Error,
    meaning: concat!(
        "No file is named after include, substack or @include. The rules that were\n",
        "meant are not in the stack."
    ),
    example: concat!("# login\n", "auth include"),
    linux_pam: concat!(
        "Debian's 1.5.2 ends the program that asks for the service, by a\n",
        "null pointer. In the file other such a line ends each program that asks for\n",
        "some service."
    ),
    mending: "write the name of the file, or remove the line.",
};

pub const BAD_TARGET: Explanation = Explanation {
    number: "E10",
    name: "BadTarget",
    level: Level::Warning,
    meaning: concat!(
        "A rule includes a file of another folder, or one without a name. pamcheck\n",
        "reads the folder that it was given, and no other. So it does not know the\n",
        "stack, and does not say whether it is sound. check reports this as a warning;\n",
        "the commands for one stack refuse the stack."
    ),
    example: concat!("# login\n", "auth include /etc/security/common-auth"),
    linux_pam: "Debian's opens the file.",
    mending: concat!(
        "move the file beside the others, and write its name alone. The\n",
        "prefix /etc/pam.d/ may stay."
    ),
};

pub const CYCLE: Explanation = Explanation {
    number: "E11",
    name: "Cycle",
    level: Level::Error,
    meaning: concat!(
        "A file includes itself, or files include one another in a circle. It would be\n",
        "read without end."
    ),
    example: concat!(
        "# login\n",
        "auth required pam_unix.so\n",
        "auth include login"
    ),
    linux_pam: concat!(
        "Debian's 1.5.2 follows include and @include without end, until the\n",
        "system ends the program that asks. Of substacks in one another it follows 15;\n",
        "the next one is a rule that always fails."
    ),
    mending: "remove the line, or the one that leads back to this file.",
};

pub const TOO_DEEP: Explanation = Explanation {
    number: "E12",
    name: "TooDeep",
    level: Level::Error,
    meaning: concat!(
        "More than 16 files would be open at once, since each includes the next. The\n",
        "first is that of the service."
    ),
    example: concat!(
        "$ for n in $(seq 1 16); do echo \"auth include f$((n+1))\" >f$n; done\n",
        "$ echo 'auth required pam_unix.so' >f17"
    ),
    linux_pam: NO_LIMIT,
    mending: "include fewer files in one another.",
};

pub const TOO_MANY_MODULES: Explanation = Explanation {
    number: "E13",
    name: "TooManyModules",
    level: Level::Error,
    meaning: "A stack has more than 256 modules, those of included files among them.",
    example: "$ yes 'auth required pam_unix.so' | head -n 257 >login",
    linux_pam: NO_LIMIT,
    mending: "remove rules, or files that are included more than once.",
};

pub const INCLUDE_IN_SINGLE_FILE: Explanation = Explanation {
    number: "E14",
    name: "IncludeInSingleFile",
    level: Level::Error,
    meaning: concat!(
        "A rule of pam.conf includes another file. pamcheck reads pam.conf alone, so it\n",
        "does not know the stack."
    ),
    example: concat!(
        "# pam.conf\n",
        "login auth include common-auth\n",
        "$ pamcheck show login auth --conf pam.conf"
    ),
    linux_pam: concat!(
        "1.5.2 and 1.7.0 take such a rule as an include. pam.conf(5) does\n",
        "not say in which folder they look for the file."
    ),
    mending: concat!(
        "write the rules themselves, or a folder with a file for each\n",
        "service."
    ),
};

pub const NO_SERVICE: Explanation = Explanation {
    number: "E15",
    name: "NoService",
    level: Level::Error,
    meaning: concat!(
        "A rule includes a file that is not there; often its name is misspelled.\n",
        "Without a line number, neither the service nor other has a file, or in\n",
        "pam.conf a rule, so there is no stack that could let anybody in."
    ),
    example: concat!("# login\n", "auth include common-auht"),
    linux_pam: concat!(
        "1.5.2 makes a rule that always fails of include and substack, and\n",
        "the other kinds go on. With @include the whole service is refused, and in the\n",
        "file other each service, since other is read whenever a program starts."
    ),
    mending: "correct the name, or make the file; in pam.conf, write the rules.",
};

pub const FILE_TOO_LONG: Explanation = Explanation {
    number: "E16",
    name: "FileTooLong",
    level: Level::Error,
    meaning: concat!(
        "A configuration file has more than 1,048,576 bytes. It is not read: a file of\n",
        "that size is hardly one of rules."
    ),
    example: "$ yes '# comment' | head -c 1048577 >login",
    linux_pam: "it reads on. This limit is pamcheck's.",
    mending: concat!(
        "shorten the file, or put a part of it into a file that it\n",
        "includes."
    ),
};

pub const MEMORY: Explanation = Explanation {
    number: "E17",
    name: "Memory",
    level: Level::Error,
    meaning: "The system gave no memory. This says nothing of the configuration.",
    example: "",
    linux_pam: FAULT_OF_RUN,
    mending: FREE_MEMORY,
};

pub const TOO_MANY_FOLLOWED: Explanation = Explanation {
    number: "E18",
    name: "TooManyFollowed",
    level: Level::Error,
    meaning: concat!(
        "More than 256 includes and substacks are followed for one stack. Files that\n",
        "include others twice double their number with each level."
    ),
    example: concat!(
        "$ yes 'auth include common' | head -n 257 >login\n",
        "$ echo '# no rules yet' >common"
    ),
    linux_pam: NO_LIMIT,
    mending: "include fewer files.",
};

pub const TOO_MANY_STATES: Explanation = Explanation {
    number: "E19",
    name: "TooManyStates",
    level: Level::Error,
    meaning: concat!(
        "A run of the stack can be at more than 65,536 places: a module, the state\n",
        "there, and the states in which the open substacks began. outcomes, graph,\n",
        "needs, and paths with --decision or --asks look at each of them. paths\n",
        "without these has no such limit. A picture, graph --format svg, has 400\n",
        "places at most."
    ),
    example: deep_substacks!("$ pamcheck outcomes f1 auth --dir ."),
    linux_pam: OWN_LIMIT,
    mending: concat!(
        "give a returns file with what the modules can answer (--returns),\n",
        "or use fewer substacks in one another."
    ),
};

pub const WRONG_COUNT: Explanation = Explanation {
    number: "DE1",
    name: "WrongCount",
    level: Level::Error,
    meaning: concat!(
        "decide was given too few or too many codes. It takes one for each module of\n",
        "the stack, even for one that is not asked."
    ),
    example: concat!(
        "# login\n",
        "auth required pam_unix.so\n",
        "$ pamcheck decide login auth success success --dir ."
    ),
    linux_pam: FAULT_OF_WORDS,
    mending: concat!(
        "give a code for each module, in the order of their numbers. show\n",
        "prints these numbers."
    ),
};

/// Returns the explanation at this index, or `None` past the last one. They are in the order of their numbers.
pub(crate) fn of_stacks(row: usize) -> Option<&'static Explanation>
    ensures { option_map (λ e. explanation_view e.now) result ≡ slice_get of_stacks row }
{
    Some(match row {
        0 => &MISSING_TARGET,
        1 => &BAD_TARGET,
        2 => &CYCLE,
        3 => &TOO_DEEP,
        4 => &TOO_MANY_MODULES,
        5 => &INCLUDE_IN_SINGLE_FILE,
        6 => &NO_SERVICE,
        7 => &FILE_TOO_LONG,
        8 => &MEMORY,
        9 => &TOO_MANY_FOLLOWED,
        10 => &TOO_MANY_STATES,
        11 => &WRONG_COUNT,
        _ => return None,
    })
}
