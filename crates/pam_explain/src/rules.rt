//! Faults of a rule by itself.

ghost use Rattle.std.specs.Prelude.{◌≡◌};
ghost use Rattle.std.specs.List.{slice_get};
ghost use Rattle.std.specs.Option.{option_map};
ghost use Rattle.pam_explain.specs.Rules.{of_rules};
ghost use Rattle.pam_explain.specs.Views.{explanation_view};

use crate::explanation::{Explanation, Level};
use crate::shared::{CONTROL_FAILS, RESTORE_FILE};

pub const NUL_BYTE: Explanation = Explanation {
    number: "E1",
    name: "NulByte",
    level: Level::Error,
    meaning: concat!(
        "A configuration file has a NUL byte, so it is no text: it was damaged, or is\n",
        "no configuration. None of its rules is looked at."
    ),
    example: "$ printf 'auth required pam_unix.so\\0\\n' >login",
    linux_pam: "it does not refuse such a file, and reads on.",
    mending: RESTORE_FILE,
};

pub const MISSING_FIELD: Explanation = Explanation {
    number: "E2",
    name: "MissingField",
    level: Level::Error,
    meaning: concat!(
        "A rule ends before its kind, its control or the path of its module. It needs\n",
        "all three, and in pam.conf the service before them."
    ),
    example: concat!("# login\n", "auth required"),
    linux_pam: concat!(
        "1.5.2 and 1.7.0 make a rule of it that always fails. It keeps the\n",
        "kind and the control that the line has: auth sufficient without a path is\n",
        "passed over, and auth required without one locks out. The other kinds go on,\n",
        "and in pam.conf the other services."
    ),
    mending: "write the words that are missing, or remove the line.",
};

pub const BAD_KIND: Explanation = Explanation {
    number: "E3",
    name: "BadKind",
    level: Level::Error,
    meaning: concat!(
        "The kind of a rule is not auth, account, password or session. So the rule is\n",
        "in no stack, and what it was to check is not checked."
    ),
    example: concat!("# login\n", "auht required pam_unix.so"),
    linux_pam: concat!(
        "1.5.2 and 1.7.0 make a rule of it that always fails, with the\n",
        "control that the line has: one of auth, or of the kind for which the file is\n",
        "included. The other kinds go on, and in pam.conf the other services."
    ),
    mending: concat!(
        "correct the word. A - before it is allowed: it only keeps a\n",
        "missing module out of the system log."
    ),
};

pub const BAD_CONTROL: Explanation = Explanation {
    number: "E4",
    name: "BadControl",
    level: Level::Error,
    meaning: concat!(
        "The control of a rule says what an answer of its module does to the stack.\n",
        "This one is not a keyword, and not pairs CODE=ACTION in one pair of brackets."
    ),
    example: concat!("# login\n", "auth requird pam_unix.so"),
    linux_pam: CONTROL_FAILS,
    mending: concat!(
        "write required, requisite, sufficient, optional, include or\n",
        "substack, or pairs such as [success=1 default=ignore]."
    ),
};

pub const BAD_VALUE: Explanation = Explanation {
    number: "E5",
    name: "BadValue",
    level: Level::Error,
    meaning: concat!(
        "In a control in brackets, the word before = is not the name of a return code.\n",
        "The answers that were meant there get another action."
    ),
    example: concat!(
        "# login\n",
        "auth [succes=1 default=ignore] pam_unix.so\n",
        "auth requisite pam_deny.so\n",
        "auth required pam_permit.so"
    ),
    linux_pam: CONTROL_FAILS,
    mending: concat!(
        "correct the name; pam.conf(5) lists them all. default stands for\n",
        "each code that is not named."
    ),
};

pub const BAD_ACTION: Explanation = Explanation {
    number: "E6",
    name: "BadAction",
    level: Level::Error,
    meaning: "In a control in brackets, the word after = is not an action.",
    example: concat!("# login\n", "auth [success=don default=die] pam_unix.so"),
    linux_pam: CONTROL_FAILS,
    mending: concat!(
        "write ignore, bad, die, ok, done, reset, or the number of items to\n",
        "jump over, which has at most 9 digits."
    ),
};

pub const ZERO_JUMP: Explanation = Explanation {
    number: "E7",
    name: "ZeroJump",
    level: Level::Error,
    meaning: concat!(
        "A control jumps over 0 items. Often a line below it was removed, and the\n",
        "number lowered once too often."
    ),
    example: concat!("# login\n", "auth [success=0 default=bad] pam_unix.so"),
    linux_pam: concat!(
        "pam.conf(5) does not allow it, and where 1.5.2 and 1.7.0 cannot\n",
        "read a control, each answer of the module counts as a failure (bad), success\n",
        "too."
    ),
    mending: "write ok or ignore, or the number of items to jump over.",
};

pub const OPEN_BRACKET: Explanation = Explanation {
    number: "E8",
    name: "OpenBracket",
    level: Level::Error,
    meaning: concat!(
        "A word of a rule begins with [, and no ] closes it on the same line. A ] with\n",
        "a backslash before it does not close it."
    ),
    example: concat!(
        "# login\n",
        "auth [success=1 default=ignore pam_unix.so\n",
        "auth requisite pam_deny.so\n",
        "auth required pam_permit.so"
    ),
    linux_pam: concat!(
        "1.5.2 and 1.7.0 take all up to the end of the line as one word, and\n",
        "its line feed too."
    ),
    mending: "write ] after the last word that belongs in the brackets.",
};

/// Returns the explanation at this index, or `None` past the last one. They are in the order of their numbers.
pub(crate) fn of_rules(row: usize) -> Option<&'static Explanation>
    ensures { option_map (λ e. explanation_view e.now) result ≡ slice_get of_rules row }
{
    Some(match row {
        0 => &NUL_BYTE,
        1 => &MISSING_FIELD,
        2 => &BAD_KIND,
        3 => &BAD_CONTROL,
        4 => &BAD_VALUE,
        5 => &BAD_ACTION,
        6 => &ZERO_JUMP,
        7 => &OPEN_BRACKET,
        _ => return None,
    })
}
