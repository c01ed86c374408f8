//! What released Linux-PAM reads otherwise than the manual pages say.

ghost use Rattle.std.specs.Prelude.{◌≡◌};
ghost use Rattle.std.specs.List.{slice_get};
ghost use Rattle.std.specs.Option.{option_map};
ghost use Rattle.pam_explain.specs.Released.{of_released};
ghost use Rattle.pam_explain.specs.Views.{explanation_view};

use crate::explanation::{Explanation, Level};

pub const CARRIAGE_RETURN: Explanation = Explanation {
    number: "L1",
    name: "CarriageReturn",
    level: Level::Warning,
    meaning: concat!(
        "A line has a carriage return, as files from other systems have at the end of\n",
        "each. pamcheck takes it as a blank."
    ),
    example: "$ printf 'auth required pam_unix.so\\r\\n' >login",
    linux_pam: concat!(
        "1.5.2 and 1.7.0 take it as a part of the word before it. A module's\n",
        "path that ends in it is the path of a module that is not there, which locks\n",
        "out. A line of it alone is a rule that fails."
    ),
    mending: "end each line with a line feed alone: sed -i 's/\\r$//' FILE.",
};

pub const CONTINUED_OVER_BLANK: Explanation = Explanation {
    number: "L2",
    name: "ContinuedOverBlank",
    level: Level::Warning,
    meaning: concat!(
        "A line ends in a backslash, and the next is blank or a comment. The rule ends\n",
        "there, and the line after that is a rule of its own."
    ),
    example: concat!(
        "# login\n",
        "auth required pam_env.so \\\n",
        "# the password\n",
        "auth required pam_unix.so"
    ),
    linux_pam: concat!(
        "1.5.2 goes on over blank lines and comments, so the next rule\n",
        "becomes arguments of this one. A module that was to check somebody is then not\n",
        "asked, which lets in."
    ),
    mending: "remove the backslash, or the blank lines and comments after it.",
};

pub const BACKSLASH_BLANK: Explanation = Explanation {
    number: "L3",
    name: "BackslashBlank",
    level: Level::Warning,
    meaning: concat!(
        "A line ends in a backslash with blanks after it. It does not go on with the\n",
        "next line: the backslash is an argument."
    ),
    example: concat!(
        "$ printf 'auth required pam_exec.so /bin/true \\\\ \\n' >login\n",
        "$ echo 'auth required pam_unix.so' >>login"
    ),
    linux_pam: concat!(
        "1.5.2 and 1.7.0 go on with the next line, so the next rule becomes\n",
        "arguments of this one. A module that was to check somebody is then not asked,\n",
        "which lets in."
    ),
    mending: "remove the blanks after the backslash, or the backslash.",
};

pub const BACKSLASH_COMMENT: Explanation = Explanation {
    number: "L4",
    name: "BackslashComment",
    level: Level::Warning,
    meaning: concat!(
        "A backslash is directly before a comment. Without the comment it is the last\n",
        "byte of the line, which goes on with the next one."
    ),
    example: concat!(
        "# login\n",
        "auth required pam_unix.so \\# and its arguments\n",
        "    nullok"
    ),
    linux_pam: concat!(
        "1.5.2 and 1.7.0 do not go on with the next line. What stands there\n",
        "is a line of its own."
    ),
    mending: "remove the comment, or the backslash.",
};

pub const ENDS_IN_CONTINUATION: Explanation = Explanation {
    number: "L5",
    name: "EndsInContinuation",
    level: Level::Warning,
    meaning: concat!(
        "The last line of a file ends in a backslash, so it goes on where nothing\n",
        "follows."
    ),
    example: concat!("# login\n", "auth required pam_unix.so \\"),
    linux_pam: concat!(
        "1.5.2 and 1.7.0 refuse the whole file, and with it each service\n",
        "that needs it, which locks out. The file other is needed by each. 1.5.2\n",
        "does so too where only blank lines and comments follow."
    ),
    mending: "remove the backslash.",
};

pub const CAPITAL_IN_BRACKETS: Explanation = Explanation {
    number: "L6",
    name: "CapitalInBrackets",
    level: Level::Warning,
    meaning: concat!(
        "A control in brackets has a capital letter. Case does not matter here, as in\n",
        "the keywords."
    ),
    example: concat!("# login\n", "auth [Success=ok Default=bad] pam_unix.so"),
    linux_pam: concat!(
        "1.5.2 and 1.7.0 compare what is in brackets with case. Where they\n",
        "do not know a name, each answer of the module counts as a failure (bad),\n",
        "success too, which locks out."
    ),
    mending: "write what is in brackets in small letters.",
};

pub const LONG_LINE: Explanation = Explanation {
    number: "L7",
    name: "LongLine",
    level: Level::Warning,
    meaning: "The lines of a rule have together more than 1,023 bytes.",
    example: "$ printf 'auth required pam_unix.so %1000s\\n' nullok >login",
    linux_pam: concat!(
        "1.5.2 cuts the line there, and takes the rest as a rule that fails.\n",
        "Where exactly 1,023 bytes go on with the next line, it reads for ever. 1.7.0\n",
        "has no such limit."
    ),
    mending: "shorten the rule.",
};

pub const EMPTY_MODULE_NAME: Explanation = Explanation {
    number: "L8",
    name: "EmptyModuleName",
    level: Level::Warning,
    meaning: concat!(
        "The path of a module has no name: nothing, or only a question mark, is after\n",
        "its last / and before its last dot."
    ),
    example: concat!("# login\n", "session required /lib/security/.so"),
    linux_pam: concat!(
        "1.5.2 and 1.7.0 refuse the whole configuration, which locks out: of\n",
        "each service, if the line is in the file other. What substack names is such a\n",
        "path for them too, for example .x."
    ),
    mending: "name the file of the module.",
};

pub const DROPPED_BLANK: Explanation = Explanation {
    number: "L9",
    name: "DroppedBlank",
    level: Level::Note,
    meaning: concat!(
        "A word in brackets goes on to the next line, and that line begins with blanks.\n",
        "They belong to the word."
    ),
    example: concat!(
        "# login\n",
        "auth required pam_unix.so\n",
        "auth optional pam_exec.so [say \"a\\\n",
        "     b\"]"
    ),
    linux_pam: concat!(
        "1.7.0 drops the blanks that a line begins with, so the word has\n",
        "another text there. No control changes by it."
    ),
    mending: "write the word in brackets on one line.",
};

pub const INCLUDED_FROM_VENDOR: Explanation = Explanation {
    number: "L10",
    name: "IncludedFromVendor",
    level: Level::Error,
    meaning: concat!(
        "A rule includes a file that only the second folder has, which is\n",
        "/usr/lib/pam.d of a system. For include and substack it is a warning."
    ),
    example: concat!(
        "# login\n",
        "@include shared\n",
        "auth required pam_unix.so\n",
        "$ mkdir v; echo 'auth required pam_unix.so' >v/shared\n",
        "$ pamcheck check --dir . --vendor-dir v"
    ),
    linux_pam: concat!(
        "Debian's opens the files that rules name in /etc/pam.d alone. Where\n",
        "it finds none, it refuses the whole configuration for an @include, which locks\n",
        "out: of each service, if the line is in the file other. For include and\n",
        "substack the rule fails."
    ),
    mending: "copy the file into the first folder, /etc/pam.d of a system.",
};

/// Returns the explanation at this index, or `None` past the last one. They are in the order of their numbers.
pub(crate) fn of_released(row: usize) -> Option<&'static Explanation>
    ensures { option_map (λ e. explanation_view e.now) result ≡ slice_get of_released row }
{
    Some(match row {
        0 => &CARRIAGE_RETURN,
        1 => &CONTINUED_OVER_BLANK,
        2 => &BACKSLASH_BLANK,
        3 => &BACKSLASH_COMMENT,
        4 => &ENDS_IN_CONTINUATION,
        5 => &CAPITAL_IN_BRACKETS,
        6 => &LONG_LINE,
        7 => &EMPTY_MODULE_NAME,
        8 => &DROPPED_BLANK,
        9 => &INCLUDED_FROM_VENDOR,
        _ => return None,
    })
}
