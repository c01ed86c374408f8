//! Faults of the words of the command line.

ghost use Rattle.std.specs.Prelude.{◌≡◌};
ghost use Rattle.std.specs.List.{slice_get};
ghost use Rattle.std.specs.Option.{option_map};
ghost use Rattle.pam_explain.specs.Words.{of_words};
ghost use Rattle.pam_explain.specs.Views.{explanation_view};

use crate::explanation::{Explanation, Level};
use crate::shared::{FAULT_OF_RUN, FAULT_OF_WORDS, FREE_MEMORY, GIVE_ONE};

pub const NOT_UTF8: Explanation = Explanation {
    number: "U1",
    name: "NotUtf8",
    level: Level::Error,
    meaning: concat!(
        "A word of the command line is not UTF-8. Other words that are wrong get the\n",
        "text of the parser, which names them."
    ),
    example: "$ pamcheck show \"$(printf '\\377')\" auth --dir .",
    linux_pam: FAULT_OF_WORDS,
    mending: "write the word in UTF-8, or rename the file that it names.",
};

pub const SOURCE: Explanation = Explanation {
    number: "U2",
    name: "Source",
    level: Level::Error,
    meaning: "No source is named, or more than one.",
    example: "$ pamcheck show login auth",
    linux_pam: concat!(
        "by pam.conf(5) it ignores /etc/pam.conf where there is a folder\n",
        "/etc/pam.d."
    ),
    mending: concat!(
        "give one of --dir, --conf and --root. --vendor-dir may stand\n",
        "beside --dir. Only show, decide and paths need one; check, policy,\n",
        "outcomes, graph and needs else read the running system. compare\n",
        "takes two words, and --conf or --root beside them, or neither."
    ),
};

pub const KIND_NAME: Explanation = Explanation {
    number: "U3",
    name: "KindName",
    level: Level::Error,
    meaning: "The word after the service is not a kind.",
    example: "$ pamcheck show login atuh --dir .",
    linux_pam: FAULT_OF_WORDS,
    mending: "write auth, account, password or session.",
};

pub const CODE_NAME: Explanation = Explanation {
    number: "U4",
    name: "CodeName",
    level: Level::Error,
    meaning: "A word is not the name of a return code.",
    example: "$ pamcheck decide login auth succes --dir .",
    linux_pam: FAULT_OF_WORDS,
    mending: concat!(
        "write success, auth_err or another code of pam(3), without the\n",
        "prefix PAM_."
    ),
};

pub const LOGIN: Explanation = Explanation {
    number: "U5",
    name: "Login",
    level: Level::Error,
    meaning: concat!(
        "An access table or a time table is given, and no user. What these tables say\n",
        "depends on who logs in."
    ),
    example: "$ pamcheck paths login auth --dir . --access access.conf",
    linux_pam: FAULT_OF_WORDS,
    mending: "add --user, and where the table asks for them --rhost and --tty.",
};

pub const MOMENT: Explanation = Explanation {
    number: "U6",
    name: "Moment",
    level: Level::Error,
    meaning: concat!(
        "A time table is given and no moment, or a moment is given twice or in parts\n",
        "that do not fit."
    ),
    example: "$ pamcheck time login --time time.conf --user alice",
    linux_pam: FAULT_OF_WORDS,
    mending: concat!(
        "give --at 2024-05-11T07:59, or --at-unix with the seconds and, if\n",
        "it is not UTC, --zone."
    ),
};

pub const MEMORY: Explanation = Explanation {
    number: "U7",
    name: "Memory",
    level: Level::Error,
    meaning: "The system gave no memory while the words of the command line were read.",
    example: "",
    linux_pam: FAULT_OF_RUN,
    mending: FREE_MEMORY,
};

pub const BOTH_ENDS: Explanation = Explanation {
    number: "U8",
    name: "BothEnds",
    level: Level::Error,
    meaning: concat!(
        "Both --after and --before are given. A page has the paths after one cursor, or\n",
        "those before one."
    ),
    example: "$ pamcheck paths login auth --dir . --after 0 --before 1",
    linux_pam: FAULT_OF_WORDS,
    mending: GIVE_ONE,
};

pub const NO_SUCH_MODULE: Explanation = Explanation {
    number: "U9",
    name: "NoSuchModule",
    level: Level::Error,
    meaning: "The number of --asks is greater than the number of modules in the stack.",
    example: concat!(
        "# login\n",
        "auth required pam_unix.so\n",
        "$ pamcheck paths login auth --dir . --asks 2"
    ),
    linux_pam: FAULT_OF_WORDS,
    mending: "take the number from the lines that show prints.",
};

pub const NO_SUCH_KEY: Explanation = Explanation {
    number: "U10",
    name: "NoSuchKey",
    level: Level::Error,
    meaning: concat!(
        "The KEY of a --set names no module: it is not the name of a module of the\n",
        "stack, nor its number, nor FILE:LINE of its rule; or CODES leave no code.\n",
        "compare takes names alone."
    ),
    example: concat!(
        "# login\n",
        "auth required pam_unix.so\n",
        "$ pamcheck paths login auth --dir . --set pam_unx.so=success"
    ),
    linux_pam: FAULT_OF_WORDS,
    mending: "take the name, number or place from the lines that show prints.",
};

pub const BOTH_FILTERS: Explanation = Explanation {
    number: "U11",
    name: "BothFilters",
    level: Level::Error,
    meaning: "Both --decision and --asks are given.",
    example: "$ pamcheck paths login auth --dir . --decision success --asks 1",
    linux_pam: FAULT_OF_WORDS,
    mending: GIVE_ONE,
};

pub const FORMAT_NAME: Explanation = Explanation {
    number: "U12",
    name: "FormatName",
    level: Level::Error,
    meaning: concat!(
        "The word after --format is not a format of the command, or a format other\n",
        "than json stands beside --json."
    ),
    example: "$ pamcheck graph login auth --dir . --format png",
    linux_pam: FAULT_OF_WORDS,
    mending: concat!(
        "for graph, write dot, mermaid or svg, in small letters. svg is a\n",
        "picture; of dot, Graphviz makes one: dot -Tpng. For check, write\n",
        "short, full, json, sarif or patch, and no other one than json beside\n",
        "--json."
    ),
};

pub const LEVEL_NAME: Explanation = Explanation {
    number: "U13",
    name: "LevelName",
    level: Level::Error,
    meaning: "The word after --fail-on is not a level.",
    example: "$ pamcheck check --dir . --fail-on fatal",
    linux_pam: FAULT_OF_WORDS,
    mending: "write error, warning or note, in small letters.",
};

pub const NO_SUCH_NUMBER: Explanation = Explanation {
    number: "U14",
    name: "NoSuchNumber",
    level: Level::Error,
    meaning: "No fault or finding has the number that explain was given.",
    example: "$ pamcheck explain E20",
    linux_pam: FAULT_OF_WORDS,
    mending: "write a number such as E15. explain without a number lists all.",
};

pub const CANDIDATE_FORM: Explanation = Explanation {
    number: "U15",
    name: "CandidateForm",
    level: Level::Error,
    meaning: concat!(
        "A value of --with does not have the form NAME=FILE, its NAME has a slash, or\n",
        "a SERVICE of check that is a file ends in a slash. Or one of these is given\n",
        "beside --conf, whose one file is for all services and has no NAME."
    ),
    example: "$ pamcheck show login auth --dir . --with login",
    linux_pam: FAULT_OF_WORDS,
    mending: concat!(
        "write --with NAME=FILE, as --with sshd=/tmp/sshd, beside --dir or\n",
        "--root. NAME is that of a file in the folder."
    ),
};

pub const RELEASE_FORM: Explanation = Explanation {
    number: "U16",
    name: "ReleaseForm",
    level: Level::Error,
    meaning: concat!(
        "The value of --as is not the name of a release of Linux-PAM, or it\n",
        "stands beside --json: these rules have no JSON."
    ),
    example: "$ pamcheck show login auth --dir . --as linux-pam-1.6",
    linux_pam: FAULT_OF_WORDS,
    mending: "write linux-pam-1.5 or linux-pam-1.7, without --json.",
};

pub const SETTING_FORM: Explanation = Explanation {
    number: "U17",
    name: "SettingForm",
    level: Level::Error,
    meaning: "A value of --set does not have the form KEY=CODES.",
    example: "$ pamcheck paths login auth --dir . --set pam_unix.so",
    linux_pam: FAULT_OF_WORDS,
    mending: "write --set KEY=CODES, as --set pam_unix.so=success,auth_err.",
};

/// Returns the explanation at this index, or `None` past the last one. They are in the order of their numbers.
pub(crate) fn of_words(row: usize) -> Option<&'static Explanation>
    ensures { option_map (λ e. explanation_view e.now) result ≡ slice_get of_words row }
{
    Some(match row {
        0 => &NOT_UTF8,
        1 => &SOURCE,
        2 => &KIND_NAME,
        3 => &CODE_NAME,
        4 => &LOGIN,
        5 => &MOMENT,
        6 => &MEMORY,
        7 => &BOTH_ENDS,
        8 => &NO_SUCH_MODULE,
        9 => &NO_SUCH_KEY,
        10 => &BOTH_FILTERS,
        11 => &FORMAT_NAME,
        12 => &LEVEL_NAME,
        13 => &NO_SUCH_NUMBER,
        14 => &CANDIDATE_FORM,
        15 => &RELEASE_FORM,
        16 => &SETTING_FORM,
        _ => return None,
    })
}
