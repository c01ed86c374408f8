//! Faults of the files that are pamcheck's own: returns, accept and facts files, and policies.

ghost use Rattle.std.specs.Prelude.{◌≡◌};
ghost use Rattle.std.specs.List.{slice_get};
ghost use Rattle.std.specs.Option.{option_map};
ghost use Rattle.pam_explain.specs.OwnFiles.{of_own_files};
ghost use Rattle.pam_explain.specs.Views.{explanation_view};

use crate::explanation::{Explanation, Level};
use crate::shared::{OWN_ACCEPT_FILE, OWN_POLICY, OWN_RETURNS_FILE};

pub const BAD_CODE: Explanation = Explanation {
    number: "TE13",
    name: "BadCode",
    level: Level::Error,
    meaning: concat!(
        "A word of a returns file is not the name of a return code. In a rule of a\n",
        "policy the codes after = or decides have another word, or leave no code."
    ),
    example: concat!(
        "# login\n",
        "auth required pam_unix.so\n",
        "# returns\n",
        "pam_unix.so succes\n",
        "$ pamcheck paths login auth --dir . --returns returns"
    ),
    linux_pam: concat!(
        "returns files and policies are pamcheck's own, and Linux-PAM does\n",
        "not read them."
    ),
    mending: concat!(
        "correct the name: success, auth_err and the other codes of pam(3),\n",
        "without the prefix PAM_. A policy knows failure too, and any."
    ),
};

pub const BAD_MODULE: Explanation = Explanation {
    number: "TE14",
    name: "BadModule",
    level: Level::Error,
    meaning: concat!(
        "A line of a returns file has a / in the name of a module. A line counts for a\n",
        "module of this name in any folder."
    ),
    example: concat!(
        "# login\n",
        "auth required pam_unix.so\n",
        "# returns\n",
        "/lib/security/pam_unix.so success\n",
        "$ pamcheck paths login auth --dir . --returns returns"
    ),
    linux_pam: OWN_RETURNS_FILE,
    mending: "write the name of the file alone, as pam_unix.so.",
};

pub const BAD_ACCEPT: Explanation = Explanation {
    number: "TE15",
    name: "BadAccept",
    level: Level::Error,
    meaning: "A line of an accept file is not the number of a finding and then its place.",
    example: concat!(
        "# login\n",
        "auth required pam_unix.so\n",
        "$ mkdir m; echo login S2 > m/accept\n",
        "$ pamcheck check --dir . --accept m/accept"
    ),
    linux_pam: OWN_ACCEPT_FILE,
    mending: concat!(
        "write L1 login:3 for a line, S2 login auth for a stack, and S7\n",
        "Login for a file as a whole."
    ),
};

pub const BAD_FACT: Explanation = Explanation {
    number: "TE16",
    name: "BadFact",
    level: Level::Error,
    meaning: "A line of a facts file does not say what is known of a module.",
    example: concat!(
        "# login\n",
        "auth required pam_unix.so\n",
        "$ mkdir m; echo pam_own.so checks > m/facts\n",
        "$ pamcheck check --dir . --facts m/facts"
    ),
    linux_pam: "a facts file is pamcheck's own, and Linux-PAM does not read it.",
    mending: concat!(
        "write the name of a module without .so, arguments that its rules\n",
        "have, one of checks, ignores, passes and fails, and then kinds with their\n",
        "codes. The command facts prints such lines."
    ),
};

pub const BAD_SERVICES: Explanation = Explanation {
    number: "TE17",
    name: "BadServices",
    level: Level::Error,
    meaning: concat!(
        "The first word of a rule of a policy is no list of services: an item is empty,\n",
        "or has a second *, a / or a ! inside; or each begins with !, which fits\n",
        "nothing."
    ),
    example: concat!(
        "$ echo '!su auth needs pam_unix' >my.policy\n",
        "$ pamcheck policy my.policy --dir ."
    ),
    linux_pam: OWN_POLICY,
    mending: concat!(
        "write names with commas and no blanks between them, as sshd,login;\n",
        "*,!su is each service but su."
    ),
};

pub const BAD_KINDS: Explanation = Explanation {
    number: "TE18",
    name: "BadKinds",
    level: Level::Error,
    meaning: "The second word of a rule of a policy is neither * nor a list of kinds.",
    example: concat!(
        "$ echo 'su authentication needs pam_unix' >my.policy\n",
        "$ pamcheck policy my.policy --dir ."
    ),
    linux_pam: OWN_POLICY,
    mending: concat!(
        "write auth, account, password or session, several with commas and\n",
        "no blanks between them, or * for all four."
    ),
};

pub const BAD_VERB: Explanation = Explanation {
    number: "TE19",
    name: "BadVerb",
    level: Level::Error,
    meaning: concat!(
        "The third word of a rule of a policy is none of needs, obeys, asks, always,\n",
        "never and can; or the word that follows always, never or can is none that may."
    ),
    example: concat!(
        "$ echo 'su auth requires pam_unix' >my.policy\n",
        "$ pamcheck policy my.policy --dir ."
    ),
    linux_pam: OWN_POLICY,
    mending: concat!(
        "write one of these words in small letters. After always comes\n",
        "asks; after never and can one of asks, succeeds, fails, ends and decides."
    ),
};

pub const BAD_EVENT: Explanation = Explanation {
    number: "TE20",
    name: "BadEvent",
    level: Level::Error,
    meaning: concat!(
        "A word of a rule of a policy has to be a module, as NAME, NAME[ARGUMENT] or\n",
        "NAME=CODES, and is not; or or, and, with, without or before stands in its\n",
        "place."
    ),
    example: concat!(
        "$ echo 'su auth needs pam_unix or or pam_sss' >my.policy\n",
        "$ pamcheck policy my.policy --dir ."
    ),
    linux_pam: OWN_POLICY,
    mending: concat!(
        "write the name of the module, then what is asked of its arguments,\n",
        "and then = and the codes, without blanks between them."
    ),
};

pub const BAD_LIST: Explanation = Explanation {
    number: "TE21",
    name: "BadList",
    level: Level::Error,
    meaning: concat!(
        "A list in a rule of a policy has both and and or, which could be read in two\n",
        "ways; or is joined by or after obeys; or joins a fifth module by and."
    ),
    example: concat!(
        "$ echo 'su auth needs pam_a and pam_b or pam_c' >my.policy\n",
        "$ pamcheck policy my.policy --dir ."
    ),
    linux_pam: OWN_POLICY,
    mending: concat!(
        "write two rules, each with a list of one of the two words. That\n",
        "each of several modules is obeyed is written with and."
    ),
};

pub const NO_ANSWERS: Explanation = Explanation {
    number: "TE22",
    name: "NoAnswers",
    level: Level::Error,
    meaning: concat!(
        "A module after with or without has no = and codes, so the rule does not say\n",
        "which of its answers are meant."
    ),
    example: concat!(
        "$ echo 'su auth never succeeds with pam_unix' >my.policy\n",
        "$ pamcheck policy my.policy --dir ."
    ),
    linux_pam: OWN_POLICY,
    mending: concat!(
        "write the codes: =failure, =success, =but:success; or =any, if it\n",
        "is enough that the module is asked."
    ),
};

pub const EXTRA_WORD: Explanation = Explanation {
    number: "TE23",
    name: "ExtraWord",
    level: Level::Error,
    meaning: "A rule of a policy has a word after its end.",
    example: concat!(
        "$ echo 'su auth needs pam_unix pam_wheel' >my.policy\n",
        "$ pamcheck policy my.policy --dir ."
    ),
    linux_pam: OWN_POLICY,
    mending: concat!(
        "join modules by and or by or. A rule ends with its line, and no\n",
        "backslash joins two lines; a comment begins with #."
    ),
};

pub const TOO_MANY_RULES: Explanation = Explanation {
    number: "TE24",
    name: "TooManyRules",
    level: Level::Error,
    meaning: "The policies have together more than 1,000 rules.",
    example: concat!(
        "$ yes 'su auth needs pam_unix' | head -1001 >my.policy\n",
        "$ pamcheck policy my.policy --dir ."
    ),
    linux_pam: OWN_POLICY,
    mending: concat!(
        "judge the policies one after the other, or write one rule for\n",
        "several services and kinds: sshd,login auth,account."
    ),
};

/// Returns the explanation at this index, or `None` past the last one. They are in the order of their numbers.
pub(crate) fn of_own_files(row: usize) -> Option<&'static Explanation>
    ensures { option_map (λ e. explanation_view e.now) result ≡ slice_get of_own_files row }
{
    Some(match row {
        0 => &BAD_CODE,
        1 => &BAD_MODULE,
        2 => &BAD_ACCEPT,
        3 => &BAD_FACT,
        4 => &BAD_SERVICES,
        5 => &BAD_KINDS,
        6 => &BAD_VERB,
        7 => &BAD_EVENT,
        8 => &BAD_LIST,
        9 => &NO_ANSWERS,
        10 => &EXTRA_WORD,
        11 => &TOO_MANY_RULES,
        _ => return None,
    })
}
