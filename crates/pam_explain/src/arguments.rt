//! Findings of the arguments of rules.

ghost use Rattle.std.specs.Prelude.{◌≡◌};
ghost use Rattle.std.specs.List.{slice_get};
ghost use Rattle.std.specs.Option.{option_map};
ghost use Rattle.pam_explain.specs.Arguments.{of_arguments};
ghost use Rattle.pam_explain.specs.Views.{explanation_view};

use crate::explanation::{Explanation, Level};

pub const UNKNOWN_ARGUMENT: Explanation = Explanation {
    number: "S15",
    name: "UnknownArgument",
    level: Level::Warning,
    meaning: concat!(
        "A rule has an argument that its module does not know. Most modules go on\n",
        "without it, so what it was to do is not done: a misspelled option of a\n",
        "security module has no effect, and nobody sees it. Some modules fail at each\n",
        "call. It is a note where the module ignores the word and writes no log."
    ),
    example: concat!("# login\n", "auth required pam_unix.so nulok"),
    linux_pam: concat!(
        "1.5.2 and 1.7.0 leave arguments to the modules; what each\n",
        "does with a word that it does not know was seen of it."
    ),
    mending: concat!(
        "correct the word. Where it is the kind or the module of a\n",
        "rule, a line feed is missing before that rule."
    ),
};

pub const LONGER_WORD: Explanation = Explanation {
    number: "S16",
    name: "LongerWord",
    level: Level::Warning,
    meaning: concat!(
        "A rule has a word that only begins as an argument of its module. The module\n",
        "takes it for that argument, but libpam, which reads some of these words for\n",
        "the module, does not: pam_unix then asks for a password a second time."
    ),
    example: concat!("# passwd\n", "password required pam_unix.so use_authtoken"),
    linux_pam: concat!(
        "1.5.2 and 1.7.0 compare no more than the beginning in\n",
        "pam_unix and some others, and whole words in libpam."
    ),
    mending: "write the argument as the manual page of the module names it.",
};

pub const ARGUMENT_OF_OTHER_KIND: Explanation = Explanation {
    number: "S17",
    name: "ArgumentOfOtherKind",
    level: Level::Note,
    meaning: concat!(
        "A rule has an argument that its module reads in rules of another kind alone,\n",
        "so it does nothing here. Some modules write that to the log."
    ),
    example: concat!("# login\n", "auth required pam_unix.so minlen=8"),
    linux_pam: concat!(
        "1.5.2 and 1.7.0 leave arguments to the modules; in which\n",
        "kinds each of them reads an argument was seen of it."
    ),
    mending: "remove it, or write it in the rule of the kind that reads it.",
};

pub const BAD_VALUE: Explanation = Explanation {
    number: "S18",
    name: "BadValue",
    level: Level::Warning,
    meaning: concat!(
        "The value of an argument is none that its module can use: it is no number,\n",
        "or none of the words that the module knows. Most modules then keep what they\n",
        "do without the argument, so a limit that was meant is not there."
    ),
    example: concat!(
        "# login\n",
        "auth required pam_faillock.so preauth deny=three\n",
        "auth sufficient pam_unix.so\n",
        "auth [default=die] pam_faillock.so authfail deny=three"
    ),
    linux_pam: concat!(
        "1.5.2 and 1.7.0 leave arguments to the modules. Many of\n",
        "these take the digits at the front of a value and leave the rest."
    ),
    mending: "write a value as the manual page of the module names it.",
};

pub const BAD_ARGUMENTS: Explanation = Explanation {
    number: "S19",
    name: "BadArguments",
    level: Level::Warning,
    meaning: concat!(
        "A rule has not all the arguments that its module needs: pam_exec no program,\n",
        "pam_listfile no item=, sense= or file=, pam_userdb in auth no db=,\n",
        "pam_usertype neither issystem nor isregular, or pam_succeed_if a condition\n",
        "that is no field, test and value. So the module fails whoever logs in;\n",
        "pam_listfile does what its onerr= says, which may be to succeed."
    ),
    example: concat!(
        "# login\n",
        "auth required pam_unix.so\n",
        "auth optional pam_exec.so quiet seteuid"
    ),
    linux_pam: concat!(
        "1.5.2 and 1.7.0 leave arguments to the modules, which\n",
        "answer service_err. pam_exec lets the first pass of password go on."
    ),
    mending: "write what is missing, as the manual page of the module has it.",
};

pub const NO_TOKEN: Explanation = Explanation {
    number: "S20",
    name: "NoToken",
    level: Level::Warning,
    meaning: concat!(
        "By this argument the module takes only a password that a module before it\n",
        "asked for. No run of the stack asks a module before it that may ask for one,\n",
        "so nobody with a password can be let in by it, or change it. A module of\n",
        "which nothing is known may ask for one."
    ),
    example: concat!(
        "# login\n",
        "auth required pam_env.so\n",
        "auth required pam_unix.so use_first_pass\n",
        "account required pam_unix.so\n",
        "password required pam_unix.so use_authtok"
    ),
    linux_pam: concat!(
        "pam_get_authtok(3) gives such a module the password that is\n",
        "stored, and asks for none. The module then answers auth_err, or\n",
        "authtok_err or authtok_recover_err where a password is changed."
    ),
    mending: concat!(
        "remove the argument, or put a module that asks for the password\n",
        "before it, as pam_unix.so, or pam_pwquality.so in password."
    ),
};

pub const STORED_THOUGH_REFUSED: Explanation = Explanation {
    number: "S21",
    name: "StoredThoughRefused",
    level: Level::Warning,
    meaning: concat!(
        "A module that checks new passwords, as pam_pwquality.so, may refuse one, and\n",
        "some run of the password stack then asks this module. It has no use_authtok,\n",
        "so it asks for another password itself, which nothing has checked, and stores\n",
        "it. It does so even where the stack fails as a whole."
    ),
    example: concat!(
        "# passwd\n",
        "password required pam_pwquality.so retry=3\n",
        "password required pam_unix.so shadow"
    ),
    linux_pam: concat!(
        "such a module leaves no password where it refuses one, and ends\n",
        "the stack only where its control says so. Then pam_get_authtok(3) asks\n",
        "for one, unless the next module has use_authtok."
    ),
    mending: concat!(
        "write use_authtok, so that the module takes only a password that\n",
        "was checked, and fails where there is none."
    ),
};

pub const NOT_COUNTED: Explanation = Explanation {
    number: "S22",
    name: "NotCounted",
    level: Level::Warning,
    meaning: concat!(
        "A rule of pam_faillock counts failures, by its argument authfail, and no run\n",
        "of the auth stack asks one with preauth or authsucc, which refuses who failed\n",
        "too often. Or a rule refuses them, and no run asks one that counts; or the one\n",
        "that counts is asked in no run after a module that checks has failed. In each\n",
        "case nobody is locked out, so passwords can be tried without end."
    ),
    example: concat!(
        "# login\n",
        "auth required pam_faillock.so preauth\n",
        "auth required pam_unix.so\n",
        "account required pam_unix.so"
    ),
    linux_pam: concat!(
        "pam_faillock(8): of preauth, authfail and authsucc the last one\n",
        "says what the rule does, and without one it is preauth."
    ),
    mending: concat!(
        "as in its manual page: preauth before the modules that check, and\n",
        "authfail where their failure leads, as after a sufficient pam_unix.so."
    ),
};

pub const WEAK_HASH: Explanation = Explanation {
    number: "S23",
    name: "WeakHash",
    level: Level::Warning,
    meaning: concat!(
        "A rule has pam_unix store passwords by md5, des or bigcrypt. These hashes are\n",
        "computed so fast that who can read them tries millions of passwords a second.\n",
        "With des, no more than eight characters of a password count."
    ),
    example: concat!("# passwd\n", "password required pam_unix.so md5"),
    linux_pam: concat!(
        "1.5.2 and 1.7.0 store by the hash that the rule names, and\n",
        "check a password by whichever hash is stored."
    ),
    mending: concat!(
        "write yescrypt in its place. Passwords that are stored\n",
        "already keep their hash until they are changed."
    ),
};

pub const MISSING_FILE: Explanation = Explanation {
    number: "S24",
    name: "MissingFile",
    level: Level::Warning,
    meaning: concat!(
        "An argument of a rule names a file by an absolute path, and the system has\n",
        "none there. Most modules then fail whoever asks, and pam_time and pam_duo let\n",
        "everybody pass. Where pam_listfile has onerr=succeed, its file need not be\n",
        "there. Files are looked for in a system alone, and not for a folder."
    ),
    example: concat!(
        "# login\n",
        "auth required pam_unix.so\n",
        "account required pam_access.so accessfile=/etc/login.access\n",
        "$ mkdir -p r/etc/pam.d; cp login other r/etc/pam.d\n",
        "$ pamcheck check --root r"
    ),
    linux_pam: concat!(
        "1.5.2 and 1.7.0 leave arguments to the modules. pam_access\n",
        "answers abort, others service_err, and pam_time success."
    ),
    mending: concat!(
        "make the file, or mend its path. For db= of pam_userdb the file\n",
        "has the ending .db, which the argument leaves out."
    ),
};

/// Returns the explanation at this index, or `None` past the last one. They are in the order of their numbers.
pub(crate) fn of_arguments(row: usize) -> Option<&'static Explanation>
    ensures { option_map (λ e. explanation_view e.now) result ≡ slice_get of_arguments row }
{
    Some(match row {
        0 => &UNKNOWN_ARGUMENT,
        1 => &LONGER_WORD,
        2 => &ARGUMENT_OF_OTHER_KIND,
        3 => &BAD_VALUE,
        4 => &BAD_ARGUMENTS,
        5 => &NO_TOKEN,
        6 => &STORED_THOUGH_REFUSED,
        7 => &NOT_COUNTED,
        8 => &WEAK_HASH,
        9 => &MISSING_FILE,
        _ => return None,
    })
}
