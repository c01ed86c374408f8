//! The rows of the arguments: how each is given, and its help.

use crate::arguments::{ArgForm, ArgRow};

// The words.

pub(crate) const SERVICE: ArgRow = ArgRow {
    form: ArgForm::Positional,
    id: "service",
    name: "SERVICE",
    help: "The service",
};

pub(crate) const KIND: ArgRow = ArgRow {
    form: ArgForm::Positional,
    id: "kind",
    name: "KIND",
    help: "auth, account, password or session",
};

pub(crate) const OLD: ArgRow = ArgRow {
    form: ArgForm::Positional,
    id: "old",
    name: "OLD",
    help: "The old folder, file or root",
};

pub(crate) const NEW: ArgRow = ArgRow {
    form: ArgForm::Positional,
    id: "new",
    name: "NEW",
    help: "The new folder, file or root",
};

pub(crate) const SERVICE_IF_NAMED: ArgRow = ArgRow {
    form: ArgForm::OptionalPositional,
    id: "service",
    name: "SERVICE",
    help: "The service; all if left out",
};

pub(crate) const KIND_IF_NAMED: ArgRow = ArgRow {
    form: ArgForm::OptionalPositional,
    id: "kind",
    name: "KIND",
    help: "auth, account, password or session; all if left out",
};

pub(crate) const SERVICES: ArgRow = ArgRow {
    form: ArgForm::Repeated,
    id: "name",
    name: "SERVICE",
    help: "The services to check, or files for them, as ./sshd; all if left out",
};

pub(crate) const POLICIES: ArgRow = ArgRow {
    form: ArgForm::RequiredWords,
    id: "policy",
    name: "POLICY",
    help: "The files of rules, one or more",
};

pub(crate) const CODES: ArgRow = ArgRow {
    form: ArgForm::Repeated,
    id: "code",
    name: "CODE",
    help: "The return code of each module, in turn",
};

pub(crate) const ARGUMENTS: ArgRow = ArgRow {
    form: ArgForm::Repeated,
    id: "argument",
    name: "ARGUMENT",
    help: "The arguments of pam_access.so",
};

pub(crate) const NUMBER: ArgRow = ArgRow {
    form: ArgForm::OptionalPositional,
    id: "number",
    name: "NUMBER",
    help: "The number of a fault or finding, as E15 or S2; all if left out",
};

// The options.

pub(crate) const ARE_FILES: ArgRow = ArgRow {
    form: ArgForm::Flag,
    id: "conf",
    name: "",
    help: "OLD and NEW are files for all services",
};

pub(crate) const ARE_ROOTS: ArgRow = ArgRow {
    form: ArgForm::Flag,
    id: "root",
    name: "",
    help: "OLD and NEW are root folders of systems",
};

pub(crate) const DIR: ArgRow = ArgRow {
    form: ArgForm::Optional,
    id: "dir",
    name: "DIR",
    help: "The folder with a file for each service",
};

pub(crate) const VENDOR_DIR: ArgRow = ArgRow {
    form: ArgForm::Optional,
    id: "vendor-dir",
    name: "DIR",
    help: "The folder for services that --dir lacks",
};

pub(crate) const CONF: ArgRow = ArgRow {
    form: ArgForm::Optional,
    id: "conf",
    name: "FILE",
    help: "The file for all services",
};

pub(crate) const ROOT: ArgRow = ArgRow {
    form: ArgForm::Optional,
    id: "root",
    name: "DIR",
    help: "The root folder of a system",
};

pub(crate) const WITH: ArgRow = ArgRow {
    form: ArgForm::RepeatedOption,
    id: "with",
    name: "NAME=FILE",
    help: "A file to read in place of the file NAME of the folder; may be repeated",
};

pub(crate) const RELEASE: ArgRow = ArgRow {
    form: ArgForm::Optional,
    id: "as",
    name: "RELEASE",
    help: "linux-pam-1.5 or linux-pam-1.7: the rules of the file of the service, as this release reads them",
};

pub(crate) const MODULES: ArgRow = ArgRow {
    form: ArgForm::RepeatedOption,
    id: "modules",
    name: "DIR",
    help: "A folder of modules, in which each module is looked for; may be repeated",
};

pub(crate) const HOST_ACCESS: ArgRow = ArgRow {
    form: ArgForm::RepeatedOption,
    id: "access",
    name: "FILE",
    help: "An access table of pam_access.so, in place of those of the root; may be repeated",
};

pub(crate) const HOST_TIME: ArgRow = ArgRow {
    form: ArgForm::Optional,
    id: "time",
    name: "FILE",
    help: "The time table of pam_time.so, in place of that of the root",
};

pub(crate) const FACTS: ArgRow = ArgRow {
    form: ArgForm::Optional,
    id: "facts",
    name: "FILE",
    help: "What is known of more modules, a line for each; see pamcheck facts",
};

pub(crate) const ACCEPT: ArgRow = ArgRow {
    form: ArgForm::Optional,
    id: "accept",
    name: "FILE",
    help: "The findings that are meant to be, a line for each, as S2 SERVICE auth",
};

pub(crate) const FAIL_ON: ArgRow = ArgRow {
    form: ArgForm::Optional,
    id: "fail-on",
    name: "LEVEL",
    help: "error, warning or note: the least level that fails; warning if left out",
};

pub(crate) const LIMIT: ArgRow = ArgRow {
    form: ArgForm::Number,
    id: "limit",
    name: "N",
    help: "The most paths to list, 1 to 1000000; 1000 if left out",
};

pub(crate) const AFTER: ArgRow = ArgRow {
    form: ArgForm::Optional,
    id: "after",
    name: "CURSOR",
    help: "Lists the paths after this cursor",
};

pub(crate) const BEFORE: ArgRow = ArgRow {
    form: ArgForm::Optional,
    id: "before",
    name: "CURSOR",
    help: "Lists the paths before this cursor, the last first",
};

pub(crate) const DECISION: ArgRow = ArgRow {
    form: ArgForm::Optional,
    id: "decision",
    name: "CODES",
    help: "Lists the paths that end in one of these codes",
};

pub(crate) const ASKS: ArgRow = ArgRow {
    form: ArgForm::Number,
    id: "asks",
    name: "N",
    help: "Lists the paths that ask module N",
};

pub(crate) const FORMAT: ArgRow = ArgRow {
    form: ArgForm::Optional,
    id: "format",
    name: "FORMAT",
    help: "dot (for Graphviz), mermaid or svg; dot if left out",
};

pub(crate) const OUTPUT_FORMAT: ArgRow = ArgRow {
    form: ArgForm::Optional,
    id: "format",
    name: "FORM",
    help: "short (for people), full (with the lines of files), json (as --json), sarif (for code scanning) or patch (a diff that mends); short if left out",
};

pub(crate) const ANSWERS: ArgRow = ArgRow {
    form: ArgForm::Optional,
    id: "answers",
    name: "ANSWERS",
    help: "any or possible: what modules can return of which nothing else tells; possible if left out",
};

pub(crate) const USER: ArgRow = ArgRow {
    form: ArgForm::Optional,
    id: "user",
    name: "NAME",
    help: "The user",
};

pub(crate) const RHOST: ArgRow = ArgRow {
    form: ArgForm::Optional,
    id: "rhost",
    name: "HOST",
    help: "The remote host",
};

pub(crate) const TTY: ArgRow = ArgRow {
    form: ArgForm::Optional,
    id: "tty",
    name: "TTY",
    help: "The terminal",
};

pub(crate) const ACCESS: ArgRow = ArgRow {
    form: ArgForm::RepeatedOption,
    id: "access",
    name: "FILE",
    help: "An access table of pam_access.so; needs --user; may be repeated",
};

pub(crate) const TIME: ArgRow = ArgRow {
    form: ArgForm::Optional,
    id: "time",
    name: "FILE",
    help: "The time table of pam_time.so; needs --user and a moment",
};

pub(crate) const GROUP: ArgRow = ArgRow {
    form: ArgForm::Optional,
    id: "group",
    name: "FILE",
    help: "The group file",
};

pub(crate) const PASSWD: ArgRow = ArgRow {
    form: ArgForm::Optional,
    id: "passwd",
    name: "FILE",
    help: "The passwd file, whose users are also in their primary groups",
};

pub(crate) const RETURNS: ArgRow = ArgRow {
    form: ArgForm::Optional,
    id: "returns",
    name: "FILE",
    help: "The codes that other modules can return",
};

pub(crate) const SET: ArgRow = ArgRow {
    form: ArgForm::RepeatedOption,
    id: "set",
    name: "KEY=CODES",
    help: "The codes that a module can return, named by its name, its number or FILE:LINE; may be repeated",
};

pub(crate) const SET_BY_NAME: ArgRow = ArgRow {
    form: ArgForm::RepeatedOption,
    id: "set",
    name: "KEY=CODES",
    help: "The codes that all modules of this name can return; may be repeated",
};

pub(crate) const AT: ArgRow = ArgRow {
    form: ArgForm::Optional,
    id: "at",
    name: "CIVIL",
    help: "The moment, as 2024-05-06T10:00",
};

pub(crate) const AT_UNIX: ArgRow = ArgRow {
    form: ArgForm::Optional,
    id: "at-unix",
    name: "SECONDS",
    help: "The moment, in seconds since 1970",
};

pub(crate) const ZONE: ArgRow = ArgRow {
    form: ArgForm::Optional,
    id: "zone",
    name: "RULE",
    help: "The POSIX zone rule of --at-unix; UTC0 if left out",
};

pub(crate) const ACCESS_TABLES: ArgRow = ArgRow {
    form: ArgForm::RequiredRepeated,
    id: "access",
    name: "FILE",
    help: "A table; may be repeated: they are read in turn until a line matches",
};

pub(crate) const TIME_TABLE: ArgRow = ArgRow {
    form: ArgForm::Required,
    id: "time",
    name: "FILE",
    help: "The table",
};

pub(crate) const TABLE_USER: ArgRow = ArgRow {
    form: ArgForm::Required,
    id: "user",
    name: "NAME",
    help: "The user",
};

pub(crate) const JSON: ArgRow = ArgRow {
    form: ArgForm::Flag,
    id: "json",
    name: "",
    help: "Answer in JSON Lines",
};
