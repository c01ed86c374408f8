//! The commands and their arguments, with their help.

use crate::arguments::Argument::{
    self, Accept, Access, AccessTables, After, Answers, AreFiles, AreRoots, Asks, At, AtUnix,
    Before, Conf, Decision, Dir, Facts, FailOn, Format, Group, HostAccess, HostTime, Json, Limit,
    Modules, OutputFormat, Passwd, Release, Returns, Rhost, Root, Set, SetByName, TableUser, Time,
    TimeTable, Tty, User, VendorDir, With, Zone,
};
use crate::arguments::Word;
use crate::examples;

// The words, as arguments.
const SERVICE: Argument = Argument::Word(Word::Service);

const KIND: Argument = Argument::Word(Word::Kind);

const OLD: Argument = Argument::Word(Word::Old);

const NEW: Argument = Argument::Word(Word::New);

const SERVICE_IF_NAMED: Argument = Argument::Word(Word::ServiceIfNamed);

const KIND_IF_NAMED: Argument = Argument::Word(Word::KindIfNamed);

const SERVICES: Argument = Argument::Word(Word::Services);

const POLICIES: Argument = Argument::Word(Word::Policies);

const CODES: Argument = Argument::Word(Word::Codes);

const ARGUMENTS: Argument = Argument::Word(Word::Arguments);

const NUMBER: Argument = Argument::Word(Word::Number);

/// A command with its arguments.
#[derive(Clone, Copy)]
pub(crate) struct CommandRow {
    pub(crate) name: &'static str,
    pub(crate) about: &'static str,
    pub(crate) examples: &'static str,
    pub(crate) args: &'static [Argument],
}

// The commands stand in several tables, since what it costs to prove a static grows with the square of its size.

/// The commands about whole configurations.
pub(crate) static HOSTS: [CommandRow; 3] = [
    CommandRow {
        name: "check",
        about: "Checks all services for faults, and for stacks that let nobody or anybody in",
        examples: examples::CHECK,
        args: &[
            Dir,
            VendorDir,
            Conf,
            Root,
            With,
            Modules,
            HostAccess,
            HostTime,
            Group,
            Facts,
            Accept,
            FailOn,
            OutputFormat,
            Json,
            SERVICES,
        ],
    },
    CommandRow {
        name: "compare",
        about: "Compares what two configurations decide",
        examples: examples::COMPARE,
        args: &[
            OLD,
            NEW,
            SERVICE_IF_NAMED,
            KIND_IF_NAMED,
            AreFiles,
            AreRoots,
            Json,
            Modules,
            Facts,
            Returns,
            SetByName,
        ],
    },
    CommandRow {
        name: "policy",
        about: "Proves the rules of policies, or shows the run that breaks them",
        examples: examples::POLICY,
        args: &[
            POLICIES, Dir, VendorDir, Conf, Root, With, Json, FailOn, Facts, Modules, User, Rhost,
            Tty, Access, Time, Group, Passwd, Returns, SetByName, At, AtUnix, Zone,
        ],
    },
];

/// The commands about a stack as it is.
pub(crate) static STACKS: [CommandRow; 2] = [
    CommandRow {
        name: "show",
        about: "Shows the modules of a stack",
        examples: examples::SHOW,
        args: &[
            SERVICE,
            KIND_IF_NAMED,
            Dir,
            VendorDir,
            Conf,
            Root,
            With,
            Release,
            Json,
        ],
    },
    CommandRow {
        name: "decide",
        about: "Runs a stack with given return codes",
        examples: examples::DECIDE,
        args: &[SERVICE, KIND, Dir, VendorDir, Conf, Root, With, Json, CODES],
    },
];

/// The commands that list paths.
pub(crate) static LISTINGS: [CommandRow; 1] = [CommandRow {
    name: "paths",
    about: "Lists the paths through a stack",
    examples: examples::PATHS,
    args: &[
        SERVICE, KIND, Dir, VendorDir, Conf, Root, With, Json, Limit, After, Before, Decision,
        Asks, Modules, User, Rhost, Tty, Access, Time, Group, Passwd, Returns, Set, At, AtUnix,
        Zone,
    ],
}];

/// The commands about all runs of a stack.
pub(crate) static GRAPHS: [CommandRow; 3] = [
    CommandRow {
        name: "outcomes",
        about: "Counts the paths through a stack by their decisions",
        examples: examples::OUTCOMES,
        args: &[
            SERVICE, KIND, Dir, VendorDir, Conf, Root, With, Json, Answers, Facts, Modules, User,
            Rhost, Tty, Access, Time, Group, Passwd, Returns, Set, At, AtUnix, Zone,
        ],
    },
    CommandRow {
        name: "graph",
        about: "Draws the graph of a stack",
        examples: examples::GRAPH,
        args: &[
            SERVICE, KIND, Dir, VendorDir, Conf, Root, With, Format, Answers, Facts, Modules, User,
            Rhost, Tty, Access, Time, Group, Passwd, Returns, Set, At, AtUnix, Zone,
        ],
    },
    CommandRow {
        name: "needs",
        about: "Lists the rules that hold of a stack, as a policy",
        examples: examples::NEEDS,
        args: &[
            SERVICE, KIND, Dir, VendorDir, Conf, Root, With, Json, Facts, Modules, User, Rhost,
            Tty, Access, Time, Group, Passwd, Returns, SetByName, At, AtUnix, Zone,
        ],
    },
];

/// The commands that look a login up.
pub(crate) static LOOKUPS: [CommandRow; 2] = [
    CommandRow {
        name: "access",
        about: "Looks a login up in access tables",
        examples: examples::ACCESS,
        args: &[
            SERVICE,
            AccessTables,
            TableUser,
            Tty,
            Group,
            Passwd,
            Rhost,
            Json,
            ARGUMENTS,
        ],
    },
    CommandRow {
        name: "time",
        about: "Looks a login up in a time table",
        examples: examples::TIME,
        args: &[SERVICE, TimeTable, TableUser, Tty, At, AtUnix, Zone, Json],
    },
];

/// The commands about the program itself.
pub(crate) static PAGES: [CommandRow; 3] = [
    CommandRow {
        name: "explain",
        about: "Explains a fault or finding, and how to mend it",
        examples: examples::EXPLAIN,
        args: &[NUMBER],
    },
    CommandRow {
        name: "facts",
        about: "Lists what is known of modules",
        examples: examples::FACTS,
        args: &[],
    },
    CommandRow {
        name: "version",
        about: "Shows the version of the program",
        examples: examples::VERSION,
        args: &[],
    },
];
