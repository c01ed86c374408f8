//! The types of requests and refusals.

use pam_codes::{Code, CodeSet};
use pam_conf::Kind;
use pam_facts::settings::Setting;
use pam_text::Texts;
use thiserror::Error;

/// The source of the configuration.
#[derive(Clone, Copy)]
pub enum ConfSource<'a> {
    /// A folder with a file for each service, as `/etc/pam.d`.
    Dir(&'a str),
    /// Such a folder, and one for the services that it lacks, as `/etc/pam.d` and `/usr/lib/pam.d`.
    Over { folder: &'a str, vendor: &'a str },
    /// One file for all services, as `/etc/pam.conf`.
    Conf(&'a str),
    /// The system whose root is this folder.
    Root(&'a str),
}

/// The least level of a finding that makes `check` or `policy` fail.
#[derive(Clone, Copy)]
pub enum LevelName {
    Error,
    Warning,
    Note,
}

/// The form in which an answer is written.
#[derive(Clone, Copy)]
pub enum OutputForm {
    /// Text for people.
    PlainText,
    /// The same with the lines of the files that findings are about, of `check` alone.
    Full,
    /// JSON Lines.
    Json,
    /// One document in SARIF 2.1.0, of `check` alone.
    Sarif,
    /// A unified diff of what has one certain mending, of `check` alone.
    Patch,
}

/// A release of Linux-PAM, whose reading of a file is shown.
#[derive(Clone, Copy)]
pub enum ReleaseName {
    /// `linux-pam-1.5`: Linux-PAM 1.5.2.
    LinuxPam15,
    /// `linux-pam-1.7`: Linux-PAM 1.7.0.
    LinuxPam17,
}

/// The moment of a login.
#[derive(Clone, Copy)]
pub enum Moment<'a> {
    /// A civil date and time, as given.
    Civil(&'a str),
    /// Seconds since 1970-01-01T00:00 UTC, and a POSIX time zone, as given.
    Instant { seconds: i64, zone: &'a str },
}

/// A login. A remote host or terminal that is not given is empty, and so is the user where no table needs one.
#[derive(Clone, Copy)]
pub struct Login<'a> {
    pub user: &'a str,
    pub rhost: &'a str,
    pub tty: &'a str,
}

/// The part of a listing that a page is taken from.
#[derive(Clone, Copy)]
pub enum PagePart<'a> {
    /// All paths, in ascending order of cursors.
    Whole,
    /// The paths after this cursor, in ascending order.
    After(&'a str),
    /// The paths before this cursor, in descending order.
    Before(&'a str),
}

/// The paths that are listed.
#[derive(Clone, Copy)]
pub enum PathFilter {
    /// All paths.
    All,
    /// Those that end in one of these decisions.
    Decides(CodeSet),
    /// Those that ask the module with this number, from 1.
    Asks(u32),
}

/// The language of a drawing.
#[derive(Clone, Copy)]
pub enum GraphFormat {
    /// DOT, of Graphviz.
    Dot,
    /// A flowchart of Mermaid.
    Mermaid,
    /// A picture in SVG.
    Svg,
}

/// The names of the group file and the tables that modules read, as far as they are given.
#[derive(Drop)]
pub struct TableNames<'a> {
    pub groups: Option<&'a str>,
    /// In the order in which they are given, which is that in which they are read.
    pub access: Vec<&'a str>,
    pub time: Option<&'a str>,
}

/// What a module may return of which neither a setting nor a table nor the returns file tells.
#[derive(Clone, Copy)]
pub enum Answers<'a> {
    /// Any code.
    Any,
    /// What is known of it, by the program's own table, and then by a facts file, if one is named.
    Possible { facts: Option<&'a str> },
}

impl<'a> Answers<'a> {
    ghost use Rattle.std.specs.Prelude.{◌≡◌};
    ghost use Rattle.std.specs.Option.{option_copied};
    ghost use Rattle.pam_words.specs.Wanted.{facts_named};

    /// Returns the name of the facts file that is to be read, if one is: none where any code is possible.
    pub fn facts_file(self) -> Option<&'a str>
        ensures { option_copied result ≡ option_copied (facts_named self.entry) }
    {
        match self {
            Answers::Any => None,
            Answers::Possible { facts } => facts,
        }
    }
}

/// What says which codes modules may return: the folders of modules, what is set for single modules, a returns file, the tables in
/// which they look up a login at a moment, and what is known of the others.
#[derive(Drop)]
pub struct KnowledgeSource<'a> {
    /// The folders of modules. With `ConfSource::Root`, those of the system are read too.
    pub modules: Vec<&'a str>,
    pub login: Login<'a>,
    /// With `ConfSource::Root`, those of the system are read where none is named and the login and the moment that they need are given.
    pub tables: TableNames<'a>,
    /// The passwd file, whose users are in the groups of their numbers too. With `ConfSource::Root`, that of the system is read where none
    /// is named and the login is given.
    pub passwd: Option<&'a str>,
    pub returns: Option<&'a str>,
    /// In the order in which they are given: of several for one module, the last counts.
    pub settings: Vec<Setting<'a>>,
    pub moment: Option<Moment<'a>>,
    pub answers: Answers<'a>,
}

/// What a check reads besides the configuration.
#[derive(Drop)]
pub struct CheckFiles<'a> {
    /// The folders of modules. With `ConfSource::Root`, those of the system are read too.
    pub modules: Vec<&'a str>,
    /// With `ConfSource::Root`, those of the system are read where none is named.
    pub tables: TableNames<'a>,
    /// What is known of modules, after the program's own table.
    pub facts: Option<&'a str>,
    /// The findings that are meant to be.
    pub accept: Option<&'a str>,
}

/// What a comparison reads besides the two configurations.
#[derive(Drop)]
pub struct CompareFiles<'a> {
    /// The folders of modules. With `ConfSource::Root`, those of each system are read too.
    pub modules: Vec<&'a str>,
    /// What is known of modules, after the program's own table.
    pub facts: Option<&'a str>,
    /// The codes that modules may return, in both configurations.
    pub returns: Option<&'a str>,
    /// The same, for single modules, in the order in which they are given: of several for one module, the last counts.
    pub settings: Vec<Setting<'a>>,
}

/// A command for a service or for all services, or about the program itself.
#[derive(Drop)]
pub enum Task<'a> {
    /// Looks for faults, and for stacks that let nobody or anybody in, in these services, or in all if none is named.
    Check {
        source: ConfSource<'a>,
        services: Texts,
        fail_on: LevelName,
        given: CheckFiles<'a>,
    },
    /// Compares what two configurations decide, for this service and kind, or for all that are not named.
    Compare {
        old: ConfSource<'a>,
        new: ConfSource<'a>,
        service: Option<&'a str>,
        kind: Option<Kind>,
        given: CompareFiles<'a>,
    },
    /// Lists the stack of this kind, or of each kind if none is named; or the rules of the service's own file as a release reads them, if
    /// one is named.
    Show {
        source: ConfSource<'a>,
        kind: Option<Kind>,
        release: Option<ReleaseName>,
    },
    /// Runs the stack with one code for each of its modules, in order.
    Decide {
        source: ConfSource<'a>,
        kind: Kind,
        codes: Vec<Code>,
    },
    /// Looks up a login in access tables, in the order in which they are given. The arguments are those of pam_access(8).
    Access {
        tables: Vec<&'a str>,
        groups: Option<&'a str>,
        /// The passwd file, whose users are in the groups of their numbers too.
        passwd: Option<&'a str>,
        login: Login<'a>,
        arguments: Texts,
    },
    /// Looks up a login, without a remote host, in a time table.
    Time {
        table: &'a str,
        login: Login<'a>,
        moment: Moment<'a>,
    },
    /// Lists one page of the paths through the stack.
    Paths {
        source: ConfSource<'a>,
        kind: Kind,
        limit: u32,
        part: PagePart<'a>,
        filter: PathFilter,
        knowledge: KnowledgeSource<'a>,
    },
    /// Counts the paths through the stack by their decisions.
    Outcomes {
        source: ConfSource<'a>,
        kind: Kind,
        knowledge: KnowledgeSource<'a>,
    },
    /// Draws the graph of the stack's runs.
    Graph {
        source: ConfSource<'a>,
        kind: Kind,
        format: GraphFormat,
        knowledge: KnowledgeSource<'a>,
    },
    /// Says whether the rules of policies hold, and names findings of which level make it fail.
    Policy {
        source: ConfSource<'a>,
        /// The names of the policy files, one or more, in the order in which they are given.
        policies: Vec<&'a str>,
        fail_on: LevelName,
        /// Its answers are `Answers::Possible`.
        knowledge: KnowledgeSource<'a>,
    },
    /// Lists the rules that hold of the stack.
    Needs {
        source: ConfSource<'a>,
        kind: Kind,
        /// Its answers are `Answers::Possible`.
        knowledge: KnowledgeSource<'a>,
    },
    /// Says what a fault or finding means, by its number, or lists all of them.
    Explain(Option<&'a str>),
    /// Lists what is known of modules.
    Facts,
    /// Says which program this is.
    Version,
}

/// A file that is read in place of the file of a name, or beside the others if there is none: a change that is not yet made.
#[derive(Clone, Copy)]
pub struct Candidate<'a> {
    /// A name without a slash, as files of a folder have them.
    pub name: &'a [u8],
    pub file: &'a str,
}

/// A command with its service. The service is as given, not lowercased, and empty for a command that takes none, or several.
#[derive(Drop)]
pub struct Request<'a> {
    pub service: &'a str,
    pub task: Task<'a>,
    /// The candidates for files of the source, none for a command without one: the SERVICE words of `check` that are files, and then
    /// those of `--with`. Of several for one name, the first counts.
    pub candidates: Vec<Candidate<'a>>,
    pub output: OutputForm,
}

/// Why the words are refused. If several reasons apply, the first in this order is returned. A `SettingForm`, and a `CodeName` of a
/// value of `--set`, share one place in it: there the first value that is wrong decides.
#[derive(Debug, Drop, Error)]
pub enum Usage {
    /// Help or the version was requested. The text of the `clap` error goes to standard output.
    #[error(transparent)]
    Help(clap::Error),
    /// U1: `clap` refuses the words.
    #[error(transparent)]
    Words(clap::Error),
    /// U1 too: a word is not UTF-8. `request` never returns it; its caller does, while collecting the words.
    #[error("a word is not UTF-8")]
    NotUtf8,
    /// U2: not exactly one source is given, or `--vendor-dir` without `--dir`. Only `show`, `decide` and `paths` need one,
    /// and `compare` takes one form of its sources.
    #[error("not exactly one of --dir, --conf and --root, or --vendor-dir without --dir")]
    Source,
    /// U3: KIND is not the name of a kind.
    #[error("unknown kind")]
    KindName,
    /// U4: a CODE, also one of `--decision` or `--set`, is not the name of a code.
    #[error("unknown code")]
    CodeName,
    /// U12: the value of `--format` is not the name of a format, or is another one than `json` beside `--json`.
    #[error("unknown format")]
    FormatName,
    /// U13: the value of `--fail-on` is not the name of a level.
    #[error("unknown level")]
    LevelName,
    /// U20: the value of `--answers` is neither `any` nor `possible`.
    #[error("unknown answers")]
    AnswersName,
    /// U17: a value of `--set` is not KEY=CODES.
    #[error("a setting that is not KEY=CODES")]
    SettingForm,
    /// U5: an access or time table is given without a user.
    #[error("a table without a user")]
    Login,
    /// U6: not exactly one form of the moment is given, `--zone` is given without `--at-unix`, or the seconds are not
    /// 1 to 12 digits. `paths`, `outcomes`, `graph`, `needs` and `policy` need a moment only for a time table.
    #[error("not exactly one moment")]
    Moment,
    /// U8: both `--after` and `--before` are given.
    #[error("more than one of --after and --before")]
    BothEnds,
    /// U11: both `--decision` and `--asks` are given.
    #[error("more than one of --decision and --asks")]
    BothFilters,
    /// U16: the value of `--as` is not the name of a release, or one is given beside `--json`.
    #[error("a release that is unknown, or beside --json")]
    ReleaseForm,
    /// U15: a value of `--with` is not NAME=FILE, its NAME has a slash, a SERVICE that is a file ends in a slash, or any of these
    /// is given beside `--conf`.
    #[error("a candidate that is not NAME=FILE, or beside --conf")]
    CandidateForm,
    /// U7: an allocation failed.
    #[error("out of memory")]
    Memory,
}
