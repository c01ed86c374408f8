//! The arguments of the commands: words and options.

ghost use Rattle.std.specs.Prelude.{◌≡◌};
ghost use Rattle.pam_words.specs.inner.Building.{rule_of_argument, rule_of_row, rule_of_word};

use crate::argument_rows as rows;

/// How an argument is given.
#[derive(Clone, Copy)]
pub(crate) enum ArgForm {
    /// A required word.
    Positional,
    /// A word that may be left out.
    OptionalPositional,
    /// Any number of words, before and after the options.
    Repeated,
    /// One word or more, before and after the options.
    RequiredWords,
    /// An option `--ID NAME`.
    Optional,
    /// An option `--ID NAME`, any number of times.
    RepeatedOption,
    /// A required option `--ID NAME`.
    Required,
    /// A required option `--ID NAME`, once or more.
    RequiredRepeated,
    /// An option `--ID NAME` for a number.
    Number,
    /// An option `--ID` without a value.
    Flag,
}

/// What `clap` is given for an argument.
#[derive(Clone, Copy)]
pub(crate) struct ArgRow {
    pub(crate) form: ArgForm,
    pub(crate) id: &'static str,
    /// The name of its value, for help.
    pub(crate) name: &'static str,
    pub(crate) help: &'static str,
}

/// An argument that is a word, with no option before it.
#[derive(Clone, Copy)]
pub(crate) enum Word {
    Service,
    Kind,
    Old,
    New,
    ServiceIfNamed,
    KindIfNamed,
    Services,
    Policies,
    Codes,
    Arguments,
    Number,
}

/// An argument of a command.
#[derive(Clone, Copy)]
pub(crate) enum Argument {
    Word(Word),
    AreFiles,
    AreRoots,
    Dir,
    VendorDir,
    Conf,
    Root,
    With,
    Release,
    Modules,
    HostAccess,
    HostTime,
    Facts,
    Accept,
    FailOn,
    Limit,
    After,
    Before,
    Decision,
    Asks,
    Format,
    OutputFormat,
    Answers,
    User,
    Rhost,
    Tty,
    Access,
    Time,
    Group,
    Passwd,
    Returns,
    Set,
    SetByName,
    At,
    AtUnix,
    Zone,
    AccessTables,
    TimeTable,
    TableUser,
    Json,
}

impl Word {
    /// Returns the row of the word.
    fn row(self) -> ArgRow
        ensures { rule_of_row result ≡ rule_of_word self }
    {
        match self {
            Word::Service => rows::SERVICE,
            Word::Kind => rows::KIND,
            Word::Old => rows::OLD,
            Word::New => rows::NEW,
            Word::ServiceIfNamed => rows::SERVICE_IF_NAMED,
            Word::KindIfNamed => rows::KIND_IF_NAMED,
            Word::Services => rows::SERVICES,
            Word::Policies => rows::POLICIES,
            Word::Codes => rows::CODES,
            Word::Arguments => rows::ARGUMENTS,
            Word::Number => rows::NUMBER,
        }
    }
}

impl Argument {
    /// Returns the row of the argument.
    pub(crate) fn row(self) -> ArgRow
        ensures { rule_of_row result ≡ rule_of_argument self }
    {
        match self {
            Argument::Word(word) => word.row(),
            Argument::AreFiles => rows::ARE_FILES,
            Argument::AreRoots => rows::ARE_ROOTS,
            Argument::Dir => rows::DIR,
            Argument::VendorDir => rows::VENDOR_DIR,
            Argument::Conf => rows::CONF,
            Argument::Root => rows::ROOT,
            Argument::With => rows::WITH,
            Argument::Release => rows::RELEASE,
            Argument::Modules => rows::MODULES,
            Argument::HostAccess => rows::HOST_ACCESS,
            Argument::HostTime => rows::HOST_TIME,
            Argument::Facts => rows::FACTS,
            Argument::Accept => rows::ACCEPT,
            Argument::FailOn => rows::FAIL_ON,
            Argument::Limit => rows::LIMIT,
            Argument::After => rows::AFTER,
            Argument::Before => rows::BEFORE,
            Argument::Decision => rows::DECISION,
            Argument::Asks => rows::ASKS,
            Argument::Format => rows::FORMAT,
            Argument::OutputFormat => rows::OUTPUT_FORMAT,
            Argument::Answers => rows::ANSWERS,
            Argument::User => rows::USER,
            Argument::Rhost => rows::RHOST,
            Argument::Tty => rows::TTY,
            Argument::Access => rows::ACCESS,
            Argument::Time => rows::TIME,
            Argument::Group => rows::GROUP,
            Argument::Passwd => rows::PASSWD,
            Argument::Returns => rows::RETURNS,
            Argument::Set => rows::SET,
            Argument::SetByName => rows::SET_BY_NAME,
            Argument::At => rows::AT,
            Argument::AtUnix => rows::AT_UNIX,
            Argument::Zone => rows::ZONE,
            Argument::AccessTables => rows::ACCESS_TABLES,
            Argument::TimeTable => rows::TIME_TABLE,
            Argument::TableUser => rows::TABLE_USER,
            Argument::Json => rows::JSON,
        }
    }
}
