//! The table of faults: the number and name of each, and its exit status.

ghost use Rattle.std.specs.Prelude.{◌≡◌};
ghost use Rattle.pam_report.specs.FaultTable as spec;
ghost use Rattle.pam_report.specs.inner.FaultViews.{row_view};

use super::row::Row;
use crate::inputs::InputError;
use pam_codes::ControlError;
use pam_conf::FaultKind;
use pam_facts::FactsFault;
use pam_findings::accepted::AcceptError;
use pam_paths::CursorError;
use pam_policy::text::PolicyFault;
use pam_tables::times::{MomentError, TimeFault};
use pam_tables::{Table, TableFault};
use pam_text::SourceFault;
use pam_words::Usage;

const HELP: u8 = 0;

const BAD_REQUEST: u8 = 2;

const BAD_CONFIGURATION: u8 = 3;

/// For a table, and for the moment.
const BAD_TABLE: u8 = 4;

/// For a failed read or write.
const FAILED: u8 = 5;

const NO_MEMORY: u8 = 6;

#[tactic(auto, unfolding(crate::specs::FaultTable::usage_row))]
pub(super) fn usage_row(usage: &Usage) -> Row
    ensures { row_view result ≡ spec.usage_row usage.now }
{
    match usage {
        Usage::Help(_) => Row::of("Help", HELP),
        Usage::Words(_) => Row::of("U1 Words", BAD_REQUEST),
        Usage::NotUtf8 => Row::of("U1 NotUtf8", BAD_REQUEST),
        Usage::Source => Row::of("U2 Source", BAD_REQUEST),
        Usage::KindName => Row::of("U3 KindName", BAD_REQUEST),
        Usage::CodeName => Row::of("U4 CodeName", BAD_REQUEST),
        Usage::Login => Row::of("U5 Login", BAD_REQUEST),
        Usage::Moment => Row::of("U6 Moment", BAD_REQUEST),
        Usage::Memory => Row::of("U7 Memory", NO_MEMORY),
        Usage::BothEnds => Row::of("U8 BothEnds", BAD_REQUEST),
        Usage::BothFilters => Row::of("U11 BothFilters", BAD_REQUEST),
        Usage::FormatName => Row::of("U12 FormatName", BAD_REQUEST),
        Usage::LevelName => Row::of("U13 LevelName", BAD_REQUEST),
        Usage::ReleaseForm => Row::of("U16 ReleaseForm", BAD_REQUEST),
        Usage::SettingForm => Row::of("U17 SettingForm", BAD_REQUEST),
        Usage::CandidateForm => Row::of("U15 CandidateForm", BAD_REQUEST),
        Usage::AnswersName => Row::of("U20 AnswersName", BAD_REQUEST),
    }
}

#[tactic(auto, unfolding(crate::specs::FaultTable::control_row))]
fn control_row(error: ControlError) -> Row
    ensures { row_view result ≡ spec.control_row error }
{
    match error {
        ControlError::BadControl => Row::of("E4 BadControl", BAD_CONFIGURATION),
        ControlError::BadValue => Row::of("E5 BadValue", BAD_CONFIGURATION),
        ControlError::BadAction => Row::of("E6 BadAction", BAD_CONFIGURATION),
        ControlError::ZeroJump => Row::of("E7 ZeroJump", BAD_CONFIGURATION),
        ControlError::OpenBracket => Row::of("E8 OpenBracket", BAD_CONFIGURATION),
    }
}

#[tactic(auto, unfolding(crate::specs::FaultTable::conf_row))]
pub(super) fn conf_row(kind: FaultKind) -> Row
    ensures { row_view result ≡ spec.conf_row kind }
{
    match kind {
        FaultKind::NulByte => Row::of("E1 NulByte", BAD_CONFIGURATION),
        FaultKind::MissingField => Row::of("E2 MissingField", BAD_CONFIGURATION),
        FaultKind::BadKind => Row::of("E3 BadKind", BAD_CONFIGURATION),
        FaultKind::Control(error) => control_row(error),
        FaultKind::MissingTarget => Row::of("E9 MissingTarget", BAD_CONFIGURATION),
        FaultKind::BadTarget => Row::of("E10 BadTarget", BAD_CONFIGURATION),
        FaultKind::Cycle => Row::of("E11 Cycle", BAD_CONFIGURATION),
        FaultKind::TooDeep => Row::of("E12 TooDeep", BAD_CONFIGURATION),
        FaultKind::TooManyModules => Row::of("E13 TooManyModules", BAD_CONFIGURATION),
        FaultKind::IncludeInSingleFile => Row::of("E14 IncludeInSingleFile", BAD_CONFIGURATION),
        FaultKind::NoService => Row::of("E15 NoService", BAD_CONFIGURATION),
        FaultKind::FileTooLong => Row::of("E16 FileTooLong", BAD_CONFIGURATION),
        FaultKind::Memory => memory_row(),
        FaultKind::TooManyFollowed => Row::of("E18 TooManyFollowed", BAD_CONFIGURATION),
    }
}

/// The row of an allocation that failed outside the calls with a number of their own for it.
pub(super) fn memory_row() -> Row
    ensures { row_view result ≡ spec.memory_row }
{
    Row::of("E17 Memory", NO_MEMORY)
}

/// The row of a run that can be in too many states.
pub(super) fn graph_row() -> Row
    ensures { row_view result ≡ spec.graph_row }
{
    Row::of("E19 TooManyStates", BAD_CONFIGURATION)
}

/// The row of a module to ask that the stack does not have.
pub(super) fn module_row() -> Row
    ensures { row_view result ≡ spec.module_row }
{
    Row::of("U9 NoSuchModule", BAD_REQUEST)
}

/// The row of a key that names no module of the stack.
pub(super) fn key_row() -> Row
    ensures { row_view result ≡ spec.key_row }
{
    Row::of("U10 NoSuchKey", BAD_REQUEST)
}

/// The row of a number that no fault or finding has.
pub(super) fn number_row() -> Row
    ensures { row_view result ≡ spec.number_row }
{
    Row::of("U14 NoSuchNumber", BAD_REQUEST)
}

/// The row of a name that is no service.
pub(super) fn service_row() -> Row
    ensures { row_view result ≡ spec.service_row }
{
    Row::of("U18 NoSuchService", BAD_REQUEST)
}

/// The row of a candidate that no service reads.
pub(super) fn candidate_row() -> Row
    ensures { row_view result ≡ spec.candidate_row }
{
    Row::of("U19 UnusedCandidate", BAD_REQUEST)
}

/// The row of codes that are not as many as the modules.
pub(super) fn count_row() -> Row
    ensures { row_view result ≡ spec.count_row }
{
    Row::of("DE1 WrongCount", BAD_REQUEST)
}

pub(super) fn cursor_row(error: CursorError) -> Row
    ensures { row_view result ≡ spec.cursor_row error }
{
    match error {
        CursorError::Syntax => Row::of("C1 Syntax", BAD_REQUEST),
        CursorError::NotLeast(_) => Row::of("C2 NotLeast", BAD_REQUEST),
        CursorError::TooShort => Row::of("C3 TooShort", BAD_REQUEST),
        CursorError::TooLong => Row::of("C4 TooLong", BAD_REQUEST),
    }
}

#[tactic(auto, unfolding(crate::specs::FaultTable::table_row))]
pub(super) fn table_row(fault: TableFault) -> Row
    ensures { row_view result ≡ spec.table_row fault }
{
    match fault {
        TableFault::MissingField => Row::of("TE1 MissingField", BAD_TABLE),
        TableFault::BadPermission => Row::of("TE2 BadPermission", BAD_TABLE),
        TableFault::Netgroup => Row::of("TE3 Netgroup", BAD_TABLE),
        TableFault::UserAtHost => Row::of("TE4 UserAtHost", BAD_TABLE),
        TableFault::BadMask => Row::of("TE5 BadMask", BAD_TABLE),
        TableFault::BadGroup => Row::of("TE9 BadGroup", BAD_TABLE),
        TableFault::NulByte => Row::of("TE10 NulByte", BAD_TABLE),
        TableFault::Memory => Row::of("TE11 Memory", NO_MEMORY),
        TableFault::TableTooLong => Row::of("TE12 TableTooLong", BAD_TABLE),
        TableFault::BadCode => Row::of("TE13 BadCode", BAD_TABLE),
        TableFault::BadModule => Row::of("TE14 BadModule", BAD_TABLE),
    }
}

#[tactic(auto, unfolding(crate::specs::FaultTable::facts_row))]
pub(super) fn facts_row(fault: FactsFault) -> Row
    ensures { row_view result ≡ spec.facts_row fault }
{
    match fault {
        FactsFault::BadFact => Row::of("TE16 BadFact", BAD_TABLE),
        FactsFault::NulByte => Row::of("TE10 NulByte", BAD_TABLE),
        FactsFault::Memory => Row::of("TE11 Memory", NO_MEMORY),
        FactsFault::TooLong => Row::of("TE12 TableTooLong", BAD_TABLE),
    }
}

#[tactic(auto, unfolding(crate::specs::FaultTable::policy_row))]
pub(super) fn policy_row(fault: PolicyFault) -> Row
    ensures { row_view result ≡ spec.policy_row fault }
{
    match fault {
        PolicyFault::MissingField => Row::of("TE1 MissingField", BAD_TABLE),
        PolicyFault::NulByte => Row::of("TE10 NulByte", BAD_TABLE),
        PolicyFault::Memory => Row::of("TE11 Memory", NO_MEMORY),
        PolicyFault::TableTooLong => Row::of("TE12 TableTooLong", BAD_TABLE),
        PolicyFault::BadCode => Row::of("TE13 BadCode", BAD_TABLE),
        PolicyFault::BadServices => Row::of("TE17 BadServices", BAD_TABLE),
        PolicyFault::BadKinds => Row::of("TE18 BadKinds", BAD_TABLE),
        PolicyFault::BadVerb => Row::of("TE19 BadVerb", BAD_TABLE),
        PolicyFault::BadEvent => Row::of("TE20 BadEvent", BAD_TABLE),
        PolicyFault::BadList => Row::of("TE21 BadList", BAD_TABLE),
        PolicyFault::NoAnswers => Row::of("TE22 NoAnswers", BAD_TABLE),
        PolicyFault::ExtraWord => Row::of("TE23 ExtraWord", BAD_TABLE),
        PolicyFault::TooManyRules => Row::of("TE24 TooManyRules", BAD_TABLE),
    }
}

#[tactic(auto, unfolding(crate::specs::FaultTable::accept_row))]
pub(super) fn accept_row(error: AcceptError) -> Row
    ensures { row_view result ≡ spec.accept_row error }
{
    match error {
        AcceptError::BadAccept(_) => Row::of("TE15 BadAccept", BAD_TABLE),
        AcceptError::Memory => Row::of("TE11 Memory", NO_MEMORY),
        AcceptError::Source(SourceFault::NulByte(_)) => Row::of("TE10 NulByte", BAD_TABLE),
        AcceptError::Source(SourceFault::TooLong) => Row::of("TE12 TableTooLong", BAD_TABLE),
    }
}

#[tactic(auto, unfolding(crate::specs::FaultTable::time_row))]
pub(super) fn time_row(fault: TimeFault) -> Row
    ensures { row_view result ≡ spec.time_row fault }
{
    match fault {
        TimeFault::MissingField => Row::of("TE1 MissingField", BAD_TABLE),
        TimeFault::Netgroup => Row::of("TE3 Netgroup", BAD_TABLE),
        TimeFault::BadTimes => Row::of("TE6 BadTimes", BAD_TABLE),
        TimeFault::TwoWildcards => Row::of("TE7 TwoWildcards", BAD_TABLE),
        TimeFault::BadLogic => Row::of("TE8 BadLogic", BAD_TABLE),
        TimeFault::NulByte => Row::of("TE10 NulByte", BAD_TABLE),
        TimeFault::Memory => Row::of("TE11 Memory", NO_MEMORY),
        TimeFault::TooLong => Row::of("TE12 TableTooLong", BAD_TABLE),
    }
}

/// Returns the name of a table, which is its place in a line.
pub(super) fn table_name(table: Table) -> &'static str
    ensures { result.now ≡ spec.table_name table }
{
    match table {
        Table::Access => "access",
        Table::Group => "group",
        Table::Returns => "returns",
    }
}

pub(super) fn moment_row(error: MomentError) -> Row
    ensures { row_view result ≡ spec.moment_row error }
{
    match error {
        MomentError::Range => Row::of("M1 Range", BAD_TABLE),
        MomentError::Rule => Row::of("M2 Rule", BAD_TABLE),
        MomentError::Memory => Row::of("M3 Memory", NO_MEMORY),
        MomentError::Syntax => Row::of("M4 Syntax", BAD_TABLE),
    }
}

/// The row of a file that cannot be read.
pub(super) fn read_row() -> Row
    ensures { row_view result ≡ spec.read_row }
{
    Row::of("V1 Read", FAILED)
}

pub(super) fn input_row(error: &InputError) -> Row
    ensures { row_view result ≡ spec.input_row error.now }
{
    match error {
        InputError::Read(..) => read_row(),
        InputError::Memory => memory_row(),
    }
}

/// The row of a failed write.
pub(super) fn write_row() -> Row
    ensures { row_view result ≡ spec.write_row }
{
    Row::of("V2 Write", FAILED)
}
