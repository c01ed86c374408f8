//! Faults: why a request has no answer, with their lines and exit statuses.

ghost use Rattle.std.specs.Prelude.{◌≡◌, ◌++◌, ◌≤◌, IfOk, OnOk, Some, option_map};
ghost use Rattle.pam_codes.specs.Line.{line_text, piece_text};
ghost use Rattle.pam_report.specs.Fault as spec;
ghost use Rattle.pam_report.specs.Fault.{IsNumbered};
ghost use Rattle.pam_report.specs.inner.FaultViews.{row_view};

mod keys;
mod missing;
mod mistakes;
mod naming;
mod place;
mod policies;
mod refusal;
mod row;
mod table;
mod unread;

use crate::inputs::InputError;
pub use mistakes::mistaken_text;
use pam_codes::Piece;
use pam_conf::{ConfError, Files};
use pam_dispatch::WrongCount;
use pam_facts::known::{KnownError, NumberedError};
use pam_facts::{FactsError, FactsFault};
use pam_findings::accepted::AcceptError;
use pam_paths::CursorError;
use pam_tables::times::{MomentError, TimeError};
use pam_words::Usage;
use place::{accept_file, conf_file, facts_file, policy_file, table_file, time_file};
pub use policies::PolicyFileError;
pub(crate) use policies::policy_fault;
pub use refusal::refusal_text;
use row::Row;
use std::alloc::{AllocError, Global};
use table::{
    accept_row, candidate_row, conf_row, count_row, cursor_row, facts_row, graph_row, input_row,
    key_row, memory_row, module_row, moment_row, number_row, policy_row, read_row, service_row,
    table_row, time_row, usage_row, write_row,
};
use thiserror::Error;
pub use unread::input_sentence;

/// Why a request has no answer.
#[derive(Clone, Copy, Debug, PartialEq, Eq, Error)]
pub enum Fault {
    /// A fault of the configuration.
    #[error(transparent)]
    Conf(ConfError),
    /// A fault of a table. Of access tables it is the one of this number.
    #[error(transparent)]
    Table(NumberedError),
    /// A fault of a time table.
    #[error(transparent)]
    Time(TimeError),
    /// A fault of a facts file. A failed allocation is `Memory`.
    #[error(transparent)]
    Facts(FactsError),
    /// A fault of a policy. A failed allocation is `Memory`.
    #[error(transparent)]
    Policy(PolicyFileError),
    /// A fault of an accept file. A failed allocation is `Memory`.
    #[error(transparent)]
    Accept(AcceptError),
    /// The moment is invalid.
    #[error(transparent)]
    Moment(MomentError),
    /// The number of codes differs from the number of modules.
    #[error(transparent)]
    Count(WrongCount),
    /// The graph of the run has more nodes than `pam_graph` allows.
    #[error("the run can be in too many states")]
    TooManyStates,
    /// The stack has no module with the number that paths are to ask.
    #[error("the stack has no such module")]
    NoSuchModule,
    /// A key for which codes are set names no module, or the codes that are set for it are none.
    #[error("a key names no module, or has no codes")]
    NoSuchKey,
    /// No fault or finding has the number that is to be explained.
    #[error("there is no such number")]
    NoSuchNumber,
    /// The configuration has no file and no rule of a service that is named.
    #[error("there is no such service")]
    NoSuchService,
    /// No service that is checked reads the file of a candidate.
    #[error("no service that is checked reads a candidate")]
    UnusedCandidate,
    /// Each service that is to be checked takes rules from a file that cannot be read.
    #[error("no service is left of which each file can be read")]
    Unread,
    /// No path of the stack has the cursor.
    #[error(transparent)]
    Cursor(CursorError),
    /// A write failed.
    #[error("standard output took no more")]
    Device,
    /// An allocation failed.
    #[error("out of memory")]
    Memory,
}

/// Returns the fault of a table that modules read.
pub(crate) fn known_fault(error: KnownError) -> Fault
    ensures { result ≡ spec.known_fault error }
{
    match error {
        KnownError::Table(error) => Fault::Table(error),
        KnownError::Time(error) => Fault::Time(error),
    }
}

/// Returns the fault of a facts file, where a failed allocation has no place.
pub(crate) fn facts_fault(error: FactsError) -> Fault
    ensures { result ≡ spec.facts_fault error }
{
    match error.fault {
        FactsFault::Memory => Fault::Memory,
        _ => Fault::Facts(error),
    }
}

/// Returns the fault of an accept file, where a failed allocation has no place.
pub(crate) fn accept_fault(error: AcceptError) -> Fault
    ensures { result ≡ spec.accept_fault error }
{
    match error {
        AcceptError::Memory => Fault::Memory,
        _ => Fault::Accept(error),
    }
}

/// Returns the row of a fault in the table.
fn row_of(fault: &Fault) -> Row
    ensures { row_view result ≡ spec.row_of fault.now }
{
    match fault {
        Fault::Conf(error) => conf_row(error.kind),
        Fault::Table(error) => table_row(error.error.fault),
        Fault::Time(error) => time_row(error.fault),
        Fault::Facts(error) => facts_row(error.fault),
        Fault::Policy(error) => policy_row(error.error.fault),
        Fault::Accept(error) => accept_row(*error),
        Fault::Moment(error) => moment_row(*error),
        Fault::Count(_) => count_row(),
        Fault::TooManyStates => graph_row(),
        Fault::NoSuchModule => module_row(),
        Fault::NoSuchKey => key_row(),
        Fault::NoSuchNumber => number_row(),
        Fault::NoSuchService => service_row(),
        Fault::UnusedCandidate => candidate_row(),
        Fault::Unread => read_row(),
        Fault::Cursor(error) => cursor_row(*error),
        Fault::Device => write_row(),
        Fault::Memory => memory_row(),
    }
}

fn push_piece(text: &mut Vec<u8>, piece: Piece<'_>) -> Result<(), AllocError>
    ensures { OnOk result (text.new.items ≡ text.old.items ++ piece_text piece.entry) }
{
    match piece {
        Piece::Bytes(bytes) => text.extend_from_slice(bytes),
        Piece::Number(number) => {
            let mut digits = itoa::Buffer::new();
            text.extend_from_slice(digits.format(number).as_bytes())
        }
    }
}

pub(crate) fn push_pieces(text: &mut Vec<u8>, pieces: &[Piece<'_>]) -> Result<(), AllocError>
    ensures { OnOk result (text.new.items ≡ text.old.items ++ line_text pieces.now) }
{
    for piece in pieces {
        push_piece(text, *piece)?;
    }
    Ok(())
}

/// Returns the line of a row, with the pieces of its place.
fn line(alloc: Global, row: Row, place: &[Piece<'_>]) -> Result<Vec<u8>, AllocError>
    ensures { IfOk result (λ text. text.items ≡ spec.line_of (row_view row) (line_text place.now)) }
{
    let mut text = Vec::new(alloc);
    text.extend_from_slice(b"pamcheck: ")?;
    text.extend_from_slice(row.name.as_bytes())?;
    push_pieces(&mut text, place)?;
    text.extend_from_slice(b"\n")?;
    Ok(text)
}

/// Returns the line of a row, with a place if there is a file.
fn line_at(alloc: Global, row: Row, file: Option<&[u8]>, number: u64) -> Result<Vec<u8>, AllocError>
    ensures { IfOk result (λ text. text.items ≡ spec.line_of (row_view row) (spec.line_place (option_map (λ f. f.now) file.entry) number)) }
{
    match file {
        None => line(alloc, row, &[]),
        Some(file) => line(
            alloc,
            row,
            &[
                Piece::Bytes(b" "),
                Piece::Bytes(file),
                Piece::Bytes(b":"),
                Piece::Number(number),
            ],
        ),
    }
}

/// Returns the line of a row, with a place in a table. One with a number above 1 is named with it.
fn line_in(
    alloc: Global,
    row: Row,
    table: &[u8],
    number: usize,
    at: u64,
) -> Result<Vec<u8>, AllocError>
    ensures { IfOk result (λ text. text.items ≡ spec.line_of (row_view row) (spec.place_in_table number (Some table.now) at)) }
{
    if number > 1 {
        return line(
            alloc,
            row,
            &[
                Piece::Bytes(b" "),
                Piece::Bytes(table),
                Piece::Bytes(b"["),
                Piece::Number(number as u64),
                Piece::Bytes(b"]:"),
                Piece::Number(at),
            ],
        );
    }
    line_at(alloc, row, Some(table), at)
}

/// Returns the line of a fault of a policy. One after the first is named with its number.
fn policy_line(alloc: Global, row: Row, error: &PolicyFileError) -> Result<Vec<u8>, AllocError>
    ensures { IfOk result (λ text. text.items ≡ spec.line_of (row_view row) (spec.policy_place error.now)) }
{
    match policy_file(error.error.fault) {
        Some(policy) => line_in(
            alloc,
            row,
            policy,
            error.number,
            u64::from(error.error.line),
        ),
        None => line(alloc, row, &[]),
    }
}

/// Returns the line of a fault of a table. An access table after the first is named with its number.
fn table_line(alloc: Global, row: Row, error: &NumberedError) -> Result<Vec<u8>, AllocError>
    ensures { IfOk result (λ text. text.items ≡ spec.line_of (row_view row) (spec.table_place error.now)) }
{
    match table_file(&error.error) {
        Some(table) => line_in(alloc, row, table, error.number, u64::from(error.error.line)),
        None => line(alloc, row, &[]),
    }
}

fn cursor_line(alloc: Global, row: Row, error: CursorError) -> Result<Vec<u8>, AllocError>
    ensures { IfOk result (λ text. text.items ≡ spec.line_of (row_view row) (spec.cursor_place error)) }
{
    match error {
        CursorError::NotLeast(step) => line(
            alloc,
            row,
            &[Piece::Bytes(b" step "), Piece::Number(step as u64)],
        ),
        CursorError::Syntax | CursorError::TooShort | CursorError::TooLong => line(alloc, row, &[]),
    }
}

/// Returns the line of a fault: `pamcheck: NUMBER NAME`, with its place if it has one.
///
/// A failed allocation has no place, and neither has a fault whose position is not in `files`.
#[tactic(auto, unfolding(crate::specs::Fault::fault_line))]
pub fn fault_text(alloc: Global, fault: &Fault, files: &Files) -> Result<Vec<u8>, AllocError>
    ensures { IfOk result (λ text. text.items ≡ spec.fault_line files.now fault.now) }
{
    let row = row_of(fault);
    match fault {
        Fault::Conf(error) => line_at(alloc, row, conf_file(files, error), error.line as u64),
        Fault::Table(error) => table_line(alloc, row, error),
        Fault::Time(error) => line_at(alloc, row, time_file(error.fault), u64::from(error.line)),
        Fault::Facts(error) => line_at(alloc, row, facts_file(error.fault), u64::from(error.line)),
        Fault::Policy(error) => policy_line(alloc, row, error),
        Fault::Accept(error) => line_at(alloc, row, accept_file(*error), u64::from(error.line())),
        Fault::Count(error) => line(
            alloc,
            row,
            &[Piece::Bytes(b" want "), Piece::Number(error.modules as u64)],
        ),
        Fault::Cursor(error) => cursor_line(alloc, row, *error),
        Fault::Moment(_)
        | Fault::TooManyStates
        | Fault::NoSuchModule
        | Fault::NoSuchKey
        | Fault::NoSuchNumber
        | Fault::NoSuchService
        | Fault::UnusedCandidate
        | Fault::Unread
        | Fault::Device
        | Fault::Memory => line(alloc, row, &[]),
    }
}

/// Returns the exit status of a fault.
pub fn fault_status(fault: &Fault) -> u8
    ensures status { result ≡ spec.status_of_fault fault.now }
    ensures bound { result ≤ 6 }
{
    row_of(fault).status
}

/// Returns the line of an input that cannot be read.
#[tactic(auto, unfolding(crate::specs::Fault::input_line))]
pub fn input_text(alloc: Global, error: &InputError) -> Result<Vec<u8>, AllocError>
    ensures { IfOk result (λ text. text.items ≡ spec.input_line error.now) }
{
    let row = input_row(error);
    match error {
        InputError::Read(name, _) => line(
            alloc,
            row,
            &[Piece::Bytes(b" "), Piece::Bytes(name.as_bytes())],
        ),
        InputError::Memory => line(alloc, row, &[]),
    }
}

/// Returns the exit status of an input that cannot be read.
pub fn input_status(error: &InputError) -> u8
    ensures status { result ≡ spec.status_of_input error.now }
    ensures bound { result ≤ 6 }
{
    input_row(error).status
}

/// Returns the line of words that are refused. `Help` and `Words` print the text of `clap` instead.
#[tactic(auto, unfolding(crate::specs::Fault::usage_line))]
pub fn usage_text(alloc: Global, usage: &Usage) -> Result<Vec<u8>, AllocError>
    requires { IsNumbered usage.now }
    ensures { IfOk result (λ text. text.items ≡ spec.usage_line usage.now) }
{
    line(alloc, usage_row(usage), &[])
}

/// Returns the exit status of words that are refused: 0 for help, 2 for wrong words, 6 for a failed allocation.
pub fn usage_status(usage: &Usage) -> u8
    ensures status { result ≡ spec.status_of_usage usage.now }
    ensures bound { result ≤ 6 }
{
    usage_row(usage).status
}
