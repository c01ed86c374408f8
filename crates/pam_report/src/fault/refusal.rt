//! The line of a fault of a request, which says what the request names.

ghost use Rattle.std.specs.Prelude.{◌≡◌, IfOk, filter, find, map, not, option_map, unwrap_or};
ghost use Rattle.std.specs.Option.{option_copied};
ghost use Rattle.std.specs.Str.{bytes_eq};
ghost use Rattle.pam_report.specs.Compare.{side_of};
ghost use Rattle.pam_report.specs.Fault.{line_of};
ghost use Rattle.pam_report.specs.FaultTable.{candidate_row as row_of_candidate, number_row as row_of_number, service_row as row_of_service};
ghost use Rattle.pam_report.specs.Inputs.{files_given, new_given, no_files, old_given};
ghost use Rattle.pam_report.specs.Refusal as spec;
ghost use Rattle.pam_words.specs.Wanted.{candidate_view};

use super::keys::key_line;
use super::missing::{files_of, missing_among, missing_line, side_named};
use super::naming::{hint, number_text};
use super::policies::line_of_policy;
use super::table::{candidate_row, number_row, service_row};
use super::{Fault, fault_text, line};
use crate::candidates::first_unused;
use crate::inputs::Inputs;
use crate::services::{Services, file_names, lowered};
use pam_codes::Piece;
use pam_conf::{Files, Form};
use pam_spelling::nearest;
use pam_text::Texts;
use pam_words::{Candidate, ConfSource, Request, Task};
use std::alloc::{AllocError, Global};

/// The hint for a name that is no service of either configuration: the nearest name of the new one, or else of the old one.
fn hint_of_sides(
    alloc: Global,
    old: &Files,
    new: &Files,
    name: &[u8],
) -> Result<Vec<u8>, AllocError>
    ensures { IfOk result (λ text. text.items ≡ spec.hint_of_sides old.now new.now name.now) }
{
    let new_services = Services::of(alloc, new)?;
    if let Some(near) = new_services.nearest(alloc, name)? {
        return hint(alloc, Some(near));
    }
    let old_services = Services::of(alloc, old)?;
    hint(alloc, old_services.nearest(alloc, name)?)
}

/// The line about a name that neither of these two sides has.
fn line_of_neither<'x>(
    alloc: Global,
    old: &'x [u8],
    new: &'x [u8],
    name: &'x [u8],
    hint: &'x [u8],
) -> Result<Vec<u8>, AllocError>
    ensures { IfOk result (λ text. text.items
        ≡ line_of row_of_service (spec.neither_with old.now new.now name.now hint.now)) }
{
    line(
        alloc,
        service_row(),
        &[
            Piece::Bytes(b": neither "),
            Piece::Bytes(old),
            Piece::Bytes(b" nor "),
            Piece::Bytes(new),
            Piece::Bytes(b" has a service \""),
            Piece::Bytes(name),
            Piece::Bytes(b"\""),
            Piece::Bytes(hint),
        ],
    )
}

/// The line about a name that is no service of either side of a comparison.
fn neither_line(
    alloc: Global,
    inputs: &Inputs,
    old: ConfSource<'_>,
    new: ConfSource<'_>,
    name: &[u8],
) -> Result<Vec<u8>, AllocError>
    ensures { IfOk result (λ text. text.items ≡ line_of row_of_service
        (spec.neither_text (side_of (old_given inputs.now)).folder (side_of (new_given inputs.now)).folder (spec.side_named old.entry)
        (spec.side_named new.entry) name.now)) }
{
    let none = Files::new(alloc, Form::Dir);
    let old_files = files_of(inputs.old_side(), &none);
    let new_files = files_of(inputs.new_side(), &none);
    let hint = hint_of_sides(alloc, old_files, new_files, name)?;
    line_of_neither(alloc, side_named(old), side_named(new), name, &hint)
}

/// The line about the name of a request that is no service.
fn unknown_line(
    alloc: Global,
    request: &Request<'_>,
    files: &Files,
    inputs: &Inputs,
) -> Result<Vec<u8>, AllocError>
    ensures { IfOk result (λ text. text.items
        ≡ line_of row_of_service (spec.unknown_text request.now.service.now request.now.task files.now inputs.now)) }
{
    match &request.task {
        Task::Check {
            source,
            services,
            ..
        } => missing_among(alloc, files, *source, inputs.dead(), services),
        Task::Outcomes { source, .. } | Task::Graph { source, .. } | Task::Needs { source, .. } => {
            missing_line(alloc, files, *source, request.service.as_bytes())
        }
        Task::Compare {
            old,
            new,
            service: Some(name),
            ..
        } => neither_line(alloc, inputs, *old, *new, name.as_bytes()),
        _ => line(alloc, service_row(), &[]),
    }
}

/// These names but this one.
fn others<'x>(alloc: Global, names: &[&'x [u8]], name: &[u8]) -> Result<Vec<&'x [u8]>, AllocError>
    ensures { IfOk result (λ others. map (λ n. n.now) others.items
        ≡ filter (λ other. not (bytes_eq name.now other)) (map (λ n. n.now) names.now)) }
{
    let mut others = Vec::new(alloc);
    for other in names {
        if name != *other {
            others.push(*other)?;
        }
    }
    Ok(others)
}

/// The names of the other files.
fn other_names<'x>(
    alloc: Global,
    files: &'x Files,
    name: &[u8],
) -> Result<Vec<&'x [u8]>, AllocError>
    ensures { IfOk result (λ names. map (λ n. n.now) names.items ≡ spec.other_names files.now name.now) }
{
    let names = file_names(alloc, files)?;
    others(alloc, &names, name)
}

/// The nearest of the names of the other files.
fn nearest_other<'x>(
    alloc: Global,
    files: &'x Files,
    name: &[u8],
) -> Result<Option<&'x [u8]>, AllocError>
    ensures { IfOk result (λ found. option_map (λ n. n.now) found ≡ spec.nearest_other files.now name.now) }
{
    let names = other_names(alloc, files, name)?;
    let lower = lowered(alloc, name)?;
    Ok(nearest(&names, &lower))
}

/// The line about a candidate that no service reads.
fn unused_line(alloc: Global, files: &Files, name: &[u8]) -> Result<Vec<u8>, AllocError>
    ensures { IfOk result (λ text. text.items ≡ line_of row_of_candidate (spec.unused_text files.now name.now)) }
{
    let hint = hint(alloc, nearest_other(alloc, files, name)?)?;
    line(
        alloc,
        candidate_row(),
        &[
            Piece::Bytes(b": no service that is checked reads \""),
            Piece::Bytes(name),
            Piece::Bytes(b"\""),
            Piece::Bytes(&hint),
        ],
    )
}

/// The line about the first of these candidates that none of these services reads.
fn unused_line_among(
    alloc: Global,
    files: &Files,
    services: &Texts,
    candidates: &[Candidate<'_>],
) -> Result<Vec<u8>, AllocError>
    ensures { IfOk result (λ text. text.items ≡ line_of row_of_candidate
        (spec.unused_among (map candidate_view candidates.now) services.now files.now)) }
{
    match first_unused(alloc, files, services, candidates)? {
        Some(name) => unused_line(alloc, files, name),
        None => line(alloc, candidate_row(), &[]),
    }
}

/// The line about the first candidate of a request that no service reads.
fn first_unused_line(
    alloc: Global,
    request: &Request<'_>,
    files: &Files,
) -> Result<Vec<u8>, AllocError>
    ensures { IfOk result (λ text. text.items ≡ line_of row_of_candidate
        (spec.unused_of (map candidate_view request.now.candidates.items) request.now.task files.now)) }
{
    match &request.task {
        Task::Check { services, .. } => {
            unused_line_among(alloc, files, services, &request.candidates)
        }
        Task::Policy { .. } => {
            unused_line_among(alloc, files, &Texts::new(alloc), &request.candidates)
        }
        _ => line(alloc, candidate_row(), &[]),
    }
}

/// The line about the number that is to be explained.
fn number_line(alloc: Global, request: &Request<'_>) -> Result<Vec<u8>, AllocError>
    ensures { IfOk result (λ text. text.items ≡ line_of row_of_number (spec.number_said request.now.task)) }
{
    match &request.task {
        Task::Explain(Some(word)) => {
            let said = number_text(alloc, word)?;
            line(alloc, number_row(), &[Piece::Bytes(&said)])
        }
        _ => line(alloc, number_row(), &[]),
    }
}

fn line_with(
    alloc: Global,
    fault: &Fault,
    request: &Request<'_>,
    files: &Files,
    inputs: &Inputs,
) -> Result<Vec<u8>, AllocError>
    requires { unwrap_or (files_given inputs.now) no_files ≡ files.now }
    ensures { IfOk result (λ text. text.items ≡ spec.refusal_line request.now.service.now (map candidate_view request.now.candidates.items)
        request.now.task inputs.now fault.now) }
{
    match fault {
        Fault::NoSuchService => unknown_line(alloc, request, files, inputs),
        Fault::UnusedCandidate => first_unused_line(alloc, request, files),
        Fault::NoSuchNumber => number_line(alloc, request),
        Fault::NoSuchKey => key_line(alloc, request, files, inputs),
        Fault::Policy(error) => line_of_policy(alloc, request, error),
        _ => fault_text(alloc, fault, files),
    }
}

/// Returns the line of a fault of a request: `pamcheck: NUMBER NAME`, with its place if it has one, and what is said of a name that is
/// no service, of a candidate that no service reads, of a number that nothing has, or of a key that names no module. A policy is named as the request names it.
pub fn refusal_text(
    alloc: Global,
    fault: &Fault,
    request: &Request<'_>,
    inputs: &Inputs,
) -> Result<Vec<u8>, AllocError>
    ensures { IfOk result (λ text. text.items ≡ spec.refusal_line request.now.service.now (map candidate_view request.now.candidates.items)
        request.now.task inputs.now fault.now) }
{
    match inputs.files() {
        Some(files) => line_with(alloc, fault, request, files, inputs),
        None => line_with(alloc, fault, request, &Files::new(alloc, Form::Dir), inputs),
    }
}
