//! The line about a name that is no service of a configuration.

ghost use Rattle.std.specs.Prelude.{◌≡◌, [], IfOk, find, not};
ghost use Rattle.std.specs.Option.{option_map, option_map_or};
ghost use Rattle.pam_report.specs.Compare.{side_of};
ghost use Rattle.pam_report.specs.Fault.{line_of};
ghost use Rattle.pam_report.specs.FaultTable.{service_row as row_of_service};
ghost use Rattle.pam_report.specs.Inputs.{no_files};
ghost use Rattle.pam_report.specs.Refusal as spec;
ghost use Rattle.pam_report.specs.Services.{has_service};

use super::line;
use super::naming::hint;
use super::table::service_row;
use crate::inputs::SideInputs;
use crate::services::{Services, is_there, lowered};
use pam_codes::Piece;
use pam_conf::{Files, Form, NameList};
use pam_text::Texts;
use pam_words::ConfSource;
use std::alloc::{AllocError, Global};

/// A source as the command line names it.
pub(super) fn side_named<'a>(source: ConfSource<'a>) -> &'a [u8]
    ensures { result.now ≡ spec.side_named source.entry }
{
    match source {
        ConfSource::Dir(name) | ConfSource::Conf(name) | ConfSource::Root(name) => name.as_bytes(),
        ConfSource::Over { folder, .. } => folder.as_bytes(),
    }
}

/// Where there is no file or rule.
fn place(alloc: Global, source: ConfSource<'_>, form: Form) -> Result<Vec<u8>, AllocError>
    ensures { IfOk result (λ text. text.items ≡ spec.place_in source.entry form) }
{
    let mut text = Vec::new(alloc);
    match source {
        ConfSource::Dir(name) | ConfSource::Conf(name) => text.extend_from_slice(name.as_bytes())?,
        ConfSource::Over { folder, vendor } => {
            text.extend_from_slice(folder.as_bytes())?;
            text.extend_from_slice(b" or ")?;
            text.extend_from_slice(vendor.as_bytes())?;
        }
        ConfSource::Root(_) => match form {
            Form::Dir => text.extend_from_slice(b"etc/pam.d")?,
            Form::Single => text.extend_from_slice(b"etc/pam.conf")?,
        },
    }
    Ok(text)
}

fn what_is_missing(form: Form) -> &'static [u8]
    ensures { result.now ≡ spec.what_is_missing form }
{
    match form {
        Form::Dir => b": there is no file \"",
        Form::Single => b": there is no rule of \"",
    }
}

/// Whether this is a root that has neither of the two folders, nor the one file.
fn lacks_configuration(source: ConfSource<'_>, files: &Files) -> bool
    ensures { result ≡ spec.lacks_configuration source.entry files.now }
{
    match source {
        ConfSource::Root(_) => !is_there(files),
        ConfSource::Dir(_) | ConfSource::Over { .. } | ConfSource::Conf(_) => false,
    }
}

/// The line about a root without a configuration.
fn no_configuration_line(alloc: Global, root: &[u8]) -> Result<Vec<u8>, AllocError>
    ensures { IfOk result (λ text. text.items ≡ line_of row_of_service (spec.no_configuration_text root.now)) }
{
    line(
        alloc,
        service_row(),
        &[
            Piece::Bytes(b": there is none of etc/pam.d, usr/lib/pam.d and etc/pam.conf below "),
            Piece::Bytes(root),
            Piece::Bytes(b"; write the root folder of a system"),
        ],
    )
}

/// The line about a name that is no service of a source.
pub(super) fn missing_line(
    alloc: Global,
    files: &Files,
    source: ConfSource<'_>,
    name: &[u8],
) -> Result<Vec<u8>, AllocError>
    ensures { IfOk result (λ text. text.items ≡ line_of row_of_service (spec.missing_in source.entry files.now name.now)) }
{
    if lacks_configuration(source, files) {
        return no_configuration_line(alloc, side_named(source));
    }
    missing_line_in(alloc, files, source, name)
}

/// The line about a name that is no service of a configuration.
fn missing_line_in(
    alloc: Global,
    files: &Files,
    source: ConfSource<'_>,
    name: &[u8],
) -> Result<Vec<u8>, AllocError>
    ensures { IfOk result (λ text. text.items
        ≡ line_of row_of_service (spec.missing_text files.now (spec.place_in source.entry files.now.form) name.now)) }
{
    let services = Services::of(alloc, files)?;
    let hint = hint(alloc, services.nearest(alloc, name)?)?;
    let place = place(alloc, source, files.form())?;
    line(
        alloc,
        service_row(),
        &[
            Piece::Bytes(what_is_missing(files.form())),
            Piece::Bytes(name),
            Piece::Bytes(b"\" in "),
            Piece::Bytes(&place),
            Piece::Bytes(&hint),
        ],
    )
}

/// Whether a link that leads nowhere has this name in lower case.
fn is_dead(alloc: Global, dead: Option<&NameList>, name: &[u8]) -> Result<bool, AllocError>
    ensures { IfOk result (λ is_so. is_so ≡ spec.is_dead (option_map_or (λ d. d.now) dead.entry []) name.now) }
{
    let Some(dead) = dead else {
        return Ok(false);
    };
    let lower = lowered(alloc, name)?;
    Ok(dead.has(&lower))
}

/// The line about the name of a link that leads nowhere.
fn dead_line(alloc: Global, name: &[u8]) -> Result<Vec<u8>, AllocError>
    ensures { IfOk result (λ text. text.items ≡ line_of row_of_service (spec.dead_text name.now)) }
{
    line(
        alloc,
        service_row(),
        &[
            Piece::Bytes(b": \""),
            Piece::Bytes(name),
            Piece::Bytes(
                b"\" is a link that leads nowhere; make the file that it names, or mend the link",
            ),
        ],
    )
}

/// The line about a name that is no service of a source, but may be that of a link which leads nowhere.
fn missing_or_dead_line(
    alloc: Global,
    files: &Files,
    source: ConfSource<'_>,
    dead: Option<&NameList>,
    name: &[u8],
) -> Result<Vec<u8>, AllocError>
    ensures { IfOk result (λ text. text.items ≡ line_of row_of_service
        (spec.missing_or_dead source.entry files.now (option_map_or (λ d. d.now) dead.entry []) name.now)) }
{
    if is_dead(alloc, dead, name)? {
        return dead_line(alloc, name);
    }
    missing_line(alloc, files, source, name)
}

/// The first of these names that is no service.
fn first_missing<'x>(
    alloc: Global,
    files: &Files,
    names: &'x Texts,
) -> Result<Option<&'x [u8]>, AllocError>
    ensures { IfOk result (λ name. option_map (λ n. n.now) name ≡ spec.first_missing files.now names.now) }
{
    let services = Services::of(alloc, files)?;
    for name in names.iter() {
        if !services.has(alloc, name)? {
            return Ok(Some(name));
        }
    }
    Ok(None)
}

/// The line about the first of these names that is no service, or about a root without a configuration.
pub(super) fn missing_among(
    alloc: Global,
    files: &Files,
    source: ConfSource<'_>,
    dead: Option<&NameList>,
    names: &Texts,
) -> Result<Vec<u8>, AllocError>
    ensures { IfOk result (λ text. text.items ≡ line_of row_of_service
        (spec.missing_among files.now source.entry (option_map_or (λ d. d.now) dead.entry []) names.now)) }
{
    if lacks_configuration(source, files) {
        return no_configuration_line(alloc, side_named(source));
    }
    match first_missing(alloc, files, names)? {
        Some(name) => missing_or_dead_line(alloc, files, source, dead, name),
        None => line(alloc, service_row(), &[]),
    }
}

/// The files of a side of a comparison, or these if there is none.
pub(super) fn files_of<'x>(side: Option<&'x SideInputs>, none: &'x Files) -> &'x Files
    requires { none.now ≡ no_files }
    ensures { result.now ≡ (side_of (option_map (λ s. s.now) side.entry)).folder }
{
    match side {
        Some(side) => &side.files,
        None => none,
    }
}
