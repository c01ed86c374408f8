//! Looks for the files of a folder that are links which lead out of it.

ghost use Rattle.std.specs.Prelude.{◌≡◌, IfOk, length, map};
ghost use Rattle.pam_cli.specs.Links.{AreLinks, AreOut, IsOut, folder_at, is_candidate};
ghost use Rattle.pam_words.specs.Wanted.{candidate_view};

use crate::reading::sources::Configuration;
use crate::system::System;
use pam_words::{Candidate, ConfSource};
use std::alloc::{AllocError, Global};

/// Whether a candidate has this name.
pub(super) fn is_candidate(candidates: &[Candidate<'_>], name: &[u8]) -> bool
    ensures { result ≡ is_candidate name.now (map candidate_view candidates.now) }
{
    for candidate in candidates {
        if name == candidate.name {
            return true;
        }
    }
    false
}

/// Whether the file of a name is a link that leads out of its folder. One of a candidate is none.
fn is_out<S: System>(
    system: &S,
    alloc: Global,
    is_of_candidate: bool,
    folder: &str,
    name: &[u8],
) -> Result<bool, AllocError>
    ensures { IfOk result (IsOut (S.told system.now) is_of_candidate folder.now name.now) }
{
    if is_of_candidate {
        return Ok(false);
    }
    system.leads_out(alloc, folder, name)
}

/// The folder from which the file at a position was read.
fn folder_at<'a>(folder: &'a str, vendor: &'a str, vendor_start: usize, position: usize) -> &'a str
    ensures { result.now ≡ folder_at folder.now vendor.now vendor_start position }
{
    if position < vendor_start {
        folder
    } else {
        vendor
    }
}

/// Says of each file of two folders whether it is a link that leads out of its folder.
fn links_in<S: System>(
    system: &S,
    alloc: Global,
    candidates: &[Candidate<'_>],
    folder: &str,
    vendor: &str,
    found: &Configuration,
) -> Result<Vec<bool>, AllocError>
    ensures { IfOk result (λ outside. AreOut (S.told system.now) (map candidate_view candidates.now) folder.now vendor.now found.now.vendor_start
        found.now.files.entries (length found.now.files.entries) outside.items) }
{
    let mut outside = Vec::new(alloc);
    for position in 0..found.files.len() {
        let name = found.files.name(position).unwrap();
        let home = folder_at(folder, vendor, found.vendor_start, position);
        let given = is_candidate(candidates, name);
        let out = is_out(system, alloc, given, home, name)?;
        outside.push(out)?;
    }
    Ok(outside)
}

/// Says of each file of a source, by its position, whether it is a link that leads out of the folder from which it was read. Below a
/// root none leads out of the root, so none is told.
pub(super) fn links_outside<S: System>(
    system: &S,
    alloc: Global,
    source: ConfSource<'_>,
    candidates: &[Candidate<'_>],
    found: &Configuration,
) -> Result<Vec<bool>, AllocError>
    ensures { IfOk result (λ outside. AreLinks (S.told system.now) (map candidate_view candidates.now) source.entry found.now.files.entries
        found.now.vendor_start outside.items) }
{
    match source {
        ConfSource::Dir(folder) => links_in(system, alloc, candidates, folder, folder, found),
        ConfSource::Over { folder, vendor } => {
            links_in(system, alloc, candidates, folder, vendor, found)
        }
        ConfSource::Conf(_) | ConfSource::Root(_) => Ok(Vec::new(alloc)),
    }
}
