//! The problems of files themselves, whatever stacks read them.

ghost use Rattle.std.specs.Prelude.{◌≡◌, ◌++◌, IfOk, OnOk, length, map};
ghost use Rattle.pam_findings.specs.host.FileProblems.{released_in};
ghost use Rattle.pam_findings.specs.host.inner.Own.{IsOwn, IsRead, fault_spot, read_by, released_spot};
ghost use Rattle.pam_findings.specs.host.inner.Table.{Puts, with_met};

use crate::host::met::Met;
use crate::host::problem::{Problem, Spot};
use crate::host::stacks::Checker;
use crate::host::table::{Table, put_all};
use crate::host::vendor::push_from_vendor;
use pam_conf::{Form, RuleFault};
use pam_released::{Finding, findings};
use pam_text::Source;
use std::alloc::{AllocError, Global};

/// The places at which released Linux-PAM reads a file otherwise.
fn released(alloc: Global, form: Form, bytes: &[u8]) -> Result<Vec<Finding>, AllocError>
    ensures { IfOk result (λ found. found.items ≡ released_in form bytes.now) }
{
    match Source::of(bytes) {
        Ok(source) => findings(alloc, source, form),
        Err(_) => Ok(Vec::new(alloc)),
    }
}

/// Appends the faults of a file.
fn push_faults(spots: &mut Vec<Spot>, file: usize, faults: &[RuleFault]) -> Result<(), AllocError>
    ensures { OnOk result (spots.new.items ≡ spots.old.items ++ map (fault_spot file) faults.now) }
{
    for fault in faults {
        spots.push(Spot {
            file: Some(file),
            line: fault.line,
            problem: Problem::Fault(fault.kind),
        })?;
    }
    Ok(())
}

/// Appends the places at which released Linux-PAM reads a file otherwise.
fn push_released(spots: &mut Vec<Spot>, file: usize, found: &[Finding]) -> Result<(), AllocError>
    ensures { OnOk result (spots.new.items ≡ spots.old.items ++ map (released_spot file) found.now) }
{
    for finding in found {
        spots.push(Spot {
            file: Some(file),
            line: finding.line as usize,
            problem: Problem::Released(finding.difference),
        })?;
    }
    Ok(())
}

/// The faults of a file, which are these, and the places at which released Linux-PAM reads it otherwise.
fn spots_of_file(
    alloc: Global,
    form: Form,
    file: usize,
    faults: &[RuleFault],
    bytes: &[u8],
) -> Result<Vec<Spot>, AllocError>
    ensures { IfOk result (λ spots. spots.items ≡ map (fault_spot file) faults.now ++ map (released_spot file) (released_in form bytes.now)) }
{
    let mut spots = Vec::new(alloc);
    push_faults(&mut spots, file, faults)?;
    let found = released(alloc, form, bytes)?;
    push_released(&mut spots, file, &found)?;
    Ok(spots)
}

/// Adds the problems of the file at a position, which these stacks read.
fn put_file(
    checker: &Checker<'_, '_>,
    file: usize,
    met: Met,
    table: &mut Table,
) -> Result<(), AllocError>
    ensures { OnOk result (Puts (IsOwn checker.now.files.now checker.now.vendor_start file) (with_met (Some met)) table.old table.new) }
{
    let files = checker.files;
    let (Some(faults), Some(bytes)) = (checker.rules.faults(file), files.bytes(file)) else {
        return Ok(());
    };
    let mut spots = spots_of_file(checker.alloc, files.form(), file, faults, bytes)?;
    push_from_vendor(checker, &mut spots, file)?;
    put_all(table, &spots, Some(met))?;
    Ok(())
}

/// Adds the problems of the files that stacks read, where `readers` has those stacks.
pub(crate) fn put_files(
    checker: &Checker<'_, '_>,
    readers: &[Option<Met>],
    table: &mut Table,
) -> Result<(), AllocError>
    ensures { OnOk result (Puts (IsRead checker.now.files.now checker.now.vendor_start readers.now (length readers.now)) (read_by readers.now)
        table.old table.new) }
{
    for file in 0..readers.len() {
        match readers[file] {
            Some(met) => put_file(checker, file, met, table)?,
            None => {}
        }
    }
    Ok(())
}
