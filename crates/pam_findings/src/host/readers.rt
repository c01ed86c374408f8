//! For each file, by its position, the stacks that read it.

ghost use Rattle.std.specs.Prelude.{◌≡◌, ◌++◌, OnOk, length};
ghost use Rattle.std.specs.List.{range_with_len};
ghost use Rattle.pam_text.specs.Members.{Member};
ghost use Rattle.pam_findings.specs.host.FileProblems.{files_read};
ghost use Rattle.pam_findings.specs.host.inner.Table.{Notes};

use crate::host::met::Met;
use pam_conf::{Form, Kind};
use std::alloc::AllocError;

/// Notes that a stack reads a file. A position at which there is no file has nothing to note.
fn note(
    readers: &mut [Option<Met>],
    file: usize,
    service: usize,
    kind: Kind,
) -> Result<(), AllocError>
    ensures { OnOk result (Notes (λ other. other ≡ file) service kind readers.old readers.new) }
{
    if file < readers.len() {
        let met = Met::with(readers[file], service, kind)?;
        readers[file] = Some(met);
    }
    Ok(())
}

/// Notes that a stack reads these files.
fn note_all(
    readers: &mut [Option<Met>],
    files: &[usize],
    service: usize,
    kind: Kind,
) -> Result<(), AllocError>
    ensures { OnOk result (Notes (λ file. Member file files.now) service kind readers.old readers.new) }
{
    for file in files {
        note(readers, *file, service, kind)?;
    }
    Ok(())
}

/// Notes that a stack reads these files and those.
fn note_both(
    readers: &mut [Option<Met>],
    files: &[usize],
    others: &[usize],
    service: usize,
    kind: Kind,
) -> Result<(), AllocError>
    ensures { OnOk result (Notes (λ file. Member file (files.now ++ others.now)) service kind readers.old readers.new) }
{
    note_all(readers, files, service, kind)?;
    note_all(readers, others, service, kind)?;
    Ok(())
}

/// Notes that a stack reads each file.
fn note_each(readers: &mut [Option<Met>], service: usize, kind: Kind) -> Result<(), AllocError>
    ensures { OnOk result (Notes (λ file. Member file (range_with_len 0 (length readers.old))) service kind readers.old readers.new) }
{
    for file in 0..readers.len() {
        note(readers, file, service, kind)?;
    }
    Ok(())
}

/// Notes the files that are read for a stack, where its walk and that of `other` reached some: each service reads the whole of
/// pam.conf.
pub(crate) fn note_read(
    readers: &mut [Option<Met>],
    form: Form,
    reached: &[usize],
    of_other: &[usize],
    service: usize,
    kind: Kind,
) -> Result<(), AllocError>
    ensures { OnOk result (Notes (λ file. Member file (files_read form (length readers.old) (reached.now ++ of_other.now)))
        service kind readers.old readers.new) }
{
    match form {
        Form::Dir => note_both(readers, reached, of_other, service, kind),
        Form::Single => note_each(readers, service, kind),
    }
}
