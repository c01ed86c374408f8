//! What is wrong with a folder itself.

ghost use Rattle.std.specs.Prelude.{◌≡◌, ◌⊎◌, OnOk, None, codes, length, true};
ghost use Rattle.pam_findings.specs.host.FolderProblems.{has_file, is_of_folder, names_in};
ghost use Rattle.pam_findings.specs.host.inner.OfFolder.{HasNameProblem, IsNameProblem, LacksOther, problem_of_name};
ghost use Rattle.pam_findings.specs.host.inner.Table.{Puts, with_met};

use crate::host::names::is_unreachable;
use crate::host::problem::{Problem, Spot};
use crate::host::table::{Table, put};
use crate::host::targets::Targets;
use pam_conf::{Files, Form, is_left_over};
use pam_text::Texts;
use std::alloc::AllocError;

/// Whether a folder has a file `other`.
fn has_other(files: &Files) -> bool
    ensures { result ≡ has_file (codes "other") (names_in files.now) }
{
    for position in 0..files.len() {
        let name = files.name(position).unwrap();
        if b"other".as_slice() == name {
            return true;
        }
    }
    false
}

/// What is wrong with the name of a file: S7 or S11.
fn problem_of_name(targets: &Targets<'_>, name: &[u8]) -> Option<Problem>
    ensures { result ≡ problem_of_name targets.now name.now }
{
    if is_left_over(name) {
        Some(Problem::LeftOver)
    } else if is_unreachable(name) && !targets.has(name) {
        Some(Problem::UnreachableName)
    } else {
        None
    }
}

/// Adds what is wrong with the name of the file at a position.
fn put_name(
    table: &mut Table,
    targets: &Targets<'_>,
    name: &[u8],
    file: usize,
) -> Result<(), AllocError>
    ensures { OnOk result (Puts (HasNameProblem targets.now name.now file) (with_met None) table.old table.new) }
{
    let Some(problem) = problem_of_name(targets, name) else {
        return Ok(());
    };
    let spot = Spot {
        file: Some(file),
        line: 0,
        problem,
    };
    put(table, spot, None)
}

/// Adds what is wrong with the names of files.
fn put_names(table: &mut Table, files: &Files, targets: &Targets<'_>) -> Result<(), AllocError>
    requires { targets.now ≡ files.now }
    ensures { OnOk result (Puts (IsNameProblem files.now (length files.now.entries)) (with_met None) table.old table.new) }
{
    for file in 0..files.len() {
        let name = files.name(file).unwrap();
        put_name(table, targets, name, file)?;
    }
    Ok(())
}

/// Adds S6, if there is no `other`.
fn put_other(table: &mut Table, files: &Files) -> Result<(), AllocError>
    ensures { OnOk result (Puts (LacksOther files.now) (with_met None) table.old table.new) }
{
    if has_other(files) {
        return Ok(());
    }
    let spot = Spot {
        file: None,
        line: 0,
        problem: Problem::NoOther,
    };
    put(table, spot, None)
}

/// Adds what is wrong with a folder itself.
fn put_whole(table: &mut Table, files: &Files, targets: &Targets<'_>) -> Result<(), AllocError>
    requires { targets.now ≡ files.now }
    ensures { OnOk result (Puts (λ spot. LacksOther files.now spot ⊎ IsNameProblem files.now (length files.now.entries) spot)
        (with_met None) table.old table.new) }
{
    put_other(table, files)?;
    put_names(table, files, targets)?;
    Ok(())
}

/// Adds what is wrong with a folder itself, where no service is named.
pub(crate) fn put_folder(
    table: &mut Table,
    files: &Files,
    targets: &Targets<'_>,
    named: &Texts,
) -> Result<(), AllocError>
    requires { targets.now ≡ files.now }
    ensures { OnOk result (Puts (λ spot. is_of_folder files.now named.now spot ≡ true) (with_met None) table.old table.new) }
{
    if named.len() != 0 {
        return Ok(());
    }
    match files.form() {
        Form::Dir => put_whole(table, files, targets),
        Form::Single => Ok(()),
    }
}
