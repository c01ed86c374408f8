//! All faults of a table: reading it gives the first alone.

ghost use Rattle.std.specs.Prelude.{◌≡◌, ◌∷◌, ◌++◌, [], IfOk, OnOk};
ghost use Rattle.pam_tables.specs.Access.{access_line};
ghost use Rattle.pam_tables.specs.Faults.{access_faults, group_faults, group_line, line_fault, line_faults};
ghost use Rattle.pam_tables.specs.Lines.{lines_from};

use crate::access::{self, Separators};
use crate::error::{Table, TableError, TableFault};
use crate::groups;
use crate::lines::{Lines, source_error};
use crate::options::AccessOptions;
use pam_text::Source;
use std::alloc::{AllocError, Global};

/// Appends the fault of a line, if it has one.
fn push_fault(
    faults: &mut Vec<TableError>,
    table: Table,
    line: u32,
    checked: Result<(), TableFault>,
) -> Result<(), AllocError>
    ensures { OnOk result (faults.new.items ≡ faults.old.items ++ line_fault table line checked) }
{
    match checked {
        Ok(()) => Ok(()),
        Err(fault) => {
            faults.push(TableError { table, fault, line })?;
            Ok(())
        }
    }
}

/// Returns one fault.
fn one(alloc: Global, error: TableError) -> Result<Vec<TableError>, AllocError>
    ensures { IfOk result (λ faults. faults.items ≡ error ∷ []) }
{
    let mut faults = Vec::new(alloc);
    faults.push(error)?;
    Ok(faults)
}

fn faults_of_access(
    alloc: Global,
    source: Source<'_>,
    separators: &Separators<'_>,
) -> Result<Vec<TableError>, AllocError>
    ensures { IfOk result (λ faults. faults.items
        ≡ line_faults Table.Access (access_line separators.now.fields.bytes.now separators.now.tokens.bytes.now) (lines_from 1 source.entry.bytes.now)) }
{
    let mut faults = Vec::new(alloc);
    for (number, line) in Lines::of(source) {
        let checked = access::check_line(line, separators);
        push_fault(&mut faults, Table::Access, number, checked)?;
    }
    Ok(faults)
}

/// Returns all faults of an access table: the one of the table as a whole, or else the first of each line, from the top.
#[tactic(auto, unfolding(crate::specs::Faults::access_faults))]
pub fn access_faults(
    alloc: Global,
    bytes: &[u8],
    options: &AccessOptions<'_>,
) -> Result<Vec<TableError>, AllocError>
    ensures { IfOk result (λ faults. faults.items ≡ access_faults options.now bytes.now) }
{
    match Source::of(bytes) {
        Ok(source) => {
            let separators = Separators::of(options.field_separators, options.list_separators);
            faults_of_access(alloc, source, &separators)
        }
        Err(fault) => one(alloc, source_error(Table::Access, fault)),
    }
}

fn faults_of_groups(alloc: Global, source: Source<'_>) -> Result<Vec<TableError>, AllocError>
    ensures { IfOk result (λ faults. faults.items ≡ line_faults Table.Group group_line (lines_from 1 source.entry.bytes.now)) }
{
    let mut faults = Vec::new(alloc);
    for (number, line) in Lines::of(source) {
        push_fault(&mut faults, Table::Group, number, groups::check_line(line))?;
    }
    Ok(faults)
}

/// Returns all faults of a group file: the one of the file as a whole, or else the first of each line, from the top.
#[tactic(auto, unfolding(crate::specs::Faults::group_faults))]
pub fn group_faults(alloc: Global, bytes: &[u8]) -> Result<Vec<TableError>, AllocError>
    ensures { IfOk result (λ faults. faults.items ≡ group_faults bytes.now) }
{
    match Source::of(bytes) {
        Ok(source) => faults_of_groups(alloc, source),
        Err(fault) => one(alloc, source_error(Table::Group, fault)),
    }
}
