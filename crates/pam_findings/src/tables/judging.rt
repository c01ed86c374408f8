//! The problems of one table.

ghost use Rattle.std.specs.Prelude.{◌≡◌, ◌++◌, IfOk, OnOk, map};
ghost use Rattle.pam_findings.specs.tables.inner.Passes.{need_view};
ghost use Rattle.pam_findings.specs.tables.Needs.{OfGroups};
ghost use Rattle.pam_findings.specs.tables.Tables.{access_problems, all_access_problems, group_problems, of_difference, of_fault, of_time_fault};
ghost use Rattle.pam_findings.specs.tables.Tables.{problems_for, tables_view, time_problems, unless_refused};
ghost use Rattle.pam_released.specs.tables.Access.{access_findings};
ghost use Rattle.pam_released.specs.tables.Times.{time_findings};
ghost use Rattle.pam_tables.specs.Faults.{access_faults as all_access_faults};
ghost use Rattle.pam_tables.specs.times.Faults.{time_faults as all_time_faults};

use crate::tables::host_tables::HostTables;
use crate::tables::needs::Needed;
use crate::tables::problem::{HostTable, TableFinding, TableProblem};
use pam_released::tables::TableFinding as Difference;
use pam_tables::times::TimeError;
use pam_tables::{AccessOptions, TableError};
use pam_text::{Source, Texts};
use std::alloc::{AllocError, Global};

fn of_fault(table: HostTable, number: usize, error: &TableError) -> TableFinding
    ensures { result ≡ of_fault table number error.now }
{
    TableFinding {
        table,
        number,
        line: error.line,
        problem: TableProblem::Fault(error.fault),
    }
}

fn of_time_fault(error: &TimeError) -> TableFinding
    ensures { result ≡ of_time_fault error.now }
{
    TableFinding {
        table: HostTable::Time,
        number: 0,
        line: error.line,
        problem: TableProblem::TimeFault(error.fault),
    }
}

fn of_difference(table: HostTable, number: usize, found: &Difference) -> TableFinding
    ensures { result ≡ of_difference table number found.now }
{
    TableFinding {
        table,
        number,
        line: found.line,
        problem: TableProblem::Released(found.difference),
    }
}

/// Appends these differences as problems of a table.
fn push_differences(
    problems: &mut Vec<TableFinding>,
    table: HostTable,
    number: usize,
    found: &[Difference],
) -> Result<(), AllocError>
    ensures { OnOk result (problems.new.items ≡ problems.old.items ++ map (of_difference table number) found.now) }
{
    for difference in found {
        problems.push(of_difference(table, number, difference))?;
    }
    Ok(())
}

/// Returns the problems of a group file.
fn group_problems(alloc: Global, bytes: &[u8]) -> Result<Vec<TableFinding>, AllocError>
    ensures { IfOk result (λ problems. problems.items ≡ group_problems bytes.now) }
{
    let faults = pam_tables::group_faults(alloc, bytes)?;
    let mut problems = Vec::new(alloc);
    for error in &faults {
        problems.push(of_fault(HostTable::Groups, 0, error))?;
    }
    Ok(problems)
}

/// Appends the faults of the access table of this number.
fn push_access_faults(
    alloc: Global,
    problems: &mut Vec<TableFinding>,
    options: &AccessOptions<'_>,
    number: usize,
    bytes: &[u8],
) -> Result<(), AllocError>
    ensures { OnOk result (problems.new.items ≡ problems.old.items ++ map (of_fault HostTable.Access number) (all_access_faults options.now bytes.now)) }
{
    let faults = pam_tables::access_faults(alloc, bytes, options)?;
    for error in &faults {
        problems.push(of_fault(HostTable::Access, number, error))?;
    }
    Ok(())
}

/// Returns the differences of an access table, which has none if it is too long or has a NUL byte.
fn access_differences(
    alloc: Global,
    options: &AccessOptions<'_>,
    bytes: &[u8],
) -> Result<Vec<Difference>, AllocError>
    ensures { IfOk result (λ found. found.items ≡ unless_refused bytes.now (access_findings options.now bytes.now)) }
{
    match Source::of(bytes) {
        Ok(source) => pam_released::tables::access_findings(alloc, source, options),
        Err(_) => Ok(Vec::new(alloc)),
    }
}

/// Appends the problems of the access table of this number.
fn push_access_problems(
    alloc: Global,
    problems: &mut Vec<TableFinding>,
    options: &AccessOptions<'_>,
    number: usize,
    bytes: &[u8],
) -> Result<(), AllocError>
    ensures { OnOk result (problems.new.items ≡ problems.old.items ++ access_problems options.now number bytes.now) }
{
    push_access_faults(alloc, problems, options, number, bytes)?;
    let found = access_differences(alloc, options, bytes)?;
    push_differences(problems, HostTable::Access, number, &found)
}

/// Returns the problems of access tables, each judged by itself.
fn access_problems(
    alloc: Global,
    options: &AccessOptions<'_>,
    tables: &Texts,
) -> Result<Vec<TableFinding>, AllocError>
    ensures { IfOk result (λ problems. problems.items ≡ all_access_problems options.now 0 tables.now) }
{
    // The length says that numbers stay in their type.
    let _count = tables.len();
    let mut problems = Vec::new(alloc);
    for (number, bytes) in tables.iter().enumerate() {
        push_access_problems(alloc, &mut problems, options, number, bytes)?;
    }
    Ok(problems)
}

/// Returns the faults of a time table.
fn time_faults(alloc: Global, bytes: &[u8]) -> Result<Vec<TableFinding>, AllocError>
    ensures { IfOk result (λ problems. problems.items ≡ map of_time_fault (all_time_faults bytes.now)) }
{
    let faults = pam_tables::times::time_faults(alloc, bytes)?;
    let mut problems = Vec::new(alloc);
    for error in &faults {
        problems.push(of_time_fault(error))?;
    }
    Ok(problems)
}

/// Returns the differences of a time table, which has none if it is too long or has a NUL byte.
fn time_differences(alloc: Global, bytes: &[u8]) -> Result<Vec<Difference>, AllocError>
    ensures { IfOk result (λ found. found.items ≡ unless_refused bytes.now (time_findings bytes.now)) }
{
    match Source::of(bytes) {
        Ok(source) => pam_released::tables::time_findings(alloc, source),
        Err(_) => Ok(Vec::new(alloc)),
    }
}

/// Returns the problems of a time table.
fn time_problems(alloc: Global, bytes: &[u8]) -> Result<Vec<TableFinding>, AllocError>
    ensures { IfOk result (λ problems. problems.items ≡ time_problems bytes.now) }
{
    let mut problems = time_faults(alloc, bytes)?;
    let found = time_differences(alloc, bytes)?;
    push_differences(&mut problems, HostTable::Time, 0, &found)?;
    Ok(problems)
}

/// Returns the problems of the group file, if it is given beside an access table.
fn groups_problems(alloc: Global, tables: &HostTables<'_>) -> Result<Vec<TableFinding>, AllocError>
    ensures { IfOk result (λ problems. problems.items ≡ problems_for (tables_view tables.now) OfGroups) }
{
    match (tables.access, tables.groups) {
        (Some(access), Some(bytes)) => {
            if access.len() == 0 {
                return Ok(Vec::new(alloc));
            }
            group_problems(alloc, bytes)
        }
        _ => Ok(Vec::new(alloc)),
    }
}

/// Returns the problems of a table that is needed, if it is given.
pub(crate) fn problems_for(
    alloc: Global,
    tables: &HostTables<'_>,
    need: &Needed,
) -> Result<Vec<TableFinding>, AllocError>
    ensures { IfOk result (λ problems. problems.items ≡ problems_for (tables_view tables.now) (need_view need.now)) }
{
    match (need, tables.access, tables.time) {
        (Needed::Groups, _, _) => groups_problems(alloc, tables),
        (Needed::Access(arguments), Some(access), _) => {
            access_problems(alloc, &AccessOptions::of(arguments), access)
        }
        (Needed::Time, _, Some(bytes)) => time_problems(alloc, bytes),
        _ => Ok(Vec::new(alloc)),
    }
}
