//! The problems that are found, by their places.

ghost use Rattle.std.specs.Prelude.{◌≡◌, None, OnOk, map};
ghost use Rattle.pam_text.specs.Members.{Member};
ghost use Rattle.pam_findings.specs.tables.inner.Passes.{ArePlaced, IsOfSome, Puts, finding_at, need_view};
ghost use Rattle.pam_findings.specs.tables.Tables.{problems_for, tables_view};

use crate::tables::host_tables::HostTables;
use crate::tables::judging::problems_for;
use crate::tables::needs::Needed;
use crate::tables::problem::{TableFinding, TablePlace};
use std::alloc::{AllocError, Global};
use std::collections::BTreeMap;

pub(crate) type Found = BTreeMap<TablePlace, TableFinding>;

/// Nothing is found.
pub(crate) fn nothing(alloc: Global) -> Found
    ensures found { (finding : TableFinding) → finding_at result finding ≡ None }
    ensures placed { ArePlaced result }
{
    BTreeMap::new(alloc)
}

fn put(found: &mut Found, finding: TableFinding) -> Result<(), AllocError>
    ensures { OnOk result (Puts (λ other. other ≡ finding) found.old found.new) }
{
    let _ = found.insert(finding.place(), finding)?;
    Ok(())
}

fn put_all(found: &mut Found, findings: &[TableFinding]) -> Result<(), AllocError>
    ensures { OnOk result (Puts (λ other. Member other findings.now) found.old found.new) }
{
    for finding in findings {
        put(found, *finding)?;
    }
    Ok(())
}

/// Adds the problems of a table that is needed.
fn put_need(
    alloc: Global,
    found: &mut Found,
    tables: &HostTables<'_>,
    need: &Needed,
) -> Result<(), AllocError>
    ensures { OnOk result (Puts (λ other. Member other (problems_for (tables_view tables.now) (need_view need.now))) found.old found.new) }
{
    let problems = problems_for(alloc, tables, need)?;
    put_all(found, &problems)
}

/// Adds the problems of the tables that are needed.
pub(crate) fn put_needs(
    alloc: Global,
    found: &mut Found,
    tables: &HostTables<'_>,
    needs: &[Needed],
) -> Result<(), AllocError>
    ensures { OnOk result (Puts (IsOfSome (tables_view tables.now) (map need_view needs.now)) found.old found.new) }
{
    for need in needs {
        put_need(alloc, found, tables, need)?;
    }
    Ok(())
}
