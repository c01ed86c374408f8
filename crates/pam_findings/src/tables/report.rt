//! The problems of the tables of a host.

ghost use Rattle.std.specs.Prelude.{IfOk, OnOk};
ghost use Rattle.pam_findings.specs.tables.inner.Passes.{Puts};
ghost use Rattle.pam_findings.specs.tables.Report.{IsProblem, IsTableReport};
ghost use Rattle.pam_findings.specs.tables.Tables.{tables_view};

use crate::tables::findings::{Found, nothing, put_needs};
use crate::tables::host_tables::HostTables;
use crate::tables::needs::needs_of;
use crate::tables::problem::{TableFinding, TablePlace};
use pam_conf::{Files, RuleFiles};
use pam_text::Texts;
use std::alloc::{AllocError, Global};
use std::collections::BTreeMap;

/// Adds the problems of the tables that these stacks need. Where no table is given, no stack is looked at.
fn put_problems(
    alloc: Global,
    found: &mut Found,
    files: &Files,
    services: &Texts,
    tables: &HostTables<'_>,
) -> Result<(), AllocError>
    ensures { OnOk result (Puts (IsProblem files.now services.now (tables_view tables.now)) found.old found.new) }
{
    if tables.access.is_none() && tables.time.is_none() {
        return Ok(());
    }
    let rules = RuleFiles::read(alloc, files)?;
    let needs = needs_of(alloc, &rules, services)?;
    put_needs(alloc, found, tables, &needs)
}

/// What is wrong with the tables that the stacks of a host need.
#[derive(Drop)]
pub struct TableReport {
    /// The problems, in order, each once.
    pub found: BTreeMap<TablePlace, TableFinding>,
}

impl TableReport {
    /// Looks at the tables that the stacks of these services need, each for all four kinds.
    ///
    /// A module `pam_access.so` needs the access tables and the group file, unless an argument begins with `accessfile=`; in a
    /// stack of `account` a module `pam_time.so` needs the time table, unless an argument begins with `conffile=`. Each access
    /// table is read by itself, with the module's arguments, once for equal options. A table that is not given, or that nothing
    /// needs, has no problems. Takes time in proportion to the rules that the stacks walk, and for each of the options to the table.
    pub fn of(
        alloc: Global,
        files: &Files,
        services: &Texts,
        tables: &HostTables<'_>,
    ) -> Result<TableReport, AllocError>
        ensures { IfOk result (λ report. IsTableReport files.now services.now (tables_view tables.now) report.found) }
    {
        let mut found = nothing(alloc);
        put_problems(alloc, &mut found, files, services, tables)?;
        // The length says that the entries are in order.
        let _count = found.len();
        Ok(TableReport { found })
    }
}
