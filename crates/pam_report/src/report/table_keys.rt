//! The keys of the problems of tables, by which a line of an accept file names them.

ghost use Rattle.std.specs.Prelude.{◌≡◌, IfOk};
ghost use Rattle.pam_report.specs.Accepting as spec;

use super::accepting::{Keys, push_line};
use crate::tables::TablePaths;
use pam_facts::known::name_of_path;
use pam_findings::tables::{TableFinding, TablePlace};
use std::alloc::{AllocError, Global};
use std::collections::BTreeMap;

impl Keys<TableFinding> for TablePaths<'_> {
    ghost use Rattle.pam_report.specs.Accepting.{table_key_of};
    ghost use Rattle.pam_report.specs.TablePaths.{table_paths_view};

    ghost key_of = { λ paths finding. table_key_of (table_paths_view paths) finding };

    /// Returns the key of a problem: its number, and the name of the table's file with the line.
    #[tactic(auto, unfolding(crate::specs::Accepting::table_key_of))]
    fn key(&self, alloc: Global, found: &TableFinding) -> Result<Vec<u8>, AllocError> {
        let number = found.problem.row().number.as_bytes();
        let mut key = Vec::from_slice(alloc, number)?;
        let name = name_of_path(self.of(found.table, found.number));
        push_line(&mut key, name, found.line as usize)?;
        Ok(key)
    }
}

/// Returns the problems of a report, in order.
pub(super) fn problems_of(
    alloc: Global,
    found: &BTreeMap<TablePlace, TableFinding>,
) -> Result<Vec<TableFinding>, AllocError>
    ensures { IfOk result (λ problems. problems.items ≡ spec.table_findings found.now) }
{
    let mut problems = Vec::new(alloc);
    for (_place, finding) in found {
        problems.push(*finding)?;
    }
    Ok(problems)
}
