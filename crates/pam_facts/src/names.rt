//! The names of the modules of which something is known.

ghost use Rattle.std.specs.Prelude.{◌≡◌, IfOk, map};
ghost use Rattle.pam_facts.specs.Views.{row_view};

use crate::reading::Row;
use pam_text::Texts;
use std::alloc::{AllocError, Global};

/// The name of each of these rows.
pub(crate) fn names_of(alloc: Global, rows: &[Row<'_>]) -> Result<Texts, AllocError>
    ensures { IfOk result (λ names. names ≡ map (λ row. row.name) (map row_view rows.now)) }
{
    let mut names = Texts::new(alloc);
    for row in rows {
        names.push(row.name)?;
    }
    Ok(names)
}
