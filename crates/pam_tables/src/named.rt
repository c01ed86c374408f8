//! Files of named entries, of which the first of each name counts: group(5), returns files.

ghost use Rattle.std.specs.Prelude.{◌≡◌, []};
ghost use Rattle.pam_tables.specs.Error.{Gives, read_lines};
ghost use Rattle.pam_tables.specs.Lines.{checked, lines_from};
ghost use Rattle.pam_tables.specs.Named.{first_of_each_read};

use crate::error::{Table, TableError, TableFault};
use crate::lines::{Lines, source};
use std::alloc::Global;

/// Entries by name, to which a file adds its own.
pub(crate) trait Entries<'a>: Drop {
    ghost use Rattle.std.specs.Prelude.{ℕ, List, Option, Result};
    ghost use Rattle.pam_tables.specs.inner.Error.{GivesPart};
    ghost use Rattle.pam_tables.specs.inner.Named.{with_line};
    ghost use Rattle.pam_tables.specs.declared.error.TableFault.{TableFault};

    ghost Value: { Type 0 };

    ghost meant: { List ℕ → Result (Option (List ℕ × Value)) TableFault };

    ghost entries: { Self → List (List ℕ × Value) };

    /// Adds the entry of a line, if its name is new.
    fn add_line(&mut self, alloc: Global, line: &'a [u8]) -> Result<(), TableFault>
        ensures { GivesPart (λ _. entries self.new) result (with_line (entries self.old) (meant line.now)) };
}

/// Adds the entries of a file to none, or returns the file's first fault.
pub(crate) fn read_entries<'a, E: Entries<'a>>(
    alloc: Global,
    table: Table,
    bytes: &'a [u8],
    none: E,
) -> Result<E, TableError>
    requires { E.entries none ≡ [] }
    ensures { Gives table E.entries result (checked bytes.now (first_of_each_read (read_lines (λ _ line. E.meant line) (lines_from 1 bytes.now)))) }
{
    let source = source(table, bytes)?;
    let mut entries = none;
    for (number, line) in Lines::of(source) {
        if let Err(fault) = entries.add_line(alloc, line) {
            return Err(TableError::new(table, fault, number));
        }
    }
    Ok(entries)
}
