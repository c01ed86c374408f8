//! The paths of the tables of a host.

ghost use Rattle.std.specs.Prelude.{◌≡◌, [], slice_get, unwrap_or};
ghost use Rattle.pam_report.specs.TablePaths as spec;

use pam_findings::tables::HostTable;
use pam_text::Texts;

/// The path under which each table was read; empty if it is not given.
#[derive(Clone, Copy)]
pub struct TablePaths<'a> {
    pub groups: &'a [u8],
    /// Those of the access tables, in the order in which they are read.
    pub access: Option<&'a Texts>,
    pub time: &'a [u8],
}

/// Returns the text at a position, empty past the last.
fn text_at(texts: &Texts, position: usize) -> &[u8]
    ensures { result.now ≡ unwrap_or (slice_get texts.now position) [] }
{
    let mut before = position;
    for text in texts.iter() {
        if before == 0 {
            return text;
        }
        before -= 1;
    }
    b""
}

impl<'a> TablePaths<'a> {
    /// Returns the path of the access table of this number, empty if there is none.
    fn access_path(&self, number: usize) -> &'a [u8]
        ensures { result.now ≡ spec.path_of (spec.table_paths_view self.now) HostTable.Access number }
    {
        match self.access {
            Some(paths) => text_at(paths, number),
            None => b"",
        }
    }

    /// Returns the path of a table; of access tables that of this number, from 0. It is empty if there is no such table.
    pub fn of(&self, table: HostTable, number: usize) -> &'a [u8]
        ensures { result.now ≡ spec.path_of (spec.table_paths_view self.now) table number }
    {
        match table {
            HostTable::Groups => self.groups,
            HostTable::Access => self.access_path(number),
            HostTable::Time => self.time,
        }
    }
}
