//! What is given in inputs.

ghost use Rattle.std.specs.Prelude.{◌≡◌, [], option_map};
ghost use Rattle.std.specs.Option.{option_map_or};

use crate::inputs::{InputError, Inputs, SideInputs, TableFile};
use crate::left::has_unread;
use crate::tables::TablePaths;
use pam_conf::{Files, NameList};
use pam_findings::tables::HostTables;
use pam_text::Texts;

impl Inputs {
    ghost use Rattle.std.specs.Prelude.{◌≡◌, [], option_map};
    ghost use Rattle.std.specs.Option.{option_map_or};
    ghost use Rattle.pam_report.specs.Inputs.{accept_given, access_given, dead_given, facts_given, files_given};
    ghost use Rattle.pam_report.specs.Inputs.{group_file, host_tables_given, named_files_given, new_given, old_given, outside_given, paths_given};
    ghost use Rattle.pam_report.specs.Inputs.{policies_given, returns_given};
    ghost use Rattle.pam_report.specs.Inputs.{table_paths_given, there_given, time_given, unread_given, vendor_start_given};
    ghost use Rattle.pam_report.specs.Left.{has_unread};
    ghost use Rattle.pam_report.specs.TablePaths.{table_paths_view};
    ghost use Rattle.pam_findings.specs.tables.Tables.{tables_view as host_tables_view};

    /// Returns the configuration, if there is exactly one.
    pub fn files(&self) -> Option<&Files>
        ensures { option_map (λ f. f.now) result ≡ files_given self.now }
    {
        match self {
            Inputs::Host { files, .. } => Some(files),
            Inputs::Sides { .. } => None,
            Inputs::Stack(files) => Some(files),
            Inputs::Paths { files, .. } => Some(files),
            Inputs::Access { .. } => None,
            Inputs::Time { .. } => None,
            Inputs::Nothing => None,
        }
    }

    /// Returns the paths at which a module is there, if that is known.
    pub(crate) fn there(&self) -> Option<&NameList>
        ensures { option_map (λ t. t.now) result ≡ there_given self.now }
    {
        match self {
            Inputs::Host { given, .. } => given.there.as_ref(),
            Inputs::Paths { given, .. } => given.there.as_ref(),
            _ => None,
        }
    }

    /// Returns the arguments that name a file which is there, if that is known.
    pub(crate) fn named_files(&self) -> Option<&NameList>
        ensures { option_map (λ t. t.now) result ≡ named_files_given self.now }
    {
        match self {
            Inputs::Host { given, .. } => given.named_files.as_ref(),
            _ => None,
        }
    }

    /// Returns the position from which on the files of `check` are those that only the second folder has.
    pub(crate) fn vendor_start(&self) -> usize
        ensures { result ≡ vendor_start_given self.now }
    {
        match self {
            Inputs::Host { given, .. } => given.vendor_start,
            _ => 0,
        }
    }

    /// Returns by the position of each file of `check` whether it is a link that leads out of its folder.
    pub(crate) fn outside(&self) -> &[bool]
        ensures { result.now ≡ outside_given self.now }
    {
        match self {
            Inputs::Host { given, .. } => given.outside.as_slice(),
            _ => &[],
        }
    }

    /// Returns by the position of each file of `check` whether it cannot be read.
    pub(crate) fn unread(&self) -> &[bool]
        ensures { result.now ≡ unread_given self.now }
    {
        match self {
            Inputs::Host { given, .. } => given.unread.as_slice(),
            _ => &[],
        }
    }

    /// Returns whether a file of `check` cannot be read.
    pub fn has_unread(&self) -> bool
        ensures { result ≡ has_unread (unread_given self.now) }
    {
        has_unread(self.unread())
    }

    /// Returns why each file of `check` that cannot be read cannot.
    pub fn unread_errors(&self) -> &[InputError] {
        match self {
            Inputs::Host { given, .. } => given.unread_errors.as_slice(),
            _ => &[],
        }
    }

    /// Returns the names of entries of the folders of `check` that are links which lead nowhere.
    pub(crate) fn dead(&self) -> Option<&NameList>
        ensures { option_map_or (λ d. d.now) result [] ≡ dead_given self.now }
    {
        match self {
            Inputs::Host { given, .. } => Some(&given.dead),
            _ => None,
        }
    }

    /// Returns the facts file, which is empty if none is named.
    pub(crate) fn facts_file(&self) -> &[u8]
        ensures { result.now ≡ facts_given self.now }
    {
        match self {
            Inputs::Host { given, .. } => slice_given(&given.facts).unwrap_or(b""),
            Inputs::Sides { facts, .. } => slice_given(facts).unwrap_or(b""),
            Inputs::Paths { given, .. } => slice_given(&given.facts).unwrap_or(b""),
            _ => b"",
        }
    }

    /// Returns the old configuration of a comparison, with its modules.
    pub(crate) fn old_side(&self) -> Option<&SideInputs>
        ensures { option_map (λ s. s.now) result ≡ old_given self.now }
    {
        match self {
            Inputs::Sides { old, .. } => Some(old),
            _ => None,
        }
    }

    /// Returns the new configuration of a comparison, with its modules.
    pub(crate) fn new_side(&self) -> Option<&SideInputs>
        ensures { option_map (λ s. s.now) result ≡ new_given self.now }
    {
        match self {
            Inputs::Sides { new, .. } => Some(new),
            _ => None,
        }
    }

    /// Returns the returns file of a comparison, if one is named.
    pub(crate) fn returns_file(&self) -> Option<&[u8]>
        ensures { option_map (λ b. b.now) result ≡ returns_given self.now }
    {
        match self {
            Inputs::Sides { returns, .. } => slice_given(returns),
            _ => None,
        }
    }

    /// Returns the accept file, which is empty if none is named.
    pub(crate) fn accept_file(&self) -> &[u8]
        ensures { result.now ≡ accept_given self.now }
    {
        match self {
            Inputs::Host { given, .. } => slice_given(&given.accept).unwrap_or(b""),
            _ => b"",
        }
    }

    /// Returns the tables of `check`, as far as they are given.
    pub(crate) fn host_tables(&self) -> HostTables<'_>
        ensures { host_tables_view result ≡ host_tables_given self.now }
    {
        match self {
            Inputs::Host { given, .. } => HostTables {
                groups: table_bytes(&given.tables.groups),
                access: Some(&given.tables.access.contents),
                time: table_bytes(&given.tables.time),
            },
            _ => HostTables {
                groups: None,
                access: None,
                time: None,
            },
        }
    }

    /// Returns the paths of the tables of `check`, each empty if it is not given.
    pub(crate) fn table_paths(&self) -> TablePaths<'_>
        ensures { table_paths_view result ≡ table_paths_given self.now }
    {
        match self {
            Inputs::Host { given, .. } => TablePaths {
                groups: table_path(&given.tables.groups),
                access: Some(&given.tables.access.paths),
                time: table_path(&given.tables.time),
            },
            _ => TablePaths {
                groups: b"",
                access: None,
                time: b"",
            },
        }
    }

    /// Returns the paths of a configuration and of its files, for `check`.
    pub(crate) fn paths(&self) -> Option<&Texts>
        ensures { option_map_or (λ paths. paths.now) result [] ≡ paths_given self.now }
    {
        match self {
            Inputs::Host { paths, .. } => Some(paths),
            _ => None,
        }
    }

    /// Returns the policies, in their order.
    pub fn policies(&self) -> Option<&Texts>
        ensures { option_map_or (λ policies. policies.now) result [] ≡ policies_given self.now }
    {
        match self {
            Inputs::Paths { given, .. } => Some(&given.policies),
            _ => None,
        }
    }

    /// Returns the access tables of `access`.
    pub(crate) fn access_tables(&self) -> Option<&Texts>
        ensures { option_map_or (λ tables. tables.now) result [] ≡ access_given self.now }
    {
        match self {
            Inputs::Access { tables, .. } => Some(tables),
            _ => None,
        }
    }

    /// Returns the group file of `access`, if there is one.
    pub(crate) fn groups(&self) -> Option<&[u8]>
        ensures { option_map (λ b. b.now) result ≡ group_file self.now }
    {
        match self {
            Inputs::Access { groups, .. } => slice_given(groups),
            _ => None,
        }
    }

    /// Returns the time table of `time`, which is empty for other commands.
    pub(crate) fn time_table(&self) -> &[u8]
        ensures { result.now ≡ time_given self.now }
    {
        match self {
            Inputs::Time { table } => table.as_slice(),
            _ => b"",
        }
    }
}

pub(super) fn table_bytes(table: &Option<TableFile>) -> Option<&[u8]>
    ensures { option_map (λ b. b.now) result ≡ option_map (λ t. t.bytes.items) table.now }
{
    match table {
        Some(table) => Some(table.bytes.as_slice()),
        None => None,
    }
}

fn table_path(table: &Option<TableFile>) -> &[u8]
    ensures { result.now ≡ option_map_or (λ t. t.path.items) table.now [] }
{
    match table {
        Some(table) => table.path.as_slice(),
        None => b"",
    }
}

pub(super) fn slice_given(bytes: &Option<Vec<u8>>) -> Option<&[u8]>
    ensures { option_map (λ b. b.now) result ≡ option_map (λ b. b.items) bytes.now }
{
    match bytes {
        Some(bytes) => Some(bytes.as_slice()),
        None => None,
    }
}
