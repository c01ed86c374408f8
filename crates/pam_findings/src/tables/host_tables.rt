//! The tables of a host.

use pam_text::Texts;

/// The contents of the tables that modules read, as far as they are given.
#[derive(Clone, Copy)]
pub struct HostTables<'a> {
    /// The group file, as in group(5). It is looked at only beside an access table.
    pub groups: Option<&'a [u8]>,
    /// The access tables, as in access.conf(5), in the order in which they are read. An empty list gives nothing.
    pub access: Option<&'a Texts>,
    /// The time table, as in time.conf(5).
    pub time: Option<&'a [u8]>,
}
