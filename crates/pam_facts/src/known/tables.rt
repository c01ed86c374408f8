//! The files that a login is looked up in, and what is known besides.

use crate::facts::Facts;
use jiff::civil::DateTime;
use pam_conf::NameList;
use pam_text::Texts;

/// A time table, as in time.conf(5), and the moment of the login.
#[derive(Clone, Copy)]
pub struct TimedTable<'a> {
    pub bytes: &'a [u8],
    pub moment: DateTime,
}

/// What gives the codes of modules: the contents of files, which modules are there, and facts. What is `None` gives nothing.
#[derive(Clone, Copy)]
pub struct Tables<'a> {
    /// The paths at which a module is there, as rules write them.
    pub there: Option<&'a NameList>,
    /// The group file that the access tables refer to, as in group(5).
    pub groups: Option<&'a [u8]>,
    /// The access tables, as in access.conf(5), in the order in which they are read. An empty list gives nothing.
    pub access: Option<&'a Texts>,
    pub time: Option<TimedTable<'a>>,
    /// A returns file: the codes that modules may return, by module name.
    pub returns: Option<&'a [u8]>,
    /// What is known of the modules of which neither a table nor the returns file tells.
    pub facts: Option<&'a Facts<'a>>,
}
