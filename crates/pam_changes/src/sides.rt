//! The two configurations that are compared.

use pam_conf::{Files, NameList};
use pam_facts::Facts;
use pam_facts::settings::Setting;
use pam_tables::ReturnTable;

/// A configuration, and the paths at which a module is there, as its rules write them; `None` if that is not known.
#[derive(Clone, Copy)]
pub struct Side<'x> {
    pub files: &'x Files,
    pub there: Option<&'x NameList>,
}

/// Two configurations, and what is known of the answers of their modules.
#[derive(Clone, Copy)]
pub struct Sides<'x, 'f> {
    pub old: Side<'x>,
    pub new: Side<'x>,
    pub facts: &'x Facts<'f>,
    /// What modules are known to answer by a returns file, if one is given.
    pub returns: Option<&'x ReturnTable<'x>>,
    /// What modules are known to answer by their names, whatever the returns file says of them. Of several for one module, the last
    /// counts. One whose key is no name of a module, or that has no code, says nothing.
    pub settings: &'x [Setting<'x>],
}
