//! What a host has, of which the words of a policy speak.

use pam_conf::NameList;
use pam_text::Texts;

/// The call of a module by a rule of a file.
#[derive(Drop)]
pub struct Call {
    pub path: Vec<u8>,
    pub arguments: Texts,
}

/// What a host has.
#[derive(Clone, Copy)]
pub struct Host<'a> {
    /// The services, as `pam_conf::services_in` lists them.
    pub services: &'a Texts,
    /// The calls of modules by the rules without a fault, of all files.
    pub calls: &'a [Call],
    /// The names of the modules of which the facts have a row.
    pub known: &'a Texts,
    /// The paths at which a module is there, as rules write them; `None` if that is not known.
    pub there: Option<&'a NameList>,
}
