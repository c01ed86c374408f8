//! Modules that check new passwords and refuse some, and modules that store one.

ghost use Rattle.std.specs.Prelude.{◌≡◌, map};
ghost use Rattle.std.specs.List.{list_any};
ghost use Rattle.std.specs.Str.{bytes_eq};
ghost use Rattle.pam_conf.specs.ItemsOf.{module_text};
ghost use Rattle.pam_findings.specs.host.Tokens.{is_one_of};
ghost use Rattle.pam_findings.specs.host.Storing.{failures, is_refuser, is_storer, refuser_name, refuses, refuses_none_by, storers, stores};

use crate::host::tokens::only_takes;
use crate::host::unasked::is_among;
use pam_codes::{Code, CodeSet};
use pam_conf::{Kind, Module};
use pam_facts::module_name;
use pam_text::Texts;

/// A module that checks new passwords, and refuses some.
#[derive(Clone, Copy, Debug, PartialEq, Eq)]
pub enum Refuser {
    Cracklib,
    Passwdqc,
    Pwhistory,
    Pwquality,
}

/// The modules that store a new password, and ask for it where no module before them did.
static STORERS: [&[u8]; 5] = [
    b"pam_unix",
    b"pam_ldap",
    b"pam_sss",
    b"pam_winbind",
    b"pam_krb5",
];

#[tactic(auto, unfolding(crate::specs::host::Storing::storers))]
fn storers() -> &'static [&'static [u8]]
    ensures { map (λ name. name.now) result.now ≡ storers }
{
    &STORERS
}

fn has_name(by: Refuser, name: &[u8]) -> bool
    ensures { result ≡ bytes_eq name.now (refuser_name by) }
{
    match by {
        Refuser::Cracklib => name == b"pam_cracklib".as_slice(),
        Refuser::Passwdqc => name == b"pam_passwdqc".as_slice(),
        Refuser::Pwhistory => name == b"pam_pwhistory".as_slice(),
        Refuser::Pwquality => name == b"pam_pwquality".as_slice(),
    }
}

/// Whether with this word a module refuses no password.
fn refuses_none_by(by: Refuser, word: &[u8]) -> bool
    ensures { result ≡ refuses_none_by by word.now }
{
    match by {
        Refuser::Cracklib => false,
        Refuser::Passwdqc => word == b"enforce=none".as_slice(),
        Refuser::Pwhistory => word == b"remember=0".as_slice(),
        Refuser::Pwquality => word == b"enforcing=0".as_slice(),
    }
}

fn is_refuser(by: Refuser, module: &Module) -> bool
    ensures { result ≡ is_refuser by (module_text «module».now) }
{
    match module_name(&module.path) {
        Some(name) => has_name(by, name),
        None => false,
    }
}

/// Whether with one of these words a module refuses no password.
fn refuses_none(by: Refuser, arguments: &Texts) -> bool
    ensures { result ≡ list_any (refuses_none_by by) arguments.now }
{
    arguments.iter().any(|word| refuses_none_by(by, word))
}

/// Whether the module of a rule may refuse a new password.
pub(crate) fn refuses(by: Refuser, module: &Module) -> bool
    ensures { result ≡ refuses by (module_text «module».now) }
{
    is_refuser(by, module) && !refuses_none(by, &module.arguments)
}

fn is_storing_name(name: &[u8]) -> bool
    ensures { result ≡ is_one_of storers name.now }
{
    is_among(storers(), name)
}

fn is_storer(module: &Module) -> bool
    ensures { result ≡ is_storer (module_text «module».now) }
{
    match module_name(&module.path) {
        Some(name) => is_storing_name(name),
        None => false,
    }
}

/// Whether the module of a rule stores a new password, and asks for it itself where it has to.
pub(crate) fn stores(module: &Module) -> bool
    ensures { result ≡ stores (module_text «module».now) }
{
    is_storer(module) && !only_takes(Kind::Password, module)
}

/// All codes but success, new_authtok_reqd, with which `requisite` and its like go on as with success, and ignore.
#[tactic(auto, unfolding(crate::specs::host::Storing::failures))]
pub(crate) fn failures() -> CodeSet
    ensures { result ≡ failures }
{
    CodeSet::all()
        .without(CodeSet::single(Code::SUCCESS))
        .without(CodeSet::single(Code::NEW_AUTHTOK_REQD))
        .without(CodeSet::single(Code::IGNORE))
}
