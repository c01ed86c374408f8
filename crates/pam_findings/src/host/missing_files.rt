//! S24: arguments that name a file which is not there, and what their modules do without it.

ghost use Rattle.std.specs.Prelude.{◌≡◌, OnOk};
ghost use Rattle.std.specs.Option.{option_map};
ghost use Rattle.pam_conf.specs.ItemsOf.{module_text};
ghost use Rattle.pam_conf.specs.declared.rule.Kind.TheVariants.{Account, Auth, Password, Session};
ghost use Rattle.pam_findings.specs.host.MissingFiles.{absence_by, absence_of, file_front, file_front_in, has_front, may_lack_file, may_name_file};
ghost use Rattle.pam_findings.specs.host.MissingFiles.{missing_by, names_file};
ghost use Rattle.pam_findings.specs.host.Problems.{number_of_absence};
ghost use Rattle.pam_findings.specs.host.inner.Table.{Adds};
ghost use Rattle.pam_findings.specs.host.inner.WrongArguments.{OfFound};

use crate::host::arguments::push_argument;
use crate::host::callers::has_argument;
use crate::host::problem::{ArgumentProblem, Spot};
use pam_conf::{Kind, Module, NameList};
use pam_facts::{is_there, module_name};
use std::alloc::AllocError;

/// What a module does without the file that an argument of its rule names.
#[derive(Clone, Copy, Debug, PartialEq, Eq)]
pub enum Absence {
    /// It always fails.
    Fails,
    /// It succeeds, whoever asks.
    Passes,
}

impl Absence {
    /// By it places tell findings apart.
    pub(crate) fn number(self) -> u8
        ensures { result ≡ number_of_absence self }
    {
        match self {
            Absence::Fails => 0,
            Absence::Passes => 1,
        }
    }
}

/// How an argument begins that names a file by an absolute path, of the modules that read it in this kind, but not in each.
fn front_in_auth(name: &[u8]) -> Option<&'static [u8]>
    ensures { option_map (λ front. front.now) result ≡ file_front_in Auth name.now }
{
    if name == b"pam_issue".as_slice() {
        Some(b"issue=/")
    } else if name == b"pam_userdb".as_slice() {
        Some(b"db=/")
    } else if name == b"pam_faillock".as_slice()
        || name == b"pam_radius_auth".as_slice()
        || name == b"pam_duo".as_slice()
    {
        Some(b"conf=/")
    } else {
        None
    }
}

/// The same in `account`.
fn front_in_account(name: &[u8]) -> Option<&'static [u8]>
    ensures { option_map (λ front. front.now) result ≡ file_front_in Account name.now }
{
    if name == b"pam_time".as_slice() {
        Some(b"conffile=/")
    } else if name == b"pam_userdb".as_slice() {
        Some(b"db=/")
    } else if name == b"pam_faillock".as_slice() {
        Some(b"conf=/")
    } else {
        None
    }
}

/// The same in `password`.
fn front_in_password(name: &[u8]) -> Option<&'static [u8]>
    ensures { option_map (λ front. front.now) result ≡ file_front_in Password name.now }
{
    if name == b"pam_passwdqc".as_slice() {
        Some(b"config=/")
    } else {
        None
    }
}

/// The same in `session`.
fn front_in_session(name: &[u8]) -> Option<&'static [u8]>
    ensures { option_map (λ front. front.now) result ≡ file_front_in Session name.now }
{
    if name == b"pam_limits".as_slice() || name == b"pam_radius_auth".as_slice() {
        Some(b"conf=/")
    } else {
        None
    }
}

fn file_front_in(kind: Kind, name: &[u8]) -> Option<&'static [u8]>
    ensures { option_map (λ front. front.now) result ≡ file_front_in kind name.now }
{
    match kind {
        Kind::Auth => front_in_auth(name),
        Kind::Account => front_in_account(name),
        Kind::Password => front_in_password(name),
        Kind::Session => front_in_session(name),
    }
}

/// How an argument begins that names a file by an absolute path, of those that the module of this name reads.
fn file_front(kind: Kind, name: &[u8]) -> Option<&'static [u8]>
    ensures { option_map (λ front. front.now) result ≡ file_front kind name.now }
{
    if name == b"pam_access".as_slice() {
        Some(b"accessfile=/")
    } else if name == b"pam_listfile".as_slice() || name == b"pam_localuser".as_slice() {
        Some(b"file=/")
    } else {
        file_front_in(kind, name)
    }
}

/// Whether a word begins with the front of a module of this name.
fn has_front(kind: Kind, name: &[u8], word: &[u8]) -> bool
    ensures { result ≡ has_front kind name.now word.now }
{
    match file_front(kind, name) {
        Some(front) => word.starts_with(front),
        None => false,
    }
}

/// Whether an argument of the module at a path names a file that the module cannot do without.
fn names_file(kind: Kind, path: &[u8], word: &[u8]) -> bool
    ensures { result ≡ names_file kind path.now word.now }
{
    match module_name(path) {
        Some(name) => has_front(kind, name, word),
        None => false,
    }
}

/// Whether an argument of the module at a path, as rules write both, names a file that the module cannot do without in some kind. The
/// path of the file is what comes after the first `=`; that of `db=` goes without its ending `.db`.
pub fn may_name_file(path: &[u8], word: &[u8]) -> bool
    ensures { result ≡ may_name_file path.now word.now }
{
    names_file(Kind::Auth, path, word)
        || names_file(Kind::Account, path, word)
        || names_file(Kind::Password, path, word)
        || names_file(Kind::Session, path, word)
}

/// What a module does without its file, by its name.
fn absence_by(name: &[u8]) -> Absence
    ensures { result ≡ absence_by name.now }
{
    if name == b"pam_time".as_slice() || name == b"pam_duo".as_slice() {
        Absence::Passes
    } else {
        Absence::Fails
    }
}

fn absence_of(path: &[u8]) -> Absence
    ensures { result ≡ absence_of path.now }
{
    match module_name(path) {
        Some(name) => absence_by(name),
        None => Absence::Fails,
    }
}

/// Whether a rule says that pam_listfile shall succeed where it has no file.
fn may_lack_file(module: &Module) -> bool
    ensures { result ≡ may_lack_file (module_text «module».now) }
{
    has_argument(b"onerr=succeed", &module.arguments)
}

/// What is wrong with an argument whose file is not there, as far as it is known of which it is.
fn missing_by(
    files: Option<&NameList>,
    kind: Kind,
    module: &Module,
    word: &[u8],
) -> Option<ArgumentProblem>
    ensures { result ≡ missing_by (option_map (λ t. t.now) files.entry) kind (module_text «module».now) word.now }
{
    if names_file(kind, &module.path, word) && !may_lack_file(module) && !is_there(files, word) {
        Some(ArgumentProblem::MissingFile(absence_of(&module.path)))
    } else {
        None
    }
}

/// Appends S24 of each argument of a rule that names a file which is not there.
pub(crate) fn push_missing(
    spots: &mut Vec<Spot>,
    files: Option<&NameList>,
    kind: Kind,
    module: &Module,
) -> Result<(), AllocError>
    ensures { OnOk result (Adds (OfFound (missing_by (option_map (λ t. t.now) files.entry) kind (module_text «module».now)) (module_text «module».now))
        spots.old.items spots.new.items) }
{
    // The number says that positions stay in their type.
    let _count = module.arguments.len();
    for (position, word) in module.arguments.iter().enumerate() {
        let wrong = missing_by(files, kind, module, word);
        push_argument(spots, module, position, wrong)?;
    }
    Ok(())
}
