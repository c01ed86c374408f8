//! The services that a request names, and whether its configuration has them.

ghost use Rattle.std.specs.Prelude.{◌≡◌, Bool, IfOk, MatchResult, map, option_map, true};
ghost use Rattle.std.specs.Char.{to_ascii_lowercase};
ghost use Rattle.std.specs.Option.{option_copied};
ghost use Rattle.pam_conf.specs.declared.rule.Form.TheVariants.{Single};
ghost use Rattle.pam_report.specs.Refusal.{names_in, nearest_in};
ghost use Rattle.pam_report.specs.Services.{has_asked, has_name as has_name_in, has_service, has_services, is_there};
ghost use Rattle.pam_report.specs.Services.{may_hide as may_hide_in, sides_have, side_has};
ghost use Rattle.pam_report.specs.Inputs.{new_given, old_given};
ghost use Rattle.pam_report.specs.inner.Services.{IsUnknown};

use crate::fault::Fault;
use crate::inputs::{Inputs, SideInputs};
use pam_conf::{Files, Form, NameList, RuleFiles, services_in};
use pam_spelling::nearest;
use pam_text::Texts;
use std::alloc::{AllocError, Global};
use std::marker::Model;

/// Which services a configuration has. As a value of a contract it is the configuration.
#[derive(Drop)]
pub(crate) struct Services<'a> {
    files: &'a Files,
    /// The services that the rules of pam.conf name.
    of_rules: NameList,
    /// Whether a line of pam.conf has a fault.
    may_hide: bool,
}

impl<'a> Model for Services<'a> {
    ghost use Rattle.pam_conf.specs.Files.{Folder};
    ghost use Rattle.pam_report.specs.inner.Services.{IsNaming};

    ghost Value = { Folder };

    ghost view = { λ s. s.files.now };

    ghost invariant = { λ s. IsNaming s.files.now s.of_rules s.may_hide };
}

/// A name in lowercase.
pub(crate) fn lowered(alloc: Global, name: &[u8]) -> Result<Vec<u8>, AllocError>
    ensures { IfOk result (λ lower. lower.items ≡ map to_ascii_lowercase name.now) }
{
    name.iter()
        .map(|byte| byte.to_ascii_lowercase())
        .collect(alloc)
}

/// Whether a line of pam.conf has a fault, so that it may be a rule of any service.
fn may_hide(rules: &RuleFiles<'_>) -> bool
    requires { rules.now.form ≡ Single }
    ensures { result ≡ may_hide_in rules.now.form rules.now.entries }
{
    match rules.faults(0) {
        Some(faults) => faults.len() != 0,
        None => false,
    }
}

/// The names of the files of a folder.
pub(crate) fn file_names(alloc: Global, files: &Files) -> Result<Vec<&[u8]>, AllocError>
    ensures { IfOk result (λ names. map (λ n. n.now) names.items ≡ map (λ f. f.0) files.now.entries) }
{
    let mut names = Vec::new(alloc);
    for position in 0..files.len() {
        let name = files.name(position).unwrap();
        names.push(name)?;
    }
    Ok(names)
}

/// Each of these names.
fn each_of(alloc: Global, texts: &Texts) -> Result<Vec<&[u8]>, AllocError>
    ensures { IfOk result (λ names. map (λ n. n.now) names.items ≡ texts.now) }
{
    let mut names = Vec::new(alloc);
    for text in texts.iter() {
        names.push(text)?;
    }
    Ok(names)
}

impl<'a> Services<'a> {
    /// Reads pam.conf. Of a folder nothing is read, since the names of its files are those of its services.
    pub(crate) fn of(alloc: Global, files: &'a Files) -> Result<Services<'a>, AllocError>
        ensures { IfOk result (λ services. services ≡ files.now) }
    {
        match files.form() {
            Form::Dir => Ok(Services {
                files,
                of_rules: NameList::new(alloc),
                may_hide: false,
            }),
            Form::Single => Services::of_single(alloc, files),
        }
    }

    fn of_single(alloc: Global, files: &'a Files) -> Result<Services<'a>, AllocError>
        requires { files.now.form ≡ Single }
        ensures { IfOk result (λ services. services ≡ files.now) }
    {
        let rules = RuleFiles::read(alloc, files)?;
        let of_rules = NameList::of(alloc, services_in(alloc, files, &rules)?)?;
        let may_hide = may_hide(&rules);
        Ok(Services {
            files,
            of_rules,
            may_hide,
        })
    }

    /// Whether there is a file of this name, or a rule with this service, which is in lowercase.
    fn has_name(&self, lower: &[u8]) -> bool
        ensures { result ≡ has_name_in self.now.form self.now.entries lower.now }
    {
        match self.files.form() {
            Form::Dir => self.files.find(lower).is_some(),
            Form::Single => self.of_rules.has(lower),
        }
    }

    /// The names of services: those of the files of a folder, or of the rules of pam.conf.
    fn names(&self, alloc: Global) -> Result<Vec<&[u8]>, AllocError>
        ensures { IfOk result (λ names. map (λ n. n.now) names.items ≡ names_in self.now.form self.now.entries) }
    {
        match self.files.form() {
            Form::Dir => file_names(alloc, self.files),
            Form::Single => each_of(alloc, self.of_rules.names()),
        }
    }

    /// The nearest name of a service.
    pub(crate) fn nearest(&self, alloc: Global, name: &[u8]) -> Result<Option<&[u8]>, AllocError>
        ensures { IfOk result (λ found. option_map (λ n. n.now) found ≡ nearest_in self.now name.now) }
    {
        let names = self.names(alloc)?;
        let lower = lowered(alloc, name)?;
        Ok(nearest(&names, &lower))
    }

    /// Whether the configuration has a service.
    pub(crate) fn has(&self, alloc: Global, name: &[u8]) -> Result<bool, AllocError>
        ensures { IfOk result (λ has. has ≡ has_service self.now name.now) }
    {
        let lower = lowered(alloc, name)?;
        Ok(self.may_hide || self.has_name(&lower))
    }
}

/// Whether a configuration has a service.
fn has(alloc: Global, files: &Files, name: &[u8]) -> Result<bool, AllocError>
    ensures { IfOk result (λ has. has ≡ has_service files.now name.now) }
{
    let services = Services::of(alloc, files)?;
    services.has(alloc, name)
}

/// Whether a configuration has each of these services.
fn has_all(alloc: Global, files: &Files, names: &Texts) -> Result<bool, AllocError>
    ensures { IfOk result (λ all. all ≡ has_services files.now names.now) }
{
    if names.len() == 0 {
        return Ok(true);
    }
    let services = Services::of(alloc, files)?;
    for name in names.iter() {
        if !services.has(alloc, name)? {
            return Ok(false);
        }
    }
    Ok(true)
}

/// Whether a side of a comparison has a service.
fn side_has_service(
    alloc: Global,
    side: Option<&SideInputs>,
    name: &[u8],
) -> Result<bool, AllocError>
    ensures { IfOk result (λ has. has ≡ side_has (option_map (λ s. s.now) side.entry) name.now) }
{
    match side {
        Some(side) => has(alloc, &side.files, name),
        None => has(alloc, &Files::new(alloc, Form::Dir), name),
    }
}

/// Whether a side of a comparison has the service that is named, if one is.
fn sides_have_service(
    alloc: Global,
    inputs: &Inputs,
    name: Option<&str>,
) -> Result<bool, AllocError>
    ensures { IfOk result (λ has. has ≡ sides_have inputs.now (option_copied name.entry)) }
{
    let Some(name) = name else {
        return Ok(true);
    };
    if side_has_service(alloc, inputs.old_side(), name.as_bytes())? {
        return Ok(true);
    }
    side_has_service(alloc, inputs.new_side(), name.as_bytes())
}

/// Whether a configuration is there: a folder, or the one file.
pub(crate) fn is_there(files: &Files) -> bool
    ensures { result ≡ is_there files.now }
{
    match files.form() {
        Form::Dir => true,
        Form::Single => files.len() != 0,
    }
}

/// Whether a configuration is there, and has each of these services.
fn has_asked(alloc: Global, files: &Files, names: &Texts) -> Result<bool, AllocError>
    ensures { IfOk result (λ has. has ≡ has_asked files.now names.now) }
{
    if !is_there(files) {
        return Ok(false);
    }
    has_all(alloc, files, names)
}

/// Returns the fault of names that are no services.
fn required(known: Result<bool, AllocError>) -> Result<(), Fault>
    ensures { (told : Bool) → IfOk known (λ found. found ≡ told) → MatchResult result (λ _. told ≡ true) (IsUnknown told) }
{
    match known {
        Ok(true) => Ok(()),
        Ok(false) => Err(Fault::NoSuchService),
        Err(_) => Err(Fault::Memory),
    }
}

/// Refuses a name that is no service.
pub(crate) fn require(alloc: Global, files: &Files, name: &str) -> Result<(), Fault>
    ensures { let known = has_service files.now name.now in MatchResult result (λ _. known ≡ true) (IsUnknown known) }
{
    required(has(alloc, files, name.as_bytes()))
}

/// Refuses a configuration that is not there, and names of which one is no service.
pub(crate) fn require_asked(alloc: Global, files: &Files, names: &Texts) -> Result<(), Fault>
    ensures { let known = has_asked files.now names.now in MatchResult result (λ _. known ≡ true) (IsUnknown known) }
{
    required(has_asked(alloc, files, names))
}

/// Refuses a name that is no service of either side of a comparison.
pub(crate) fn require_either(
    alloc: Global,
    inputs: &Inputs,
    name: Option<&str>,
) -> Result<(), Fault>
    ensures { let known = sides_have inputs.now (option_copied name.entry) in MatchResult result (λ _. known ≡ true) (IsUnknown known) }
{
    required(sides_have_service(alloc, inputs, name))
}
