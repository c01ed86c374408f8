//! The services that are checked.

ghost use Rattle.std.specs.Prelude.{◌≡◌, ◌++◌, IfOk, OnOk, filter, filter_map, map, [], ◌∷◌};
ghost use Rattle.std.specs.Char.{to_ascii_lowercase};
ghost use Rattle.pam_conf.specs.Rule.{rule_view};
ghost use Rattle.pam_conf.specs.Services.{checked_services, each_once, is_service, or_other, services_in};

use crate::files::Files;
use crate::name_list::NameList;
use crate::rule::{Form, Rule};
use crate::rule_files::RuleFiles;
use crate::service_names::is_service;
use pam_text::Texts;
use std::alloc::{AllocError, Global};

/// Appends the name of a file, if it is a service.
fn push_service(names: &mut Texts, name: &[u8]) -> Result<(), AllocError>
    ensures { OnOk result (names.new ≡ names.old ++ filter is_service (name.now ∷ [])) }
{
    if is_service(name) {
        names.push(name)?;
    }
    Ok(())
}

/// The files of a folder that are services.
fn services_of_folder(alloc: Global, files: &Files) -> Result<Texts, AllocError>
    ensures { IfOk result (λ names. names ≡ filter is_service (map (λ f. f.0) files.now.entries)) }
{
    let mut names = Texts::new(alloc);
    for position in 0..files.len() {
        let name = files.name(position).unwrap();
        push_service(&mut names, name)?;
    }
    Ok(names)
}

/// The services that rules name, each once.
fn services_of_rules(alloc: Global, rules: &[Rule]) -> Result<Texts, AllocError>
    ensures { IfOk result (λ names. names ≡ each_once (filter_map (λ rule. rule.service) (map rule_view rules.now))) }
{
    let mut names = NameList::new(alloc);
    for rule in rules {
        if let Some(service) = &rule.service {
            names.add(alloc, service)?;
        }
    }
    Ok(names.into_names())
}

/// The services that pam.conf names.
fn services_of_single(alloc: Global, rules: &RuleFiles<'_>) -> Result<Texts, AllocError>
    requires { rules.now.form ≡ Form.Single }
    ensures { IfOk result (λ names. names ≡ services_in rules.now.form rules.now.entries) }
{
    match rules.rules(alloc, 0)? {
        Some(rules) => services_of_rules(alloc, &rules),
        None => Ok(Texts::new(alloc)),
    }
}

/// The services of a configuration: the files of a folder, but for those whose names have a capital letter or are left over; or
/// the services that the rules of pam.conf name, each once.
pub fn services_in(alloc: Global, files: &Files, rules: &RuleFiles<'_>) -> Result<Texts, AllocError>
    requires { rules.now ≡ files.now }
    ensures { IfOk result (λ names. names ≡ services_in files.now.form files.now.entries) }
{
    match files.form() {
        Form::Dir => services_of_folder(alloc, files),
        Form::Single => services_of_single(alloc, rules),
    }
}

/// The services of the configuration, or `other` if there is none.
fn all_services(alloc: Global, files: &Files, rules: &RuleFiles<'_>) -> Result<Texts, AllocError>
    requires { rules.now ≡ files.now }
    ensures { IfOk result (λ names. names ≡ or_other (services_in files.now.form files.now.entries)) }
{
    let mut names = services_in(alloc, files, rules)?;
    if names.len() == 0 {
        names.push(b"other")?;
    }
    Ok(names)
}

/// A name in lowercase.
fn lower_case(alloc: Global, name: &[u8]) -> Result<Vec<u8>, AllocError>
    ensures { IfOk result (λ lower. lower.items ≡ map to_ascii_lowercase name.now) }
{
    let mut lower = Vec::with_capacity(alloc, name.len())?;
    for byte in name {
        lower.push(byte.to_ascii_lowercase())?;
    }
    Ok(lower)
}

/// These services in lowercase, each once.
pub fn named_services(alloc: Global, named: &Texts) -> Result<Texts, AllocError>
    ensures { IfOk result (λ names. names ≡ each_once (map (λ n. map to_ascii_lowercase n) named.now)) }
{
    let mut names = NameList::new(alloc);
    for name in named.iter() {
        let lower = lower_case(alloc, name)?;
        names.add(alloc, &lower)?;
    }
    Ok(names.into_names())
}

/// The services that are checked: those that are named, or else all.
#[tactic(auto, unfolding(crate::specs::Services::checked_services))]
pub fn checked_services(
    alloc: Global,
    files: &Files,
    rules: &RuleFiles<'_>,
    named: &Texts,
) -> Result<Texts, AllocError>
    requires { rules.now ≡ files.now }
    ensures { IfOk result (λ names. names ≡ checked_services files.now named.now) }
{
    if named.len() == 0 {
        return all_services(alloc, files, rules);
    }
    named_services(alloc, named)
}
