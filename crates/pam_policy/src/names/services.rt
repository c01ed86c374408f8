//! P3: the names of services that a host does not have.

ghost use Rattle.std.specs.Prelude.{◌≡◌, ◌==◌, [], IfOk, filter, map, not};
ghost use Rattle.std.specs.Char.{to_ascii_lowercase};
ghost use Rattle.std.specs.List.{list_any};
ghost use Rattle.pam_conf.specs.Services.{each_once};
ghost use Rattle.pam_policy.specs.names.Host.{host_view};
ghost use Rattle.pam_policy.specs.names.Misnamed.{is_no_service, is_service, no_service, of_services};
ghost use Rattle.pam_policy.specs.names.Words.{misnamed_view, saying};
ghost use Rattle.pam_policy.specs.text.Services.{fits, services_view};

use crate::names::host::Host;
use crate::names::word::{Misnamed, Word};
use crate::text::Services;
use pam_codes::is_name;
use pam_conf::NameList;
use pam_spelling::nearest;
use pam_text::Texts;
use std::alloc::{AllocError, Global};

/// Each of these texts.
pub(crate) fn each_of(alloc: Global, texts: &Texts) -> Result<Vec<&[u8]>, AllocError>
    ensures { IfOk result (λ names. map (λ n. n.now) names.items ≡ texts.now) }
{
    let mut names = Vec::new(alloc);
    for text in texts.iter() {
        names.push(text)?;
    }
    Ok(names)
}

/// A name in lowercase.
fn lowered(alloc: Global, name: &[u8]) -> Result<Vec<u8>, AllocError>
    ensures { IfOk result (λ lower. lower.items ≡ map to_ascii_lowercase name.now) }
{
    name.iter()
        .map(|byte| byte.to_ascii_lowercase())
        .collect(alloc)
}

fn has_star(name: &[u8]) -> bool
    ensures { result ≡ list_any (λ b. b == 42) name.now }
{
    name.iter().any(|byte| *byte == b'*')
}

fn is_service(host: &Host<'_>, name: &[u8]) -> bool
    ensures { result ≡ is_service (host_view host.now) name.now }
{
    host.services.iter().any(|service| is_name(name, service))
}

fn is_no_service(host: &Host<'_>, name: &[u8]) -> bool
    ensures { result ≡ is_no_service (host_view host.now) name.now }
{
    !has_star(name) && !is_service(host, name)
}

/// What is said of a name that is no service.
fn no_service(alloc: Global, host: &Host<'_>, name: &[u8]) -> Result<Misnamed, AllocError>
    ensures { IfOk result (λ misnamed. misnamed_view misnamed ≡ no_service (host_view host.now) name.now) }
{
    let services = each_of(alloc, host.services)?;
    let lower = lowered(alloc, name)?;
    let word = Word::of(alloc, name, nearest(&services, &lower))?;
    Ok(Misnamed::NoService(word))
}

/// The names that are to be services and are none, each once.
fn missing(alloc: Global, host: &Host<'_>, names: &[&[u8]]) -> Result<NameList, AllocError>
    ensures { IfOk result (λ missing. missing ≡ each_once (filter (is_no_service (host_view host.now)) (map (λ name. name.now) names.now))) }
{
    let mut missing = NameList::new(alloc);
    for name in names {
        if is_no_service(host, name) {
            missing.add(alloc, name)?;
        }
    }
    Ok(missing)
}

/// What is said of each of these names, which are no services.
fn said_of(alloc: Global, host: &Host<'_>, missing: &Texts) -> Result<Vec<Misnamed>, AllocError>
    ensures { IfOk result (λ said. map misnamed_view said.items ≡ map (no_service (host_view host.now)) missing.now) }
{
    let mut said = Vec::new(alloc);
    for name in missing.iter() {
        said.push(no_service(alloc, host, name)?)?;
    }
    Ok(said)
}

/// What is said of the names that are to be services and are none.
fn wrong_names(alloc: Global, host: &Host<'_>, names: &[&[u8]]) -> Result<Vec<Misnamed>, AllocError>
    ensures { IfOk result (λ said. map misnamed_view said.items ≡ saying []
        (map (no_service (host_view host.now)) (filter (is_no_service (host_view host.now)) (map (λ name. name.now) names.now)))) }
{
    let missing = missing(alloc, host, names)?;
    let said = said_of(alloc, host, missing.names())?;
    Ok(said)
}

/// Whether a rule fits some service.
fn fits_some(host: &Host<'_>, services: &Services<'_>) -> bool
    ensures { result ≡ list_any (fits (services_view services.now)) (host_view host.now).services }
{
    host.services.iter().any(|service| services.fits(service))
}

/// What the services of a rule name that is not there.
#[tactic(auto, unfolding(crate::specs::names::Misnamed::of_services))]
pub(crate) fn of_services(
    alloc: Global,
    host: &Host<'_>,
    services: &Services<'_>,
) -> Result<Vec<Misnamed>, AllocError>
    ensures { IfOk result (λ said. map misnamed_view said.items ≡ of_services (host_view host.now) (services_view services.now)) }
{
    let mut said = wrong_names(alloc, host, &services.wanted)?;
    if said.is_empty() && !fits_some(host, services) {
        said.push(Misnamed::FitsNone)?;
    }
    Ok(said)
}
