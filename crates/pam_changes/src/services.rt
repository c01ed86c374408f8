//! The services that are compared.

ghost use Rattle.std.specs.Prelude.{◌≡◌, IfOk, fold, map};
ghost use Rattle.pam_conf.specs.Services.{or_other, services_in, with_name};
ghost use Rattle.pam_changes.specs.Services.{compared_services, names_among, presence_in, service_text};
ghost use Rattle.pam_changes.specs.Sides.{sides_view};

use crate::sides::Sides;
use pam_conf::{NameList, RuleFiles, named_services, services_in};
use pam_text::Texts;
use std::alloc::{AllocError, Global};

/// A service that is compared.
#[derive(Debug, Drop)]
pub struct ComparedService {
    /// In lowercase.
    pub name: Vec<u8>,
    /// Whether the old configuration has it: a file of this name, or in pam.conf a rule. If it has not, `other` decides.
    pub in_old: bool,
    /// The same of the new configuration.
    pub in_new: bool,
}

/// The services of either configuration.
#[derive(Drop)]
struct Present {
    old: NameList,
    new: NameList,
}

/// The services of the old configuration, and then those that only the new one has.
fn both_names(alloc: Global, present: &Present) -> Result<Texts, AllocError>
    ensures { IfOk result (λ names. names ≡ fold with_name present.now.old present.now.new) }
{
    let mut names = NameList::of(alloc, copied(alloc, present.old.names())?)?;
    for name in present.new.names().iter() {
        names.add(alloc, name)?;
    }
    Ok(names.into_names())
}

/// All services, or `other` if there is none.
fn all_names(alloc: Global, present: &Present) -> Result<Texts, AllocError>
    ensures { IfOk result (λ names. names ≡ or_other (fold with_name present.now.old present.now.new)) }
{
    let mut names = both_names(alloc, present)?;
    if names.len() == 0 {
        names.push(b"other")?;
    }
    Ok(names)
}

fn copied(alloc: Global, texts: &Texts) -> Result<Texts, AllocError>
    ensures { IfOk result (λ copy. copy ≡ texts.now) }
{
    let mut copy = Texts::new(alloc);
    for text in texts.iter() {
        copy.push(text)?;
    }
    Ok(copy)
}

/// The names of the services that are compared.
#[tactic(auto, unfolding(crate::specs::Services::names_among))]
fn names_among(alloc: Global, present: &Present, named: &Texts) -> Result<Texts, AllocError>
    ensures { IfOk result (λ names. names ≡ names_among present.now.old present.now.new named.now) }
{
    if named.len() == 0 {
        return all_names(alloc, present);
    }
    named_services(alloc, named)
}

/// A service, and which configurations have it.
fn service_of(alloc: Global, name: &[u8], present: &Present) -> Result<ComparedService, AllocError>
    ensures { IfOk result (λ service. service_text service ≡ presence_in present.now.old present.now.new name.now) }
{
    Ok(ComparedService {
        in_old: present.old.has(name),
        in_new: present.new.has(name),
        name: Vec::from_slice(alloc, name)?,
    })
}

/// These services, and which configurations have them.
fn services_of(
    alloc: Global,
    names: &Texts,
    present: &Present,
) -> Result<Vec<ComparedService>, AllocError>
    ensures { IfOk result (λ services. map service_text services.items ≡ map (presence_in present.now.old present.now.new) names.now) }
{
    let mut services = Vec::new(alloc);
    for name in names.iter() {
        services.push(service_of(alloc, name, present)?)?;
    }
    Ok(services)
}

/// The services of both configurations.
fn present_in(
    alloc: Global,
    sides: &Sides<'_, '_>,
    old_rules: &RuleFiles<'_>,
    new_rules: &RuleFiles<'_>,
) -> Result<Present, AllocError>
    requires old { old_rules.now ≡ sides.now.old.files.now }
    requires new { new_rules.now ≡ sides.now.new.files.now }
    ensures old { IfOk result (λ p. p.old ≡ services_in sides.now.old.files.now.form sides.now.old.files.now.entries) }
    ensures new { IfOk result (λ p. p.new ≡ services_in sides.now.new.files.now.form sides.now.new.files.now.entries) }
{
    let old = services_in(alloc, sides.old.files, old_rules)?;
    let new = services_in(alloc, sides.new.files, new_rules)?;
    Ok(Present {
        old: NameList::of(alloc, old)?,
        new: NameList::of(alloc, new)?,
    })
}

/// The services that are compared, of these: those that are named, or else all.
fn compared_among(
    alloc: Global,
    present: &Present,
    named: &Texts,
) -> Result<Vec<ComparedService>, AllocError>
    ensures { IfOk result (λ services. map service_text services.items
        ≡ map (presence_in present.now.old present.now.new) (names_among present.now.old present.now.new named.now)) }
{
    let names = names_among(alloc, present, named)?;
    services_of(alloc, &names, present)
}

/// The services that are compared: those that are named, or else all.
pub(crate) fn compared_services(
    alloc: Global,
    sides: &Sides<'_, '_>,
    old_rules: &RuleFiles<'_>,
    new_rules: &RuleFiles<'_>,
    named: &Texts,
) -> Result<Vec<ComparedService>, AllocError>
    requires old { old_rules.now ≡ sides.now.old.files.now }
    requires new { new_rules.now ≡ sides.now.new.files.now }
    ensures { IfOk result (λ services. map service_text services.items ≡ compared_services (sides_view sides.now) named.now) }
{
    let present = present_in(alloc, sides, old_rules, new_rules)?;
    compared_among(alloc, &present, named)
}
