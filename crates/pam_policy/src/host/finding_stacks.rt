//! The stacks of a host, found one after another.

ghost use Rattle.std.specs.Prelude.{◌≡◌, ◌∷◌, ◌++◌, [], Err, IfErr, IfOk, List, Ok, OnOk, Some, length, map, slice_get, ℕ};
ghost use Rattle.pam_conf.specs.Resolution.{resolved};
ghost use Rattle.pam_conf.specs.declared.rule.Kind.{Kind as KindText};
ghost use Rattle.pam_conf.specs.Services.{services_in};
ghost use Rattle.pam_policy.specs.host.HostStacks.{AreHostStacks, IsClassAt, IsClassOf, IsErrorAmong, IsErrorAt, WhyNoStacks, places_from, service_places};
ghost use Rattle.pam_policy.specs.host.Sources.{sources_view};
ghost use Rattle.pam_policy.specs.host.inner.Classes.{Adds, AreFound, IsGathered};

use crate::host::answers::known_at;
use crate::host::classes::{Answered, Classes, alone};
use crate::host::error::StacksError;
use crate::host::stacks::{ClassStack, HostPlace, HostSources, HostStacks, StackClass};
use crate::names::each_of;
use pam_conf::laws::stack_is_sound_survey;
use pam_conf::{
    ConfError, FaultKind, Files, Kind, RuleFiles, Stack, Survey, is_sound, resolve, services_in,
};
use pam_text::Texts;
use std::alloc::{AllocError, Global};

/// The stack of a service, or the first fault.
type Resolved = Result<Stack, ConfError>;

/// The stack that a walk from the first rule on gives, or its first fault.
fn walked(alloc: Global, files: &Files, name: &[u8], kind: Kind) -> Result<Resolved, AllocError>
    ensures { IfOk result (λ stack. stack ≡ resolved files.now name.now kind) }
{
    match resolve(alloc, files, name, kind) {
        Ok(stack) => Ok(Ok(stack)),
        Err(error) => {
            if error.kind == FaultKind::Memory {
                return Err(AllocError);
            }
            Ok(Err(error))
        }
    }
}

/// The stack of a service, or the first fault. The rules that were read give the stack where there is none; only a fault needs
/// another walk.
fn stack_of(
    alloc: Global,
    files: &Files,
    rules: &RuleFiles<'_>,
    name: &[u8],
    kind: Kind,
) -> Result<Resolved, AllocError>
    requires { rules.now ≡ files.now }
    ensures { IfOk result (λ stack. stack ≡ resolved files.now name.now kind) }
{
    stack_is_sound_survey();
    let survey = rules.survey(alloc, name, kind)?;
    if !is_sound(rules, &survey) {
        return walked(alloc, files, name, kind);
    }
    let Survey { stack, .. } = survey;
    match stack {
        Some(stack) => Ok(Ok(stack)),
        None => walked(alloc, files, name, kind),
    }
}

/// What the stacks are found from.
#[derive(Drop)]
pub(crate) struct Finder<'x> {
    pub(crate) alloc: Global,
    pub(crate) sources: &'x HostSources<'x>,
    pub(crate) rules: &'x RuleFiles<'x>,
    ghost same: { rules.now ≡ sources.now.files.now },
}

/// The places so far, and their classes.
#[derive(Drop)]
pub(crate) struct Found {
    pub(crate) places: Vec<HostPlace>,
    pub(crate) classes: Classes,
}

impl Finder<'_> {
    /// The class of an accepted stack.
    fn class_accepted(
        &self,
        classes: &mut Classes,
        name: &[u8],
        kind: Kind,
        stack: Stack,
    ) -> Result<usize, StacksError>
        requires { resolved self.now.sources.now.files.now name.now kind ≡ Ok stack }
        ensures adds { OnOk result (Adds classes.old classes.new) }
        ensures class { AreFound classes.old
            → IfOk result (λ k. IsClassAt (sources_view self.now.sources.now) name.now kind (slice_get classes.new.classes.items k)) }
        ensures reason { IfErr result (IsErrorAt (sources_view self.now.sources.now) name.now kind) }
    {
        let known = match known_at(self.alloc, self.sources, name, kind, &stack) {
            Ok(known) => known,
            Err(fault) => return Err(StacksError::Known(fault)),
        };
        let answered = Answered { kind, stack, known };
        let class = classes.class_of(self.alloc, answered)?;
        Ok(class)
    }

    /// The class of a stack that is refused.
    fn class_refused(
        &self,
        classes: &mut Classes,
        name: &[u8],
        kind: Kind,
        fault: ConfError,
    ) -> Result<usize, StacksError>
        requires { resolved self.now.sources.now.files.now name.now kind ≡ Err fault }
        ensures adds { OnOk result (Adds classes.old classes.new) }
        ensures class { IfOk result (λ k.
            IsClassAt (sources_view self.now.sources.now) name.now kind (slice_get classes.new.classes.items k)) }
        ensures reason { IfErr result (IsErrorAt (sources_view self.now.sources.now) name.now kind) }
    {
        let class = classes.class_refused(kind, fault)?;
        Ok(class)
    }

    /// The class of the stack of a service for a kind, which is added if there is none.
    fn class_of(&self, classes: &mut Classes, name: &[u8], kind: Kind) -> Result<usize, StacksError>
        ensures adds { OnOk result (Adds classes.old classes.new) }
        ensures class { AreFound classes.old
            → IfOk result (λ k. IsClassAt (sources_view self.now.sources.now) name.now kind (slice_get classes.new.classes.items k)) }
        ensures reason { IfErr result (IsErrorAt (sources_view self.now.sources.now) name.now kind) }
    {
        let resolved = stack_of(self.alloc, self.sources.files, self.rules, name, kind)?;
        match resolved {
            Ok(stack) => self.class_accepted(classes, name, kind, stack),
            Err(fault) => self.class_refused(classes, name, kind, fault),
        }
    }

    /// Adds the place of a service and a kind.
    fn add_place(
        &self,
        found: &mut Found,
        service: usize,
        name: &[u8],
        kind: Kind,
    ) -> Result<(), StacksError>
        ensures place { (names : List (List ℕ)) (asked : List (ℕ × KindText)) → slice_get names service ≡ Some name.now
            → IsGathered (sources_view self.now.sources.now) names asked found.old
            → OnOk result (IsGathered (sources_view self.now.sources.now) names (asked ++ (service, kind) ∷ []) found.new) }
        ensures reason { IfErr result (IsErrorAt (sources_view self.now.sources.now) name.now kind) }
    {
        let class = self.class_of(&mut found.classes, name, kind)?;
        found.places.push(HostPlace {
            service,
            kind,
            class,
        })?;
        Ok(())
    }

    /// Adds the places of a service.
    fn add_service(&self, found: &mut Found, service: usize, name: &[u8]) -> Result<(), StacksError>
        ensures places { (names : List (List ℕ)) (asked : List (ℕ × KindText)) → slice_get names service ≡ Some name.now
            → IsGathered (sources_view self.now.sources.now) names asked found.old
            → OnOk result (IsGathered (sources_view self.now.sources.now) names (asked ++ service_places service) found.new) }
        ensures reason { (names : List (List ℕ)) → slice_get names service ≡ Some name.now
            → IfErr result (IsErrorAmong (sources_view self.now.sources.now) names) }
    {
        self.add_place(found, service, name, Kind::Auth)?;
        self.add_place(found, service, name, Kind::Account)?;
        self.add_place(found, service, name, Kind::Password)?;
        self.add_place(found, service, name, Kind::Session)
    }

    /// The places of all services, with their classes.
    fn places(&self, names: &[&[u8]]) -> Result<Found, StacksError>
        ensures places { IfOk result (IsGathered (sources_view self.now.sources.now) (map (λ name. name.now) names.now)
            (places_from 0 (length names.now))) }
        ensures reason { IfErr result (IsErrorAmong (sources_view self.now.sources.now) (map (λ name. name.now) names.now)) }
    {
        let mut found = Found {
            places: Vec::new(self.alloc),
            classes: Classes::none(self.alloc),
        };
        for (service, name) in names.iter().enumerate() {
            self.add_service(&mut found, service, name)?;
        }
        Ok(found)
    }

    /// The places of these services, with their classes.
    fn found(&self, services: &Texts) -> Result<Found, StacksError>
        ensures places { IfOk result (IsGathered (sources_view self.now.sources.now) services.now (places_from 0 (length services.now))) }
        ensures reason { IfErr result (WhyNoStacks (sources_view self.now.sources.now) services.now) }
    {
        let names = each_of(self.alloc, services)?;
        let found = self.places(&names)?;
        Ok(found)
    }
}

/// What is known of the accepted stack of a service for a kind.
fn known_class(
    alloc: Global,
    sources: &HostSources<'_>,
    service: &[u8],
    kind: Kind,
    stack: Stack,
) -> Result<StackClass, StacksError>
    requires { resolved sources.now.files.now service.now kind ≡ Ok stack }
    ensures class { IfOk result (IsClassOf (sources_view sources.now) service.now kind) }
    ensures reason { IfErr result (IsErrorAt (sources_view sources.now) service.now kind) }
{
    let known = match known_at(alloc, sources, service, kind, &stack) {
        Ok(known) => known,
        Err(fault) => return Err(StacksError::Known(fault)),
    };
    let class = alone(alloc, Answered { kind, stack, known })?;
    Ok(class)
}

impl StackClass {
    /// What is known of the stack of one service for a kind. A service that the sources do not have has the stack of `other`, as
    /// in Linux-PAM.
    pub fn of(
        alloc: Global,
        sources: &HostSources<'_>,
        service: &[u8],
        kind: Kind,
    ) -> Result<StackClass, StacksError>
        ensures class { IfOk result (IsClassOf (sources_view sources.now) service.now kind) }
        ensures reason { IfErr result (IsErrorAt (sources_view sources.now) service.now kind) }
    {
        let resolved = walked(alloc, sources.files, service, kind)?;
        match resolved {
            Ok(stack) => known_class(alloc, sources, service, kind, stack),
            Err(fault) => Ok(StackClass {
                kind,
                stack: ClassStack::Refused(fault),
            }),
        }
    }
}

impl HostStacks {
    /// The stacks of a host. The services are as `pam_conf::services_in` lists them.
    ///
    /// Each file is read once, if none has a fault. Stacks of a kind that have the same items and the same answers have one class, and so
    /// have those that are refused for the same fault.
    pub fn of(alloc: Global, sources: &HostSources<'_>) -> Result<HostStacks, StacksError>
        ensures stacks { IfOk result (AreHostStacks (sources_view sources.now)) }
        ensures reason { IfErr result (WhyNoStacks (sources_view sources.now)
            (services_in sources.now.files.now.form sources.now.files.now.entries)) }
    {
        let rules = RuleFiles::read(alloc, sources.files)?;
        let services = services_in(alloc, sources.files, &rules)?;
        let finder = Finder {
            alloc,
            sources,
            rules: &rules,
        };
        let Found { places, classes } = finder.found(&services)?;
        let Classes { classes, .. } = classes;
        Ok(HostStacks {
            services,
            places,
            classes,
        })
    }
}
