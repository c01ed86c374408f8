//! What changes from one configuration to another.

ghost use Rattle.std.specs.Prelude.{◌≡◌, ◌<◌, IfOk, Some, length, map, slice_get};
ghost use Rattle.pam_changes.specs.Changes.{AreChanges, stacks_asked};
ghost use Rattle.pam_changes.specs.inner.Finding.{IsFound};
ghost use Rattle.pam_changes.specs.Services.{service_text};
ghost use Rattle.pam_changes.specs.Sides.{sides_view};

use crate::pair::StackPair;
use crate::services::{ComparedService, compared_services};
use crate::sides::Sides;
use crate::stacks::{ComparedStack, Comparer, Found};
use pam_conf::{Kind, RuleFiles};
use pam_text::Texts;
use std::alloc::{AllocError, Global};

/// What changes from one configuration to another.
#[derive(Drop)]
pub struct HostChanges {
    pub services: Vec<ComparedService>,
    /// Each service with each kind, in order.
    pub stacks: Vec<ComparedStack>,
    /// The pairs of stacks that are not the same, in the order in which they are met first.
    pub pairs: Vec<StackPair>,
}

impl HostChanges {
    /// Compares these services, each for this kind, or for all four; if none is named, every service of either configuration:
    /// first those of the old one, then those that only the new one has.
    ///
    /// A service that one configuration lacks is compared as `other` decides it there. Each file is read once, and stacks with
    /// the same items are not searched again.
    pub fn of(
        alloc: Global,
        sides: &Sides<'_, '_>,
        named: &Texts,
        kind: Option<Kind>,
    ) -> Result<HostChanges, AllocError>
        ensures { IfOk result (AreChanges (sides_view sides.now) named.now kind) }
    {
        let old_rules = RuleFiles::read(alloc, sides.old.files)?;
        let new_rules = RuleFiles::read(alloc, sides.new.files)?;
        let comparer = Comparer {
            alloc,
            sides,
            old_rules: &old_rules,
            new_rules: &new_rules,
        };
        comparer.changes(named, kind)
    }
}

fn service_at(services: &[ComparedService], position: usize) -> &ComparedService
    requires { position < length services.now }
    ensures { slice_get services.now position ≡ Some result.now }
{
    &services[position]
}

impl Comparer<'_, '_> {
    /// What changes for these services.
    fn found(&self, services: &[ComparedService], kind: Option<Kind>) -> Result<Found, AllocError>
        ensures { IfOk result (IsFound (sides_view self.now.sides.now) (map (λ s. (service_text s).name) services.now)
            (stacks_asked 0 (length services.now) kind)) }
    {
        let mut found = Found::nothing(self.alloc);
        for position in 0..services.len() {
            let service = service_at(services, position);
            self.add_service(&mut found, position, &service.name, kind)?;
        }
        Ok(found)
    }

    /// What changes for these services, or for all.
    fn changes(&self, named: &Texts, kind: Option<Kind>) -> Result<HostChanges, AllocError>
        ensures { IfOk result (AreChanges (sides_view self.now.sides.now) named.now kind) }
    {
        let services = compared_services(
            self.alloc,
            self.sides,
            self.old_rules,
            self.new_rules,
            named,
        )?;
        let found = self.found(&services, kind)?;
        Ok(HostChanges {
            services,
            stacks: found.stacks,
            pairs: found.pairs,
        })
    }
}
