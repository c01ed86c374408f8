//! The places of which a rule speaks, and their classes.

ghost use Rattle.std.specs.Prelude.{◌≡◌, ◌++◌, ◌∷◌, [], IfOk, OnOk, if◌then◌else◌, map};
ghost use Rattle.pam_policy.specs.host.Places.{place_view, speaks_of, spoken_classes, spoken_positions, with_class};
ghost use Rattle.pam_policy.specs.text.Rules.{rule_view};

use crate::host::place::{Place, speaks_of};
use crate::text::Rule;
use indexmap::IndexSet;
use std::alloc::{AllocError, Global};

/// The places of which a rule speaks.
#[derive(Drop)]
pub(crate) struct Spoken {
    /// Their positions among all places.
    pub(crate) places: Vec<usize>,
    /// Their classes, in the order of their first places.
    pub(crate) classes: IndexSet<usize>,
}

impl Spoken {
    /// Adds the place at a position, if a rule speaks of it.
    fn add(&mut self, rule: &Rule<'_>, position: usize, place: &Place<'_>) -> Result<(), AllocError>
        ensures places { OnOk result (self.new.places.items
            ≡ (if speaks_of (rule_view rule.now) (place_view place.now) then self.old.places.items ++ position ∷ [] else self.old.places.items)) }
        ensures classes { OnOk result (self.new.classes.keys
            ≡ (if speaks_of (rule_view rule.now) (place_view place.now) then with_class self.old.classes.keys place.now.class else self.old.classes.keys)) }
    {
        if speaks_of(rule, place) {
            self.places.push(position)?;
            self.classes.insert(place.class)?;
        }
        Ok(())
    }

    pub(crate) fn of(
        alloc: Global,
        places: &[Place<'_>],
        rule: &Rule<'_>,
    ) -> Result<Spoken, AllocError>
        ensures places { IfOk result (λ spoken. spoken.places.items ≡ spoken_positions (rule_view rule.now) (map place_view places.now)) }
        ensures classes { IfOk result (λ spoken. spoken.classes.keys ≡ spoken_classes (rule_view rule.now) (map place_view places.now)) }
    {
        let mut spoken = Spoken {
            places: Vec::new(alloc),
            classes: IndexSet::new(alloc),
        };
        for (position, place) in places.iter().enumerate() {
            spoken.add(rule, position, place)?;
        }
        Ok(spoken)
    }
}
