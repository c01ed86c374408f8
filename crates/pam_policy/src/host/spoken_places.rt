//! The places of which rules speak, each once.

ghost use Rattle.std.specs.Prelude.{◌≡◌, [], OnOk, fold, length};
ghost use Rattle.pam_policy.specs.host.Places.{with_class};
ghost use Rattle.pam_policy.specs.host.Told.{with_places};

use crate::host::report::RuleReport;
use indexmap::IndexSet;
use std::alloc::{AllocError, Global};
use std::marker::Model;

/// Adds positions to a set.
fn add_each(positions: &mut IndexSet<usize>, more: &[usize]) -> Result<(), AllocError>
    ensures { OnOk result (positions.new.keys ≡ fold with_class positions.old.keys more.now) }
{
    for position in more {
        positions.insert(*position)?;
    }
    Ok(())
}

/// The positions of the places of which some rules speak, each once.
#[derive(Drop)]
pub struct SpokenPlaces {
    places: IndexSet<usize>,
}

/// Seen as the positions, in the order in which they are met.
impl Model for SpokenPlaces {
    ghost use Rattle.std.specs.Prelude.{ℕ, List};

    ghost Value = { List ℕ };

    ghost view = { λ spoken. spoken.places.keys };
}

impl SpokenPlaces {
    /// No place.
    pub fn new(alloc: Global) -> SpokenPlaces
        ensures { result ≡ [] }
    {
        SpokenPlaces {
            places: IndexSet::new(alloc),
        }
    }

    /// Adds the places of which a rule speaks. Takes time linear in these.
    #[tactic(auto, unfolding(crate::specs::host::Told::with_places))]
    pub fn add(&mut self, report: &RuleReport) -> Result<(), AllocError>
        ensures { OnOk result (self.new ≡ with_places self.old report.now) }
    {
        add_each(&mut self.places, &report.places)
    }

    /// How many places they are.
    pub fn count(&self) -> usize
        ensures { result ≡ length self.now }
    {
        self.places.len()
    }
}
