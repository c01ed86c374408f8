//! Keys of places.

ghost use Rattle.std.specs.Prelude.{◌≡◌, IsTrue, List, drop};
ghost use Rattle.pam_dispatch.specs.declared.flat_item.FlatItem.{FlatItem};
ghost use Rattle.pam_dispatch.specs.Flat.{rest_of};
ghost use Rattle.pam_dispatch.specs.inner.ReadLevels.{AreReadLevels};
ghost use Rattle.pam_dispatch.specs.Keys.{key_of, rest_at};
ghost use Rattle.pam_dispatch.specs.Representatives.{AreEqualRests, representative_of};

use crate::entered::{Entered, LISTS};
use crate::place::Place;
use crate::program::Program;
use crate::read_levels::ReadLevels;
use crate::state::State;
use std::hash::{Hash, Hasher};
use std::marker::Model;

/// What the rest of a run from a place depends on: places with one key have the same rest.
#[derive(Debug, Drop)]
pub struct PlaceKey {
    position: usize,
    depth: usize,
    state: State,
    /// Only the states of the open lists belong to the key.
    entered: Entered,
}

impl Model for PlaceKey {
    ghost use Rattle.std.specs.Prelude.{min, take};
    ghost use Rattle.pam_dispatch.specs.declared.entered.TheConstants.{LISTS};
    ghost use Rattle.pam_dispatch.specs.Keys.{KeyValue};

    ghost Value = { KeyValue };

    ghost view = { λ k. record { position = k.position; depth = k.depth; state = k.state; entered = take (min k.depth LISTS) k.entered.states } };
}

impl PlaceKey {
    /// The states in which the open lists were entered, outermost first.
    fn open_states(&self) -> &[State]
        ensures { result.now ≡ self.now.entered }
    {
        &self.entered.states[..self.depth.min(LISTS)]
    }
}

impl PartialEq for PlaceKey {
    ghost use Rattle.pam_dispatch.specs.Hashing.{same_key};
    ghost use Rattle.pam_dispatch.specs.inner.Hashing.{same_key-equivalence};
    ghost use Rattle.std.specs.Cmp.{partial_equiv_from_equiv};

    ghost eq = { same_key };

    ghost laws = { partial_equiv_from_equiv same_key-equivalence };

    fn eq(&self, other: &PlaceKey) -> bool {
        self.position == other.position
            && self.depth == other.depth
            && self.state == other.state
            && self.open_states() == other.open_states()
    }
}

impl Eq for PlaceKey {
    ghost use Rattle.pam_dispatch.specs.inner.Hashing.{same_key-equivalence};

    ghost laws = { same_key-equivalence };
}

/// The depth says nothing more than the number of the states.
impl Hash for PlaceKey {
    ghost use Rattle.pam_dispatch.specs.Hashing.{key_input};
    ghost use Rattle.pam_dispatch.specs.inner.Hashing.{same-key_input};

    ghost hash_input = { key_input };

    ghost respects_eq = { same-key_input };

    fn hash<H: Hasher>(&self, state: &mut H) {
        state.write_usize(self.position);
        self.state.hash(state);
        State::hash_slice(self.open_states(), state);
    }
}

impl Place {
    /// The key of this place.
    pub fn key(&self) -> PlaceKey
        ensures key { result ≡ key_of self.now }
        ensures rest { (program : List FlatItem) → rest_at program result ≡ rest_of program self.now }
    {
        PlaceKey {
            position: self.position,
            depth: usize::from(self.depth),
            state: self.state,
            entered: self.entered,
        }
    }
}

impl Program {
    /// The levels of the lists whose entry states a reset can still read, from `place` on.
    #[inline(always)]
    fn read_levels_at(&self, place: &Place) -> &ReadLevels
        ensures { AreReadLevels (drop place.now.position self.now) result.now }
    {
        let left = self.flat_items.len().saturating_sub(place.position);
        &self.read_levels[left]
    }

    /// The key of the place that represents all those which differ from `place` only in entry states that no reset can still read.
    /// The rest of a run from the places with this key on is equal to that from `place` on.
    pub fn key_at(&self, place: &Place) -> PlaceKey
        ensures key { result ≡ key_of (representative_of self.now place.now) }
        ensures rests { AreEqualRests (rest_at self.now result) (rest_of self.now place.now) }
    {
        let depth = usize::from(place.depth);
        PlaceKey {
            position: place.position,
            depth,
            state: place.state,
            entered: place.entered.at_levels(depth, self.read_levels_at(place)),
        }
    }

    /// Whether `key` is the one that `key_at` gives for `place`.
    #[inline(always)]
    pub(crate) fn is_key_at(&self, key: &PlaceKey, place: &Place) -> bool
        ensures { IsTrue result → key.now ≡ key_of (representative_of self.now place.now) }
    {
        key.position == place.position
            && key.depth == usize::from(place.depth)
            && key.state == place.state
            && key
                .entered
                .are_at_levels(&place.entered, key.depth, self.read_levels_at(place))
    }
}
