//! Places that are found again.

ghost use Rattle.std.specs.Prelude.{◌≡◌, ◌∷◌, ◌++◌, [], IfNone, IfSome, IsTrue, List, OnErr, OnOk, Some, length, slice_get};
ghost use Rattle.pam_dispatch.specs.Flat.{rest_of};
ghost use Rattle.pam_dispatch.specs.Keys.{AreDifferent, DiffersFrom, key_of, rest_at};
ghost use Rattle.pam_dispatch.specs.Representatives.{AreEqualRests, representative_of};

use crate::error::Memory;
use crate::key::PlaceKey;
use crate::place::Place;
use crate::program::Program;
use indexmap::IndexSet;
use std::alloc::Global;
use std::marker::Model;

/// Places of a run, in the order in which they were added, each found again by its key.
#[derive(Drop)]
pub struct PlaceTable {
    keys: IndexSet<PlaceKey>,
}

impl Model for PlaceTable {
    ghost use Rattle.std.specs.Prelude.{List};
    ghost use Rattle.pam_dispatch.specs.Keys.{KeyValue};

    ghost Value = { List KeyValue };

    ghost view = { λ p. p.keys.keys };
}

impl PlaceTable {
    /// No places.
    pub fn new(alloc: Global) -> PlaceTable
        ensures { result ≡ [] }
    {
        PlaceTable {
            keys: IndexSet::new(alloc),
        }
    }

    /// The number of places.
    pub fn len(&self) -> usize
        ensures count { result ≡ length self.now }
        ensures different { AreDifferent self.now }
    {
        self.keys.len()
    }

    /// The index of the place with this key.
    pub fn find(&self, key: &PlaceKey) -> Option<usize>
        ensures found { IfSome result (λ index. slice_get self.now index ≡ Some key.now) }
        ensures none { IfNone result (DiffersFrom key.now self.now) }
    {
        self.keys.get_index_of(key)
    }

    /// Whether the place with this index represents `place`.
    #[inline(always)]
    fn has_at(&self, program: &Program, place: &Place, index: usize) -> bool
        ensures { IsTrue result → slice_get self.now index ≡ Some (key_of (representative_of program.now place.now)) }
    {
        match self.keys.get_index(index) {
            Some(key) => program.is_key_at(key, place),
            None => false,
        }
    }

    /// The index of the place that represents `place`, as `Program::key_at` says. It is found at once if it is `guess`.
    pub fn find_at(&self, program: &Program, place: &Place, guess: usize) -> Option<usize>
        ensures found { IfSome result (λ index. slice_get self.now index ≡ Some (key_of (representative_of program.now place.now))) }
        ensures none { IfNone result (DiffersFrom (key_of (representative_of program.now place.now)) self.now) }
        ensures rests { AreEqualRests (rest_at program.now (key_of (representative_of program.now place.now))) (rest_of program.now place.now) }
    {
        if self.has_at(program, place, guess) {
            return Some(guess);
        }
        self.find(&program.key_at(place))
    }

    /// Adds a place by its key. Returns `Memory` if allocation fails.
    pub fn push(&mut self, key: PlaceKey) -> Result<(), Memory>
        requires { DiffersFrom key self.old }
        ensures added { OnOk result (self.new ≡ self.old ++ key ∷ []) }
        ensures unchanged { OnErr result (self.new ≡ self.old) }
    {
        self.keys.insert(key)?;
        Ok(())
    }
}
