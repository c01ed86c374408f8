//! The nodes found so far.

ghost use Rattle.std.specs.Prelude.{◌≡◌, ◌≢◌, ◌⊎◌, ◌<◌, ◌∷◌, ◌++◌, [], List, ℕ, if◌then◌else◌, IfNone};
ghost use Rattle.std.specs.Prelude.{IfOk, IfSome, IsTrue, None, OnOk, Option, Some, length, slice_get};
ghost use Rattle.pam_dispatch.specs.declared.flat_item.FlatItem.{FlatItem};
ghost use Rattle.pam_dispatch.specs.declared.place.Place.{Place};
ghost use Rattle.pam_dispatch.specs.Flat.{IsPlaceOf, rest_of};
ghost use Rattle.pam_dispatch.specs.Runs.{Assignment, asked_module, state_in};
ghost use Rattle.pam_compare.specs.declared.held.HeldAnswer.{HeldAnswer};
ghost use Rattle.pam_compare.specs.declared.situation.Situation.{Situation};
ghost use Rattle.pam_compare.specs.declared.change.Change.{Change};
ghost use Rattle.pam_compare.specs.Held.{Holds};
ghost use Rattle.pam_compare.specs.inner.Held.{held_in, same_situation};
ghost use Rattle.pam_compare.specs.inner.HeldLists.{same_link};
ghost use Rattle.pam_compare.specs.inner.Ways.{HasOneMore};
ghost use Rattle.pam_dispatch.specs.Keys.{AreDifferent};
ghost use Rattle.std.specs.List.{IsDistinct};
ghost use Rattle.pam_compare.specs.inner.Nodes.{AreAdded, AreEndsOf, AreHeldAt, AreNodes, ArePlaces, IsAt, IsLeftAt};
ghost use Rattle.pam_compare.specs.inner.Nodes.{AreEarlier, IsMet, IsNoted, Keeps, KeepsFound, KeepsNodes, found_at, list_of, stop_of};

use crate::change::Change;
use crate::held::HeldAfter;
use crate::held_lists::HeldLists;
use crate::node::Node;
use crate::situation::Situation;
use indexmap::IndexSet;
use pam_codes::{Code, CodeSet};
use pam_dispatch::{Memory, Place, PlaceTable};
use std::alloc::Global;

/// The last step of the way to a node: the index of the node before it, and the answer, which is one of a class of codes after
/// which both stacks go on alike.
#[derive(Clone, Copy, Debug)]
pub(crate) struct Way {
    pub(crate) parent: usize,
    pub(crate) name: usize,
    pub(crate) code: Code,
    pub(crate) class: CodeSet,
}

/// Places of one program, each found again by its key.
#[derive(Drop)]
pub(crate) struct Places {
    pub(crate) places: Vec<Place>,
    pub(crate) keys: PlaceTable,
    /// The indices of the places at the end of a run. In each state there is one.
    pub(crate) ends: Vec<usize>,
}

/// The situations found so far, and the way on which each was found first.
#[derive(Drop)]
pub(crate) struct Nodes {
    pub(crate) old_places: Places,
    pub(crate) new_places: Places,
    pub(crate) held_lists: HeldLists,
    pub(crate) situations: IndexSet<Situation>,
    pub(crate) ways: Vec<Way>,
}

/// For each change, the index of the first node at which both runs end with it.
#[derive(Clone, Copy, Debug)]
pub(crate) struct Found {
    pub(crate) admits: Option<usize>,
    pub(crate) refuses: Option<usize>,
    pub(crate) tells: Option<usize>,
}

/// Adds a place at the end.
fn push_place(places: &mut Vec<Place>, place: &Place) -> Result<(), Memory>
    ensures { OnOk result (places.new.items ≡ places.old.items ++ place.now ∷ []) }
{
    match places.extend_from_slice(&[*place]) {
        Ok(()) => Ok(()),
        Err(_) => Err(Memory),
    }
}

/// Adds an index at the end, if it is that of a place at the end of a run.
fn push_end(ends: &mut Vec<usize>, is_end: bool, index: usize) -> Result<(), Memory>
    ensures { OnOk result (ends.new.items ≡ (if is_end then ends.old.items ++ index ∷ [] else ends.old.items)) }
{
    if is_end {
        ends.push(index)?;
    }
    Ok(())
}

impl Places {
    fn new(alloc: Global) -> Places
        ensures places { (program : List FlatItem) → ArePlaces program result.places.items result.keys }
        ensures ends { (program : List FlatItem) → AreEndsOf program result.places.items result.ends.items }
    {
        Places {
            places: Vec::new(alloc),
            keys: PlaceTable::new(alloc),
            ends: Vec::new(alloc),
        }
    }

    /// Whether the place with this index is in the same state as `place`.
    fn is_in_state_of(&self, index: usize, place: &Place) -> bool
        ensures same { (program : List FlatItem) (p : Place) → slice_get self.now.places.items index ≡ Some p → IsPlaceOf program p
            → IsPlaceOf program place.now → IsTrue result → state_in (rest_of program p) ≡ state_in (rest_of program place.now) }
        ensures exact { (program : List FlatItem) (p : Place) → slice_get self.now.places.items index ≡ Some p → IsPlaceOf program p
            → IsPlaceOf program place.now → state_in (rest_of program p) ≡ state_in (rest_of program place.now) → IsTrue result }
    {
        index < self.places.len() && self.places[index].state() == place.state()
    }

    /// The index of a place at the end of a run that is in the same state as `place`.
    fn end_like(&self, place: &Place) -> Option<usize>
        ensures found { (program : List FlatItem) → ArePlaces program self.now.places.items self.now.keys
            → AreEndsOf program self.now.places.items self.now.ends.items → IsPlaceOf program place.now → asked_module (rest_of program place.now) ≡ None
            → IfSome result (λ k. (p : Place) × (slice_get self.now.places.items k ≡ Some p) × (rest_of program p ≡ rest_of program place.now)) }
        ensures none { (program : List FlatItem) → ArePlaces program self.now.places.items self.now.keys
            → AreEndsOf program self.now.places.items self.now.ends.items → IsPlaceOf program place.now
            → IfNone result ((k : ℕ) (p : Place) → slice_get self.now.places.items k ≡ Some p → asked_module (rest_of program p) ≡ None
            → rest_of program p ≢ rest_of program place.now) }
    {
        for index in 0..self.ends.len() {
            let end = self.ends[index];
            if self.is_in_state_of(end, place) {
                return Some(end);
            }
        }
        None
    }

    /// The index of a place from which the run goes on as from `place`, which is added if there is none. At the end of a run the
    /// state alone counts.
    pub(crate) fn index_of(&mut self, place: &Place) -> Result<usize, Memory>
        ensures keeps { OnOk result (Keeps self.old.places.items self.new.places.items) }
        ensures places { (program : List FlatItem) → ArePlaces program self.old.places.items self.old.keys → IsPlaceOf program place.now
            → OnOk result (ArePlaces program self.new.places.items self.new.keys) }
        ensures ends { (program : List FlatItem) → ArePlaces program self.old.places.items self.old.keys
            → AreEndsOf program self.old.places.items self.old.ends.items → IsPlaceOf program place.now
            → OnOk result (AreEndsOf program self.new.places.items self.new.ends.items) }
        ensures found { (program : List FlatItem) → ArePlaces program self.old.places.items self.old.keys
            → AreEndsOf program self.old.places.items self.old.ends.items → IsPlaceOf program place.now
            → IfOk result (λ k. (p : Place) × (slice_get self.new.places.items k ≡ Some p) × (rest_of program p ≡ rest_of program place.now)) }
    {
        let key = place.key();
        if let Some(index) = self.keys.find(&key) {
            return Ok(index);
        }
        let is_end = place.module().is_none();
        if is_end {
            if let Some(index) = self.end_like(place) {
                return Ok(index);
            }
        }
        let index = self.keys.len();
        self.keys.push(key)?;
        push_place(&mut self.places, place)?;
        push_end(&mut self.ends, is_end, index)?;
        Ok(index)
    }

    /// The place with this index.
    fn at(&self, index: usize) -> Place
        requires { index < length self.now.places.items }
        ensures { slice_get self.now.places.items index ≡ Some result }
    {
        self.places[index]
    }
}

impl Nodes {
    pub(crate) fn new(alloc: Global) -> Nodes
        ensures nodes { (old new : List FlatItem) → AreNodes old new result }
        ensures none { length result.situations.keys ≡ 0 }
        ensures ways { length result.ways.items ≡ 0 }
    {
        Nodes {
            old_places: Places::new(alloc),
            new_places: Places::new(alloc),
            held_lists: HeldLists::new(alloc),
            situations: IndexSet::new(alloc),
            ways: Vec::new(alloc),
        }
    }

    /// The number of situations, which are all different.
    pub(crate) fn len(&self) -> usize
        ensures count { result ≡ length self.now.situations.keys }
        ensures different { IsDistinct same_situation self.now.situations.keys }
        ensures old_places { AreDifferent self.now.old_places.keys }
        ensures new_places { AreDifferent self.now.new_places.keys }
        ensures held_lists { IsDistinct same_link self.now.held_lists.links.keys }
    {
        // A table says with its length that its places, or its links, differ.
        let _old = self.old_places.keys.len();
        let _new = self.new_places.keys.len();
        let _lists = self.held_lists.len();
        self.situations.len()
    }

    /// Adds a situation, unless it is there. Returns its index.
    fn add_situation(&mut self, situation: Situation, way: Way) -> Result<usize, Memory>
        ensures places { OnOk result ((self.new.old_places ≡ self.old.old_places) × (self.new.new_places ≡ self.old.new_places)) }
        ensures lists { OnOk result (self.new.held_lists ≡ self.old.held_lists) }
        ensures keeps { OnOk result (Keeps self.old.situations.keys self.new.situations.keys) }
        ensures ways { OnOk result (Keeps self.old.ways.items self.new.ways.items) }
        ensures more { OnOk result (HasOneMore self.old.ways.items self.new.ways.items way) }
        ensures count { length self.old.ways.items ≡ length self.old.situations.keys
            → OnOk result (length self.new.ways.items ≡ length self.new.situations.keys) }
        ensures added { OnOk result ((k : ℕ) (s : Situation) → slice_get self.new.situations.keys k ≡ Some s
            → (slice_get self.old.situations.keys k ≡ Some s)
            ⊎ (s ≡ situation) × (k ≡ length self.old.situations.keys) × (self.new.ways.items ≡ self.old.ways.items ++ way ∷ [])) }
        ensures found { IfOk result (λ k. (s : Situation) × (slice_get self.new.situations.keys k ≡ Some s) × (s ≡ situation)) }
    {
        let (index, is_new) = self.situations.insert_full(situation)?;
        if is_new {
            self.ways.push(way)?;
        }
        Ok(index)
    }

    /// The number of the list of answers that are held at a situation; 0 if there is none with this index.
    fn list_at(&self, index: usize) -> usize
        ensures { result ≡ list_of (slice_get self.now.situations.keys index) }
    {
        match self.situations.get_index(index) {
            Some(situation) => situation.held,
            None => 0,
        }
    }

    /// The situation with these places and what is held there after the one before it on the way. Stores them, unless they are there.
    fn situation_of(
        &mut self,
        old_place: &Place,
        new_place: &Place,
        after: &HeldAfter,
        parent: usize,
    ) -> Result<Situation, Memory>
        ensures situations { OnOk result (self.new.situations ≡ self.old.situations) }
        ensures ways { OnOk result (self.new.ways ≡ self.old.ways) }
        ensures keeps { OnOk result (KeepsNodes self.old self.new) }
        ensures nodes { (old new : List FlatItem) (held : List HeldAnswer) → AreNodes old new self.old → AreHeldAt self.old parent held
            → IsPlaceOf old old_place.now → IsPlaceOf new new_place.now → OnOk result (AreNodes old new self.new) }
        ensures at { (old new : List FlatItem) (held : List HeldAnswer) → AreNodes old new self.old → AreHeldAt self.old parent held
            → IsPlaceOf old old_place.now → IsPlaceOf new new_place.now
            → IfOk result (IsLeftAt old new self.new (rest_of old old_place.now) (rest_of new new_place.now) (held_in after.now held)) }
    {
        let old = self.old_places.index_of(old_place)?;
        let new = self.new_places.index_of(new_place)?;
        let before = self.list_at(parent);
        let held = self.held_lists.number_after(before, after)?;
        Ok(Situation { old, new, held })
    }

    /// Adds the situation with these places and what is held there after the one before it on the way, unless it is there.
    pub(crate) fn add(
        &mut self,
        old_place: &Place,
        new_place: &Place,
        after: &HeldAfter,
        way: Way,
    ) -> Result<(), Memory>
        ensures keeps { OnOk result (KeepsNodes self.old self.new) }
        ensures nodes { (old new : List FlatItem) (held : List HeldAnswer) → AreNodes old new self.old → AreHeldAt self.old way.parent held
            → IsPlaceOf old old_place.now → IsPlaceOf new new_place.now → OnOk result (AreNodes old new self.new) }
        ensures more { OnOk result (HasOneMore self.old.ways.items self.new.ways.items way) }
        ensures count { length self.old.ways.items ≡ length self.old.situations.keys
            → OnOk result (length self.new.ways.items ≡ length self.new.situations.keys) }
        ensures added { (old new : List FlatItem) (held : List HeldAnswer) → AreNodes old new self.old → AreHeldAt self.old way.parent held
            → IsPlaceOf old old_place.now → IsPlaceOf new new_place.now
            → OnOk result (AreAdded old new self.old self.new (rest_of old old_place.now) (rest_of new new_place.now) (held_in after.now held) way) }
        ensures met { (old new : List FlatItem) (held : List HeldAnswer) (a : Assignment) → AreNodes old new self.old
            → AreHeldAt self.old way.parent held → IsPlaceOf old old_place.now → IsPlaceOf new new_place.now
            → ((name : ℕ) → a name < 31) → Holds a (held_in after.now held)
            → OnOk result (IsMet old new self.new a (rest_of old old_place.now) (rest_of new new_place.now)) }
    {
        let situation = self.situation_of(old_place, new_place, after, way.parent)?;
        self.add_situation(situation, way)?;
        Ok(())
    }

    /// The node at `index`.
    pub(crate) fn node_at(&self, alloc: Global, index: usize) -> Result<Node, Memory>
        requires within { index < length self.now.situations.keys }
        requires nodes { (old new : List FlatItem) × AreNodes old new self.now }
        ensures { IfOk result (λ n. (s : Situation) × (slice_get self.now.situations.keys index ≡ Some s) × IsAt self.now s (stop_of n)) }
    {
        let Some(situation) = self.situations.get_index(index) else {
            unreachable!()
        };
        let held = self.held_lists.answers(alloc, situation.held)?;
        Ok(Node {
            old: self.old_places.at(situation.old),
            new: self.new_places.at(situation.new),
            held,
        })
    }
}

impl Found {
    /// Nothing.
    pub(crate) fn new() -> Found
        ensures { (change : Change) → found_at result change ≡ None }
    {
        Found {
            admits: None,
            refuses: None,
            tells: None,
        }
    }

    /// Notes the node at `index` for a change, unless one is noted or there is no change.
    pub(crate) fn note(&mut self, change: Option<Change>, index: usize)
        requires { AreEarlier self.old index }
        ensures noted { IsNoted self.new index change }
        ensures keeps { KeepsFound self.old self.new }
        ensures ends { (c : Change) (k : ℕ) → found_at self.new c ≡ Some k → (found_at self.old c ≡ Some k) ⊎ ((change ≡ Some c) × (k ≡ index)) }
    {
        match change {
            None => {}
            Some(Change::Admits) => {
                if self.admits.is_none() {
                    self.admits = Some(index);
                }
            }
            Some(Change::Refuses) => {
                if self.refuses.is_none() {
                    self.refuses = Some(index);
                }
            }
            Some(Change::Tells) => {
                if self.tells.is_none() {
                    self.tells = Some(index);
                }
            }
        }
    }
}
