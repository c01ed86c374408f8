//! A list in an array.

ghost use Rattle.std.specs.Prelude.{◌≡◌, ◌+◌, ◌-◌, ◌<◌, ◌≤◌, ◌==◌, ◌++◌, ◌∷◌, [], if◌then◌else◌, length, slice_set, take, true};
ghost use Rattle.pam_conf.specs.declared.stack.TheConstants.{MAX_MODULES};

use pam_dispatch::MAX_MODULES;
use std::marker::Model;

/// A list of at most as many elements as a stack can have modules. Elements that are cut off stay in the array, where
/// later ones are written over them: nothing is written when the list becomes shorter.
#[derive(Drop)]
pub(crate) struct BoundedList<T> {
    pub(crate) cells: [T; MAX_MODULES],
    pub(crate) count: usize,
}

impl<T> Model for BoundedList<T> {
    ghost use Rattle.std.specs.Prelude.{◌≡◌, ◌≤◌, length, take};
    ghost use Rattle.arrayvec.specs.ArrayVec.{ArrayVec as Items, array_vec_code};
    ghost use Rattle.pam_conf.specs.declared.stack.TheConstants.{MAX_MODULES};

    ghost Value = { Items T };

    ghost coded = { array_vec_code T.code };

    ghost view = { λ r. record { items = take r.count r.cells } };

    ghost invariant = { λ r. (r.count ≤ MAX_MODULES) × (length r.cells ≡ MAX_MODULES) };
}

impl<T: Copy + Default> BoundedList<T> {
    pub(crate) fn new() -> BoundedList<T>
        ensures { result.items ≡ [] }
    {
        BoundedList {
            cells: [T::default(); MAX_MODULES],
            count: 0,
        }
    }
}

impl<T: Copy> BoundedList<T> {
    #[inline]
    pub(crate) fn len(&self) -> usize
        ensures value { result ≡ length self.now.items }
        ensures fits { result ≤ MAX_MODULES }
    {
        self.count
    }

    #[inline]
    pub(crate) fn is_empty(&self) -> bool
        ensures { result ≡ (length self.now.items == 0) }
    {
        self.count == 0
    }

    #[inline]
    pub(crate) fn as_slice(&self) -> &[T]
        ensures value { result.now ≡ self.now.items }
        ensures fits { length result.now ≤ MAX_MODULES }
    {
        &self.cells[..self.count]
    }

    /// Keeps the first `count` elements.
    #[inline]
    pub(crate) fn truncate(&mut self, count: usize)
        ensures items { self.new.items ≡ take count self.old.items }
        ensures len { length self.new.items + (length self.old.items - count) ≡ length self.old.items }
    {
        self.count = self.count.min(count);
    }

    #[inline]
    pub(crate) fn push(&mut self, element: T)
        requires { length self.old.items < MAX_MODULES }
        ensures items { self.new.items ≡ self.old.items ++ element ∷ [] }
        ensures len { length self.new.items ≡ length self.old.items + 1 }
    {
        self.cells[self.count] = element;
        self.count += 1;
    }

    /// Pushes `element` if `wanted`.
    pub(crate) fn push_if(&mut self, wanted: bool, element: T)
        requires { wanted ≡ true → length self.old.items < MAX_MODULES }
        ensures { self.new.items ≡ (if wanted then self.old.items ++ element ∷ [] else self.old.items) }
    {
        if wanted {
            self.push(element);
        }
    }

    #[inline]
    pub(crate) fn set(&mut self, index: usize, element: T)
        requires { index < length self.old.items }
        ensures items { self.new.items ≡ slice_set self.old.items index element }
        ensures len { length self.new.items ≡ length self.old.items }
    {
        let cells = &mut self.cells[..];
        cells[index] = element;
    }

    /// Appends all of `elements`.
    #[inline]
    pub(crate) fn extend(&mut self, elements: &[T])
        requires { length self.old.items + length elements.now ≤ MAX_MODULES }
        ensures { self.new.items ≡ self.old.items ++ elements.now }
    {
        let count = self.count + elements.len();
        let cells = &mut self.cells[..];
        cells[self.count..count].copy_from_slice(elements);
        self.count = count;
    }
}
