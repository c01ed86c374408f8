//! The texts of steps at which the answers no longer matter.

ghost use Rattle.std.specs.List.{concat, flat_map};
ghost use Rattle.std.specs.Prelude.{◌≡◌, ◌+◌, ◌-◌, ◌≤◌, ◌∷◌, ◌++◌, [], if◌then◌else◌, length, codes, decimal, map, IfOk, IfSome, IsTrue};
ghost use Rattle.pam_page.specs.inner.TailTexts.{steps_to};
ghost use Rattle.pam_page.specs.inner.KeptSteps.{code_text};
ghost use Rattle.pam_page.specs.Page.{step_text};
ghost use Rattle.pam_paths.specs.Steps.{step_seen};
ghost use Rattle.pam_paths.specs.Tail.{IsTail, tail_from};

use crate::buffer::Buffer;
use itoa::Buffer as Digits;
use pam_dispatch::MAX_MODULES;
use pam_paths::PathStep;
use std::alloc::{AllocError, Global};
use std::marker::Model;

/// `.0`, the text of success, which is the least code of a class of all codes.
const CODE: &[u8] = b".0";

/// The text of a class of all codes.
const ANY: &[u8] = b"any";

/// The greatest length of ` NUMBER=any`, in bytes.
const STEP_BYTES: usize = 8;

/// As many bytes as are copied at once for ` NUMBER=`, which has no more.
const NUMBER_BYTES: usize = 8;

/// The texts of steps that have every code, for the modules 1, 2 and so on.
#[derive(Drop)]
pub(crate) struct TailTexts {
    /// `.0` for each module.
    cursor: Buffer,
    /// ` NUMBER=any` for each module.
    steps: Buffer,
    /// The end of the text of each module in `steps`.
    ends: Vec<usize>,
}

/// Seen as the number of modules.
impl Model for TailTexts {
    ghost use Rattle.std.specs.Prelude.{ℕ, length};
    ghost use Rattle.pam_page.specs.inner.TailTexts.{AreTailTexts};

    ghost Value = { ℕ };

    ghost view = { λ t. length t.ends.items };

    ghost invariant = { λ t. AreTailTexts t.ends.items t.cursor t.steps };
}

impl TailTexts {
    /// Returns no texts, with room for those of each module. Fails if an allocation does.
    pub(crate) fn new(alloc: Global) -> Result<TailTexts, AllocError>
        ensures { IfOk result (λ texts. texts ≡ 0) }
    {
        Ok(TailTexts {
            cursor: Buffer::with_capacity(alloc, CODE.len() * MAX_MODULES)?,
            steps: Buffer::with_capacity(alloc, STEP_BYTES * MAX_MODULES)?,
            ends: Vec::with_capacity(alloc, MAX_MODULES)?,
        })
    }

    /// Appends the texts of the next module. Returns whether there was room; if not, no texts are left.
    fn push(&mut self) -> bool
        ensures { self.new ≡ (if result then self.old + 1 else 0) }
    {
        let number = self.ends.len() + 1;
        if self.cursor.append(CODE)
            && append_number(&mut self.steps, number)
            && self.steps.append(ANY)
            && push_end(&mut self.ends, self.steps.len())
        {
            return true;
        }
        self.ends.clear();
        self.cursor.truncate(0);
        self.steps.truncate(0);
        false
    }

    /// Appends texts until there are those of `count` modules. Returns whether there was room.
    #[inline]
    pub(crate) fn reach(&mut self, count: usize) -> bool
        ensures { IsTrue result → count ≤ self.new }
    {
        self.ends.len() >= count || self.push_up_to(count)
    }

    /// Does the work of `reach`. Apart from it, the test there is inlined.
    #[cold]
    #[inline(never)]
    fn push_up_to(&mut self, count: usize) -> bool
        ensures { IsTrue result → count ≤ self.new }
    {
        while self.ends.len() < count {
            if !self.push() {
                return false;
            }
        }
        true
    }

    /// `.0` for `count` modules.
    pub(crate) fn codes(&self, count: usize) -> &[u8]
        requires { count ≤ self.now }
        ensures { result.now ≡ flat_map code_text (tail_from 1 count) }
    {
        &self.cursor.as_slice()[..CODE.len() * count]
    }

    /// The end of the texts of the first `count` modules in `steps`.
    fn end(&self, count: usize) -> usize
        requires { count ≤ self.now }
        ensures end { result ≡ length (steps_to count) }
        ensures within { result ≤ length (steps_to self.now) }
    {
        match count.checked_sub(1) {
            Some(index) => self.ends[index],
            None => 0,
        }
    }

    /// ` NUMBER=any` for the modules after the first `before`, up to the module `last`.
    pub(crate) fn steps(&self, before: usize, last: usize) -> &[u8]
        requires order { before ≤ last }
        requires within { last ≤ self.now }
        ensures { result.now ≡ flat_map step_text (tail_from (before + 1) (last - before)) }
    {
        let (start, end) = (self.end(before), self.end(last));
        &self.steps.as_slice()[start..end]
    }

    /// Appends ` NUMBER=` for a module to `steps`. Returns whether there was room.
    #[inline]
    pub(crate) fn append_number_to(&self, steps: &mut Buffer, number: usize) -> bool
        requires first { 1 ≤ number }
        requires within { number ≤ self.now }
        ensures { steps.new ≡ (if result then steps.old ++ concat (codes " " ∷ decimal number ∷ codes "=" ∷ []) else steps.old) }
    {
        let (start, end) = (self.end(number - 1), self.end(number) - ANY.len());
        steps.append_part::<NUMBER_BYTES>(&self.steps, start, end)
    }

    /// Appends texts until each module of `tail`, the last steps of a path, has one. Returns the number of modules
    /// before them and the number of the last one; `None` if there is no room for all texts.
    pub(crate) fn reach_tail(&mut self, tail: &[PathStep]) -> Option<(usize, usize)>
        requires { IsTail (map step_seen tail.now) }
        ensures within { IfSome result (λ range. range.1 ≤ self.new) }
        ensures count { IfSome result (λ range. range.1 ≡ range.0 + length tail.now) }
        ensures tail { IfSome result (λ range. map step_seen tail.now ≡ tail_from (range.0 + 1) (length tail.now)) }
    {
        let Some(first) = tail.first() else {
            return Some((0, 0));
        };
        let Some(before) = first.number().checked_sub(1) else {
            return None;
        };
        let Some(last) = before.checked_add(tail.len()) else {
            return None;
        };
        if !self.reach(last) {
            return None;
        }
        Some((before, last))
    }
}

/// Appends ` NUMBER=`. Returns whether there was room.
fn append_number(steps: &mut Buffer, number: usize) -> bool
    ensures { IsTrue result → steps.new ≡ steps.old ++ concat (codes " " ∷ decimal number ∷ codes "=" ∷ []) }
{
    let mut digits = Digits::new();
    if !steps.append(b" ") || !steps.append(digits.format(number).as_bytes()) {
        return false;
    }
    steps.append(b"=")
}

/// Appends an end if there is room. Returns whether there was.
fn push_end(ends: &mut Vec<usize>, end: usize) -> bool
    ensures { ends.new.items ≡ (if result then ends.old.items ++ end ∷ [] else ends.old.items) }
{
    ends.len() < ends.capacity() && ends.push(end).is_ok()
}
