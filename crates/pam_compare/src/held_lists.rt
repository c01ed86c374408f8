//! Lists of held answers, each stored once: a list is its last answer and the list before it.

ghost use Rattle.std.specs.Prelude.{◌≡◌, ◌<◌, ◌≤◌, ◌+◌, ◌-◌, ◌^◌, ◌∷◌, ◌++◌, List, IfOk, OnOk, Some, drop, length, slice_get};
ghost use Rattle.std.specs.List.{IsDistinct};
ghost use Rattle.pam_compare.specs.declared.held.HeldAnswer.{HeldAnswer};
ghost use Rattle.pam_compare.specs.inner.Held.{held_in};
ghost use Rattle.pam_compare.specs.inner.HeldLists.{AreLinks, IsListed, same_link};
ghost use Rattle.pam_compare.specs.inner.Nodes.{Keeps};

use crate::held::{HeldAfter, HeldAnswer, with_room};
use indexmap::IndexSet;
use pam_dispatch::Memory;
use std::alloc::Global;

/// Room at first for the answers of a list that is not empty. More are rarely held, and room that grows costs more than room that
/// stays empty.
const ROOM: usize = 256;

/// The number of answers for which there is room at first where those of the list with this number are listed.
fn room_for(number: usize) -> usize {
    if number == 0 { 0 } else { ROOM }
}

/// The last answer of a list, and the number of the list before it.
#[derive(Clone, Copy, Debug, PartialEq, Eq, Hash)]
pub(crate) struct Link {
    pub(crate) before: usize,
    pub(crate) answer: HeldAnswer,
}

/// Lists of held answers, by their numbers. List 0 is empty, and each other list has the link whose index is one less.
#[derive(Drop)]
pub(crate) struct HeldLists {
    pub(crate) links: IndexSet<Link>,
}

impl HeldLists {
    pub(crate) fn new(alloc: Global) -> HeldLists
        ensures { AreLinks result.links.keys }
    {
        HeldLists {
            links: IndexSet::new(alloc),
        }
    }

    /// The number of links, which are all different.
    pub(crate) fn len(&self) -> usize
        ensures count { result ≡ length self.now.links.keys }
        ensures small { result < 2 ^ 63 }
        ensures different { IsDistinct same_link self.now.links.keys }
    {
        self.links.len()
    }

    /// The number of the list with `answer` after the list `before`.
    fn with(&mut self, before: usize, answer: HeldAnswer) -> Result<usize, Memory>
        ensures keeps { OnOk result (Keeps self.old.links.keys self.new.links.keys) }
        ensures links { AreLinks self.old.links.keys → before ≤ length self.old.links.keys → OnOk result (AreLinks self.new.links.keys) }
        ensures listed { (held : List HeldAnswer) → AreLinks self.old.links.keys → IsListed self.old.links.keys before held
            → IfOk result (λ number. IsListed self.new.links.keys number (answer ∷ held)) }
    {
        // A set says with its least code that it is one of codes.
        let _least = answer.codes.least();
        let (index, _) = self.links.insert_full(Link { before, answer })?;
        let _len = self.len();
        Ok(index + 1)
    }

    /// The number of the list that is held after an answer, where the list `before` was held before it.
    pub(crate) fn number_after(&mut self, before: usize, after: &HeldAfter) -> Result<usize, Memory>
        ensures keeps { OnOk result (Keeps self.old.links.keys self.new.links.keys) }
        ensures links { (held : List HeldAnswer) → AreLinks self.old.links.keys → IsListed self.old.links.keys before held
            → OnOk result (AreLinks self.new.links.keys) }
        ensures listed { (held : List HeldAnswer) → AreLinks self.old.links.keys → IsListed self.old.links.keys before held
            → IfOk result (λ number. IsListed self.new.links.keys number (held_in after.now held)) }
    {
        let kept = self.without_last(before, after.start);
        self.extended(kept, &after.latest)
    }

    /// The number of a list that goes on from the list `before` with these answers, of which the last comes first.
    fn extended(&mut self, before: usize, latest: &[HeldAnswer]) -> Result<usize, Memory>
        ensures keeps { OnOk result (Keeps self.old.links.keys self.new.links.keys) }
        ensures links { (held : List HeldAnswer) → AreLinks self.old.links.keys → IsListed self.old.links.keys before held
            → OnOk result (AreLinks self.new.links.keys) }
        ensures listed { (held : List HeldAnswer) → AreLinks self.old.links.keys → IsListed self.old.links.keys before held
            → IfOk result (λ number. IsListed self.new.links.keys number (latest.now ++ held)) }
    {
        let mut number = before;
        for back in 0..latest.len() {
            let index = latest.len() - 1 - back;
            number = self.with(number, latest[index])?;
        }
        Ok(number)
    }

    /// The number of the list before the last `count` answers of a list.
    fn without_last(&self, number: usize, count: usize) -> usize
        ensures { (held : List HeldAnswer) → IsListed self.now.links.keys number held → IsListed self.now.links.keys result (drop count held) }
    {
        let mut at = number;
        let mut left = count;
        while left > 0 {
            at = self.rest(at);
            left -= 1;
        }
        at
    }

    /// The number of the list before the last answer of a list; 0 if there is none.
    fn rest(&self, number: usize) -> usize
        ensures { (held : List HeldAnswer) → IsListed self.now.links.keys number held → IsListed self.now.links.keys result (drop 1 held) }
    {
        if number == 0 {
            return 0;
        }
        match self.links.get_index(number - 1) {
            Some(link) => link.before,
            None => 0,
        }
    }

    /// The link of a list that is not empty.
    fn last(&self, number: usize) -> Link
        requires some { 0 < number }
        requires within { number - 1 < length self.now.links.keys }
        ensures { slice_get self.now.links.keys (number - 1) ≡ Some result }
    {
        let Some(link) = self.links.get_index(number - 1) else {
            unreachable!()
        };
        *link
    }

    /// The answers of a list, the last one first.
    pub(crate) fn answers(&self, alloc: Global, number: usize) -> Result<Vec<HeldAnswer>, Memory>
        requires { (held : List HeldAnswer) × IsListed self.now.links.keys number held }
        ensures { IfOk result (λ held. IsListed self.now.links.keys number held.items) }
    {
        let mut held = with_room(alloc, room_for(number))?;
        let mut at = number;
        while at > 0 {
            let link = self.last(at);
            at = link.before;
            held.push(link.answer)?;
        }
        Ok(held)
    }
}
