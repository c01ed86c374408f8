//! Where the events of a list happen: marks of them at a stack.

ghost use Rattle.std.specs.Prelude.{◌≡◌, ◌∷◌, [], IfOk, map};
ghost use Rattle.std.specs.List.{list_any};
ghost use Rattle.pam_codes.specs.Set.{codes_where, is_in};
ghost use Rattle.pam_policy.specs.rules.Happening.{event_answers};
ghost use Rattle.pam_policy.specs.rules.Site.{site_view};
ghost use Rattle.pam_policy.specs.rules.inner.Marking.{AreMarks, AreMarksOf, groups_of, singles};
ghost use Rattle.pam_policy.specs.text.Events.{event_view};
ghost use Rattle.pam_policy.specs.text.Lists.{events_view};

use crate::rules::part::Part;
use crate::rules::site::Site;
use crate::search::Marks;
use crate::text::{Event, Events};
use pam_codes::CodeSet;
use std::alloc::{AllocError, Global};
use std::slice;

/// One event.
pub(crate) fn only(alloc: Global, marks: Marks) -> Result<Vec<Marks>, AllocError>
    ensures { IfOk result (λ one. one.items ≡ marks ∷ []) }
{
    Ok(vec![in alloc; marks]?)
}

impl Site<'_, '_> {
    /// The answers of the module with this number by which one of these events happens.
    fn answers_of_some(&self, events: &[Event<'_>], is_strict: bool, number: usize) -> CodeSet
        ensures { result
            ≡ codes_where (λ code. list_any (λ event. is_in code (event_answers (site_view self.now) is_strict (event_view event) number)) events.now) }
    {
        let mut codes = CodeSet::empty();
        for event in events {
            codes = codes.union(self.event_answers(event, is_strict, number));
        }
        codes
    }

    /// The event that one of these happens.
    pub(crate) fn marks(&self, events: &[Event<'_>], is_strict: bool) -> Marks
        ensures { AreMarks (site_view self.now) is_strict (map event_view events.now) result }
    {
        let mut marks = Marks::new();
        for index in 0..self.stack.modules() {
            marks.add(
                index + 1,
                self.answers_of_some(events, is_strict, index + 1),
            );
        }
        marks
    }

    /// Each of these events.
    fn marks_of_each(
        &self,
        alloc: Global,
        events: &[Event<'_>],
        is_strict: bool,
    ) -> Result<Vec<Marks>, AllocError>
        ensures { IfOk result (λ marks. AreMarksOf (site_view self.now) is_strict (singles (map event_view events.now)) marks.items) }
    {
        let mut each = Vec::new(alloc);
        for event in events {
            each.push(self.marks(slice::from_ref(event), is_strict))?;
        }
        Ok(each)
    }

    /// What has to happen so that the events of a list do: that one of them does, or several events.
    pub(crate) fn marks_of(&self, alloc: Global, part: &Part<'_>) -> Result<Vec<Marks>, AllocError>
        ensures { IfOk result (λ marks. AreMarksOf (site_view self.now) part.now.is_strict (groups_of (events_view part.now.events.now)) marks.items) }
    {
        match part.events {
            Events::Or(events) => only(alloc, self.marks(events, part.is_strict)),
            Events::And(events) => self.marks_of_each(alloc, events, part.is_strict),
        }
    }
}
