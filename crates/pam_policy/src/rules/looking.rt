//! The first run in which a stack ends in some way, with some events and without others.

ghost use Rattle.std.specs.Prelude.{◌≡◌, IfErr, IfOk, map, option_map};
ghost use Rattle.pam_paths.specs.Known.{may_answer};
ghost use Rattle.pam_policy.specs.rules.Site.{site_view};
ghost use Rattle.pam_policy.specs.rules.inner.Aims.{aim_view};
ghost use Rattle.pam_policy.specs.rules.inner.Choosing.{SaysFirst};
ghost use Rattle.pam_policy.specs.rules.inner.Looking.{AreBarred, AreWanted, IsLate, IsMet, IsReasonFor, IsTogether};
ghost use Rattle.pam_policy.specs.rules.inner.Marking.{AreMarksOf, groups_of, part_view};
ghost use Rattle.pam_policy.specs.search.Witness.{IsGraphOf};
ghost use Rattle.pam_policy.specs.text.Events.{event_view};

use crate::rules::choosing::first_of;
use crate::rules::error::JudgeError;
use crate::rules::marking::only;
use crate::rules::part::Part;
use crate::rules::site::Site;
use crate::search::{MAX_TOGETHER, Marks, Query, Run, search};
use crate::text::Event;
use arrayvec::ArrayVec;
use pam_codes::CodeSet;
use std::alloc::{AllocError, Global};

/// What is looked for: runs that decide one of some codes, with some events and without others.
#[derive(Clone, Copy)]
pub(crate) struct Aim<'a> {
    pub(crate) decisions: CodeSet,
    pub(crate) with: Option<Part<'a>>,
    pub(crate) without: Option<Part<'a>>,
}

impl Site<'_, '_> {
    /// What has to happen so that the events of a part do.
    fn wanted_of(
        &self,
        alloc: Global,
        part: &Part<'_>,
    ) -> Result<ArrayVec<Marks, MAX_TOGETHER>, JudgeError>
        ensures wanted { IfOk result (λ wanted. AreMarksOf (site_view self.now) part.now.is_strict (groups_of (part_view part.now).events) wanted.items) }
        ensures reason { IfErr result (IsReasonFor (Some (part_view part.now))) }
    {
        let each = self.marks_of(alloc, part)?;
        let mut wanted = ArrayVec::new();
        for marks in &each {
            if wanted.try_push(*marks).is_err() {
                return Err(JudgeError::TooManyTogether);
            }
        }
        Ok(wanted)
    }

    /// The same, if there are any.
    fn wanted(
        &self,
        alloc: Global,
        part: Option<&Part<'_>>,
    ) -> Result<ArrayVec<Marks, MAX_TOGETHER>, JudgeError>
        ensures wanted { IfOk result (λ wanted. AreWanted (site_view self.now) (option_map (λ p. part_view p.now) part.entry) wanted.items) }
        ensures reason { IfErr result (IsReasonFor (option_map (λ p. part_view p.now) part.entry)) }
    {
        match part {
            Some(part) => self.wanted_of(alloc, part),
            None => Ok(ArrayVec::new()),
        }
    }

    /// Of which one must not happen so that the events of a part do not.
    fn barred(&self, alloc: Global, part: Option<&Part<'_>>) -> Result<Vec<Marks>, AllocError>
        ensures { IfOk result (λ barred. AreBarred (site_view self.now) (option_map (λ p. part_view p.now) part.entry) barred.items) }
    {
        match part {
            Some(part) => self.marks_of(alloc, part),
            None => only(alloc, Marks::new()),
        }
    }

    /// The query of what is looked for, where one event does not happen.
    fn together(&self, alloc: Global, aim: &Aim<'_>, marks: &Marks) -> Result<Query, JudgeError>
        ensures query { IfOk result (IsTogether (site_view self.now) (aim_view aim.now) marks.now) }
        ensures reason { IfErr result (IsReasonFor (aim_view aim.now).with) }
    {
        let wanted = self.wanted(alloc, aim.with.as_ref())?;
        Ok(Query::Together {
            wanted,
            barred: *marks,
            decisions: aim.decisions,
        })
    }

    /// The first run of those that are looked for.
    pub(crate) fn first_run(&self, alloc: Global, aim: &Aim<'_>) -> Result<Option<Run>, JudgeError>
        ensures first { IsGraphOf (may_answer self.now.known.now) self.now.stack.now self.now.graph.now
            → IfOk result (SaysFirst (IsMet (may_answer self.now.known.now) (site_view self.now) (aim_view aim.now))) }
        ensures reason { IfErr result (IsReasonFor (aim_view aim.now).with) }
    {
        let barred = self.barred(alloc, aim.without.as_ref())?;
        let mut first = None;
        for marks in &barred {
            let query = self.together(alloc, aim, marks)?;
            let found = search(alloc, self.graph, self.known, &query)?;
            first = first_of(first, found);
        }
        Ok(first)
    }

    /// The first run in which one of some events happens, and those of a part do not happen before it.
    pub(crate) fn first_late(
        &self,
        alloc: Global,
        part: &Part<'_>,
        later: &[Event<'_>],
    ) -> Result<Option<Run>, AllocError>
        ensures { IsGraphOf (may_answer self.now.known.now) self.now.stack.now self.now.graph.now
            → IfOk result (SaysFirst (IsLate (may_answer self.now.known.now) (site_view self.now) (part_view part.now) (map event_view later.now))) }
    {
        let barred = self.marks_of(alloc, part)?;
        let mut first = None;
        for marks in &barred {
            let query = Query::Before {
                first: *marks,
                second: self.marks(later, false),
            };
            let found = search(alloc, self.graph, self.known, &query)?;
            first = first_of(first, found);
        }
        Ok(first)
    }
}
