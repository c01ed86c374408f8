//! Whether a rule holds at a stack.

ghost use Rattle.std.specs.Prelude.{◌≡◌, IfErr, IfOk, option_map};
ghost use Rattle.pam_paths.specs.Known.{may_answer};
ghost use Rattle.pam_policy.specs.rules.Judging.{IsReason, IsSettledBy, SaysVerdict};
ghost use Rattle.pam_policy.specs.rules.Settling.{loose, strict};
ghost use Rattle.pam_policy.specs.rules.Site.{site_view};
ghost use Rattle.pam_policy.specs.rules.inner.Choosing.{SaysFirst, holds_unless, shown_by};
ghost use Rattle.pam_policy.specs.rules.inner.Marking.{part_view};
ghost use Rattle.pam_policy.specs.search.Witness.{IsGraphOf};
ghost use Rattle.pam_policy.specs.text.Lists.{events_view};
ghost use Rattle.pam_policy.specs.text.Sentences.{condition_view, sentence_view, Never, Can, Before};

use crate::rules::error::JudgeError;
use crate::rules::looking::Aim;
use crate::rules::part::Part;
use crate::rules::site::Site;
use crate::rules::verdict::Verdict;
use crate::search::Run;
use crate::text::{Condition, Events, Sentence};
use std::alloc::{AllocError, Global};

/// The part of these events, if there are any.
pub(crate) fn part_of<'a>(events: &'a Option<Events<'a>>, is_strict: bool) -> Option<Part<'a>>
    ensures { option_map part_view result ≡ option_map (λ e. record { events = events_view e; is_strict = is_strict }) events.now }
{
    match events {
        Some(events) => Some(Part { events, is_strict }),
        None => None,
    }
}

impl Site<'_, '_> {
    /// The first run that breaks what is never to be.
    fn first_breaking(
        &self,
        alloc: Global,
        condition: &Condition<'_>,
    ) -> Result<Option<Run>, JudgeError>
        ensures first { IsGraphOf (may_answer self.now.known.now) self.now.stack.now self.now.graph.now
            → IfOk result (SaysFirst (IsSettledBy (may_answer self.now.known.now) (site_view self.now) (Never (condition_view condition.now)))) }
        ensures reason { IfErr result (IsReason (Never (condition_view condition.now))) }
    {
        let aim = Aim {
            decisions: condition.ending.decisions(self.kind),
            with: part_of(&condition.with, false),
            without: part_of(&condition.without, true),
        };
        self.first_run(alloc, &aim)
    }

    /// The first run that shows what can be.
    fn first_showing(
        &self,
        alloc: Global,
        condition: &Condition<'_>,
    ) -> Result<Option<Run>, JudgeError>
        ensures first { IsGraphOf (may_answer self.now.known.now) self.now.stack.now self.now.graph.now
            → IfOk result (SaysFirst (IsSettledBy (may_answer self.now.known.now) (site_view self.now) (Can (condition_view condition.now)))) }
        ensures reason { IfErr result (IsReason (Can (condition_view condition.now))) }
    {
        let aim = Aim {
            decisions: condition.ending.decisions(self.kind),
            with: part_of(&condition.with, true),
            without: part_of(&condition.without, false),
        };
        self.first_run(alloc, &aim)
    }

    /// The first run that breaks an order.
    fn first_unordered(
        &self,
        alloc: Global,
        first: &Events<'_>,
        others: &Events<'_>,
    ) -> Result<Option<Run>, AllocError>
        ensures { IsGraphOf (may_answer self.now.known.now) self.now.stack.now self.now.graph.now
            → IfOk result (SaysFirst (IsSettledBy (may_answer self.now.known.now) (site_view self.now)
            (Before (events_view first.now) (events_view others.now)))) }
    {
        let part = Part {
            events: first,
            is_strict: true,
        };
        self.first_late(alloc, &part, others.events())
    }
}

/// A rule that a run breaks, or none.
fn holds_unless(found: Option<Run>) -> Verdict
    ensures { result ≡ holds_unless found }
{
    match found {
        Some(run) => Verdict::Broken(run),
        None => Verdict::Holds,
    }
}

/// A rule that a run shows, or none.
fn shown_by(found: Option<Run>) -> Verdict
    ensures { result ≡ shown_by found }
{
    match found {
        Some(run) => Verdict::Shown(run),
        None => Verdict::Impossible,
    }
}

/// Whether a rule holds at a stack. `site.graph` is that of the stack's runs under `site.known`.
///
/// The run of `Broken` and of `Shown` asks the fewest modules of all that do so, and of these its answers come first in turn, in
/// the order success, auth_err, perm_denied, user_unknown, authinfo_unavail, ignore, and then by number.
pub fn judge(
    alloc: Global,
    site: &Site<'_, '_>,
    sentence: &Sentence<'_>,
) -> Result<Verdict, JudgeError>
    ensures verdict { IsGraphOf (may_answer site.now.known.now) site.now.stack.now site.now.graph.now
        → IfOk result (SaysVerdict (may_answer site.now.known.now) (site_view site.now) (sentence_view sentence.now)) }
    ensures reason { IfErr result (IsReason (sentence_view sentence.now)) }
{
    match sentence {
        Sentence::Never(condition) => {
            let found = site.first_breaking(alloc, condition)?;
            Ok(holds_unless(found))
        }
        Sentence::Can(condition) => {
            let found = site.first_showing(alloc, condition)?;
            Ok(shown_by(found))
        }
        Sentence::Before(first, others) => {
            let found = site.first_unordered(alloc, first, others)?;
            Ok(holds_unless(found))
        }
    }
}
