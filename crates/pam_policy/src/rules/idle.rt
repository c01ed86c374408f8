//! Whether a rule says anything of a stack.

ghost use Rattle.std.specs.Prelude.{◌↔◌, IfErr, IfOk, IsTrue, option_map};
ghost use Rattle.pam_paths.specs.Known.{may_answer};
ghost use Rattle.pam_policy.specs.rules.Idle.{CanEnd, CanHappen};
ghost use Rattle.pam_policy.specs.rules.Judging.{IsReason};
ghost use Rattle.pam_policy.specs.rules.Site.{site_view};
ghost use Rattle.pam_policy.specs.rules.inner.Looking.{CanBeMet, IsReasonFor, SomeCanHappen, with_alone};
ghost use Rattle.pam_policy.specs.rules.inner.Marking.{part_view};
ghost use Rattle.pam_policy.specs.search.Witness.{IsGraphOf};
ghost use Rattle.pam_policy.specs.text.Lists.{events_in, events_view};
ghost use Rattle.pam_policy.specs.text.Sentences.{sentence_view};

use crate::rules::error::JudgeError;
use crate::rules::judging::part_of;
use crate::rules::looking::Aim;
use crate::rules::part::Part;
use crate::rules::site::Site;
use crate::search::{Marks, Query, search};
use crate::text::{Events, Sentence};
use pam_codes::CodeSet;
use std::alloc::{AllocError, Global};

impl Site<'_, '_> {
    /// Whether the events of a part can happen.
    fn part_can_happen(&self, alloc: Global, part: Option<Part<'_>>) -> Result<bool, JudgeError>
        ensures can { IsGraphOf (may_answer self.now.known.now) self.now.stack.now self.now.graph.now
            → IfOk result (λ can. IsTrue can ↔ CanBeMet (may_answer self.now.known.now) (site_view self.now) (with_alone (option_map part_view part.entry))) }
        ensures reason { IfErr result (IsReasonFor (option_map part_view part.entry)) }
    {
        let aim = Aim {
            decisions: CodeSet::all(),
            with: part,
            without: None,
        };
        let found = self.first_run(alloc, &aim)?;
        Ok(found.is_some())
    }

    /// Whether one of these events can happen.
    fn some_can_happen(&self, alloc: Global, events: &Events<'_>) -> Result<bool, AllocError>
        ensures { IsGraphOf (may_answer self.now.known.now) self.now.stack.now self.now.graph.now
            → IfOk result (λ can. IsTrue can ↔ SomeCanHappen (may_answer self.now.known.now) (site_view self.now) (events_in (events_view events.now))) }
    {
        let query = Query::Before {
            first: Marks::new(),
            second: self.marks(events.events(), false),
        };
        let found = search(alloc, self.graph, self.known, &query)?;
        Ok(found.is_some())
    }
}

/// Whether the events can happen with which the rule is about a stack: those after `with`, or one of those after `before`.
/// `site.graph` is that of the stack's runs under `site.known`.
pub fn can_happen(
    alloc: Global,
    site: &Site<'_, '_>,
    sentence: &Sentence<'_>,
) -> Result<bool, JudgeError>
    ensures can { IsGraphOf (may_answer site.now.known.now) site.now.stack.now site.now.graph.now
        → IfOk result (λ can. IsTrue can ↔ CanHappen (may_answer site.now.known.now) (site_view site.now) (sentence_view sentence.now)) }
    ensures reason { IfErr result (IsReason (sentence_view sentence.now)) }
{
    match sentence {
        Sentence::Never(condition) => site.part_can_happen(alloc, part_of(&condition.with, false)),
        Sentence::Can(condition) => site.part_can_happen(alloc, part_of(&condition.with, true)),
        Sentence::Before(_, others) => {
            let can = site.some_can_happen(alloc, others)?;
            Ok(can)
        }
    }
}

/// Whether a stack can end as the rule says. `site.graph` is that of the stack's runs under `site.known`.
pub fn can_end(
    alloc: Global,
    site: &Site<'_, '_>,
    sentence: &Sentence<'_>,
) -> Result<bool, JudgeError>
    ensures can { IsGraphOf (may_answer site.now.known.now) site.now.stack.now site.now.graph.now
        → IfOk result (λ can. IsTrue can ↔ CanEnd (may_answer site.now.known.now) (site_view site.now) (sentence_view sentence.now)) }
    ensures reason { IfErr result (IsReason (sentence_view sentence.now)) }
{
    let aim = Aim {
        decisions: sentence.decisions(site.kind),
        with: None,
        without: None,
    };
    let found = site.first_run(alloc, &aim)?;
    Ok(found.is_some())
}
