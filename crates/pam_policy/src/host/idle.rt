//! P5: rules that say nothing of the stacks of a host.

ghost use Rattle.std.specs.Prelude.{◌≡◌, ◌↔◌, All, IfErr, IfOk, IsTrue, map};
ghost use Rattle.std.specs.List.{list_all};
ghost use Rattle.pam_policy.specs.host.Idle.{IsIdle, SaysIdle, is_about, is_about_ending, is_about_events, is_certain};
ghost use Rattle.pam_policy.specs.host.Reports.{SaysOfClass};
ghost use Rattle.pam_policy.specs.host.Stacks.{HaveGraphs, site_of, stacks_view};
ghost use Rattle.pam_policy.specs.host.inner.Idle.{CanBeAmong, CanBeAt, holds};
ghost use Rattle.pam_policy.specs.rules.Judging.{IsReason};
ghost use Rattle.pam_policy.specs.text.Sentences.{sentence_view};

use crate::host::place::Stacks;
use crate::host::report::ClassReport;
use crate::rules::{JudgeError, Verdict, can_end, can_happen};
use crate::text::{Ending, Sentence};
use std::alloc::Global;

/// How a rule says nothing of a host.
#[derive(Clone, Copy, Debug, PartialEq, Eq)]
pub enum Idle {
    /// The events that it is about can happen in none of its stacks: those after `with`, or those after `before`.
    CannotHappen,
    /// None of its stacks can end as it says.
    CannotEnd,
}

fn is_certain(ending: Ending) -> bool
    ensures { result ≡ is_certain ending }
{
    !matches!(ending, Ending::Ends)
}

fn is_about_events(sentence: &Sentence<'_>) -> bool
    ensures { result ≡ is_about_events (sentence_view sentence.now) }
{
    match sentence {
        Sentence::Never(condition) => {
            condition.with.is_some()
                && (is_certain(condition.ending) || condition.without.is_some())
        }
        Sentence::Can(_) => false,
        Sentence::Before(_, _) => true,
    }
}

fn is_about_ending(sentence: &Sentence<'_>) -> bool
    ensures { result ≡ is_about_ending (sentence_view sentence.now) }
{
    match sentence {
        Sentence::Never(condition) => {
            is_certain(condition.ending)
                && (condition.with.is_some() || condition.without.is_some())
        }
        Sentence::Can(_) | Sentence::Before(_, _) => false,
    }
}

/// Whether a rule could say nothing in this way: it is about events that happen, or about how stacks end.
fn is_about(way: Idle, sentence: &Sentence<'_>) -> bool
    ensures { result ≡ is_about way (sentence_view sentence.now) }
{
    match way {
        Idle::CannotHappen => is_about_events(sentence),
        Idle::CannotEnd => is_about_ending(sentence),
    }
}

/// Whether what a rule is about can be at a class, as far as that is known.
fn can_be_at(
    alloc: Global,
    stacks: &Stacks<'_, '_>,
    sentence: &Sentence<'_>,
    way: Idle,
    class: usize,
) -> Result<bool, JudgeError>
    ensures can { HaveGraphs stacks.now.classes.now
        → IfOk result (λ can. IsTrue can ↔ CanBeAt way (site_of (stacks_view stacks.now) class) (sentence_view sentence.now)) }
    ensures reason { IfErr result (IsReason (sentence_view sentence.now)) }
{
    let Some(site) = stacks.site(class) else {
        return Ok(false);
    };
    match way {
        Idle::CannotHappen => can_happen(alloc, site, sentence),
        Idle::CannotEnd => can_end(alloc, site, sentence),
    }
}

/// Whether it can be at one of these classes.
fn can_be_among(
    alloc: Global,
    stacks: &Stacks<'_, '_>,
    sentence: &Sentence<'_>,
    way: Idle,
    classes: &[usize],
) -> Result<bool, JudgeError>
    ensures can { HaveGraphs stacks.now.classes.now
        → IfOk result (λ can. IsTrue can ↔ CanBeAmong way (stacks_view stacks.now) (sentence_view sentence.now) classes.now) }
    ensures reason { IfErr result (IsReason (sentence_view sentence.now)) }
{
    for class in classes {
        let can = can_be_at(alloc, stacks, sentence, way, *class)?;
        if can {
            return Ok(true);
        }
    }
    Ok(false)
}

/// Whether a rule says nothing of these classes in this way.
fn is_idle(
    alloc: Global,
    stacks: &Stacks<'_, '_>,
    sentence: &Sentence<'_>,
    way: Idle,
    classes: &[usize],
) -> Result<bool, JudgeError>
    ensures idle { HaveGraphs stacks.now.classes.now
        → IfOk result (λ idle. IsTrue idle ↔ IsIdle (map (site_of (stacks_view stacks.now)) classes.now) (sentence_view sentence.now) way) }
    ensures reason { IfErr result (IsReason (sentence_view sentence.now)) }
{
    if !is_about(way, sentence) {
        return Ok(false);
    }
    let can = can_be_among(alloc, stacks, sentence, way, classes)?;
    Ok(!can)
}

/// Whether no answers break the rule at a class.
fn holds(report: &ClassReport) -> bool
    ensures { result ≡ holds report.now }
{
    matches!(report.verdict, Some(Verdict::Holds))
}

fn all_hold(reports: &[ClassReport]) -> bool
    ensures { result ≡ list_all holds reports.now }
{
    reports.iter().all(holds)
}

/// How a rule says nothing of these classes, if it does, from what each of them says of it.
///
/// A run that breaks a rule has its events and ends as it says, so this is looked for only where nothing breaks it.
pub(crate) fn idle_of(
    alloc: Global,
    stacks: &Stacks<'_, '_>,
    sentence: &Sentence<'_>,
    classes: &[usize],
    reports: &[ClassReport],
) -> Result<Option<Idle>, JudgeError>
    ensures idle { HaveGraphs stacks.now.classes.now → map (λ report. report.class) reports.now ≡ classes.now
        → All (SaysOfClass (stacks_view stacks.now) (sentence_view sentence.now)) reports.now
        → IfOk result (SaysIdle (map (site_of (stacks_view stacks.now)) classes.now) (sentence_view sentence.now)) }
    ensures reason { IfErr result (IsReason (sentence_view sentence.now)) }
{
    if classes.is_empty() {
        return Ok(None);
    }
    if !all_hold(reports) {
        return Ok(None);
    }
    let cannot_happen = is_idle(alloc, stacks, sentence, Idle::CannotHappen, classes)?;
    if cannot_happen {
        return Ok(Some(Idle::CannotHappen));
    }
    let cannot_end = is_idle(alloc, stacks, sentence, Idle::CannotEnd, classes)?;
    if cannot_end {
        return Ok(Some(Idle::CannotEnd));
    }
    Ok(None)
}
