//! What the stacks of a host say of a rule.

ghost use Rattle.std.specs.Prelude.{◌≡◌, All, IfErr, IfOk, map};
ghost use Rattle.pam_policy.specs.host.Reports.{IsReport, IsVerdict, SaysOfClass};
ghost use Rattle.pam_policy.specs.host.Stacks.{HaveGraphs, site_of, stacks_view};
ghost use Rattle.pam_policy.specs.names.Host.{host_view};
ghost use Rattle.pam_policy.specs.rules.Judging.{IsReason};
ghost use Rattle.pam_policy.specs.text.Rules.{rule_view};
ghost use Rattle.pam_policy.specs.text.Sentences.{sentence_view};

use crate::host::idle::{Idle, idle_of};
use crate::host::place::Stacks;
use crate::host::spoken::Spoken;
use crate::names::{Host, Misnamed, misnamed};
use crate::rules::{JudgeError, Verdict, judge};
use crate::text::{Rule, Sentence};
use std::alloc::Global;

/// What the stacks of a class say of a rule.
#[derive(Drop)]
pub struct ClassReport {
    pub class: usize,
    /// `None` where nothing is known of the class.
    pub verdict: Option<Verdict>,
}

/// What the stacks of a host say of a rule.
#[derive(Drop)]
pub struct RuleReport {
    /// The positions of the places of which the rule speaks, in their order.
    pub places: Vec<usize>,
    /// What each class of these places says, in the order of their first places.
    pub classes: Vec<ClassReport>,
    /// P5: whether the rule says nothing of these places together.
    pub idle: Option<Idle>,
    /// P3, P4 and P7: the words that name nothing, in the order of these numbers.
    pub misnamed: Vec<Misnamed>,
}

/// What is said of a rule at a class.
fn verdict_at(
    alloc: Global,
    stacks: &Stacks<'_, '_>,
    sentence: &Sentence<'_>,
    class: usize,
) -> Result<Option<Verdict>, JudgeError>
    ensures verdict { HaveGraphs stacks.now.classes.now
        → IfOk result (IsVerdict (site_of (stacks_view stacks.now) class) (sentence_view sentence.now)) }
    ensures reason { IfErr result (IsReason (sentence_view sentence.now)) }
{
    let Some(site) = stacks.site(class) else {
        return Ok(None);
    };
    let verdict = judge(alloc, site, sentence)?;
    Ok(Some(verdict))
}

/// What each of these classes says of a rule.
fn reports_of(
    alloc: Global,
    stacks: &Stacks<'_, '_>,
    sentence: &Sentence<'_>,
    classes: &[usize],
) -> Result<Vec<ClassReport>, JudgeError>
    ensures classes { IfOk result (λ reports. map (λ report. report.class) reports.items ≡ classes.now) }
    ensures verdicts { HaveGraphs stacks.now.classes.now
        → IfOk result (λ reports. All (SaysOfClass (stacks_view stacks.now) (sentence_view sentence.now)) reports.items) }
    ensures reason { IfErr result (IsReason (sentence_view sentence.now)) }
{
    let mut reports = Vec::new(alloc);
    for class in classes {
        let verdict = verdict_at(alloc, stacks, sentence, *class)?;
        reports.push(ClassReport {
            class: *class,
            verdict,
        })?;
    }
    Ok(reports)
}

impl RuleReport {
    /// What the stacks of a host say of a rule. The graph of each site is that of its stack's runs under what it knows.
    ///
    /// A class is judged once, however many places it has. Takes time linear in the places, besides that for each class and for the
    /// words of the rule.
    pub fn of(
        alloc: Global,
        host: &Host<'_>,
        stacks: &Stacks<'_, '_>,
        rule: &Rule<'_>,
    ) -> Result<RuleReport, JudgeError>
        ensures report { HaveGraphs stacks.now.classes.now
            → IfOk result (IsReport (host_view host.now) (stacks_view stacks.now) (rule_view rule.now)) }
        ensures reason { IfErr result (IsReason (sentence_view rule.now.sentence)) }
    {
        let Spoken { places, classes } = Spoken::of(alloc, stacks.places, rule)?;
        let reports = reports_of(alloc, stacks, &rule.sentence, classes.as_slice())?;
        let idle = idle_of(alloc, stacks, &rule.sentence, classes.as_slice(), &reports)?;
        let misnamed = misnamed(alloc, host, rule)?;
        Ok(RuleReport {
            places,
            classes: reports,
            idle,
            misnamed,
        })
    }
}
