//! The findings of a rule.

ghost use Rattle.std.specs.Prelude.{◌≡◌, ◌++◌, IfOk, OnOk, filter_map, map};
ghost use Rattle.std.specs.Option.{option_map};
ghost use Rattle.pam_policy.specs.host.Findings.{finding_view, findings_of, not_known, not_upheld, of_argument, of_name, saying_nothing};
ghost use Rattle.pam_policy.specs.names.Words.{misnamed_view};

use crate::host::idle::Idle;
use crate::host::report::{ClassReport, RuleReport};
use crate::names::Misnamed;
use crate::rules::Verdict;
use crate::search::Run;
use std::alloc::{AllocError, Global};

/// What is found of a rule. A class is given by its index.
#[derive(Clone, Copy)]
pub enum Finding<'a> {
    /// P1: the run breaks the rule at a class.
    Broken(usize, &'a Run),
    /// P2: no answers do at a class what the rule says that it can do.
    Impossible(usize),
    /// P3, P4 or P7: a word names nothing.
    Misnamed(&'a Misnamed),
    /// P5: the rule says nothing of its places.
    SaysNothing(Idle),
    /// P6: nothing is known of a class.
    NotKnown(usize),
}

/// P1 or P2 of a class.
fn not_upheld(report: &ClassReport) -> Option<Finding<'_>>
    ensures { option_map finding_view result ≡ not_upheld report.now }
{
    match &report.verdict {
        Some(Verdict::Broken(run)) => Some(Finding::Broken(report.class, run)),
        Some(Verdict::Impossible) => Some(Finding::Impossible(report.class)),
        _ => None,
    }
}

/// Appends P1 or P2 of each class.
fn push_not_upheld<'a>(
    found: &mut Vec<Finding<'a>>,
    reports: &'a [ClassReport],
) -> Result<(), AllocError>
    ensures { OnOk result (map finding_view found.new.items ≡ map finding_view found.old.items ++ filter_map not_upheld reports.now) }
{
    for report in reports {
        if let Some(finding) = not_upheld(report) {
            found.push(finding)?;
        }
    }
    Ok(())
}

/// P6 of a class.
fn not_known(report: &ClassReport) -> Option<Finding<'_>>
    ensures { option_map finding_view result ≡ not_known report.now }
{
    match &report.verdict {
        Some(_) => None,
        None => Some(Finding::NotKnown(report.class)),
    }
}

/// Appends P6 of each class.
fn push_not_known<'a>(
    found: &mut Vec<Finding<'a>>,
    reports: &'a [ClassReport],
) -> Result<(), AllocError>
    ensures { OnOk result (map finding_view found.new.items ≡ map finding_view found.old.items ++ filter_map not_known reports.now) }
{
    for report in reports {
        if let Some(finding) = not_known(report) {
            found.push(finding)?;
        }
    }
    Ok(())
}

/// P3 or P4 of a word.
fn of_name(word: &Misnamed) -> Option<Finding<'_>>
    ensures { option_map finding_view result ≡ of_name (misnamed_view word.now) }
{
    match word {
        Misnamed::NoArgument(_) => None,
        _ => Some(Finding::Misnamed(word)),
    }
}

/// Appends P3 and P4.
fn push_names<'a>(found: &mut Vec<Finding<'a>>, words: &'a [Misnamed]) -> Result<(), AllocError>
    ensures { OnOk result (map finding_view found.new.items
        ≡ map finding_view found.old.items ++ filter_map of_name (map misnamed_view words.now)) }
{
    for word in words {
        if let Some(finding) = of_name(word) {
            found.push(finding)?;
        }
    }
    Ok(())
}

/// P7 of a word.
fn of_argument(word: &Misnamed) -> Option<Finding<'_>>
    ensures { option_map finding_view result ≡ of_argument (misnamed_view word.now) }
{
    match word {
        Misnamed::NoArgument(_) => Some(Finding::Misnamed(word)),
        _ => None,
    }
}

/// Appends P7.
fn push_arguments<'a>(found: &mut Vec<Finding<'a>>, words: &'a [Misnamed]) -> Result<(), AllocError>
    ensures { OnOk result (map finding_view found.new.items
        ≡ map finding_view found.old.items ++ filter_map of_argument (map misnamed_view words.now)) }
{
    for word in words {
        if let Some(finding) = of_argument(word) {
            found.push(finding)?;
        }
    }
    Ok(())
}

/// Appends P5, if the rule says nothing.
fn push_idle(found: &mut Vec<Finding<'_>>, idle: Option<Idle>) -> Result<(), AllocError>
    ensures { OnOk result (map finding_view found.new.items ≡ map finding_view found.old.items ++ saying_nothing idle) }
{
    if let Some(idle) = idle {
        found.push(Finding::SaysNothing(idle))?;
    }
    Ok(())
}

impl RuleReport {
    /// The findings of the rule, in the order of their numbers, and then of the classes and the words.
    #[tactic(auto, unfolding(crate::specs::host::Findings::findings_of))]
    pub fn findings(&self, alloc: Global) -> Result<Vec<Finding<'_>>, AllocError>
        ensures { IfOk result (λ found. map finding_view found.items ≡ findings_of self.now) }
    {
        let mut found = Vec::new(alloc);
        push_not_upheld(&mut found, &self.classes)?;
        push_names(&mut found, &self.misnamed)?;
        push_idle(&mut found, self.idle)?;
        push_not_known(&mut found, &self.classes)?;
        push_arguments(&mut found, &self.misnamed)?;
        Ok(found)
    }
}
