//! The result of a rule on a whole host.

ghost use Rattle.std.specs.Prelude.{◌≡◌};
ghost use Rattle.std.specs.List.{list_any};
ghost use Rattle.pam_policy.specs.host.Told.{is_refuted, is_unjudged, standing_by, standing_of};

use crate::host::report::{ClassReport, RuleReport};
use crate::rules::Verdict;

/// The result of a rule on a whole host.
#[derive(Clone, Copy, Debug, PartialEq, Eq)]
pub enum Standing {
    /// It holds at each class of its places.
    Holds,
    /// It does not hold at some class.
    Broken,
    /// It is not broken, and nothing is known of some class.
    NotKnown,
}

fn is_refuted(report: &ClassReport) -> bool
    ensures { result ≡ is_refuted report.now.verdict }
{
    matches!(
        report.verdict,
        Some(Verdict::Broken(_)) | Some(Verdict::Impossible)
    )
}

fn is_unjudged(report: &ClassReport) -> bool
    ensures { result ≡ is_unjudged report.now.verdict }
{
    report.verdict.is_none()
}

fn some_refuted(reports: &[ClassReport]) -> bool
    ensures { result ≡ list_any (λ class. is_refuted class.verdict) reports.now }
{
    reports.iter().any(is_refuted)
}

fn some_unjudged(reports: &[ClassReport]) -> bool
    ensures { result ≡ list_any (λ class. is_unjudged class.verdict) reports.now }
{
    reports.iter().any(is_unjudged)
}

fn standing_by(refuted: bool, unjudged: bool) -> Standing
    ensures { result ≡ standing_by refuted unjudged }
{
    if refuted {
        return Standing::Broken;
    }
    if unjudged {
        return Standing::NotKnown;
    }
    Standing::Holds
}

impl RuleReport {
    /// Returns the result: `Broken` if the rule does not hold at some class of its places, even if nothing is known of another.
    pub fn standing(&self) -> Standing
        ensures { result ≡ standing_of self.now }
    {
        let refuted = some_refuted(&self.classes);
        let unjudged = some_unjudged(&self.classes);
        standing_by(refuted, unjudged)
    }
}
