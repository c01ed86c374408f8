//! The `policy` command: whether the rules of policies hold on a host.

ghost use Rattle.std.specs.Prelude.{◌≡◌, ◌||◌, if◌then◌else◌};
ghost use Rattle.std.specs.List.{list_any};
ghost use Rattle.pam_explain.specs.Views.{explanation_view};
ghost use Rattle.pam_policy.specs.host.Findings.{finding_view, not_known, not_upheld, of_argument, of_name, saying_nothing};
ghost use Rattle.pam_policy.specs.names.Words.{misnamed_view};
ghost use Rattle.pam_report.specs.PolicyLevels.{level_of_word, policy_level as level_of, policy_row as row_of, row_of_word};
ghost use Rattle.pam_report.specs.Reply.{any_counts, has_counting_report, has_counting_rule, policy_status};
ghost use Rattle.pam_report.specs.ReplyViews.{policy_view};
ghost use Rattle.pam_report.specs.declared.report.Status.TheVariants.{Refusal as Refused, Success};
ghost use Rattle.pam_report.specs.inner.Policy.{counts_if_found};

mod answering;
mod judging;
mod reading;
mod stacks;

use super::Status;
use super::check::counts;
pub(super) use answering::{PolicyRequest, answer_policy};
use pam_conf::Files;
use pam_explain::{Explanation, Level, policies};
use pam_policy::host::{ClassReport, Finding, HostStacks, Idle, RuleReport};
use pam_policy::names::Misnamed;
use pam_policy::rules::Verdict;
use pam_policy::text::Rule;
use pam_words::LevelName;

/// A policy, and what the host says of its rules.
#[derive(Drop)]
pub struct JudgedPolicy<'a> {
    /// Its name, as the words give it.
    pub name: &'a str,
    pub rules: Vec<Rule<'a>>,
    /// What the host says of each rule, in the order of the rules.
    pub reports: Vec<RuleReport>,
}

/// What a host says of policies.
#[derive(Drop)]
pub struct PolicyReply<'a> {
    /// The configuration, if it is given.
    pub files: Option<&'a Files>,
    pub stacks: HostStacks,
    pub policies: Vec<JudgedPolicy<'a>>,
    /// The least level of a finding that makes the status a refusal.
    pub fail_on: LevelName,
}

fn row_of_word(word: &Misnamed) -> &'static Explanation
    ensures { explanation_view result.now ≡ row_of_word (misnamed_view word.now) }
{
    match word {
        Misnamed::NoService(_) | Misnamed::FitsNone => &policies::NO_SERVICE_FITS,
        Misnamed::NoModule(_) => &policies::NO_MODULE_FITS,
        Misnamed::NoArgument(_) => &policies::NO_ARGUMENT,
    }
}

/// Returns the row of a finding of a policy.
pub fn policy_row(finding: &Finding<'_>) -> &'static Explanation
    ensures { explanation_view result.now ≡ row_of (finding_view finding.now) }
{
    match finding {
        Finding::Broken(_, _) => &policies::BROKEN,
        Finding::Impossible(_) => &policies::IMPOSSIBLE,
        Finding::Misnamed(word) => row_of_word(word),
        Finding::SaysNothing(_) => &policies::IDLE,
        Finding::NotKnown(_) => &policies::NOT_KNOWN,
    }
}

/// Returns the number of a finding of a policy, as `P1`.
pub fn policy_number(finding: &Finding<'_>) -> &'static str
    ensures { result.now ≡ (row_of (finding_view finding.now)).number }
{
    policy_row(finding).number
}

/// Returns the name of a finding of a policy, as `Broken`.
pub fn policy_name(finding: &Finding<'_>) -> &'static str
    ensures { result.now ≡ (row_of (finding_view finding.now)).name }
{
    policy_row(finding).name
}

fn level_of_word(word: &Misnamed) -> Level
    ensures { result ≡ level_of_word (misnamed_view word.now) }
{
    row_of_word(word).level
}

/// Returns how grave a finding of a policy is.
pub fn policy_level(finding: &Finding<'_>) -> Level
    ensures { result ≡ level_of (finding_view finding.now) }
{
    policy_row(finding).level
}

/// Whether what is found of a class counts.
fn class_counts(fail_on: LevelName, report: &ClassReport) -> bool
    ensures { result ≡ (counts_if_found fail_on (not_upheld report.now) || counts_if_found fail_on (not_known report.now)) }
{
    match &report.verdict {
        Some(Verdict::Holds) | Some(Verdict::Shown(_)) => false,
        Some(Verdict::Broken(_)) | Some(Verdict::Impossible) | None => {
            counts(fail_on, Level::Error)
        }
    }
}

/// Whether what is found of a word counts.
fn word_counts(fail_on: LevelName, word: &Misnamed) -> bool
    ensures { result ≡ (counts_if_found fail_on (of_name (misnamed_view word.now)) || counts_if_found fail_on (of_argument (misnamed_view word.now))) }
{
    counts(fail_on, level_of_word(word))
}

/// Whether some finding of these classes counts.
fn has_counting_class(fail_on: LevelName, classes: &[ClassReport]) -> bool
    ensures { result ≡ list_any (λ class. counts_if_found fail_on (not_upheld class) || counts_if_found fail_on (not_known class)) classes.now }
{
    classes.iter().any(|class| class_counts(fail_on, class))
}

/// Whether some finding of these words counts.
fn has_counting_word(fail_on: LevelName, words: &[Misnamed]) -> bool
    ensures { result ≡ list_any (λ word. counts_if_found fail_on (of_name (misnamed_view word))
        || counts_if_found fail_on (of_argument (misnamed_view word))) words.now }
{
    words.iter().any(|word| word_counts(fail_on, word))
}

/// Whether it counts that a rule says nothing, if it does.
fn idle_counts(fail_on: LevelName, idle: Option<Idle>) -> bool
    ensures { result ≡ any_counts fail_on (saying_nothing idle) }
{
    match idle {
        Some(_) => counts(fail_on, Level::Warning),
        None => false,
    }
}

fn is_one(first: bool, second: bool, third: bool) -> bool
    ensures { result ≡ (first || (second || third)) }
{
    first || second || third
}

/// Whether some finding of a rule counts.
fn has_counting_report(fail_on: LevelName, report: &RuleReport) -> bool
    ensures { result ≡ has_counting_report fail_on report.now }
{
    let of_classes = has_counting_class(fail_on, report.classes.as_slice());
    let of_words = has_counting_word(fail_on, report.misnamed.as_slice());
    let of_idle = idle_counts(fail_on, report.idle);
    is_one(of_classes, of_words, of_idle)
}

/// Whether some finding of some rule of a policy counts.
fn has_counting_rule(fail_on: LevelName, policy: &JudgedPolicy<'_>) -> bool
    ensures { result ≡ has_counting_rule fail_on policy.now }
{
    policy
        .reports
        .iter()
        .any(|report| has_counting_report(fail_on, report))
}

/// Whether some finding of these policies counts.
fn has_counting_policy(fail_on: LevelName, policies: &[JudgedPolicy<'_>]) -> bool
    ensures { result ≡ list_any (has_counting_rule fail_on) policies.now }
{
    policies
        .iter()
        .any(|policy| has_counting_rule(fail_on, policy))
}

fn refusal_if(counts: bool) -> Status
    ensures { result ≡ (if counts then Refused else Success) }
{
    if counts {
        Status::Refusal
    } else {
        Status::Success
    }
}

impl PolicyReply<'_> {
    /// Returns a refusal if a finding counts.
    pub(super) fn status(&self) -> Status
        ensures { result ≡ policy_status (policy_view self.now) }
    {
        refusal_if(has_counting_policy(self.fail_on, &self.policies))
    }
}
