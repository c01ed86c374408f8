//! What is read of the service `other`, whichever service a program asks for.

ghost use Rattle.std.specs.Prelude.{◌≡◌, IfOk};
ghost use Rattle.pam_conf.specs.SurveyText.{survey_text};
ghost use Rattle.pam_conf.specs.declared.rule.Kind.{Kind as KindText};
ghost use Rattle.pam_findings.specs.host.Beside.{beside, if_begun, names_other, nothing_read};
ghost use Rattle.pam_findings.specs.host.inner.Besides.{beside_text};

use pam_conf::{Kind, RuleFiles, Survey};
use pam_text::Texts;
use std::alloc::{AllocError, Global};

/// What is read of `other` beside the services that are checked, for each kind.
#[derive(Drop)]
pub(crate) struct Beside {
    auth: Survey,
    account: Survey,
    password: Survey,
    session: Survey,
}

/// Whether `other` is one of these services.
fn names_other(services: &Texts) -> bool
    ensures { result ≡ names_other services.now }
{
    services.iter().any(|name| name == b"other".as_slice())
}

/// The survey of no file.
fn nothing_read(alloc: Global) -> Survey
    ensures { survey_text result ≡ nothing_read }
{
    Survey {
        stack: None,
        faults: Vec::new(alloc),
        reached: Vec::new(alloc),
        other_answers: false,
    }
}

/// A survey, if its walk reaches a file.
fn if_begun(alloc: Global, survey: Survey) -> Survey
    ensures { survey_text result ≡ if_begun (survey_text survey) (survey_text survey).reached }
{
    if survey.reached.is_empty() {
        return nothing_read(alloc);
    }
    survey
}

/// What is read of `other` for a kind: nothing if it is one of these services, or has no rules.
#[tactic(auto, unfolding(crate::specs::host::Beside::beside))]
fn survey_of_other(
    alloc: Global,
    rules: &RuleFiles<'_>,
    services: &Texts,
    kind: Kind,
) -> Result<Survey, AllocError>
    ensures { IfOk result (λ s. survey_text s ≡ beside rules.now services.now kind) }
{
    if names_other(services) {
        return Ok(nothing_read(alloc));
    }
    let survey = rules.survey(alloc, b"other", kind)?;
    Ok(if_begun(alloc, survey))
}

impl Beside {
    /// What is read of `other` beside these services.
    pub(crate) fn of(
        alloc: Global,
        rules: &RuleFiles<'_>,
        services: &Texts,
    ) -> Result<Beside, AllocError>
        ensures { IfOk result (λ b. (kind : KindText) → beside_text b kind ≡ beside rules.now services.now kind) }
    {
        let auth = survey_of_other(alloc, rules, services, Kind::Auth)?;
        let account = survey_of_other(alloc, rules, services, Kind::Account)?;
        let password = survey_of_other(alloc, rules, services, Kind::Password)?;
        let session = survey_of_other(alloc, rules, services, Kind::Session)?;
        Ok(Beside {
            auth,
            account,
            password,
            session,
        })
    }

    /// What is read of it for a kind.
    pub(crate) fn of_kind(&self, kind: Kind) -> &Survey
        ensures { survey_text result.now ≡ beside_text self.now kind }
    {
        match kind {
            Kind::Auth => &self.auth,
            Kind::Account => &self.account,
            Kind::Password => &self.password,
            Kind::Session => &self.session,
        }
    }
}
