//! Surveys a service: its stack, and every fault of the walk over its files.
ghost use Rattle.std.specs.Prelude.{◌≡◌, ◌<◌, ◌∷◌, ◌++◌, [], IfOk, IfSome, IsFalse, IsTrue, None, OnOk, Some, false, length};
ghost use Rattle.std.specs.Option.{option_map};
ghost use Rattle.pam_conf.specs.Resolution.{start_of};
ghost use Rattle.pam_conf.specs.inner.StartOf.{start_text};
ghost use Rattle.pam_conf.specs.Stack.{End};
ghost use Rattle.pam_conf.specs.Survey.{both_surveys, good_at, survey_from, survey_starts, survey_without_own, surveyed};
ghost use Rattle.pam_conf.specs.SurveyText.{survey_text};

use crate::conf_error::ConfError;
use crate::error::FaultKind;
use crate::progress::{Progress, reach_all};
use crate::resolution::{
    ONE_FILE, OTHER, Start, carried_start, folder_start, lower_case, no_service,
};
use crate::rule::{Form, Kind};
use crate::rule_files::RuleFiles;
use crate::stack::Stack;
use crate::trail::Trail;
use crate::walk::Walker;
use std::alloc::{AllocError, Global};

/// What the files say of a service and a kind.
#[derive(Debug, Drop)]
pub struct Survey {
    /// The stack, as far as the rules without a fault give it: a target with a fault adds nothing. `None` if a limit ends the
    /// walk, or if neither the service nor `other` has rules.
    pub stack: Option<Stack>,
    /// The faults of the walk in order; a file that is reached twice gives its faults twice. The first module past its limit is the
    /// last of them, and so is the first include or substack past its limit, where those whose target has a fault count too: the
    /// walk ends there.
    pub faults: Vec<ConfError>,
    /// The positions of the files that the walk reached, in the order in which it came to them, each once.
    pub reached: Vec<usize>,
    /// Whether `other` answers: there is one, and the service has no rules, or those of its own give an empty stack.
    pub other_answers: bool,
}

impl Survey {
    /// Whether the stack is there and has no items.
    pub fn is_empty(&self) -> bool
        ensures empty { IsTrue result → self.now.stack ≡ Some End }
        ensures other { IsFalse result → self.now.stack ≡ Some End → ⊥ }
    {
        match &self.stack {
            Some(stack) => stack.items().is_empty(),
            None => false,
        }
    }

    /// This survey and then that of `other`, whose stack it has.
    fn then(self, other: Survey) -> Result<Survey, AllocError>
        ensures { IfOk result (λ s. survey_text s ≡ both_surveys (survey_text self) (survey_text other)) }
    {
        let mut faults = self.faults;
        faults.extend_from_slice(other.faults.as_slice())?;
        let mut reached = self.reached;
        reach_all(&mut reached, other.reached.as_slice())?;
        Ok(Survey {
            stack: other.stack,
            faults,
            reached,
            other_answers: true,
        })
    }
}

/// The survey of a walk that a limit ends.
fn ended_survey(progress: Progress, error: ConfError) -> Result<Survey, AllocError>
    ensures limit { OnOk result (error.kind ≡ FaultKind.Memory → ⊥) }
    ensures survey { IfOk result (λ s. survey_text s
        ≡ record { items = None; faults = progress.noted.items ++ error ∷ []; reached = progress.reached.items; other_answers = false }) }
{
    if error.kind == FaultKind::Memory {
        return Err(AllocError);
    }
    let mut faults = progress.noted;
    faults.push(error)?;
    Ok(Survey {
        stack: None,
        faults,
        reached: progress.reached,
        other_answers: false,
    })
}

impl<'a> RuleFiles<'a> {
    /// The start of a service's rules, if it has any.
    fn start<'b>(&'b self, service: &'b [u8]) -> Option<Start<'b>>
        ensures start { option_map start_text result ≡ start_of self.now (good_at self.now) service.now }
        ensures within { IfSome result (λ s. s.file < length self.now.entries) }
    {
        match self.files.form() {
            Form::Dir => folder_start(self.files, service),
            Form::Single => {
                let file = self.files.find(ONE_FILE)?;
                let found = self.read.get(file)?;
                carried_start(found.rules.as_slice(), file, service)
            }
        }
    }

    /// The survey of the walk from `start`.
    fn survey_from<'b>(
        &'b self,
        alloc: Global,
        kind: Kind,
        start: Start<'b>,
    ) -> Result<Survey, AllocError>
        requires { start.file < length self.now.entries }
        ensures { IfOk result (λ s. survey_text s ≡ survey_from self.now kind (start_text start.entry)) }
    {
        let mut progress = Progress::from_file(alloc, start.file)?;
        let walker = Walker {
            alloc,
            files: self.files,
            read: Some(self.read.as_slice()),
            kind,
            service: start.service,
        };
        let trail = Trail::of(start.file);
        let mut items = Vec::new(alloc);
        match walker.walk_file(&mut progress, &trail, start.file, &mut items) {
            Ok(()) => Ok(Survey {
                stack: Some(Stack::of(items, progress.modules)),
                faults: progress.noted,
                reached: progress.reached,
                other_answers: false,
            }),
            Err(error) => ended_survey(progress, error),
        }
    }

    /// The survey of a service without rules.
    fn survey_other<'b>(
        &'b self,
        alloc: Global,
        kind: Kind,
        other: Option<Start<'b>>,
    ) -> Result<Survey, AllocError>
        requires { IfSome other (λ s. s.file < length self.now.entries) }
        ensures { IfOk result (λ s. survey_text s ≡ survey_without_own self.now kind (option_map start_text other.entry)) }
    {
        if let Some(other) = other {
            let mut survey = self.survey_from(alloc, kind, other)?;
            survey.other_answers = true;
            return Ok(survey);
        }
        let mut faults = Vec::new(alloc);
        faults.push(no_service())?;
        Ok(Survey {
            stack: None,
            faults,
            reached: Vec::new(alloc),
            other_answers: false,
        })
    }

    /// The survey from `own`, and from `other` if the service has no rules or an empty stack.
    fn survey_starts<'b>(
        &'b self,
        alloc: Global,
        kind: Kind,
        own: Option<Start<'b>>,
        other: Option<Start<'b>>,
    ) -> Result<Survey, AllocError>
        requires own { IfSome own (λ s. s.file < length self.now.entries) }
        requires other { IfSome other (λ s. s.file < length self.now.entries) }
        ensures { IfOk result (λ s. survey_text s
            ≡ survey_starts self.now kind (option_map start_text own.entry) (option_map start_text other.entry)) }
    {
        let Some(own) = own else {
            return self.survey_other(alloc, kind, other);
        };
        let survey = self.survey_from(alloc, kind, own)?;
        if !survey.is_empty() {
            return Ok(survey);
        }
        let Some(other) = other else {
            return Ok(survey);
        };
        survey.then(self.survey_from(alloc, kind, other)?)
    }

    /// Surveys `service`, in lowercase, for `kind`: pam.conf(5). Like `resolve`, but goes on after each fault, and takes of each
    /// file the rules of the lines without a fault; `faults` has the faults of the others. Takes time linear in the rules that it walks.
    #[tactic(auto, unfolding(crate::specs::Survey::surveyed))]
    pub fn survey(&self, alloc: Global, service: &[u8], kind: Kind) -> Result<Survey, AllocError>
        ensures { IfOk result (λ s. survey_text s ≡ surveyed self.now service.now kind) }
    {
        let service = lower_case(alloc, service)?;
        let own = self.start(service.as_slice());
        let other = self.start(OTHER);
        self.survey_starts(alloc, kind, own, other)
    }
}
