//! What is found of a stack.

ghost use Rattle.std.specs.Prelude.{◌≡◌, ◌⊎◌, ℕ, IfOk, List, OnOk, None, [], length, slice_get};
ghost use Rattle.std.proofs.Common.{replicate};
ghost use Rattle.pam_conf.specs.Files.{Folder};
ghost use Rattle.pam_conf.specs.Laws.{IsSound};
ghost use Rattle.pam_conf.specs.Survey.{faults_at, surveyed};
ghost use Rattle.pam_conf.specs.SurveyText.{survey_text};
ghost use Rattle.pam_conf.specs.Targets.{is_target};
ghost use Rattle.pam_conf.specs.declared.rule.Kind.{Kind as KindText};
ghost use Rattle.pam_findings.specs.declared.host.problem.Spot.{Spot as SpotText};
ghost use Rattle.pam_findings.specs.host.inner.Table.{Adds, ArePlaced, Puts, finding_at, with_stack};
ghost use Rattle.pam_findings.specs.host.inner.SoFar.{SoFar, host_with};
ghost use Rattle.pam_findings.specs.host.Beside.{beside};
ghost use Rattle.pam_findings.specs.host.Callers.{is_greeter};
ghost use Rattle.pam_findings.specs.host.Modules.{Modules as ModulesText};
ghost use Rattle.pam_findings.specs.host.inner.Alone.{AreKnown};
ghost use Rattle.pam_findings.specs.host.inner.Besides.{beside_text};
ghost use Rattle.pam_findings.specs.host.inner.Checking.{AddsService, AddsStack};
ghost use Rattle.pam_findings.specs.host.Inside.{HasJumpInside};
ghost use Rattle.pam_findings.specs.host.OtherAnswers.{is_only_included};
ghost use Rattle.pam_findings.specs.host.inner.Looked.{Looks};
ghost use Rattle.pam_findings.specs.host.StackProblems.{InWalk, named_in};

use crate::host::alone::{AloneTable, slots};
use crate::host::beside::Beside;
use crate::host::callers::is_greeter;
use crate::host::causes::Walked;
use crate::host::cut_off::with_cut_off;
use crate::host::inside::jumps_inside;
use crate::host::judging::{Stacked, Told, judge};
use crate::host::known_modules::Modules;
use crate::host::met::Met;
use crate::host::modules::{push_asked, push_modules};
use crate::host::other_answers::{is_only_included, other_answers, push_other};
use crate::host::problem::Spot;
use crate::host::readers::note_read;
use crate::host::table::{Table, put_stack_at_all};
use crate::host::targets::Targets;
use crate::host::walk::push_walk;
use crate::host::way_in::WayIn;
use pam_conf::laws::stack_is_sound_survey;
use pam_conf::{Files, Form, Kind, RuleFiles, Survey, is_sound};
use pam_text::Texts;
use std::alloc::{AllocError, Global};
use std::collections::BTreeMap;

/// What the services are checked by: the files, what was read of them, the names that rules include, which files only the vendor folder
/// has, what is read of `other` beside the services, and what is known of modules.
#[derive(Drop)]
pub(crate) struct Checker<'x, 'f> {
    pub alloc: Global,
    pub files: &'x Files,
    pub rules: &'x RuleFiles<'x>,
    pub targets: &'x Targets<'x>,
    /// The position from which on the files are those that only the vendor folder has.
    pub vendor_start: usize,
    pub beside: &'x Beside,
    pub modules: &'x Modules<'x, 'f>,
    ghost same: { rules.now ≡ files.now },
    ghost same_targets: { targets.now ≡ rules.now },
}

/// What is found so far: the findings, where S3 is found of each rule that does not deny or only warn; S3 of each rule that a
/// stack may ask; the stacks that read each file, by its position; the stacks whose walk a limit ended; and what is known of files by themselves.
#[derive(Drop)]
pub(crate) struct Found {
    pub table: Table,
    pub asked: Vec<Spot>,
    pub readers: Vec<Option<Met>>,
    pub cut_off: Option<Met>,
    pub alone: AloneTable,
}

impl Found {
    /// Nothing is found, and none of this many files is read.
    pub(crate) fn nothing(alloc: Global, files: usize) -> Result<Found, AllocError>
        ensures readers { IfOk result (λ f. f.readers.items ≡ replicate files None) }
        ensures found { IfOk result (λ f. (spot : SpotText) → finding_at f.table spot ≡ None) }
        ensures placed { IfOk result (λ f. ArePlaced f.table) }
        ensures asked { IfOk result (λ f. f.asked.items ≡ []) }
        ensures cut_off { IfOk result (λ f. f.cut_off ≡ None) }
        ensures alone { (folder : Folder) (modules : ModulesText) → IfOk result (λ f. AreKnown folder modules f.alone.items) }
    {
        Ok(Found {
            table: BTreeMap::new(alloc),
            asked: Vec::new(alloc),
            readers: vec![in alloc; None; files]?,
            cut_off: None,
            alone: vec![in alloc; None; slots(files)?]?,
        })
    }
}

impl Checker<'_, '_> {
    /// S12 of a stack.
    fn jumps(&self, kind: Kind, survey: &Survey) -> Result<Vec<Spot>, AllocError>
        ensures { (name : List ℕ) → survey_text survey.now ≡ surveyed self.now.rules.now name kind →
            IfOk result (λ spots. Adds (HasJumpInside self.now.rules.now name kind) [] spots.items) }
    {
        match self.files.form() {
            Form::Dir if is_sound(self.rules, survey) => {
                jumps_inside(self.alloc, self.rules, kind, &survey.reached)
            }
            Form::Dir | Form::Single => Ok(Vec::new(self.alloc)),
        }
    }

    /// Adds S12 of a stack, and the faults of the walk of `other` beside it.
    fn add_beside(
        &self,
        table: &mut Table,
        at: Stacked,
        name: &[u8],
        survey: &Survey,
    ) -> Result<(), AllocError>
        requires survey { survey_text survey.now ≡ surveyed self.now.rules.now name.now at.kind }
        ensures { OnOk result (Puts (λ spot. HasJumpInside self.now.rules.now name.now at.kind spot
            ⊎ InWalk (beside_text self.now.beside.now at.kind).faults spot spot.problem) (with_stack at.service at.kind) table.old table.new) }
    {
        let mut spots = self.jumps(at.kind, survey)?;
        push_walk(&mut spots, &self.beside.of_kind(at.kind).faults)?;
        put_stack_at_all(table, &spots, at.service, at.kind)?;
        Ok(())
    }

    /// The problems of a stack itself, the rules that it may ask, and what is told of it.
    fn look(
        &self,
        table: &mut AloneTable,
        asked: &mut Vec<Spot>,
        at: Stacked,
        name: &[u8],
        survey: Survey,
    ) -> Result<(Vec<Spot>, Told), AllocError>
        requires known { AreKnown self.now.rules.now self.now.modules.now table.old.items }
        requires named { at.named ≡ named_in self.now.files.now.form at.service }
        requires home { at.home ≡ slice_get (survey_text survey).reached 0 }
        requires included { at.is_only_included ≡ is_only_included self.now.rules.now name.now (survey_text survey) }
        requires target { at.is_included ≡ is_target self.now.rules.now name.now }
        requires greeter { at.is_greeter ≡ is_greeter name.now }
        ensures known { OnOk result (AreKnown self.now.rules.now self.now.modules.now table.new.items) }
        ensures looks { survey_text survey ≡ surveyed self.now.rules.now name.now at.kind →
            IfOk result (λ r. Looks self.now.rules.now self.now.modules.now name.now at.service at.kind (survey_text survey) r.0.items
            asked.old.items asked.new.items r.1) }
    {
        stack_is_sound_survey();
        let is_sound = is_sound(self.rules, &survey);
        let mut spots = Vec::new(self.alloc);
        push_walk(&mut spots, &survey.faults)?;
        let Survey { stack, reached, .. } = survey;
        let Some(stack) = stack else {
            return Ok((spots, Told::nothing()));
        };
        push_modules(&mut spots, self.modules, name, at.kind, &stack)?;
        if !is_sound {
            push_asked(asked, &stack, &[])?;
            return Ok((spots, Told::nothing()));
        }
        let walked = Walked {
            checker: self,
            reached: &reached,
        };
        let told = judge(&walked, table, &mut spots, asked, at, stack)?;
        Ok((spots, told))
    }

    /// The service that S1 and S2 of its stacks name: in pam.conf the rules of all services are in one file.
    fn named(&self, service: usize) -> Option<usize>
        ensures { result ≡ named_in self.now.files.now.form service }
    {
        match self.files.form() {
            Form::Dir => None,
            Form::Single => Some(service),
        }
    }

    /// Adds what the stack of a service for a kind meets. Returns the first way in, if it is one of `auth`.
    fn add_stack(
        &self,
        found: &mut Found,
        service: usize,
        name: &[u8],
        kind: Kind,
    ) -> Result<Option<WayIn>, AllocError>
        requires readers { length found.old.readers.items ≡ length self.now.files.now.entries }
        requires known { AreKnown self.now.rules.now self.now.modules.now found.old.alone.items }
        ensures known { OnOk result (AreKnown self.now.rules.now self.now.modules.now found.new.alone.items) }
        ensures adds { IfOk result (AddsStack self.now.files.now self.now.modules.now (beside_text self.now.beside.now kind) service name.now kind
            found.old found.new) }
    {
        let survey = self.rules.survey(self.alloc, name, kind)?;
        note_read(
            &mut found.readers,
            self.files.form(),
            &survey.reached,
            &self.beside.of_kind(kind).reached,
            service,
            kind,
        )?;
        found.cut_off = with_cut_off(found.cut_off, &survey, service, kind)?;
        let at = Stacked {
            service,
            kind,
            named: self.named(service),
            home: survey.reached.first().copied(),
            is_only_included: is_only_included(self.targets, name, &survey),
            is_included: self.targets.has(name),
            is_greeter: is_greeter(name),
        };
        self.add_beside(&mut found.table, at, name, &survey)?;
        let left = other_answers(self, name, kind, &survey)?;
        let (mut spots, told) = self.look(&mut found.alone, &mut found.asked, at, name, survey)?;
        push_other(&mut spots, at, left, told.lets_nobody_in)?;
        put_stack_at_all(&mut found.table, &spots, service, kind)?;
        Ok(told.way_in)
    }

    /// Adds what the stacks of a service meet. Returns the first way into its stack of `auth`, if there is one.
    pub(crate) fn add_service(
        &self,
        found: &mut Found,
        service: usize,
        name: &[u8],
    ) -> Result<Option<WayIn>, AllocError>
        requires readers { length found.old.readers.items ≡ length self.now.files.now.entries }
        requires known { AreKnown self.now.rules.now self.now.modules.now found.old.alone.items }
        ensures known { OnOk result (AreKnown self.now.rules.now self.now.modules.now found.new.alone.items) }
        ensures adds { IfOk result (AddsService self.now.files.now self.now.modules.now (beside_text self.now.beside.now) service name.now found.old found.new) }
    {
        let way = self.add_stack(found, service, name, Kind::Auth)?;
        let _ = self.add_stack(found, service, name, Kind::Account)?;
        let _ = self.add_stack(found, service, name, Kind::Password)?;
        let _ = self.add_stack(found, service, name, Kind::Session)?;
        Ok(way)
    }

    /// Adds what the stacks of these services meet. Returns for each service the first way into its stack of `auth`.
    pub(crate) fn add_all(
        &self,
        found: &mut Found,
        services: &Texts,
    ) -> Result<Vec<Option<WayIn>>, AllocError>
        requires beside { (kind : KindText) → beside_text self.now.beside.now kind ≡ beside self.now.files.now services.now kind }
        requires known { AreKnown self.now.rules.now self.now.modules.now found.old.alone.items }
        requires sofar { SoFar (host_with self.now.files.now self.now.vendor_start services.now self.now.modules.now) 0 found.old [] }
        ensures { IfOk result (λ ways. SoFar (host_with self.now.files.now self.now.vendor_start services.now self.now.modules.now)
            (length services.now) found.new ways.items) }
    {
        let mut ways_in = Vec::new(self.alloc);
        for name in services.iter() {
            let way = self.add_service(found, ways_in.len(), name)?;
            ways_in.push(way)?;
        }
        Ok(ways_in)
    }
}
