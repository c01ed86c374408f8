//! The walk over a service's file and the files that its rules include.
ghost use Rattle.std.specs.Prelude.{◌≡◌, ◌<◌, ◌-◌, ◌==◌, ◌∷◌, ◌++◌, [], Err, None, Some, false, if◌then◌else◌, is_some, length, map, true};
ghost use Rattle.std.specs.Prelude.{IfErr, IfOk, IsErrAnd, IsOkAnd, MatchOption, MatchResult, OnOk};
ghost use Rattle.std.specs.List.{list_any};
ghost use Rattle.std.specs.Option.{option_map};
ghost use Rattle.pam_conf.specs.Files.{position_of};
ghost use Rattle.pam_conf.specs.ItemsOf.{items_of, module_text};
ghost use Rattle.pam_conf.specs.inner.Progress.{GoesOn, HasRules, IsRead, IsTable, Passes, Refuses, count_of, deeper_in, ending, file_walk, in_file, of_kind};
ghost use Rattle.pam_conf.specs.inner.Progress.{reads_by, with_fault};
ghost use Rattle.pam_conf.specs.inner.FilesRead.{kind_rules};
ghost use Rattle.pam_conf.specs.inner.Calls.{arguments_in, control_in, path_in};
ghost use Rattle.pam_conf.specs.inner.Kept.{call_words, kept_view};
ghost use Rattle.pam_conf.specs.Tells.{ErrorTells, UnlessMemory};
ghost use Rattle.pam_text.specs.Gives.{Gives};
ghost use Rattle.pam_conf.specs.Survey.{with_file};
ghost use Rattle.pam_conf.specs.Walk.{counts, failed, fault_at, followed, include_walk, rule_walk, rules_at, rules_walk, target_walk};
ghost use Rattle.pam_conf.specs.declared.stack.TheConstants.{MAX_MODULES};
ghost use Rattle.pam_conf.specs.declared.trail.TheConstants.{MAX_OPEN_FILES};
ghost use Rattle.pam_conf.specs.declared.walk.TheConstants.{MAX_FOLLOWS};

use crate::call::Call;
use crate::conf_error::ConfError;
use crate::error::FaultKind;
use crate::faults::fault;
use crate::files::Files;
use crate::kept::{KeptBody, KeptRule, has_service, is_of};
use crate::lines::file_rules;
use crate::progress::{Progress, reach};
use crate::rule::Kind;
use crate::rule_files::FileRules;
use crate::stack::{Item, MAX_MODULES, Module, Sub};
use crate::trail::Trail;
use crate::wanted::Wanted;
use std::alloc::{AllocError, AllocFailed, Global};

/// The maximum number of includes and substacks that a walk follows; one more is `TooManyFollowed`. In a survey, which goes on after
/// faults, one whose target has a fault counts too.
pub const MAX_FOLLOWS: usize = 256;

/// Where a rule is.
#[derive(Clone, Copy, Debug, PartialEq, Eq)]
pub struct Location {
    /// The position of the file in `Files`.
    pub file: usize,
    pub line: usize,
}

/// The module that a rule calls.
fn module_of(
    alloc: Global,
    number: usize,
    file: usize,
    rule: &KeptRule,
    call: &Call,
) -> Result<Module, AllocError>
    ensures { let words = call_words call.now in
        IfOk result (λ m. module_text m ≡ record {
          number = number;
          dashed = rule.now.dashed;
          control = control_in words;
          path = path_in words;
          arguments = arguments_in words;
          file = file;
          line = rule.now.line;
        }) }
{
    let (control, path, arguments) = call.parts(alloc)?;
    Ok(Module {
        number,
        dashed: rule.dashed,
        control,
        path,
        arguments,
        file,
        line: rule.line,
    })
}

/// A walk for one kind, and in pam.conf for one service.
#[derive(Drop)]
pub(crate) struct Walker<'a> {
    pub alloc: Global,
    pub files: &'a Files,
    /// What was read of each file before; the walk then goes on after faults. `None` if it reads a file when it reaches it,
    /// and ends at the first fault.
    pub read: Option<&'a [FileRules]>,
    pub kind: Kind,
    pub service: Option<&'a [u8]>,
}

impl Walker<'_> {
    /// Whether `rule` applies to the kind, and in pam.conf to the service.
    fn counts(&self, rule: &KeptRule) -> bool
        ensures { result ≡ counts self.now.kind (option_map (λ s. s.now) self.now.service) (kept_view rule.now) }
    {
        let is_carried = match self.service {
            Some(service) => has_service(rule, service),
            None => true,
        };
        is_of(rule, self.kind) && is_carried
    }

    /// Takes the rules of a file out of the table, or reads them.
    fn take_rules(
        &self,
        table: &mut Vec<Option<Vec<KeptRule>>>,
        file: usize,
    ) -> Result<Vec<KeptRule>, ConfError>
        requires table { IsTable self.now.files.now self.now.kind table.old.items }
        requires within { file < length self.now.files.now.entries }
        ensures table { IsTable self.now.files.now self.now.kind table.new.items }
        ensures rules { Gives ErrorTells (λ rules. map kept_view rules.items) result (in_file file (of_kind self.now.kind (rules_at self.now.files.now file))) }
    {
        let taken = std::mem::replace(&mut table[file], None);
        if let Some(rules) = taken {
            return Ok(rules);
        }
        file_rules(self.alloc, self.files, file, Wanted::OfKind(self.kind))
    }

    /// Notes the fault of a target, which counts as a follow, if the walk goes on after faults; else the fault is the error.
    #[tactic(auto, unfolding(crate::specs::inner::Progress::ending))]
    fn meet(
        &self,
        progress: &mut Progress,
        at: Location,
        kind: FaultKind,
    ) -> Result<Option<usize>, ConfError>
        requires { kind ≡ FaultKind.Memory → ⊥ }
        ensures table { progress.new.table ≡ progress.old.table }
        ensures noted { let met = fault_at at.file at.line kind in
            IfOk result (λ o. (o ≡ None) × (ending (is_some self.now.read) (count_of progress.old) met ≡ None)
            × (count_of progress.new ≡ with_fault met (count_of progress.old))) }
        ensures ended { let met = fault_at at.file at.line kind in
            IfErr result (λ e. UnlessMemory e e.kind ((ending (is_some self.now.read) (count_of progress.old) met ≡ Some e)
            × (count_of progress.new ≡ count_of progress.old))) }
    {
        if self.read.is_none() {
            return Err(fault(at.file, at.line, kind));
        }
        if progress.follows == MAX_FOLLOWS {
            return Err(fault(at.file, at.line, FaultKind::TooManyFollowed));
        }
        progress.noted.push(fault(at.file, at.line, kind))?;
        progress.follows += 1;
        Ok(None)
    }

    /// Walks `file`, the last of `trail`, and appends its items to `items`.
    #[cycle(walk)]
    pub(crate) fn walk_file(
        &self,
        progress: &mut Progress,
        trail: &Trail,
        file: usize,
        items: &mut Vec<Item>,
    ) -> Result<(), ConfError>
        requires table { HasRules self.now.files.now self.now.kind self.now.read progress.old.table.items }
        requires within { file < length self.now.files.now.entries }
        ensures table { OnOk result (HasRules self.now.files.now self.now.kind self.now.read progress.new.table.items) }
        ensures walked { GoesOn self.now progress.old items.old.items (file_walk self.now trail.now file) progress.new items.new.items result }
    {
        match self.read {
            None => {
                let rules = self.take_rules(&mut progress.table, file)?;
                self.walk_rules(progress, trail, file, rules.as_slice(), items)?;
                progress.table[file] = Some(rules);
                Ok(())
            }
            Some(read) => {
                let Some(found) = read.get(file) else {
                    unreachable!()
                };
                self.walk_found(progress, trail, file, found, items)
            }
        }
    }

    /// Walks `file`, the last of `trail`, by these rules if they have been read before.
    pub(crate) fn walk_start(
        &self,
        progress: &mut Progress,
        trail: &Trail,
        file: usize,
        read: Option<&[KeptRule]>,
        items: &mut Vec<Item>,
    ) -> Result<(), ConfError>
        requires table { HasRules self.now.files.now self.now.kind self.now.read progress.old.table.items }
        requires within { file < length self.now.files.now.entries }
        requires read { IsRead self.now.files.now (reads_by self.now.files.now self.now.read) self.now.kind
            (option_map (λ s. s.now) self.now.service) file (option_map (λ r. r.now) read) }
        ensures table { OnOk result (HasRules self.now.files.now self.now.kind self.now.read progress.new.table.items) }
        ensures walked { GoesOn self.now progress.old items.old.items (file_walk self.now trail.now file) progress.new items.new.items result }
    {
        match read {
            None => self.walk_file(progress, trail, file, items),
            Some(rules) => self.walk_rules(progress, trail, file, rules, items),
        }
    }

    /// Walks the rules of `file` that apply to the kind, where the file was read before.
    #[cycle(walk)]
    fn walk_found(
        &self,
        progress: &mut Progress,
        trail: &Trail,
        file: usize,
        found: &FileRules,
        items: &mut Vec<Item>,
    ) -> Result<(), ConfError>
        requires table { HasRules self.now.files.now self.now.kind self.now.read progress.old.table.items }
        ensures table { OnOk result (HasRules self.now.files.now self.now.kind self.now.read progress.new.table.items) }
        ensures walked { GoesOn self.now progress.old items.old.items
            (rules_walk self.now.files.now (reads_by self.now.files.now self.now.read) self.now.kind (option_map (λ s. s.now) self.now.service)
            (deeper_in self.now trail.now) trail.now file (kind_rules self.now.kind found.now)) progress.new items.new.items result }
    {
        for index in found.by_kind.indices(self.kind) {
            if let Some(rule) = found.rules.get(*index) {
                self.walk_rule(progress, trail, file, rule, items)?;
            }
        }
        Ok(())
    }

    /// Walks rules of `file`.
    #[cycle(walk)]
    fn walk_rules(
        &self,
        progress: &mut Progress,
        trail: &Trail,
        file: usize,
        rules: &[KeptRule],
        items: &mut Vec<Item>,
    ) -> Result<(), ConfError>
        requires table { HasRules self.now.files.now self.now.kind self.now.read progress.old.table.items }
        ensures table { OnOk result (HasRules self.now.files.now self.now.kind self.now.read progress.new.table.items) }
        ensures walked { GoesOn self.now progress.old items.old.items
            (rules_walk self.now.files.now (reads_by self.now.files.now self.now.read) self.now.kind (option_map (λ s. s.now) self.now.service)
            (deeper_in self.now trail.now) trail.now file (map kept_view rules.now)) progress.new items.new.items result }
    {
        for rule in rules {
            self.walk_rule(progress, trail, file, rule, items)?;
        }
        Ok(())
    }

    /// Walks a rule of `file`.
    #[cycle(walk)]
    fn walk_rule(
        &self,
        progress: &mut Progress,
        trail: &Trail,
        file: usize,
        rule: &KeptRule,
        items: &mut Vec<Item>,
    ) -> Result<(), ConfError>
        requires table { HasRules self.now.files.now self.now.kind self.now.read progress.old.table.items }
        ensures table { OnOk result (HasRules self.now.files.now self.now.kind self.now.read progress.new.table.items) }
        ensures walked { GoesOn self.now progress.old items.old.items
            (rule_walk self.now.files.now (reads_by self.now.files.now self.now.read) self.now.kind (option_map (λ s. s.now) self.now.service)
            (deeper_in self.now trail.now) trail.now file (kept_view rule.now)) progress.new items.new.items result }
    {
        if !self.counts(rule) {
            return Ok(());
        }
        let at = Location {
            file,
            line: rule.line,
        };
        match &rule.body {
            KeptBody::Module(call) => {
                if progress.modules == MAX_MODULES {
                    return Err(fault(file, at.line, FaultKind::TooManyModules));
                }
                let number = progress.modules + 1;
                let module = module_of(self.alloc, number, file, rule, call)?;
                items.push(Item::Module(module))?;
                progress.modules = number;
                Ok(())
            }
            KeptBody::Include(target) => {
                self.follow(progress, trail, at, target.as_slice(), items)?;
                Ok(())
            }
            KeptBody::Sub(target) => {
                let mut inner = Vec::new(self.alloc);
                let found = self.follow(progress, trail, at, target.as_slice(), &mut inner)?;
                let Some(target) = found else {
                    return Ok(());
                };
                let sub = Sub {
                    file,
                    line: at.line,
                    target,
                    items: inner,
                };
                items.push(Item::Sub(sub))?;
                Ok(())
            }
        }
    }

    /// The position of the target of a rule, if it can be followed.
    fn find(&self, trail: &Trail, target: &[u8]) -> Result<usize, FaultKind>
        ensures found { IfOk result (λ p. (position_of target.now self.now.files.now.entries ≡ Some p) × (list_any (λ q. q == p) trail.now ≡ false)
            × (MAX_OPEN_FILES - length trail.now ≡ 0 → ⊥)) }
        ensures fault { IfErr result (λ fault. target_walk (deeper_in self.now trail.now) trail.now
            (position_of target.now self.now.files.now.entries) ≡ Err fault) }
        ensures own { IfErr result (λ fault. fault ≡ FaultKind.Memory → ⊥) }
    {
        let Some(position) = self.files.find(target) else {
            return Err(FaultKind::NoService);
        };
        if trail.contains(position) {
            return Err(FaultKind::Cycle);
        }
        if trail.room() == 0 {
            return Err(FaultKind::TooDeep);
        }
        Ok(position)
    }

    /// Notes that `file` is reached, if the walk goes on after faults.
    fn reach(&self, reached: &mut Vec<usize>, file: usize) -> Result<(), AllocFailed<usize>>
        ensures { OnOk result (reached.new.items ≡ if is_some self.now.read then with_file reached.old.items file else reached.old.items) }
    {
        if self.read.is_none() {
            return Ok(());
        }
        reach(reached, file)
    }

    /// Follows the target of the rule at `at`, and returns the target's position; `None` if a fault was noted in its place.
    #[cycle(walk)]
    fn follow(
        &self,
        progress: &mut Progress,
        trail: &Trail,
        at: Location,
        target: &[u8],
        items: &mut Vec<Item>,
    ) -> Result<Option<usize>, ConfError>
        requires table { HasRules self.now.files.now self.now.kind self.now.read progress.old.table.items }
        ensures table { OnOk result (HasRules self.now.files.now self.now.kind self.now.read progress.new.table.items) }
        ensures walked { let found = target_walk (deeper_in self.now trail.now) trail.now (position_of target.now self.now.files.now.entries) in
            MatchResult result
            (λ o. MatchOption o
            (IsErrAnd found (λ fault. Passes (is_some self.now.read) (count_of progress.old) (items_of items.old.items)
            (failed (fault_at at.file at.line fault)) (count_of progress.new) (items_of items.new.items)))
            (λ position. IsOkAnd found (λ t. (t.0 ≡ position) × Passes (is_some self.now.read) (count_of progress.old) (items_of items.old.items)
            (followed at.file at.line t) (count_of progress.new) (items_of items.new.items))))
            (λ e. Refuses (is_some self.now.read) (count_of progress.old) (include_walk at.file at.line found) (count_of progress.new) e) }
    {
        let position = match self.find(trail, target) {
            Ok(position) => position,
            Err(kind) => {
                return self.meet(progress, at, kind);
            }
        };
        if progress.follows == MAX_FOLLOWS {
            return Err(fault(at.file, at.line, FaultKind::TooManyFollowed));
        }
        progress.follows += 1;
        self.reach(&mut progress.reached, position)?;
        let longer = trail.with(position);
        self.walk_file(progress, &longer, position, items)?;
        Ok(Some(position))
    }
}
