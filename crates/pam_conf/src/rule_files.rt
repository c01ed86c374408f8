//! The rules and faults of all files, each file read once for all services and kinds.
ghost use Rattle.std.specs.Prelude.{◌≡◌, ◌∷◌, ◌++◌, [], Err, IfOk, OnOk, length, map, slice_get};
ghost use Rattle.std.specs.List.{cons_option, list_any};
ghost use Rattle.std.specs.Option.{option_map};
ghost use Rattle.std.specs.Result.{result_transpose};
ghost use Rattle.pam_text.specs.Text.{text_of, lines_of};
ghost use Rattle.pam_conf.specs.FileRules.{faults_among, file_results, good_rules, line_results, own_faults, rules_among};
ghost use Rattle.pam_conf.specs.Files.{bytes_at};
ghost use Rattle.pam_conf.specs.inner.FilesRead.{IsIndexed, file_view};
ghost use Rattle.pam_conf.specs.inner.Kept.{kept_view};
ghost use Rattle.pam_conf.specs.Lines.{at_line, line_rule_of};
ghost use Rattle.pam_conf.specs.Rule.{rule_view};
ghost use Rattle.pam_conf.specs.Targets.{is_target, names_target};

use crate::by_kind::ByKind;
use crate::error::{FaultKind, RuleFault};
use crate::files::Files;
use crate::kept::{KeptBody, KeptRule, whole_rules};
use crate::lines::{is_blank_line, next_filled_line, numbered_rule, source_fault};
use crate::rule::{Form, Rule};
use pam_text::{Line, Source, Text};
use std::alloc::{AllocError, Global};
use std::marker::Model;

/// What is read of a file: the rules of its lines, and its faults.
#[derive(Drop)]
pub(crate) struct FileRules {
    pub rules: Vec<KeptRule>,
    pub faults: Vec<RuleFault>,
    /// Which rules apply to each kind, so that a walk for one does not pass the others.
    pub by_kind: ByKind,
}

impl FileRules {
    /// A file without rules and faults. Does not allocate.
    fn new(alloc: Global) -> FileRules
        ensures rules { result.rules.items ≡ [] }
        ensures faults { result.faults.items ≡ [] }
        ensures by_kind { IsIndexed result }
    {
        FileRules {
            rules: Vec::new(alloc),
            faults: Vec::new(alloc),
            by_kind: ByKind::new(alloc),
        }
    }

    /// Appends the rule of a line, or its fault, if it has one.
    fn take_line(&mut self, alloc: Global, form: Form, line: Line<'_>) -> Result<(), AllocError>
        ensures rules { OnOk result (let meant = result_transpose (at_line line.entry.number (line_rule_of form line.entry.number line.entry.bytes.now)) in
            map kept_view self.new.rules.items ≡ map kept_view self.old.rules.items ++ rules_among (cons_option meant [])) }
        ensures faults { OnOk result (let meant = result_transpose (at_line line.entry.number (line_rule_of form line.entry.number line.entry.bytes.now)) in
            self.new.faults.items ≡ self.old.faults.items ++ faults_among (cons_option meant [])) }
        ensures by_kind { OnOk result (IsIndexed self.old → IsIndexed self.new) }
    {
        match numbered_rule(alloc, form, line) {
            Ok(None) => Ok(()),
            Ok(Some(rule)) => self.take_rule(rule),
            Err(fault) => self.take_fault(fault),
        }
    }

    /// Appends a rule.
    fn take_rule(&mut self, rule: KeptRule) -> Result<(), AllocError>
        ensures rules { OnOk result (map kept_view self.new.rules.items ≡ map kept_view self.old.rules.items ++ kept_view rule ∷ []) }
        ensures faults { self.new.faults ≡ self.old.faults }
        ensures by_kind { OnOk result (IsIndexed self.old → IsIndexed self.new) }
    {
        self.by_kind.add(&rule, self.rules.len())?;
        self.rules.push(rule)?;
        Ok(())
    }

    /// Appends a fault of a line. A failed allocation is no fault of the file.
    fn take_fault(&mut self, fault: RuleFault) -> Result<(), AllocError>
        ensures own { OnOk result (fault.kind ≡ FaultKind.Memory → ⊥) }
        ensures rules { self.new.rules ≡ self.old.rules }
        ensures by_kind { self.new.by_kind ≡ self.old.by_kind }
        ensures faults { OnOk result (self.new.faults.items ≡ self.old.faults.items ++ fault ∷ []) }
    {
        match fault.kind {
            FaultKind::Memory => Err(AllocError),
            _ => {
                self.faults.push(fault)?;
                Ok(())
            }
        }
    }
}

/// Reads all lines of a file.
fn read_lines(alloc: Global, form: Form, source: Source<'_>) -> Result<FileRules, AllocError>
    ensures rules { IfOk result (λ f. map kept_view f.rules.items ≡ rules_among (line_results form (lines_of (text_of 1 source.entry.bytes.now)))) }
    ensures faults { IfOk result (λ f. f.faults.items ≡ faults_among (line_results form (lines_of (text_of 1 source.entry.bytes.now)))) }
    ensures by_kind { IfOk result (λ f. IsIndexed f) }
{
    let mut text = Text::of(source);
    let mut joined = Vec::new(alloc);
    let mut file = FileRules::new(alloc);
    while let Some(line) = next_filled_line(&mut text, &mut joined)? {
        if !is_blank_line(line.bytes) {
            file.take_line(alloc, form, line)?;
        }
    }
    Ok(file)
}

/// A file with this fault alone.
fn faulty_file(alloc: Global, fault: RuleFault) -> Result<FileRules, AllocError>
    ensures rules { IfOk result (λ f. map kept_view f.rules.items ≡ rules_among (Err fault ∷ [])) }
    ensures faults { IfOk result (λ f. f.faults.items ≡ faults_among (Err fault ∷ [])) }
    ensures by_kind { IfOk result (λ f. IsIndexed f) }
{
    let mut file = FileRules::new(alloc);
    file.faults.push(fault)?;
    Ok(file)
}

/// Reads a file.
#[tactic(auto, unfolding(crate::specs::FileRules::file_results))]
fn read_file(alloc: Global, form: Form, bytes: &[u8]) -> Result<FileRules, AllocError>
    ensures rules { IfOk result (λ f. map kept_view f.rules.items ≡ good_rules form bytes.now) }
    ensures faults { IfOk result (λ f. f.faults.items ≡ own_faults form bytes.now) }
    ensures by_kind { IfOk result (λ f. IsIndexed f) }
{
    match Source::of(bytes) {
        Ok(source) => read_lines(alloc, form, source),
        Err(fault) => faulty_file(alloc, source_fault(fault)),
    }
}

/// Whether a rule names the file of this name as its target.
fn names_target(rule: &KeptRule, name: &[u8]) -> bool
    ensures { result ≡ names_target name.now (kept_view rule.now) }
{
    match &rule.body {
        KeptBody::Module(_) => false,
        KeptBody::Include(target) | KeptBody::Sub(target) => name == target.as_slice(),
    }
}

/// Whether one of these rules names the file of this name as its target.
fn rules_name(rules: &[KeptRule], name: &[u8]) -> bool
    ensures { result ≡ list_any (λ rule. names_target name.now (kept_view rule)) rules.now }
{
    rules.iter().any(|rule| names_target(rule, name))
}

/// Whether a rule of this file names the file of this name as its target.
fn file_names(file: &FileRules, name: &[u8]) -> bool
    ensures { result ≡ list_any (names_target name.now) (file_view file.now).rules }
{
    rules_name(file.rules.as_slice(), name)
}

/// Whether a rule of one of these files names the file of this name as its target.
fn files_name(files: &[FileRules], name: &[u8]) -> bool
    ensures { result ≡ list_any (λ f. list_any (names_target name.now) (file_view f).rules) files.now }
{
    files.iter().any(|file| file_names(file, name))
}

/// The rules and faults of `Files`. As a value of a contract it is these files.
#[derive(Drop)]
pub struct RuleFiles<'a> {
    pub(crate) files: &'a Files,
    pub(crate) read: Vec<FileRules>,
}

impl<'a> Model for RuleFiles<'a> {
    ghost use Rattle.std.specs.Prelude.{◌≡◌, map};
    ghost use Rattle.pam_conf.specs.Files.{Folder};
    ghost use Rattle.pam_conf.specs.inner.FileRules.{files_read};
    ghost use Rattle.pam_conf.specs.inner.FilesRead.{file_view};

    ghost Value = { Folder };

    ghost view = { λ r. r.files.now };

    ghost invariant = { λ r. map file_view r.read.items ≡ files_read r.files.now };
}

impl<'a> RuleFiles<'a> {
    /// Reads each file once, line by line: a line with a fault does not hide the lines after it. Takes time linear in the bytes.
    pub fn read(alloc: Global, files: &'a Files) -> Result<RuleFiles<'a>, AllocError>
        ensures { IfOk result (λ read. read ≡ files.now) }
    {
        let mut read = Vec::with_capacity(alloc, files.len())?;
        for position in 0..files.len() {
            let bytes = files.bytes(position).unwrap_or(b"");
            read.push(read_file(alloc, files.form(), bytes)?)?;
        }
        Ok(RuleFiles { files, read })
    }

    /// The number of files.
    pub fn len(&self) -> usize
        ensures { result ≡ length self.now.entries }
    {
        self.files.len()
    }

    /// The name of the file at `position`, counted from 0.
    pub fn name(&self, position: usize) -> Option<&[u8]>
        ensures { option_map (λ n. n.now) result ≡ option_map (λ f. f.0) (slice_get self.now.entries position) }
    {
        self.files.name(position)
    }

    /// All faults of the file at `position`, in the order of lines. A file that is too long (E16) or has a NUL byte (E1) has
    /// that fault alone.
    pub fn faults(&self, position: usize) -> Option<&[RuleFault]>
        ensures { option_map (λ faults. faults.now) result ≡ option_map (own_faults self.now.form) (bytes_at position self.now.entries) }
    {
        let file = self.read.get(position)?;
        Some(file.faults.as_slice())
    }

    /// Whether a rule without a fault includes the file of this name, or has it as a substack. Takes time linear in the rules.
    pub fn is_target(&self, name: &[u8]) -> bool
        ensures { result ≡ is_target self.now name.now }
    {
        files_name(self.read.as_slice(), name)
    }

    /// The rules of the lines of the file at `position` that have no fault, in order.
    pub fn rules(&self, alloc: Global, position: usize) -> Result<Option<Vec<Rule>>, AllocError>
        ensures { IfOk result (λ found. option_map (λ rules. map rule_view rules.items) found
            ≡ option_map (good_rules self.now.form) (bytes_at position self.now.entries)) }
    {
        let Some(file) = self.read.get(position) else {
            return Ok(None);
        };
        Ok(Some(whole_rules(alloc, file.rules.as_slice())?))
    }
}
