//! The list of a file: its items, each with the includes by which it came in.
ghost use Rattle.std.specs.Prelude.{◌≡◌, ◌<◌, ◌∷◌, ◌++◌, [], OnOk, IfOk, length, map};
ghost use Rattle.pam_conf.specs.inner.Kept.{kept_view};
ghost use Rattle.pam_conf.specs.Listed.{file_listed, further, included, listed, rule_listed};
ghost use Rattle.pam_conf.specs.ListedText.{listed_text};
ghost use Rattle.pam_conf.specs.Files.{position_of};

use crate::kept::{KeptBody, KeptRule, is_of};
use crate::rule::Kind;
use crate::rule_files::RuleFiles;
use crate::trail::MAX_OPEN_FILES;
use crate::walk::Location;
use pam_codes::Control;
use std::alloc::{AllocError, Global};

/// An item of a list: a module or a substack.
#[derive(Debug, Drop)]
pub struct Listed {
    /// The position of the rule's file in `Files`.
    pub file: usize,
    pub line: usize,
    /// The control of a module; `None` for a substack.
    pub control: Option<Control>,
    /// The places of the rules by which it came in, the outermost first; empty for an item of the file with which the list begins.
    pub includes: Vec<Location>,
}

/// Lists the items of files for one kind.
#[derive(Drop)]
struct Lister<'a> {
    alloc: Global,
    rules: &'a RuleFiles<'a>,
    kind: Kind,
}

impl Lister<'_> {
    /// Appends an item.
    fn push(
        &self,
        at: Location,
        control: Option<Control>,
        includes: &[Location],
        items: &mut Vec<Listed>,
    ) -> Result<(), AllocError>
        ensures { OnOk result (map listed_text items.new.items ≡ map listed_text items.old.items
            ++ record { file = at.file; line = at.line; control = control; includes = includes.now } ∷ []) }
    {
        let includes = includes.to_vec(self.alloc)?;
        items.push(Listed {
            file: at.file,
            line: at.line,
            control,
            includes,
        })?;
        Ok(())
    }

    /// Appends the items of a file, where `room` more files may be opened.
    #[cycle(list)]
    fn list_file(
        &self,
        room: usize,
        includes: &[Location],
        file: usize,
        items: &mut Vec<Listed>,
    ) -> Result<(), AllocError>
        requires within { file < length self.now.rules.now.entries }
        ensures { OnOk result (map listed_text items.new.items ≡ map listed_text items.old.items
            ++ file_listed self.now.rules.now self.now.kind room includes.now file) }
    {
        let rules = self.rules;
        let Some(found) = rules.read.get(file) else {
            unreachable!()
        };
        for index in found.by_kind.indices(self.kind) {
            if let Some(rule) = found.rules.get(*index) {
                self.list_rule(room, includes, file, rule, items)?;
            }
        }
        Ok(())
    }

    /// Appends the items that a rule of a file brings in.
    #[cycle(list)]
    fn list_rule(
        &self,
        room: usize,
        includes: &[Location],
        file: usize,
        rule: &KeptRule,
        items: &mut Vec<Listed>,
    ) -> Result<(), AllocError>
        ensures { OnOk result (map listed_text items.new.items ≡ map listed_text items.old.items
            ++ rule_listed self.now.rules.now self.now.kind (further self.now.rules.now self.now.kind room) includes.now file (kept_view rule.now)) }
    {
        if !is_of(rule, self.kind) {
            return Ok(());
        }
        let at = Location {
            file,
            line: rule.line,
        };
        match &rule.body {
            KeptBody::Module(call) => self.push(at, Some(call.control()), includes, items),
            KeptBody::Sub(_) => self.push(at, None, includes, items),
            KeptBody::Include(target) => {
                self.list_target(room, includes, at, target.as_slice(), items)
            }
        }
    }

    /// Appends the items of the target of an include.
    #[cycle(list)]
    fn list_target(
        &self,
        room: usize,
        includes: &[Location],
        at: Location,
        target: &[u8],
        items: &mut Vec<Listed>,
    ) -> Result<(), AllocError>
        ensures { OnOk result (map listed_text items.new.items ≡ map listed_text items.old.items
            ++ included self.now.rules.now self.now.kind (further self.now.rules.now self.now.kind room) (includes.now ++ at ∷ [])
            (position_of target.now self.now.rules.now.entries)) }
    {
        if room == 0 {
            return Ok(());
        }
        let rules = self.rules;
        let Some(file) = rules.files.find(target) else {
            return Ok(());
        };
        let mut longer = includes.to_vec(self.alloc)?;
        longer.push(at)?;
        self.list_file(room - 1, longer.as_slice(), file, items)
    }
}

impl RuleFiles<'_> {
    /// The list of the file at `file`, for a kind: the items of its rules without a fault, and in place of each include those of
    /// its target. A target that is not there adds nothing, nor does one past `MAX_OPEN_FILES` files.
    pub fn list(&self, alloc: Global, kind: Kind, file: usize) -> Result<Vec<Listed>, AllocError>
        ensures { IfOk result (λ items. map listed_text items.items ≡ listed self.now kind file) }
    {
        if file >= self.files.len() {
            return Ok(Vec::new(alloc));
        }
        let lister = Lister {
            alloc,
            rules: self,
            kind,
        };
        let mut items = Vec::new(alloc);
        lister.list_file(MAX_OPEN_FILES - 1, &[], file, &mut items)?;
        Ok(items)
    }
}
