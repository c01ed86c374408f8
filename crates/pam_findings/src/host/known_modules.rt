//! What is known of the modules of a host.

ghost use Rattle.std.specs.Prelude.{◌≡◌, IsFalse, IsTrue};
ghost use Rattle.std.specs.Option.{option_map};
ghost use Rattle.pam_conf.specs.ItemsOf.{module_text};
ghost use Rattle.pam_findings.specs.host.UnknownModules.{IsUnknown};
ghost use Rattle.pam_findings.specs.host.Verdicts.{IsFailing, IsFree, has_no_function, is_missing};

use crate::host::report::Installed;
use pam_conf::{Kind, Module, NameList, Stack};
use pam_facts::arguments::known_of;
use pam_facts::{Facts, is_there};
use pam_paths::Known;
use std::marker::Model;

/// Facts of modules, and what is there of that which rules name.
#[derive(Drop)]
pub(crate) struct Modules<'x, 'f> {
    facts: &'x Facts<'f>,
    installed: Installed<'x>,
}

impl<'x, 'f> Model for Modules<'x, 'f> {
    ghost use Rattle.std.specs.Option.{option_map};
    ghost use Rattle.pam_findings.specs.host.Modules.{Modules as ModulesText};

    ghost Value = { ModulesText };

    ghost view = { λ m. record {
      facts = m.facts.now;
      there = option_map (λ t. t.now) m.installed.modules;
      files = option_map (λ t. t.now) m.installed.files;
    } };
}

impl<'x, 'f> Modules<'x, 'f> {
    pub(crate) fn new(facts: &'x Facts<'f>, installed: Installed<'x>) -> Modules<'x, 'f>
        ensures { result ≡ record {
          facts = facts.now;
          there = option_map (λ t. t.now) installed.entry.modules;
          files = option_map (λ t. t.now) installed.entry.files;
        } }
    {
        Modules { facts, installed }
    }

    /// The facts of modules.
    pub(crate) fn facts(&self) -> &Facts<'f>
        ensures { result.now ≡ self.now.facts }
    {
        self.facts
    }

    /// The arguments that name a file which is there, if that is known.
    pub(crate) fn files(&self) -> Option<&NameList>
        ensures { option_map (λ t. t.now) result ≡ self.now.files }
    {
        self.installed.files
    }

    /// Whether a module is not there, as far as it is known which are.
    pub(crate) fn is_missing(&self, module: &Module) -> bool
        ensures { result ≡ is_missing self.now (module_text «module».now) }
    {
        !is_there(self.installed.modules, &module.path)
    }

    /// Whether a module has no function in a kind.
    pub(crate) fn lacks_function(&self, module: &Module, kind: Kind) -> bool
        ensures { result ≡ has_no_function self.now.facts kind (module_text «module».now) }
    {
        !self
            .facts
            .of(&module.path, &module.arguments)
            .has_function(kind)
    }

    /// Whether nothing is known of a module that is taken for one that checks who logs in: S25.
    pub(crate) fn is_unknown(&self, module: &Module, kind: Kind) -> bool
        ensures yes { IsTrue result → IsUnknown self.now kind (module_text «module».now) }
        ensures no { IsFalse result → IsUnknown self.now kind (module_text «module».now) → ⊥ }
    {
        kind == Kind::Auth
            && !self.is_missing(module)
            && !self.facts.has_row(&module.path, &module.arguments)
            && known_of(self.facts.arguments(), module).is_none()
    }

    /// The codes that the modules of a stack can answer.
    pub(crate) fn answers(&self, stack: &Stack, kind: Kind) -> Known
        ensures { IsFree self.now kind stack.now result }
    {
        self.facts.answers(stack, kind, self.installed.modules)
    }

    /// The same, where each module that checks who logs in fails.
    pub(crate) fn answers_if_checks_fail(&self, stack: &Stack, kind: Kind) -> Known
        ensures { IsFailing self.now kind stack.now result }
    {
        self.facts
            .answers_if_checks_fail(stack, kind, self.installed.modules)
    }
}
