//! The keys of settings in a comparison: the names of modules of either configuration.

ghost use Rattle.std.specs.Prelude.{◌≡◌, IfOk, map};
ghost use Rattle.std.specs.List.{list_all, list_any};
ghost use Rattle.pam_conf.specs.Rule.{rule_view};
ghost use Rattle.pam_report.specs.ComparedKeys.{calls as calls_module, has_module as has_module_of, names_module_in};
ghost use Rattle.pam_facts.specs.settings.Settings.{setting_view};

use pam_conf::{Body, Files, Rule, RuleFiles};
use pam_facts::known::name_of_path;
use pam_facts::settings::Setting;
use std::alloc::{AllocError, Global};

/// Whether a rule calls a module of this name.
fn calls(rule: &Rule, name: &[u8]) -> bool
    ensures { result ≡ calls_module name.now (rule_view rule.now) }
{
    match &rule.body {
        Body::Module(_, path, _) => name_of_path(path) == name,
        Body::Include(_) | Body::Sub(_) => false,
    }
}

/// Whether one of these rules calls a module of this name.
fn some_calls(rules: &[Rule], name: &[u8]) -> bool
    ensures { result ≡ list_any (calls_module name.now) (map rule_view rules.now) }
{
    for rule in rules {
        if calls(rule, name) {
            return true;
        }
    }
    false
}

/// Whether a rule without a fault calls a module of this name.
fn has_module(alloc: Global, rules: &RuleFiles<'_>, name: &[u8]) -> Result<bool, AllocError>
    ensures { IfOk result (λ has. has ≡ has_module_of rules.now name.now) }
{
    for position in 0..rules.len() {
        if let Some(of_file) = rules.rules(alloc, position)? {
            if some_calls(&of_file, name) {
                return Ok(true);
            }
        }
    }
    Ok(false)
}

/// Whether a setting has codes, and names a module of either configuration.
pub(crate) fn names_module(
    alloc: Global,
    old: &RuleFiles<'_>,
    new: &RuleFiles<'_>,
    setting: &Setting<'_>,
) -> Result<bool, AllocError>
    ensures { IfOk result (λ names. names ≡ names_module_in old.now new.now (setting_view setting.now)) }
{
    if setting.codes.len() == 0 {
        return Ok(false);
    }
    let name = setting.key.as_bytes();
    if has_module(alloc, old, name)? {
        return Ok(true);
    }
    has_module(alloc, new, name)
}

/// The same, of each setting.
fn all_name_modules(
    alloc: Global,
    old: &RuleFiles<'_>,
    new: &RuleFiles<'_>,
    settings: &[Setting<'_>],
) -> Result<bool, AllocError>
    ensures { IfOk result (λ all. all ≡ list_all (names_module_in old.now new.now) (map setting_view settings.now)) }
{
    for setting in settings {
        if !names_module(alloc, old, new, setting)? {
            return Ok(false);
        }
    }
    Ok(true)
}

/// Whether each setting names a module of either configuration, which may be the same one twice. Reads the files only if there is a
/// setting.
pub(crate) fn are_keys(
    alloc: Global,
    old: &Files,
    new: &Files,
    settings: &[Setting<'_>],
) -> Result<bool, AllocError>
    ensures { IfOk result (λ all. all ≡ list_all (names_module_in old.now new.now) (map setting_view settings.now)) }
{
    if settings.is_empty() {
        return Ok(true);
    }
    let old_rules = RuleFiles::read(alloc, old)?;
    let new_rules = RuleFiles::read(alloc, new)?;
    all_name_modules(alloc, &old_rules, &new_rules, settings)
}
