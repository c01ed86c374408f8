//! What modules answer, as the command line says it.

ghost use Rattle.std.specs.Prelude.{◌≡◌, ◌∷◌, ◌≢◌, ℕ, [], IfErr, IfSome, List, Result, decimal, map, unwrap_or};
ghost use Rattle.std.specs.List.{list_all};
ghost use Rattle.std.specs.Option.{option_map};
ghost use Rattle.std.specs.Str.{bytes_eq};
ghost use Rattle.pam_conf.specs.ItemsOf.{module_text};
ghost use Rattle.pam_conf.specs.Stack.{module_count};
ghost use Rattle.pam_facts.specs.Answers.{Allows};
ghost use Rattle.pam_report.specs.inner.Known.{AreCodesOf, FindsStack};
ghost use Rattle.pam_report.specs.KnownStack.{KnownItems};
ghost use Rattle.pam_report.specs.Settings.{codes_set, file_of, is_place as is_place_of, names_module as names_module_of, names_one as names_one_of};
ghost use Rattle.pam_report.specs.Settings.{set_at as set_at_number, sets as sets_codes, sets_at as sets_at_number, with_settings as with_settings_of};
ghost use Rattle.pam_report.specs.declared.fault.Fault.{Fault as FaultText};
ghost use Rattle.pam_facts.specs.settings.Settings.{setting_view};

use super::known_stack::KnownStack;
use crate::fault::Fault;
use pam_codes::CodeSet;
use pam_conf::{Files, Module, NameList, Stack};
use pam_facts::known::name_of_path;
use pam_facts::settings::Setting;
use pam_facts::{replace_codes, set_missing};
use pam_paths::Known;

/// Whether a text is a number in decimal, without leading zeros.
fn is_number(text: &[u8], number: usize) -> bool
    ensures { result ≡ bytes_eq text.now (decimal number) }
{
    let mut digits = itoa::Buffer::new();
    text == digits.format(number).as_bytes()
}

/// Whether a text is a colon and the number of a line.
fn is_line(text: &[u8], line: usize) -> bool
    ensures { result ≡ bytes_eq text.now (58 ∷ decimal line) }
{
    match text.split_first() {
        Some((first, digits)) => *first == b':' && is_number(digits, line),
        None => false,
    }
}

/// Whether a key is `FILE:LINE`.
fn is_place(file: &[u8], line: usize, key: &[u8]) -> bool
    ensures { result ≡ is_place_of file.now line key.now }
{
    key.starts_with(file) && is_line(key.split_at(file.len()).1, line)
}

/// The name of the file of a module's rule.
fn file_of<'x>(files: &'x Files, module: &Module) -> &'x [u8]
    ensures { result.now ≡ file_of files.now (module_text «module».now) }
{
    match files.name(module.file) {
        Some(name) => name,
        None => b"",
    }
}

/// Whether a key names a module.
fn names_module(files: &Files, module: &Module, key: &[u8]) -> bool
    ensures { result ≡ names_module_of files.now (module_text «module».now) key.now }
{
    key == name_of_path(&module.path)
        || is_number(key, module.number)
        || is_place(file_of(files, module), module.line, key)
}

/// Whether a setting sets codes for a module.
fn sets(files: &Files, module: &Module, setting: &Setting<'_>) -> bool
    ensures { result ≡ sets_codes files.now (module_text «module».now) (setting_view setting.now) }
{
    setting.codes.len() != 0 && names_module(files, module, setting.key.as_bytes())
}

/// The codes that are set for a module.
fn codes_set(files: &Files, module: &Module, settings: &[Setting<'_>]) -> Option<CodeSet>
    ensures codes { result ≡ codes_set files.now (module_text «module».now) (map setting_view settings.now) }
    ensures some { IfSome result (λ codes. codes ≢ []) }
{
    let mut found = None;
    for setting in settings {
        if sets(files, module, setting) {
            found = Some(setting.codes);
        }
    }
    found
}

/// The codes that are set for the module of a number.
#[tactic(auto, unfolding(crate::specs::Settings::set_at))]
fn set_at(files: &Files, settings: &[Setting<'_>], stack: &Stack, number: usize) -> Option<CodeSet>
    ensures codes { result ≡ set_at_number files.now (map setting_view settings.now) stack.now number }
    ensures some { IfSome result (λ codes. codes ≢ []) }
{
    match stack.module(number) {
        Some(module) => codes_set(files, module, settings),
        None => None,
    }
}

/// Sets the codes of the modules for which codes are set.
fn set_codes(files: &Files, settings: &[Setting<'_>], stack: &Stack, known: &mut Known)
    ensures { (base : ℕ → List ℕ) → Allows (module_count stack.now) known.old base → Allows (module_count stack.now) known.new
        (λ number. unwrap_or (set_at_number files.now (map setting_view settings.now) stack.now number) (base number)) }
{
    for index in 0..stack.modules() {
        replace_codes(known, index + 1, set_at(files, settings, stack, index + 1));
    }
}

/// Whether a setting sets codes for the module of a number.
fn sets_at(files: &Files, stack: &Stack, setting: &Setting<'_>, number: usize) -> bool
    ensures { result ≡ sets_at_number files.now stack.now (setting_view setting.now) number }
{
    match stack.module(number) {
        Some(module) => sets(files, module, setting),
        None => false,
    }
}

/// Whether a setting names a module of a stack.
pub(crate) fn names_one(files: &Files, stack: &Stack, setting: &Setting<'_>) -> bool
    ensures { result ≡ names_one_of files.now stack.now (setting_view setting.now) }
{
    for index in 0..stack.modules() {
        if sets_at(files, stack, setting, index + 1) {
            return true;
        }
    }
    false
}

/// Whether each setting names a module of a stack.
fn all_name_one(files: &Files, stack: &Stack, settings: &[Setting<'_>]) -> bool
    ensures { result ≡ list_all (names_one_of files.now stack.now) (map setting_view settings.now) }
{
    for setting in settings {
        if !names_one(files, stack, setting) {
            return false;
        }
    }
    true
}

/// Returns the stack with what is set for its modules, or that a key names none of them.
pub(super) fn with_settings(
    files: &Files,
    there: Option<&NameList>,
    settings: &[Setting<'_>],
    found: KnownStack,
) -> Result<KnownStack, Fault>
    ensures stack { (told : Result KnownItems FaultText) → AreCodesOf found.stack found.known told →
        FindsStack result (with_settings_of files.now (option_map (λ t. t.now) there.entry) (map setting_view settings.now) told) }
    ensures fault { IfErr result (λ fault. fault ≡ FaultText.NoSuchKey) }
{
    let KnownStack { stack, known } = found;
    if !all_name_one(files, &stack, settings) {
        return Err(Fault::NoSuchKey);
    }
    let mut known = known;
    set_codes(files, settings, &stack, &mut known);
    set_missing(there, &stack, &mut known);
    Ok(KnownStack { stack, known })
}
