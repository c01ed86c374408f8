//! What is known of the answers of the modules of a stack.

ghost use Rattle.std.specs.Prelude.{◌≡◌, ◌≢◌, ℕ, [], IfOk, IfSome, IsFalse, IsTrue, List, map, unwrap_or};
ghost use Rattle.std.specs.Option.{option_map};
ghost use Rattle.pam_conf.specs.ItemsOf.{module_text};
ghost use Rattle.pam_conf.specs.Stack.{module_count};
ghost use Rattle.pam_facts.specs.Answers.{Allows};
ghost use Rattle.pam_changes.specs.Known.{AreThereAlike, alike_partner, alike_partners, fail_alike, fails_at, is_alike, is_alike_at};
ghost use Rattle.pam_changes.specs.Known.{codes_listed, codes_set, codes_told, known_codes, sets, told_at};
ghost use Rattle.pam_changes.specs.Sides.{side_view, sides_view};
ghost use Rattle.pam_facts.specs.settings.Settings.{setting_view};

use crate::sides::{Side, Sides};
use pam_codes::CodeSet;
use pam_compare::Matching;
use pam_conf::{Kind, Module, NameList, Stack};
use pam_facts::known::name_of_path;
use pam_facts::settings::Setting;
use pam_facts::{is_there, replace_codes};
use pam_paths::Known;
use pam_tables::ReturnTable;
use std::alloc::{AllocError, Global};

/// Whether a setting sets codes for the modules of a name.
fn sets(name: &[u8], setting: &Setting<'_>) -> bool
    ensures { result ≡ sets name.now (setting_view setting.now) }
{
    setting.codes.len() != 0 && setting.key.as_bytes() == name
}

/// The codes that are set for the modules of a name.
fn codes_set(name: &[u8], settings: &[Setting<'_>]) -> Option<CodeSet>
    ensures codes { result ≡ codes_set name.now (map setting_view settings.now) }
    ensures some { IfSome result (λ codes. codes ≢ []) }
{
    let mut found = None;
    for setting in settings {
        if sets(name, setting) {
            found = Some(setting.codes);
        }
    }
    found
}

/// The codes of their line in the returns file, if there is one.
fn codes_listed(returns: Option<&ReturnTable<'_>>, name: &[u8]) -> Option<CodeSet>
    ensures codes { result ≡ codes_listed (option_map (λ t. t.now) returns.entry) name.now }
    ensures some { IfSome result (λ codes. codes ≢ []) }
{
    match returns {
        Some(returns) => returns.codes(name),
        None => None,
    }
}

/// The codes that are set for a module, or else those of its line, if it is there.
fn codes_told(sides: &Sides<'_, '_>, there: Option<&NameList>, module: &Module) -> Option<CodeSet>
    ensures codes { let known = sides_view sides.now in
        result ≡ codes_told known.returns known.settings (option_map (λ t. t.now) there.entry) (module_text «module».now) }
    ensures some { IfSome result (λ codes. codes ≢ []) }
{
    if !is_there(there, &module.path) {
        return None;
    }
    let name = name_of_path(&module.path);
    match codes_set(name, sides.settings) {
        Some(codes) => Some(codes),
        None => codes_listed(sides.returns, name),
    }
}

/// The same, by the number of the module.
#[tactic(auto, unfolding(crate::specs::Known::told_at))]
fn told_at(
    sides: &Sides<'_, '_>,
    there: Option<&NameList>,
    stack: &Stack,
    number: usize,
) -> Option<CodeSet>
    ensures codes { let known = sides_view sides.now in
        result ≡ told_at known.returns known.settings (option_map (λ t. t.now) there.entry) stack.now number }
    ensures some { IfSome result (λ codes. codes ≢ []) }
{
    codes_told(sides, there, stack.module(number)?)
}

/// Sets the codes of the modules for which codes are set, or that have a line in the returns file.
fn add_told(sides: &Sides<'_, '_>, there: Option<&NameList>, stack: &Stack, known: &mut Known)
    ensures { let told = sides_view sides.now in
        (base : ℕ → List ℕ) → Allows (module_count stack.now) known.old base → Allows (module_count stack.now) known.new
        (λ number. unwrap_or (told_at told.returns told.settings (option_map (λ t. t.now) there.entry) stack.now number) (base number)) }
{
    for index in 0..stack.modules() {
        replace_codes(known, index + 1, told_at(sides, there, stack, index + 1));
    }
}

/// The codes that the modules of a stack may answer: `module_unknown` if a module is not there, else the codes that are set for it, else
/// those of its line in the returns file, else what facts say.
#[tactic(auto, unfolding(crate::specs::Known::known_codes))]
pub(crate) fn known_answers(
    sides: &Sides<'_, '_>,
    side: &Side<'_>,
    kind: Kind,
    stack: &Stack,
) -> Known
    ensures { Allows (module_count stack.now) result (known_codes (sides_view sides.now) (side_view side.now) kind stack.now) }
{
    let mut known = sides.facts.answers(stack, kind, side.there);
    add_told(sides, side.there, stack, &mut known);
    known
}

/// Whether a module is there in both configurations, or in neither.
fn is_alike(sides: &Sides<'_, '_>, module: &Module) -> bool
    ensures { result ≡ is_alike (sides_view sides.now) (module_text «module».now) }
{
    let is_in_new = is_there(sides.new.there, &module.path);
    if is_there(sides.old.there, &module.path) {
        is_in_new
    } else {
        !is_in_new
    }
}

/// The same, by the number of the module.
fn is_alike_at(sides: &Sides<'_, '_>, stack: &Stack, number: usize) -> bool
    ensures { result ≡ is_alike_at (sides_view sides.now) stack.now number }
{
    match stack.module(number) {
        Some(module) => is_alike(sides, module),
        None => true,
    }
}

/// Whether each module of a stack is there in both configurations, or in neither. Then the same is known of its answers.
#[tactic(auto, unfolding(crate::specs::Known::AreThereAlike))]
pub(crate) fn are_there_alike(sides: &Sides<'_, '_>, stack: &Stack) -> bool
    ensures yes { IsTrue result → AreThereAlike (sides_view sides.now) stack.now }
    ensures no { IsFalse result → AreThereAlike (sides_view sides.now) stack.now → ⊥ }
{
    for index in 0..stack.modules() {
        if !is_alike_at(sides, stack, index + 1) {
            return false;
        }
    }
    true
}

/// Whether a module of which only facts tell always fails by what its arguments are, by its number.
fn fails_at(
    sides: &Sides<'_, '_>,
    side: &Side<'_>,
    kind: Kind,
    stack: &Stack,
    number: usize,
) -> bool
    ensures { result ≡ fails_at (sides_view sides.now) (side_view side.now) kind stack.now number }
{
    if told_at(sides, side.there, stack, number).is_some() {
        return false;
    }
    match stack.module(number) {
        Some(module) => sides.facts.always_fails(kind, module),
        None => false,
    }
}

/// Two stacks of a kind.
#[derive(Clone, Copy)]
pub(crate) struct Stacks<'x> {
    pub(crate) kind: Kind,
    pub(crate) old: &'x Stack,
    pub(crate) new: &'x Stack,
}

/// Whether a module of the old stack and one of the new stack always fail so, or neither does.
fn fail_alike(sides: &Sides<'_, '_>, stacks: Stacks<'_>, partner: usize, number: usize) -> bool
    ensures { result ≡ fail_alike (sides_view sides.now) stacks.entry.kind stacks.entry.old.now stacks.entry.new.now partner number }
{
    let fails_in_new = fails_at(sides, &sides.new, stacks.kind, stacks.new, number);
    if fails_at(sides, &sides.old, stacks.kind, stacks.old, partner) {
        fails_in_new
    } else {
        !fails_in_new
    }
}

/// The partner of a module of the new stack, if both are there, or neither is, and both always fail by what their arguments are, or
/// neither does.
fn alike_partner(
    sides: &Sides<'_, '_>,
    stacks: Stacks<'_>,
    matching: &Matching,
    number: usize,
) -> Option<usize>
    ensures { result ≡ alike_partner (sides_view sides.now) stacks.entry.kind stacks.entry.old.now stacks.entry.new.now matching.now number }
{
    let partner = matching.partner(number)?;
    if is_alike_at(sides, stacks.new, number) && fail_alike(sides, stacks, partner, number) {
        Some(partner)
    } else {
        None
    }
}

/// The matched modules that answer alike: those that are there in both configurations or in neither, and always fail by what their
/// arguments are in both or in neither. One that is not there, or always fails, says nothing of one that is and does not.
#[tactic(auto, unfolding(crate::specs::Known::alike_partners))]
pub(crate) fn alike_modules(
    alloc: Global,
    sides: &Sides<'_, '_>,
    stacks: Stacks<'_>,
    matching: &Matching,
) -> Result<Matching, AllocError>
    ensures { IfOk result (λ m. m ≡ alike_partners (sides_view sides.now) stacks.entry.kind stacks.entry.old.now stacks.entry.new.now matching.now) }
{
    let mut partners = Vec::new(alloc);
    partners.push(None)?;
    for index in 0..stacks.new.modules() {
        partners.push(alike_partner(sides, stacks, matching, index + 1))?;
    }
    Ok(Matching::from_partners(partners))
}
