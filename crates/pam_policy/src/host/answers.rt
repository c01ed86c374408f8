//! What the modules of a stack may answer.

ghost use Rattle.std.specs.Prelude.{◌≡◌, ◌≢◌, ℕ, [], IfErr, IfSome, IsTrue, List, map, unwrap_or};
ghost use Rattle.pam_conf.specs.ItemsOf.{module_text};
ghost use Rattle.pam_conf.specs.Stack.{module_count};
ghost use Rattle.pam_facts.specs.Answers.{Allows};
ghost use Rattle.pam_facts.specs.known.Knowledge.{Agree, Knows};
ghost use Rattle.pam_facts.specs.known.Reads.{IsOfRead, tables_read};
ghost use Rattle.pam_facts.specs.known.Tables.{tables_view};
ghost use Rattle.pam_facts.specs.settings.Settings.{setting_view};
ghost use Rattle.pam_paths.specs.Known.{may_answer};
ghost use Rattle.pam_policy.specs.host.Answers.{answers_of, codes_set, set_at, sets};
ghost use Rattle.pam_policy.specs.host.Sources.{sources_view};

use crate::host::checkers::set_checked;
use crate::host::stacks::HostSources;
use pam_codes::CodeSet;
use pam_conf::{Kind, Module, Stack};
use pam_facts::known::{KnownError, known_answers, name_of_path};
use pam_facts::settings::Setting;
use pam_facts::{replace_codes, set_missing};
use pam_paths::{Knowledge, Known};
use pam_tables::Login;
use std::alloc::Global;

/// Whether a setting sets codes for the modules of a name.
fn sets(name: &[u8], setting: &Setting<'_>) -> bool
    ensures { result ≡ sets name.now (setting_view setting.now) }
{
    setting.codes.len() != 0 && setting.key.as_bytes() == name
}

/// The codes that are set for the modules of a name.
fn codes_set(name: &[u8], settings: &[Setting<'_>]) -> Option<CodeSet>
    ensures codes { result ≡ codes_set name.now (map setting_view settings.now) }
    ensures some { IfSome result (λ codes. codes ≢ []) }
{
    let mut found = None;
    for setting in settings {
        if sets(name, setting) {
            found = Some(setting.codes);
        }
    }
    found
}

/// The codes that are set for the module of a number.
#[tactic(auto, unfolding(crate::specs::host::Answers::set_at))]
fn set_at(settings: &[Setting<'_>], stack: &Stack, number: usize) -> Option<CodeSet>
    ensures codes { result ≡ set_at (map setting_view settings.now) stack.now number }
    ensures some { IfSome result (λ codes. codes ≢ []) }
{
    match stack.module(number) {
        Some(module) => codes_set(name_of_path(&module.path), settings),
        None => None,
    }
}

/// Sets the codes of the modules for which codes are set.
fn set_codes(settings: &[Setting<'_>], stack: &Stack, known: &mut Known)
    ensures { (base : ℕ → List ℕ) → Allows (module_count stack.now) known.old base → Allows (module_count stack.now) known.new
        (λ number. unwrap_or (set_at (map setting_view settings.now) stack.now number) (base number)) }
{
    for index in 0..stack.modules() {
        replace_codes(known, index + 1, set_at(settings, stack, index + 1));
    }
}

/// What the modules of the stack of a service may answer: what is set for one comes before what the tables and the facts say, and that it
/// is not there before both. One that checks does not answer `ignore` by the facts, in `auth`. The fault is that of `known_answers`.
pub(crate) fn known_at(
    alloc: Global,
    sources: &HostSources<'_>,
    name: &[u8],
    kind: Kind,
    stack: &Stack,
) -> Result<Known, KnownError>
    ensures known { Knows (module_count stack.now) result (answers_of (sources_view sources.now) name.now kind stack.now) }
    ensures read { IfErr result (IsOfRead (tables_read kind (tables_view sources.now.tables.now) stack.now)) }
{
    let visitor = sources.visitor;
    let login = Login {
        user: visitor.user,
        service: name,
        tty: visitor.tty,
        rhost: visitor.rhost,
    };
    let mut known = known_answers(alloc, stack, kind, &login, sources.tables)?;
    set_checked(alloc, sources.tables, kind, stack, &mut known)?;
    set_codes(sources.settings, stack, &mut known);
    set_missing(sources.tables.there, stack, &mut known);
    Ok(known)
}

fn are_same_codes(one: CodeSet, other: CodeSet) -> bool
    ensures { IsTrue result → one ≡ other }
{
    // A set says with its length that its codes are in order.
    let _one = one.len();
    let _other = other.len();
    one == other
}

/// Whether each of the modules of a stack with this many may answer the same.
pub(crate) fn are_same_answers(one: &Known, other: &Known, modules: usize) -> bool
    ensures { IsTrue result → Agree modules (may_answer one.now) (may_answer other.now) }
{
    for index in 0..modules {
        if !are_same_codes(one.allowed(index + 1), other.allowed(index + 1)) {
            return false;
        }
    }
    true
}
