//! Modules that check who logs in: in `auth` they do not answer `ignore`.

ghost use Rattle.std.specs.Prelude.{◌≡◌, ◌≢◌, ℕ, [], IfErr, IfOk, IfSome, List, OnOk, is_some, unwrap_or};
ghost use Rattle.std.specs.Option.{option_map_or};
ghost use Rattle.pam_conf.specs.ItemsOf.{module_text};
ghost use Rattle.pam_conf.specs.Stack.{module_count};
ghost use Rattle.pam_facts.specs.Answers.{Allows};
ghost use Rattle.pam_facts.specs.known.Answers.{IsFault, if_any};
ghost use Rattle.pam_facts.specs.known.Tables.{tables_view};
ghost use Rattle.pam_policy.specs.host.Answers.{checked_codes, checked_with, checker_codes, is_checker, is_checks, is_told, lines_in, with_checked};
ghost use Rattle.pam_policy.specs.host.inner.Answers.{IsOfReturns};
ghost use Rattle.pam_tables.specs.Returns.{codes_for};

use pam_codes::{Code, CodeSet};
use pam_conf::{Kind, Module, Stack};
use pam_facts::known::{KnownError, NumberedError, Tables, is_access_reader, name_of_path};
use pam_facts::{Class, Fact, Facts, replace_codes};
use pam_paths::Known;
use pam_tables::{ReturnTable, TableFault};
use pam_text::Texts;
use std::alloc::Global;

/// The lines of the returns file, if one is given and has no fault. The only error is want of memory.
fn lines_in<'x>(alloc: Global, tables: &Tables<'x>) -> Result<Option<ReturnTable<'x>>, KnownError>
    ensures lines { IfOk result (λ lines. unwrap_or lines [] ≡ lines_in (tables_view tables.now)) }
    ensures memory { IfErr result (λ error. IsFault error ⊥) }
    ensures read { IfErr result (IsOfReturns (is_some (tables_view tables.now).returns)) }
{
    let Some(bytes) = tables.returns else {
        return Ok(None);
    };
    match ReturnTable::read(alloc, bytes) {
        Ok(lines) => Ok(Some(lines)),
        Err(error) => {
            if error.fault == TableFault::Memory {
                return Err(KnownError::Table(NumberedError::first(error)));
            }
            Ok(None)
        }
    }
}

fn has_tables(tables: Option<&Texts>) -> bool
    ensures { result ≡ is_some (if_any (option_map_or (λ t. t.now) tables.entry [])) }
{
    match tables {
        Some(tables) => tables.len() != 0,
        None => false,
    }
}

fn has_line(lines: &Option<ReturnTable<'_>>, name: &[u8]) -> bool
    ensures { result ≡ is_some (codes_for (unwrap_or lines.now []) name.now) }
{
    match lines {
        Some(lines) => lines.codes(name).is_some(),
        None => false,
    }
}

/// Whether an access table, or a line of the returns file, says what a module answers in `auth`.
#[tactic(auto, unfolding(pam_facts::specs::known::Answers::access_read))]
fn is_told(tables: &Tables<'_>, lines: &Option<ReturnTable<'_>>, module: &Module) -> bool
    ensures { result ≡ is_told (tables_view tables.now) (unwrap_or lines.now []) (module_text «module».now) }
{
    is_access_reader(module) && has_tables(tables.access)
        || has_line(lines, name_of_path(&module.path))
}

fn is_checks(class: Class) -> bool
    ensures { result ≡ is_checks class }
{
    match class {
        Class::Checks => true,
        _ => false,
    }
}

/// Whether a row of the class `checks` tells of a module, which takes its arguments.
fn is_checker(facts: &Facts<'_>, module: &Module) -> bool
    ensures { result ≡ is_checker facts.now (module_text «module».now) }
{
    facts.has_row(&module.path, &module.arguments)
        && is_checks(facts.of(&module.path, &module.arguments).class)
        && !facts.always_fails(Kind::Auth, module)
}

/// What a module that checks can answer in `auth`, without `ignore`. One that has no other code fails.
fn checker_codes(fact: Fact) -> CodeSet
    ensures value { result ≡ checker_codes fact }
    ensures some { result ≢ [] }
{
    let codes = fact
        .codes_in(Kind::Auth)
        .without(CodeSet::single(Code::IGNORE));
    if codes.is_empty() {
        return CodeSet::single(Code::AUTH_ERR);
    }
    codes
}

/// The answers of a module that checks, if the facts alone tell of it.
fn checked_codes(
    tables: &Tables<'_>,
    lines: &Option<ReturnTable<'_>>,
    module: &Module,
) -> Option<CodeSet>
    ensures codes { result ≡ checked_codes (tables_view tables.now) (unwrap_or lines.now []) (module_text «module».now) }
    ensures some { IfSome result (λ codes. codes ≢ []) }
{
    let facts = tables.facts?;
    if is_checker(facts, module) && !is_told(tables, lines, module) {
        return Some(checker_codes(facts.of(&module.path, &module.arguments)));
    }
    None
}

/// The same, by the number of the module.
#[tactic(auto, unfolding(crate::specs::host::Answers::checked_with))]
fn checked_at(
    tables: &Tables<'_>,
    lines: &Option<ReturnTable<'_>>,
    stack: &Stack,
    number: usize,
) -> Option<CodeSet>
    ensures codes { result ≡ checked_with (tables_view tables.now) (unwrap_or lines.now []) stack.now number }
    ensures some { IfSome result (λ codes. codes ≢ []) }
{
    match stack.module(number) {
        Some(module) => checked_codes(tables, lines, module),
        None => None,
    }
}

/// Takes `ignore` from the modules of an `auth` stack that check, with these lines of the returns file.
fn set_by_lines(
    tables: &Tables<'_>,
    lines: &Option<ReturnTable<'_>>,
    stack: &Stack,
    known: &mut Known,
)
    ensures { (base : ℕ → List ℕ) → Allows (module_count stack.now) known.old base → Allows (module_count stack.now) known.new
        (λ number. unwrap_or (checked_with (tables_view tables.now) (unwrap_or lines.now []) stack.now number) (base number)) }
{
    for index in 0..stack.modules() {
        replace_codes(
            known,
            index + 1,
            checked_at(tables, lines, stack, index + 1),
        );
    }
}

/// Takes `ignore` from the answers of the modules that check, in `auth`. The only error is want of memory.
pub(crate) fn set_checked(
    alloc: Global,
    tables: &Tables<'_>,
    kind: Kind,
    stack: &Stack,
    known: &mut Known,
) -> Result<(), KnownError>
    ensures known { (base : ℕ → List ℕ) → Allows (module_count stack.now) known.old base
        → OnOk result (Allows (module_count stack.now) known.new (with_checked kind (tables_view tables.now) stack.now base)) }
    ensures memory { IfErr result (λ error. IsFault error ⊥) }
    ensures read { IfErr result (IsOfReturns (is_some (tables_view tables.now).returns)) }
{
    match kind {
        Kind::Auth => {
            let lines = lines_in(alloc, tables)?;
            set_by_lines(tables, &lines, stack, known);
            Ok(())
        }
        Kind::Account | Kind::Password | Kind::Session => Ok(()),
    }
}
