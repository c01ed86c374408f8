//! The answer of one module, from the table that it reads.

ghost use Rattle.std.specs.Prelude.{◌≡◌, [], ◌≤◌, ◌==◌, IfErr, false, nat_eq, not, length, true};
ghost use Rattle.std.specs.List.{list_any, starts_with, suffix_len};
ghost use Rattle.std.specs.Option.{option_map, option_map_or};
ghost use Rattle.pam_conf.specs.ItemsOf.{module_text};
ghost use Rattle.pam_facts.specs.known.Answers.{access_code, access_read, if_any, is_access_reader, is_reader, is_time_reader};
ghost use Rattle.pam_facts.specs.known.inner.Answers.{TellsError};
ghost use Rattle.pam_facts.specs.known.Answers.{name_of_path, time_code, time_read, time_told};
ghost use Rattle.pam_facts.specs.known.Reads.{IsOfRead};
ghost use Rattle.pam_facts.specs.known.inner.Sets.{of_module, told_under};
ghost use Rattle.pam_facts.specs.known.Tables.{tables_view, timed_view};
ghost use Rattle.pam_tables.specs.Login.{login_view};
ghost use Rattle.pam_text.specs.Gives.{Gives};

use crate::known::access::decide_access;
use crate::known::error::KnownError;
use crate::known::tables::{Tables, TimedTable};
use pam_codes::Code;
use pam_conf::{Kind, Module};
use pam_tables::times::{TimeAnswer, TimeTable};
use pam_tables::{AccessAnswer, AccessOptions, Groups, Login};
use pam_text::Texts;
use std::alloc::Global;

fn bytes_after_slash(path: &[u8]) -> usize
    ensures value { result ≡ suffix_len (λ b. not (b == 47)) path.now }
    ensures bound { result ≤ length path.now }
{
    path.iter().rev().take_while(|b| **b != b'/').count()
}

/// Returns the name of the module at a path: the text after the last slash.
#[tactic(auto, unfolding(crate::specs::known::Answers::name_of_path))]
pub fn name_of_path(path: &[u8]) -> &[u8]
    ensures { result.now ≡ name_of_path path.now }
{
    path.split_at(path.len() - bytes_after_slash(path)).1
}

/// Whether an argument begins with a key.
fn has_key(key: &[u8], arguments: &Texts) -> bool
    ensures { result ≡ list_any (λ a. starts_with nat_eq a key.now) arguments.now }
{
    arguments.iter().any(|argument| argument.starts_with(key))
}

/// Whether a module has this name and reads the system's table: no argument names another file.
#[tactic(auto, unfolding(crate::specs::known::Answers::is_reader))]
fn is_reader(name: &[u8], key: &[u8], module: &Module) -> bool
    ensures { result ≡ is_reader name.now key.now (module_text «module».now) }
{
    name_of_path(&module.path) == name && !has_key(key, &module.arguments)
}

/// Whether a module reads the access tables of the system, as in pam_access(8).
pub fn is_access_reader(module: &Module) -> bool
    ensures { result ≡ is_access_reader (module_text «module».now) }
{
    is_reader(b"pam_access.so", b"accessfile=", module)
}

/// Whether a module of a stack of this kind reads the time table of the system, as in pam_time(8). Only `account` modules do.
pub fn is_time_reader(kind: Kind, module: &Module) -> bool
    ensures { result ≡ is_time_reader kind (module_text «module».now) }
{
    kind == Kind::Account && is_reader(b"pam_time.so", b"conffile=", module)
}

/// Returns the access tables, if there are any.
fn if_any(tables: Option<&Texts>) -> Option<&Texts>
    ensures { option_map (λ t. t.now) result ≡ if_any (option_map_or (λ t. t.now) tables.entry []) }
{
    match tables {
        Some(tables) if tables.len() > 0 => Some(tables),
        _ => None,
    }
}

/// Returns the access tables, if one is given and the module reads them.
#[tactic(auto, unfolding(crate::specs::known::Answers::access_read))]
pub(crate) fn access_read<'a>(tables: &Tables<'a>, module: &Module) -> Option<&'a Texts>
    ensures { option_map (λ t. t.now) result ≡ access_read (tables_view tables.now) (module_text «module».now) }
{
    if is_access_reader(module) {
        if_any(tables.access)
    } else {
        None
    }
}

/// Returns the time table, if it is given and the module reads it.
#[tactic(auto, unfolding(crate::specs::known::Answers::time_read))]
pub(crate) fn time_read<'x, 't>(
    kind: Kind,
    tables: &'x Tables<'t>,
    module: &Module,
) -> Option<&'x TimedTable<'t>>
    ensures { option_map (λ t. timed_view t.now) result ≡ time_read kind (tables_view tables.now) (module_text «module».now) }
{
    if is_time_reader(kind, module) {
        tables.time.as_ref()
    } else {
        None
    }
}

fn access_code(answer: AccessAnswer) -> Code
    ensures { result ≡ access_code answer }
{
    match answer {
        AccessAnswer::Granted(_) => Code::SUCCESS,
        AccessAnswer::Denied(_) => Code::PERM_DENIED,
    }
}

fn time_code(answer: TimeAnswer) -> Code
    ensures { result ≡ time_code answer }
{
    match answer {
        TimeAnswer::Granted => Code::SUCCESS,
        TimeAnswer::Denied(_) => Code::PERM_DENIED,
    }
}

/// Returns the code of a module that reads these access tables, with these options.
pub(crate) fn access_told(
    alloc: Global,
    login: &Login<'_>,
    groups: &Groups,
    options: &AccessOptions<'_>,
    tables: &Texts,
) -> Result<Code, KnownError>
    ensures told { Gives (λ e. TellsError e) (λ code. code) result (told_under (login_view login.now) groups.now options.now tables.now) }
    ensures read { IfErr result (IsOfRead (of_module true false)) }
{
    match decide_access(alloc, login, groups, options, tables) {
        Ok(decision) => Ok(access_code(decision.answer)),
        Err(error) => Err(KnownError::Table(error)),
    }
}

/// Returns the code of a module that reads this time table.
#[tactic(auto, unfolding(crate::specs::known::Answers::time_told))]
pub(crate) fn time_told(
    alloc: Global,
    login: &Login<'_>,
    table: &TimedTable<'_>,
) -> Result<Code, KnownError>
    ensures told { Gives (λ e. TellsError e) (λ code. code) result (time_told (login_view login.now) (timed_view table.now)) }
    ensures read { IfErr result (IsOfRead (of_module false true)) }
{
    match TimeTable::read(alloc, table.bytes) {
        Ok(rules) => Ok(time_code(rules.decide(login, &table.moment))),
        Err(error) => Err(KnownError::Time(error)),
    }
}
