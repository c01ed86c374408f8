//! The codes that the modules of a stack may return.

ghost use Rattle.std.specs.Prelude.{◌≡◌, ◌≤◌, ℕ, IfErr, IfSome, Some, false, is_some, true};
ghost use Rattle.std.specs.List.{list_any};
ghost use Rattle.pam_conf.specs.ItemsOf.{module_text};
ghost use Rattle.pam_conf.specs.Stack.{module_count};
ghost use Rattle.pam_facts.specs.known.Answers.{access_told, if_any, name_of_path, time_told};
ghost use Rattle.pam_facts.specs.known.inner.Answers.{TellsError};
ghost use Rattle.pam_facts.specs.known.Knowledge.{Knows, groups_read, knowledge, line_at, numbers, reads_access, told_knowledge};
ghost use Rattle.pam_facts.specs.known.Reads.{IsOfRead, tables_read};
ghost use Rattle.pam_facts.specs.known.inner.Sets.{module_reads, number_reads, of_groups, of_module, some_read};
ghost use Rattle.pam_facts.specs.known.inner.Sets.{Adds, IsKept, TellsAll, TellsIfAny, IsAccessCode, IsLineSet, IsSaidSet, IsTableSet, said_of, told_of, told_of_number};
ghost use Rattle.pam_facts.specs.known.Tables.{tables_view, timed_view};
ghost use Rattle.pam_paths.specs.Known.{set_for};
ghost use Rattle.pam_tables.specs.Login.{login_view};
ghost use Rattle.pam_text.specs.Gives.{Gives};
ghost use Rattle.pam_tables.specs.Returns.{codes_for};

use crate::known::answers::{access_read, access_told, name_of_path, time_read, time_told};
use crate::known::error::KnownError;
use crate::known::tables::{Tables, TimedTable};
use crate::set_missing;
use pam_codes::{Code, CodeSet};
use pam_conf::{Kind, Module, Stack};
use pam_paths::Known;
use pam_tables::{AccessOptions, Groups, Login, ReturnTable, Table, TableError, TableFault};
use pam_text::Texts;
use std::alloc::Global;

/// Whether the module of a number reads the access tables.
fn reads_access(stack: &Stack, tables: &Tables<'_>, number: usize) -> bool
    ensures { result ≡ reads_access (tables_view tables.now) stack.now number }
{
    match stack.module(number) {
        Some(module) => access_read(tables, module).is_some(),
        None => false,
    }
}

/// Whether a module reads the access tables.
fn some_reads_access(stack: &Stack, tables: &Tables<'_>) -> bool
    ensures { result ≡ list_any (reads_access (tables_view tables.now) stack.now) (numbers stack.now) }
{
    for index in 0..stack.modules() {
        if reads_access(stack, tables, index + 1) {
            return true;
        }
    }
    false
}

/// Returns the groups. Reads the group file only if a module reads the access tables.
#[tactic(auto, unfolding(crate::specs::known::Knowledge::groups_read))]
fn groups_read<'a>(
    alloc: Global,
    stack: &Stack,
    tables: &Tables<'a>,
) -> Result<Groups<'a>, KnownError>
    ensures told { Gives (λ e. TellsError e) (λ groups. groups) result (groups_read (tables_view tables.now) stack.now) }
    ensures read { IfErr result (IsOfRead (of_groups (tables_view tables.now) stack.now)) }
{
    if !some_reads_access(stack, tables) {
        return Ok(Groups::new(alloc));
    }
    match tables.groups {
        Some(bytes) => Ok(Groups::read(alloc, bytes)?),
        None => Ok(Groups::new(alloc)),
    }
}

/// The code that the access tables give under some options.
#[derive(Drop)]
struct AccessCode<'s> {
    options: AccessOptions<'s>,
    code: Code,
}

/// The codes that tables have given so far, so that a table is not asked the same question twice.
#[derive(Drop)]
struct Kept<'s> {
    by_time: Option<Code>,
    /// A code for each of the options under which the access tables were read.
    by_options: Vec<AccessCode<'s>>,
}

/// A login to a stack of a kind, with the tables and groups to look it up in.
#[derive(Drop)]
struct Lookup<'x, 'l, 't> {
    kind: Kind,
    login: &'x Login<'l>,
    tables: &'x Tables<'t>,
    groups: Groups<'t>,
}

impl Lookup<'_, '_, '_> {
    /// Returns the code that the time table gives. It is the same for all modules, so it is kept.
    fn time_answer(
        &self,
        alloc: Global,
        table: &TimedTable<'_>,
        kept: &mut Kept<'_>,
    ) -> Result<Code, KnownError>
        requires kept { IsKept self.now kept.old }
        requires table { (tables_view self.now.tables.now).time ≡ Some (timed_view table.now) }
        ensures told { Gives (λ e. TellsError e) (λ code. code) result (time_told (login_view self.now.login.now) (timed_view table.now)) }
        ensures read { IfErr result (IsOfRead (of_module false true)) }
        ensures kept { IsKept self.now kept.new }
    {
        match kept.by_time {
            Some(code) => Ok(code),
            None => {
                let code = time_told(alloc, self.login, table)?;
                kept.by_time = Some(code);
                Ok(code)
            }
        }
    }

    /// Returns the code that is kept for these options.
    fn kept_access(&self, options: &AccessOptions<'_>, kept: &Kept<'_>) -> Option<Code>
        requires { IsKept self.now kept.now }
        ensures { IfSome result (λ code. IsAccessCode self.now options.now code) }
    {
        for access in &kept.by_options {
            if access.options.is_same(options) {
                return Some(access.code);
            }
        }
        None
    }

    /// Returns the code that the access tables give. It is the same for equal options, so it is kept for them.
    #[tactic(auto, unfolding(crate::specs::known::Answers::access_told))]
    fn access_answer<'s>(
        &self,
        alloc: Global,
        access: &Texts,
        arguments: &'s Texts,
        kept: &mut Kept<'s>,
    ) -> Result<Code, KnownError>
        requires kept { IsKept self.now kept.old }
        requires table { if_any (tables_view self.now.tables.now).access ≡ Some access.now }
        ensures told { Gives (λ e. TellsError e) (λ code. code) result
            (access_told (login_view self.now.login.now) self.now.groups arguments.now access.now) }
        ensures read { IfErr result (IsOfRead (of_module true false)) }
        ensures kept { IsKept self.now kept.new }
    {
        let options = AccessOptions::of(arguments);
        if let Some(code) = self.kept_access(&options, kept) {
            return Ok(code);
        }
        let code = access_told(alloc, self.login, &self.groups, &options, access)?;
        match kept.by_options.push(AccessCode { options, code }) {
            Ok(()) => Ok(code),
            Err(_) => Err(KnownError::from(TableError::new(Table::Access, TableFault::Memory, 0))),
        }
    }

    /// Returns the code that a module returns because of its table, if it reads one.
    #[tactic(auto, unfolding(crate::specs::known::Answers::table_answer))]
    fn answer_of<'s>(
        &self,
        alloc: Global,
        module: &'s Module,
        kept: &mut Kept<'s>,
    ) -> Result<Option<Code>, KnownError>
        requires { IsKept self.now kept.old }
        ensures told { TellsIfAny result (told_of self.now (module_text «module».now)) }
        ensures read { IfErr result (IsOfRead (module_reads self.now (module_text «module».now))) }
        ensures kept { IsKept self.now kept.new }
    {
        if let Some(access) = access_read(self.tables, module) {
            let code = self.access_answer(alloc, access, &module.arguments, kept)?;
            return Ok(Some(code));
        }
        match time_read(self.kind, self.tables, module) {
            Some(table) => {
                let code = self.time_answer(alloc, table, kept)?;
                Ok(Some(code))
            }
            None => Ok(None),
        }
    }

    /// Like `answer_of`, for the module of a number.
    fn answer_at<'s>(
        &self,
        alloc: Global,
        stack: &'s Stack,
        number: usize,
        kept: &mut Kept<'s>,
    ) -> Result<Option<Code>, KnownError>
        requires { IsKept self.now kept.old }
        ensures told { TellsIfAny result (told_of_number self.now stack.now number) }
        ensures read { IfErr result (IsOfRead (number_reads self.now stack.now number)) }
        ensures kept { IsKept self.now kept.new }
    {
        match stack.module(number) {
            Some(module) => self.answer_of(alloc, module, kept),
            None => Ok(None),
        }
    }

    /// Returns what the facts leave of the codes of all modules.
    fn said_answers(&self, stack: &Stack) -> Known
        ensures { (m : ℕ) → 1 ≤ m → m ≤ module_count stack.now → IsSaidSet (said_of self.now stack.now) m (set_for result m) }
    {
        match self.tables.facts {
            // A module that is not there gets its code in the end, whatever else is known of it.
            Some(facts) => facts.answers(stack, self.kind, None),
            None => Known::new(),
        }
    }

    /// Returns the codes of all modules: those of tables for the modules that read one, and for the others what the facts leave.
    fn table_answers(&self, alloc: Global, stack: &Stack) -> Result<Known, KnownError>
        ensures told { TellsAll (module_count stack.now) (told_of_number self.now stack.now) (said_of self.now stack.now) (numbers stack.now) result }
        ensures read { IfErr result (IsOfRead (some_read self.now stack.now)) }
    {
        let mut known = self.said_answers(stack);
        let mut kept = Kept {
            by_time: None,
            by_options: Vec::new(alloc),
        };
        for index in 0..stack.modules() {
            if let Some(code) = self.answer_at(alloc, stack, index + 1, &mut kept)? {
                known.set(index + 1, CodeSet::single(code));
            }
        }
        Ok(known)
    }

    /// Whether the module reads a table, which then gives its code.
    #[tactic(auto, unfolding(crate::specs::known::Answers::table_answer))]
    fn is_told(&self, module: &Module) -> bool
        ensures { result ≡ is_some (told_of self.now (module_text «module».now)) }
    {
        access_read(self.tables, module).is_some()
            || time_read(self.kind, self.tables, module).is_some()
    }

    /// Returns the codes of the module's line in a returns file, if it has one and reads no table.
    fn codes_of(&self, module: &Module, returns: &ReturnTable<'_>) -> Option<CodeSet>
        ensures { Adds result (told_of self.now (module_text «module».now)) (codes_for returns.now (name_of_path «module».now.path.items)) }
    {
        if self.is_told(module) {
            return None;
        }
        let codes = returns.codes(name_of_path(&module.path))?;
        // An empty set would allow every code.
        prove!(codes.len() > 0);
        Some(codes)
    }

    /// Like `codes_of`, for the module of a number.
    fn codes_at(&self, stack: &Stack, number: usize, returns: &ReturnTable<'_>) -> Option<CodeSet>
        ensures { Adds result (told_of_number self.now stack.now number) (line_at returns.now stack.now number) }
    {
        match stack.module(number) {
            Some(module) => self.codes_of(module, returns),
            None => None,
        }
    }

    /// Adds the codes of a returns file, for the modules that read no table.
    fn add_returns(&self, stack: &Stack, returns: &ReturnTable<'_>, known: &mut Known)
        requires { (m : ℕ) → 1 ≤ m → m ≤ module_count stack.now
            → IsTableSet (told_of_number self.now stack.now) (said_of self.now stack.now) m (set_for known.old m) }
        ensures { (m : ℕ) → 1 ≤ m → m ≤ module_count stack.now
            → IsLineSet (told_of_number self.now stack.now) (line_at returns.now stack.now) (said_of self.now stack.now) m (set_for known.new m) }
    {
        for index in 0..stack.modules() {
            if let Some(codes) = self.codes_at(stack, index + 1, returns) {
                known.set(index + 1, codes);
            }
        }
    }
}

/// Returns the codes that the modules of a stack of this kind may return for a login.
///
/// A module `pam_access.so` returns what the first line of the access tables says that matches, read with the module's own
/// arguments, unless one of them begins with `accessfile=`. A module `pam_time.so` returns what the time table says, for `account` only, unless
/// an argument begins with `conffile=`. Granted is `success`, denied is `perm_denied`. Every other module may return
/// the codes of its line in the returns file. If it has no line, it may return the codes that the facts say for this kind,
/// or any code if no facts are given. A module that is not there returns `module_unknown` alone, whatever a table, the
/// returns file or the facts say of it.
///
/// Returns the first fault: of the group file, which is read only if a module reads the access tables; then of the
/// tables that a module reads, in the order of the modules; then of the returns file. A failed allocation is `Memory`
/// of the kind of a table that is read, with line 0.
pub fn known_answers(
    alloc: Global,
    stack: &Stack,
    kind: Kind,
    login: &Login<'_>,
    tables: &Tables<'_>,
) -> Result<Known, KnownError>
    ensures known { Knows (module_count stack.now) result (knowledge kind (login_view login.now) (tables_view tables.now) stack.now) }
    ensures read { IfErr result (IsOfRead (tables_read kind (tables_view tables.now) stack.now)) }
{
    let mut known = told_answers(alloc, stack, kind, login, tables)?;
    set_missing(tables.there, stack, &mut known);
    Ok(known)
}

/// Returns the codes that the modules of a stack of this kind may return for a login if all of them are there.
fn told_answers<'x>(
    alloc: Global,
    stack: &Stack,
    kind: Kind,
    login: &'x Login<'_>,
    tables: &'x Tables<'_>,
) -> Result<Known, KnownError>
    ensures known { Knows (module_count stack.now) result (told_knowledge kind (login_view login.now) (tables_view tables.now) stack.now) }
    ensures read { IfErr result (IsOfRead (tables_read kind (tables_view tables.now) stack.now)) }
{
    let groups = groups_read(alloc, stack, tables)?;
    let lookup = Lookup {
        kind,
        login,
        tables,
        groups,
    };
    let mut known = lookup.table_answers(alloc, stack)?;
    if let Some(bytes) = tables.returns {
        let returns = ReturnTable::read(alloc, bytes)?;
        lookup.add_returns(stack, &returns, &mut known);
    }
    Ok(known)
}
