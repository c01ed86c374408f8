//! Access tables, as in access.conf(5): checking them and deciding logins.

ghost use Rattle.std.specs.Prelude.{◌≡◌, ℕ, Ok, Option, IfOk, IfErr};
ghost use Rattle.std.specs.Option.{option_map};
ghost use Rattle.pam_tables.specs.Access.{LineText, permission_of, is_passed_over as is_passed_over_of, line_of_fields, fields_of as fields_of_line};
ghost use Rattle.pam_tables.specs.Access.{access_line, lines_of, table_of, answer_with, access_answer};
ghost use Rattle.pam_tables.specs.inner.Access.{permission_for};
ghost use Rattle.pam_tables.specs.Error.{Gives, verdict};
ghost use Rattle.pam_tables.specs.Lines.{cut_at, is_among, trimmed};
ghost use Rattle.pam_tables.specs.Login.{login_view};
ghost use Rattle.pam_tables.specs.inner.Tokens.{known_mark};

use crate::error::{Table, TableError, TableFault};
use crate::groups::Groups;
use crate::lines::{Lines, is_blank_text, source, trim};
use crate::login::Origin;
use crate::memberships::Memberships;
use crate::options::AccessOptions;
use crate::origins::check_origins;
use crate::times::Login;
use crate::tokens::{has_token, list_matches};
use crate::users::{UserMatcher, check_users};
use pam_text::{ByteSet, Source, cut_among};
use std::alloc::Global;
use std::marker::Model;

/// The answer for a login, with the number of the line that decides.
///
/// A login that no line matches is granted, as `Granted(None)`.
#[derive(Clone, Copy, Debug, PartialEq, Eq)]
pub enum AccessAnswer {
    Granted(Option<u32>),
    Denied(u32),
}

/// The answer of a line for the logins that it matches.
#[derive(Clone, Copy, Debug, PartialEq, Eq)]
enum Permission {
    Grant,
    Deny,
}

impl Permission {
    #[tactic(auto, unfolding(crate::specs::Access::permission_of))]
    fn read(text: &[u8]) -> Result<Permission, TableFault>
        ensures { result ≡ permission_of text.now }
    {
        if text == b"+".as_slice() {
            Ok(Permission::Grant)
        } else if text == b"-".as_slice() {
            Ok(Permission::Deny)
        } else {
            Err(TableFault::BadPermission)
        }
    }

    /// Reads the first field of a line. Most have no blanks around the permission, so that is tried first.
    fn of_field(text: &[u8]) -> Result<Permission, TableFault>
        ensures { result ≡ permission_of (trimmed text.now) }
    {
        match Permission::read(text) {
            Ok(permission) => Ok(permission),
            Err(_) => Permission::read(trim(text)),
        }
    }

    fn answer(self, number: u32) -> AccessAnswer
        ensures { result ≡ answer_with self number }
    {
        match self {
            Permission::Grant => AccessAnswer::Granted(Some(number)),
            Permission::Deny => AccessAnswer::Denied(number),
        }
    }
}

/// The three fields of a line, not yet split into tokens.
#[derive(Clone, Copy)]
pub struct AccessFields<'a> {
    pub permission: &'a [u8],
    pub users: &'a [u8],
    pub origins: &'a [u8],
}

/// Whether a line is a comment or blank.
#[tactic(auto, unfolding(crate::specs::Access::is_passed_over))]
pub fn is_passed_over(line: &[u8]) -> bool
    ensures { result ≡ is_passed_over_of line.now }
{
    line.starts_with(b"#") || is_blank_text(line)
}

/// Cuts a line after its first field. Most permissions are one byte, which is found before a search by vectors begins.
fn cut_permission<'a>(line: &'a [u8], separators: &ByteSet<'_>) -> Option<(&'a [u8], &'a [u8])>
    ensures { option_map (λ p. (p.0.now, p.1.now)) result ≡ cut_at (is_among separators.now.bytes.now) line.now }
{
    if line.len() > 1 && !separators.has(line[0]) && separators.has(line[1]) {
        let (permission, rest) = line.split_at(1);
        return Some((permission, rest.split_at(1).1));
    }
    cut_among(line, separators)
}

/// Cuts a line at its first two field separators. Returns `None` if it has fewer.
#[inline(always)]
#[tactic(auto, unfolding(crate::specs::Access::fields_of))]
pub fn cut_fields<'a>(line: &'a [u8], separators: &ByteSet<'_>) -> Option<AccessFields<'a>>
    ensures { option_map (λ f. (f.permission.now, f.users.now, f.origins.now)) result ≡ fields_of_line separators.now.bytes.now line.now }
{
    match cut_permission(line, separators) {
        Some((permission, rest)) => match cut_among(rest, separators) {
            Some((users, origins)) => Some(AccessFields {
                permission,
                users,
                origins,
            }),
            None => None,
        },
        None => None,
    }
}

/// The bytes that separate fields, and those that separate tokens.
#[derive(Drop)]
pub(crate) struct Separators<'s> {
    fields: ByteSet<'s>,
    tokens: ByteSet<'s>,
}

impl<'s> Separators<'s> {
    pub(crate) fn of(fields: &'s [u8], tokens: &'s [u8]) -> Self
        ensures fields { result.fields.bytes.now ≡ fields.now }
        ensures tokens { result.tokens.bytes.now ≡ tokens.now }
    {
        Separators {
            fields: ByteSet::of(fields),
            tokens: ByteSet::of(tokens),
        }
    }
}

/// Checks a line of three fields.
fn check_fields(fields: AccessFields<'_>, separators: &ByteSet<'_>) -> Result<(), TableFault>
    ensures { (number : ℕ) → result
        ≡ verdict (line_of_fields separators.now.bytes.now number fields.entry.permission.now fields.entry.users.now fields.entry.origins.now) }
{
    if !has_token(fields.users, separators) {
        return Err(TableFault::MissingField);
    }
    if !has_token(fields.origins, separators) {
        return Err(TableFault::MissingField);
    }
    Permission::of_field(fields.permission)?;
    check_users(fields.users, separators)?;
    check_origins(fields.origins, separators)
}

/// Checks a line, unless it is a comment or blank.
pub(crate) fn check_line(line: &[u8], separators: &Separators<'_>) -> Result<(), TableFault>
    ensures { (number : ℕ) → result ≡ verdict (access_line separators.now.fields.bytes.now separators.now.tokens.bytes.now number line.now) }
{
    if is_passed_over(line) {
        return Ok(());
    }
    match cut_fields(line, &separators.fields) {
        Some(fields) => check_fields(fields, &separators.tokens),
        None => Err(TableFault::MissingField),
    }
}

fn check_lines(source: Source<'_>, separators: &Separators<'_>) -> Result<(), TableError>
    ensures { Gives Table.Access (λ done. done) result
        (verdict (lines_of separators.now.fields.bytes.now separators.now.tokens.bytes.now source.entry.bytes.now)) }
{
    for (number, line) in Lines::of(source) {
        if let Err(fault) = check_line(line, separators) {
            return Err(TableError::new(Table::Access, fault, number));
        }
    }
    Ok(())
}

/// Returns the permission of a line that matches. If the line has a fault, the answer means nothing.
fn matching(
    line: &[u8],
    separators: &Separators<'_>,
    users: &UserMatcher<'_>,
    origin: &Origin<'_>,
) -> Option<Permission>
    ensures { (number : ℕ) (entry : Option LineText) → access_line separators.now.fields.bytes.now separators.now.tokens.bytes.now number line.now ≡ Ok entry
        → result ≡ permission_for users.now.memberships.now.groups.now users.now.by_name users.now.memberships.now.user.now (known_mark origin.now) entry }
{
    if is_passed_over(line) {
        return None;
    }
    let fields = cut_fields(line, &separators.fields)?;
    if !list_matches(users, fields.users, &separators.tokens) {
        return None;
    }
    if !list_matches(origin, fields.origins, &separators.tokens) {
        return None;
    }
    Permission::of_field(fields.permission).ok()
}

/// An access table of pam_access(8), as in access.conf(5). Borrows the bytes it was read from.
///
/// Its lines are checked when it is read, and their tokens are matched while they are read again.
#[derive(Drop)]
pub struct AccessTable<'a> {
    source: Source<'a>,
    field_separators: Vec<u8>,
    list_separators: Vec<u8>,
    group_names: bool,
}

impl<'a> Model for AccessTable<'a> {
    ghost use Rattle.std.specs.Prelude.{◌≡◌, Ok};
    ghost use Rattle.pam_tables.specs.Access.{TableText, lines_of, table_lines};
    ghost use Rattle.pam_tables.specs.Error.{verdict};

    ghost Value = { TableText };

    ghost view = { λ t. record {
      lines = table_lines (lines_of t.field_separators.items t.list_separators.items t.source.bytes.now);
      group_names = t.group_names;
    } };

    ghost invariant = { λ t. verdict (lines_of t.field_separators.items t.list_separators.items t.source.bytes.now) ≡ Ok tt };
}

fn copy(alloc: Global, bytes: &[u8]) -> Result<Vec<u8>, TableError>
    ensures bytes { IfOk result (λ v. v.items ≡ bytes.now) }
    ensures memory { IfErr result (λ e. e ≡ record { table = Table.Access; fault = TableFault.Memory; line = 0 }) }
{
    match Vec::from_slice(alloc, bytes) {
        Ok(copied) => Ok(copied),
        Err(_) => Err(TableError::new(Table::Access, TableFault::Memory, 0)),
    }
}

impl<'a> AccessTable<'a> {
    /// Reads a table, or returns its first fault.
    ///
    /// `TableTooLong` (line 0) comes first, then `NulByte`, then the lines from the top. Within a line `MissingField`
    /// comes first, then `BadPermission`, then the tokens from the left. A failed allocation is `Memory`, with line 0.
    pub fn read(
        alloc: Global,
        bytes: &'a [u8],
        options: &AccessOptions<'_>,
    ) -> Result<AccessTable<'a>, TableError>
        ensures { Gives Table.Access (λ table. table) result (table_of options.now bytes.now) }
    {
        let source = source(Table::Access, bytes)?;
        let separators = Separators::of(options.field_separators, options.list_separators);
        check_lines(source, &separators)?;
        let field_separators = copy(alloc, options.field_separators)?;
        let list_separators = copy(alloc, options.list_separators)?;
        let group_names = options.group_names;
        Ok(AccessTable {
            source,
            field_separators,
            list_separators,
            group_names,
        })
    }

    /// Returns the table's answer for a login. Allocates nothing.
    pub fn decide(&self, login: &Login<'_>, groups: &Groups<'_>) -> AccessAnswer
        ensures { result ≡ access_answer self.now (login_view login.now) groups.now }
    {
        let origin = Origin::of(login);
        let memberships = Memberships::of(groups, login.user);
        let users = UserMatcher {
            memberships: &memberships,
            by_name: self.group_names,
        };
        let separators = Separators::of(&self.field_separators, &self.list_separators);
        for (number, line) in Lines::of(self.source) {
            if let Some(permission) = matching(line, &separators, &users, &origin) {
                return permission.answer(number);
            }
        }
        AccessAnswer::Granted(None)
    }
}
