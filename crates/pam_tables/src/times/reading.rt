//! The lines of a time table: their fields and faults.

ghost use Rattle.std.specs.Prelude.{◌≡◌, ℕ};
ghost use Rattle.std.specs.List.{list_all};
ghost use Rattle.std.specs.Option.{option_map};
ghost use Rattle.pam_codes.specs.Tokens.{is_blank};
ghost use Rattle.pam_tables.specs.times.Reading.{is_netgroup, has_empty, cut_fields, fields_view, rule_of};
ghost use Rattle.pam_tables.specs.times.inner.Checks.{cut_others, name_checked, entry_checked, fields_checked, first_fault, token_checked, list_checked};
ghost use Rattle.pam_tables.specs.times.inner.Checks.{line_checked};

use crate::times::entry::TimeEntry;
use crate::times::error::TimeFault;
use crate::times::logic::{Next, first_item, next_joint};
use crate::times::one_pass::{TokenEnds, is_rule};
use crate::times::pattern;
use pam_text::{cut, is_text_blank};

/// A field of a line.
#[derive(Clone, Copy)]
pub(crate) enum Field {
    Services,
    Terminals,
    Users,
    Times,
}

/// The four fields of a line, as they are written: with blanks, and not checked.
#[derive(Clone, Copy)]
pub struct Fields<'a> {
    pub services: &'a [u8],
    pub terminals: &'a [u8],
    pub users: &'a [u8],
    pub times: &'a [u8],
}

fn is_blank_text(text: &[u8]) -> bool
    ensures { result ≡ list_all is_blank text.now }
{
    text.iter().all(|b| is_text_blank(*b))
}

fn has_empty(fields: Fields<'_>) -> bool
    ensures { result ≡ has_empty (fields_view fields.entry) }
{
    is_blank_text(fields.services)
        || is_blank_text(fields.terminals)
        || is_blank_text(fields.users)
        || is_blank_text(fields.times)
}

/// Cuts what follows the services of a line into the other three fields. Returns `None` if one is missing.
pub(crate) fn cut_others<'a>(services: &'a [u8], rest: &'a [u8]) -> Option<Fields<'a>>
    ensures { option_map fields_view result ≡ cut_others services.now rest.now }
{
    let (terminals, rest) = cut(rest, b';')?;
    let (users, times) = cut(rest, b';')?;
    Some(Fields {
        services,
        terminals,
        users,
        times,
    })
}

/// Cuts a line into its four fields. Returns `None` if one is missing. The last is the rest of the line.
pub fn cut_fields(line: &[u8]) -> Option<Fields<'_>>
    ensures { option_map fields_view result ≡ cut_fields line.now }
{
    let (services, rest) = cut(line, b';')?;
    cut_others(services, rest)
}

#[inline(always)]
fn is_netgroup(field: Field, name: &[u8]) -> bool
    ensures { result ≡ is_netgroup field name.now }
{
    match field {
        Field::Users => !name.is_empty() && name[0] == b'@',
        Field::Services => false,
        Field::Terminals => false,
        Field::Times => false,
    }
}

#[inline(always)]
fn check_name(field: Field, name: &[u8]) -> Result<(), TimeFault>
    ensures { result ≡ name_checked field name.now }
{
    if is_netgroup(field, name) {
        return Err(TimeFault::Netgroup);
    }
    if pattern::has_two_stars(name) {
        return Err(TimeFault::TwoWildcards);
    }
    Ok(())
}

// Not inlined: the loop over the tokens of a list has no registers to spare.
#[inline(never)]
fn check_entry(token: &[u8]) -> Result<(), TimeFault>
    ensures { result ≡ entry_checked token.now }
{
    match TimeEntry::read(token) {
        Some(_) => Ok(()),
        None => Err(TimeFault::BadTimes),
    }
}

#[inline(always)]
pub(crate) fn check_token(field: Field, token: &[u8]) -> Result<(), TimeFault>
    ensures { result ≡ token_checked field token.now }
{
    match field {
        Field::Times => check_entry(token),
        Field::Services => check_name(field, token),
        Field::Terminals => check_name(field, token),
        Field::Users => check_name(field, token),
    }
}

/// Returns the first fault of the tokens of a list up to a token, given the first fault before it.
#[inline(always)]
fn check_next(before: Result<(), TimeFault>, field: Field, token: &[u8]) -> Result<(), TimeFault>
    ensures { result ≡ first_fault before (token_checked field token.now) }
{
    match before {
        Ok(()) => check_token(field, token),
        Err(fault) => Err(fault),
    }
}

/// Checks that a field is a list, and then its tokens from the left. Inlined, so that it is compiled for each field.
#[inline(always)]
fn check_list(field: Field, text: &[u8]) -> Result<(), TimeFault>
    ensures { result ≡ list_checked field text.now }
{
    let mut checked = Ok(());
    let mut rest = text;
    while let Some(item) = first_item(rest) {
        checked = check_next(checked, field, item.token);
        match next_joint(item.rest) {
            Next::End => return checked,
            Next::Joint(_, after) => rest = after,
            Next::Fault => return Err(TimeFault::BadLogic),
        }
    }
    Err(TimeFault::BadLogic)
}

/// Checks the lists of the fields of a line, from the left.
fn check_fields(fields: Fields<'_>) -> Result<(), TimeFault>
    ensures { result ≡ fields_checked (fields_view fields.entry) }
{
    check_list(Field::Services, fields.services)?;
    check_list(Field::Terminals, fields.terminals)?;
    check_list(Field::Users, fields.users)?;
    check_list(Field::Times, fields.times)
}

/// Checks a line. Returns whether it has a rule: a blank line has none. A blank field is no list, so blanks are looked
/// for only in a line that has a fault.
pub(crate) fn check_line(line: &[u8], ends: &TokenEnds) -> Result<bool, TimeFault>
    ensures { (number : ℕ) → result ≡ line_checked (rule_of number line.now) }
{
    if is_rule(line, ends) {
        return Ok(true);
    }
    let Some(fields) = cut_fields(line) else {
        if is_blank_text(line) {
            return Ok(false);
        }
        return Err(TimeFault::MissingField);
    };
    match check_fields(fields) {
        Ok(()) => Ok(true),
        Err(fault) => {
            if has_empty(fields) {
                Err(TimeFault::MissingField)
            } else {
                Err(fault)
            }
        }
    }
}
