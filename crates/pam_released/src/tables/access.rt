//! The findings of an access table.

ghost use Rattle.std.specs.Prelude.{◌≡◌, ◌+◌, ◌==◌, ◌++◌, ◌≤◌, IfOk, OnOk, length};
ghost use Rattle.std.specs.List.{list_any};
ghost use Rattle.std.specs.Option.{option_map};
ghost use Rattle.pam_tables.specs.Tokens.{tokens_of};
ghost use Rattle.pam_released.specs.tables.Access.{access_findings, access_tests, has_empty_separator, has_mask_digits, has_zero_mask};
ghost use Rattle.pam_released.specs.tables.Access.{is_empty_separator, is_loopback, last_line, origins_of, rule_fields, users_of};
ghost use Rattle.pam_released.specs.tables.Findings.{found_at};
ghost use Rattle.pam_released.specs.tables.inner.Separators.{options_with};

use crate::tables::difference::TableDifference;
use crate::tables::finding::{TableFinding, push_those};
use crate::tables::rows;
use pam_tables::AccessOptions;
use pam_tables::parts::{AccessFields, Lines, Tokens, cut_fields, is_passed_over};
use pam_text::{ByteSet, Source, Texts};
use std::alloc::{AllocError, Global};

fn is_empty_separator(argument: &[u8]) -> bool
    ensures { result ≡ is_empty_separator argument.now }
{
    argument == b"fieldsep=".as_slice() || argument == b"listsep=".as_slice()
}

/// A5: whether an argument of pam_access(8) is `fieldsep=` or `listsep=` without a value. It shows at the rule of the module.
pub fn has_empty_separator(arguments: &Texts) -> bool
    ensures { result ≡ has_empty_separator arguments.now }
{
    arguments
        .iter()
        .any(|argument| is_empty_separator(argument))
}

/// The bytes that separate fields, and those that separate tokens.
#[derive(Drop)]
struct Separators<'s> {
    fields: ByteSet<'s>,
    tokens: ByteSet<'s>,
}

/// The number of the line that no line feed ends: one more than the line feeds.
fn last_line(bytes: &[u8]) -> usize
    requires { length bytes.now ≤ 1048576 }
    ensures { result ≡ last_line bytes.now }
{
    bytes.iter().filter(|byte| **byte == b'\n').count() + 1
}

/// The lines of an access table that Linux-PAM 1.5.2 to 1.7.0 reads otherwise than access.conf(5) says, A1 to A4, A6 and A7, in
/// the order of lines and then of numbers, each once. Takes time linear in the table.
#[tactic(auto, unfolding(crate::specs::tables::Access::access_findings))]
pub fn access_findings(
    alloc: Global,
    source: Source<'_>,
    options: &AccessOptions<'_>,
) -> Result<Vec<TableFinding>, AllocError>
    ensures { IfOk result (λ found. found.items ≡ access_findings options.now source.entry.bytes.now) }
{
    let separators = Separators {
        fields: ByteSet::of(options.field_separators()),
        tokens: ByteSet::of(options.list_separators()),
    };
    let last = last_line(source.bytes);
    let mut found = Vec::new(alloc);
    for (number, line) in Lines::of(source) {
        push_differences(last, number, line, &separators, &mut found)?;
    }
    Ok(found)
}

/// The fields of a line, if it has a rule.
fn rule_fields<'a>(line: &'a [u8], separators: &Separators<'_>) -> Option<AccessFields<'a>>
    ensures { option_map (λ f. (f.permission.now, f.users.now, f.origins.now)) result
        ≡ rule_fields (options_with separators.now) line.now }
{
    if is_passed_over(line) {
        None
    } else {
        cut_fields(line, &separators.fields)
    }
}

/// The users and the origins of a line; empty where it has no rule.
fn lists_of<'a>(line: &'a [u8], separators: &Separators<'_>) -> (&'a [u8], &'a [u8])
    ensures users { result.0.now ≡ users_of (rule_fields (options_with separators.now) line.now) }
    ensures origins { result.1.now ≡ origins_of (rule_fields (options_with separators.now) line.now) }
{
    match rule_fields(line, separators) {
        Some(fields) => (fields.users, fields.origins),
        None => (b"", b""),
    }
}

/// The differences that the tokens of some origins have.
#[derive(Clone, Copy)]
struct OriginRows {
    zero_mask: bool,
    mask_digits: bool,
    loopback: bool,
}

fn origin_rows(origins: &[u8], separators: &ByteSet<'_>) -> OriginRows
    ensures zero_mask { result.zero_mask ≡ list_any has_zero_mask (tokens_of separators.now.bytes.now origins.now) }
    ensures mask_digits { result.mask_digits ≡ list_any has_mask_digits (tokens_of separators.now.bytes.now origins.now) }
    ensures loopback { result.loopback ≡ list_any is_loopback (tokens_of separators.now.bytes.now origins.now) }
{
    let mut rows = OriginRows {
        zero_mask: false,
        mask_digits: false,
        loopback: false,
    };
    for token in Tokens::of(origins, separators) {
        rows = OriginRows {
            zero_mask: rows.zero_mask | rows::has_zero_mask(token),
            mask_digits: rows.mask_digits | rows::has_mask_digits(token),
            loopback: rows.loopback | rows::is_loopback(token),
        };
    }
    rows
}

/// Appends the differences at a line of a table whose last line has the number `last`.
fn push_differences(
    last: usize,
    number: u32,
    line: &[u8],
    separators: &Separators<'_>,
    found: &mut Vec<TableFinding>,
) -> Result<(), AllocError>
    ensures { OnOk result (found.new.items
        ≡ found.old.items ++ found_at number (access_tests (options_with separators.now) last number line.now)) }
{
    let (users, origins) = lists_of(line, separators);
    let origin = origin_rows(origins, &separators.tokens);
    let in_token = rows::has_blank_in_token(users, &separators.tokens)
        || rows::has_blank_in_token(origins, &separators.tokens);
    let tests = [
        (origin.zero_mask, TableDifference::ZeroMask),
        (
            rows::lacks_line_feed(last, number as usize, line),
            TableDifference::AccessNoLineFeed,
        ),
        (rows::has_leading_blank(line), TableDifference::LeadingBlank),
        (in_token, TableDifference::BlankInToken),
        (origin.mask_digits, TableDifference::MaskDigits),
        (origin.loopback, TableDifference::Loopback),
    ];
    push_those(found, number, &tests)
}
