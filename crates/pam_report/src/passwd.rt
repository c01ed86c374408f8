//! Primary groups: a user is also in the group whose number is in the user's line of a passwd file, as in passwd(5).

ghost use Rattle.std.specs.Prelude.{◌≡◌, ◌==◌, ◌++◌, ◌+◌, ◌≤◌, ◌∷◌, ℕ, [], List, IfOk, OnOk, Some, codes, length, option_map, take};
ghost use Rattle.std.specs.Char.{is_ascii_digit};
ghost use Rattle.std.specs.List.{list_all, list_any, prefix_len, slice_split};
ghost use Rattle.std.specs.Option.{option_map_or};
ghost use Rattle.pam_report.specs.Passwd as spec;
ghost use Rattle.pam_report.specs.Passwd.{with_primary_members as with_members_in};
ghost use Rattle.pam_report.specs.inner.Passwd.{first_part, group_view, user_view, users_known};
ghost use Rattle.pam_text.specs.Cut.{is_among};
ghost use Rattle.pam_text.specs.declared.source.TheConstants.{MAX_FILE_BYTES};

use indexmap::IndexMap;
use pam_text::{MAX_FILE_BYTES, cut};
use std::alloc::{AllocError, Global};

/// A user, and the digits of the number of the user's group, without zeros at the front.
#[derive(Clone, Copy)]
struct PrimaryGroup<'a> {
    user: &'a [u8],
    number: &'a [u8],
}

/// The fields of a line of a group file.
#[derive(Clone, Copy)]
struct GroupFields<'a> {
    name: &'a [u8],
    password: &'a [u8],
    number: &'a [u8],
    members: &'a [u8],
}

fn are_digits(text: &[u8]) -> bool
    ensures { result ≡ list_all is_ascii_digit text.now }
{
    text.iter().all(|byte| byte.is_ascii_digit())
}

fn is_number(text: &[u8]) -> bool
    ensures { result ≡ spec.is_number text.now }
{
    !text.is_empty() && are_digits(text)
}

fn leading_zeros(digits: &[u8]) -> usize
    ensures value { result ≡ prefix_len (λ b. b == 48) digits.now }
    ensures bound { result ≤ length digits.now }
{
    digits.iter().take_while(|byte| **byte == b'0').count()
}

/// Removes zeros at the front, so that equal numbers have the same digits.
fn without_zeros(digits: &[u8]) -> &[u8]
    ensures { result.now ≡ spec.without_zeros digits.now }
{
    digits.split_at(leading_zeros(digits)).1
}

/// Whether a line that begins with this byte is a comment or one of NIS.
fn is_mark(byte: u8) -> bool
    ensures { result ≡ spec.is_mark byte }
{
    byte == b'#' || byte == b'+' || byte == b'-'
}

fn has_comma(name: &[u8]) -> bool
    ensures { result ≡ list_any (λ b. b == 44) name.now }
{
    name.contains(&b',')
}

/// Whether the first field of a passwd line names a user, and a list of members can hold the name.
fn is_user(name: &[u8]) -> bool
    ensures { result ≡ spec.is_user name.now }
{
    match name.first() {
        Some(first) => !is_mark(*first) && !has_comma(name),
        None => false,
    }
}

/// Returns what is before the first colon, or all of the text if it has none.
fn first_field(text: &[u8]) -> &[u8]
    ensures { result.now ≡ first_part (slice_split (is_among (codes ":")) text.now) }
{
    match cut(text, b':') {
        Some((field, _)) => field,
        None => text,
    }
}

/// Returns a user with the group of this number, if there are such.
fn group_of<'a>(user: &'a [u8], number: &'a [u8]) -> Option<PrimaryGroup<'a>>
    ensures { option_map user_view result ≡ spec.user_with user.now number.now }
{
    if is_user(user) && is_number(number) {
        Some(PrimaryGroup {
            user,
            number: without_zeros(number),
        })
    } else {
        None
    }
}

/// Reads a passwd line. Returns `None` if it names nobody.
fn primary_group(line: &[u8]) -> Option<PrimaryGroup<'_>>
    ensures { option_map user_view result ≡ spec.user_at line.now }
{
    let (user, rest) = cut(line, b':')?;
    let (_, rest) = cut(rest, b':')?;
    let (_, rest) = cut(rest, b':')?;
    group_of(user, first_field(rest))
}

/// Adds a field and the byte that ends it.
fn put_field(text: &mut Vec<u8>, field: &[u8], end: u8) -> Result<(), AllocError>
    ensures { OnOk result (text.new.items ≡ text.old.items ++ (field.now ++ end ∷ [])) }
{
    text.extend_from_slice(field)?;
    text.push(end)?;
    Ok(())
}

/// Returns the names that are known, which are none at first.
fn names_known(alloc: Global, known: Option<Vec<u8>>) -> Vec<u8>
    ensures { result.items ≡ option_map_or (λ names. names.items) known [] }
{
    match known {
        Some(names) => names,
        None => Vec::new(alloc),
    }
}

/// Adds the user of a passwd line to those of the same number.
fn add_user<'a>(
    alloc: Global,
    line: &'a [u8],
    users: &mut IndexMap<&'a [u8], Vec<u8>>,
) -> Result<(), AllocError>
    ensures { OnOk result ((n : List ℕ) → users_known n users.new.entries ≡ users_known n users.old.entries ++ spec.user_in n (spec.user_at line.now)) }
{
    let Some(group) = primary_group(line) else {
        return Ok(());
    };
    let known = users.insert(group.number, Vec::new(alloc))?;
    let mut names = names_known(alloc, known);
    put_field(&mut names, group.user, b',')?;
    users.insert(group.number, names)?;
    Ok(())
}

/// Returns the users of a passwd file by the numbers of their groups, with a comma after each.
fn users_by_number(alloc: Global, passwd: &[u8]) -> Result<IndexMap<&[u8], Vec<u8>>, AllocError>
    ensures { IfOk result (λ users. (n : List ℕ) → users_known n users.entries ≡ spec.users_of n (spec.lines_of passwd.now)) }
{
    let mut users = IndexMap::new(alloc);
    let mut rest = passwd;
    while let Some((line, after)) = cut(rest, b'\n') {
        add_user(alloc, line, &mut users)?;
        rest = after;
    }
    add_user(alloc, rest, &mut users)?;
    Ok(users)
}

/// Returns four fields, if they are those of a group.
fn if_group(fields: GroupFields<'_>) -> Option<GroupFields<'_>>
    ensures { option_map group_view result ≡ spec.group_with fields.entry.name.now fields.entry.password.now fields.entry.number.now fields.entry.members.now }
{
    if !fields.name.is_empty() && is_number(fields.number) {
        Some(fields)
    } else {
        None
    }
}

/// Reads a line of a group file. Returns `None` if it is not four fields, of which the first is not empty and the third is a number.
fn group_fields(line: &[u8]) -> Option<GroupFields<'_>>
    ensures { option_map group_view result ≡ spec.group_at line.now }
{
    let (name, rest) = cut(line, b':')?;
    let (password, rest) = cut(rest, b':')?;
    let (number, members) = cut(rest, b':')?;
    match cut(members, b':') {
        Some(_) => None,
        None => if_group(GroupFields {
            name,
            password,
            number,
            members,
        }),
    }
}

/// Returns the users of a number, whose digits have no zeros at the front.
fn users_with<'m>(users: &'m IndexMap<&[u8], Vec<u8>>, number: &[u8]) -> &'m [u8]
    ensures { result.now ≡ users_known number.now users.now.entries }
{
    match users.get(number) {
        Some(names) => names.as_slice(),
        None => b"",
    }
}

/// Adds the line of a group, with the users of its number before its other members.
fn put_group(
    text: &mut Vec<u8>,
    group: GroupFields<'_>,
    users: &IndexMap<&[u8], Vec<u8>>,
) -> Result<(), AllocError>
    ensures { OnOk result (text.new.items ≡ text.old.items ++ spec.line_with (λ n. users_known n users.now.entries) (Some (group_view group.entry)) []) }
{
    put_field(text, group.name, b':')?;
    put_field(text, group.password, b':')?;
    put_field(text, group.number, b':')?;
    text.extend_from_slice(users_with(users, without_zeros(group.number)))?;
    text.extend_from_slice(group.members)?;
    Ok(())
}

/// Adds a line of a group file, a group with the users of its number before its other members.
fn put_line(
    text: &mut Vec<u8>,
    line: &[u8],
    users: &IndexMap<&[u8], Vec<u8>>,
) -> Result<(), AllocError>
    ensures { OnOk result (text.new.items ≡ text.old.items ++ spec.line_with (λ n. users_known n users.now.entries) (spec.group_at line.now) line.now) }
{
    match group_fields(line) {
        Some(group) => put_group(text, group, users),
        None => text.extend_from_slice(line),
    }
}

/// Removes what is past one byte more than a table may have, by which a longer one is recognized.
fn cut_off(text: Vec<u8>) -> Vec<u8>
    ensures { result.items ≡ take (MAX_FILE_BYTES + 1) text.items }
{
    let mut text = text;
    text.truncate(MAX_FILE_BYTES + 1);
    text
}

/// Returns a group file in which the users of a passwd file are members of the groups whose numbers their lines have.
///
/// The lines stay where they are. Of a text that is longer than a table may be, what is past one byte more is left out.
pub fn with_primary_members(
    alloc: Global,
    groups: &[u8],
    passwd: &[u8],
) -> Result<Vec<u8>, AllocError>
    ensures { IfOk result (λ text. text.items ≡ with_members_in groups.now passwd.now) }
{
    let users = users_by_number(alloc, passwd)?;
    let mut text = Vec::new(alloc);
    let mut rest = groups;
    while let Some((line, after)) = cut(rest, b'\n') {
        put_line(&mut text, line, &users)?;
        text.push(b'\n')?;
        // Lines of one number would make a text that grows with the product of the two files.
        if text.len() > MAX_FILE_BYTES {
            return Ok(cut_off(text));
        }
        rest = after;
    }
    put_line(&mut text, rest, &users)?;
    Ok(cut_off(text))
}
