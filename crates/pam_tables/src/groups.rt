//! Groups of users, as in group(5).

ghost use Rattle.std.specs.Prelude.{◌≡◌, ◌==◌, ℕ, [], codes, false, List, IfSome, MatchOption, Ok, Err};
ghost use Rattle.std.specs.List.{list_any};
ghost use Rattle.std.specs.Option.{option_map_or};
ghost use Rattle.std.specs.Str.{bytes_eq};
ghost use Rattle.pam_tables.specs.Error.{Gives, verdict};
ghost use Rattle.pam_tables.specs.inner.Error.{GivesPart};
ghost use Rattle.pam_tables.specs.Groups.{lists_user, members_of, group_of_fields, group_at, groups_of};
ghost use Rattle.pam_tables.specs.inner.Groups.{lists_at};
ghost use Rattle.pam_tables.specs.Lines.{is_among};
ghost use Rattle.pam_tables.specs.inner.Named.{with_line};
ghost use Rattle.std.specs.List.{slice_split};

use crate::error::{Table, TableError, TableFault};
use crate::lines::is_blank_text;
use crate::named::{Entries, read_entries};
use indexmap::IndexMap;
use pam_text::cut;
use std::alloc::Global;
use std::marker::Model;

/// The members of groups, by group name, as in group(5). Borrows the bytes it was read from.
#[derive(Drop)]
pub struct Groups<'a> {
    members: IndexMap<&'a [u8], &'a [u8]>,
}

impl<'a> Model for Groups<'a> {
    ghost use Rattle.std.specs.Prelude.{List, map};
    ghost use Rattle.pam_tables.specs.Groups.{Group, members_of};

    ghost Value = { List Group };

    ghost view = { λ g. map (λ e. (e.0.now, members_of e.1.now)) g.members.entries };
}

/// The name and the members of a group, as written in its line.
#[derive(Clone, Copy)]
struct GroupLine<'a> {
    name: &'a [u8],
    members: &'a [u8],
}

/// Splits a line into four fields. Returns `None` if their number is not four or the first is empty.
fn group_line(line: &[u8]) -> Option<GroupLine<'_>>
    ensures { MatchOption result (group_of_fields (slice_split (is_among (codes ":")) line.now) ≡ Err TableFault.BadGroup)
        (λ g. group_of_fields (slice_split (is_among (codes ":")) line.now) ≡ Ok (g.name.now, members_of g.members.now)) }
{
    let (name, rest) = cut(line, b':')?;
    let (_, rest) = cut(rest, b':')?;
    let (_, members) = cut(rest, b':')?;
    if name.is_empty() {
        return None;
    }
    match cut(members, b':') {
        Some(_) => None,
        None => Some(GroupLine { name, members }),
    }
}

/// Checks a line, unless it is blank.
pub(crate) fn check_line(line: &[u8]) -> Result<(), TableFault>
    ensures { result ≡ verdict (group_at line.now) }
{
    if is_blank_text(line) {
        return Ok(());
    }
    match group_line(line) {
        Some(_) => Ok(()),
        None => Err(TableFault::BadGroup),
    }
}

pub(crate) fn has_member(members: &[u8], user: &[u8]) -> bool
    ensures { result ≡ list_any (λ m. bytes_eq m user.now) (members_of members.now) }
{
    if user.is_empty() {
        return false;
    }
    let mut rest = members;
    while let Some((member, after)) = cut(rest, b',') {
        if member == user {
            return true;
        }
        rest = after;
    }
    rest == user
}

impl<'a> Groups<'a> {
    /// Returns an empty table: no group has members.
    pub fn new(alloc: Global) -> Self
        ensures { result ≡ [] }
    {
        Groups {
            members: IndexMap::new(alloc),
        }
    }

    /// Reads a group file, or returns its first fault. If several lines have the same name, the first counts.
    ///
    /// `TableTooLong` (line 0) comes first, then `NulByte`, then `BadGroup` in the lines from the top. A failed
    /// allocation is `Memory`, with line 0.
    pub fn read(alloc: Global, bytes: &'a [u8]) -> Result<Groups<'a>, TableError>
        ensures { Gives Table.Group (λ groups. groups) result (groups_of bytes.now) }
    {
        read_entries(alloc, Table::Group, bytes, Groups::new(alloc))
    }

    /// Whether the group named exactly `group` lists the user.
    pub fn lists(&self, group: &[u8], user: &[u8]) -> bool
        ensures { result ≡ lists_user self.now group.now user.now }
    {
        match self.find(group) {
            Some((_, members)) => has_member(members, user),
            None => false,
        }
    }

    /// Returns the index and the members of the group named exactly `group`.
    #[inline(always)]
    pub(crate) fn find(&self, group: &[u8]) -> Option<(usize, &'a [u8])>
        ensures named { (user : List ℕ) → lists_user self.now group.now user
            ≡ option_map_or (λ g. list_any (λ m. bytes_eq m user) (members_of g.1.now)) result false }
        ensures at { (user : List ℕ) → IfSome result (λ g. lists_at self.now user g.0 ≡ list_any (λ m. bytes_eq m user) (members_of g.1.now)) }
    {
        if self.members.is_empty() {
            return None;
        }
        let (index, _, members) = self.members.get_full(group)?;
        Some((index, *members))
    }

    /// The number of groups.
    pub(crate) fn len(&self) -> usize {
        self.members.len()
    }

    /// Whether the group at an index lists the user.
    pub(crate) fn lists_at(&self, index: usize, user: &[u8]) -> bool
        ensures { result ≡ lists_at self.now user.now index }
    {
        let Some((_, members)) = self.members.get_index(index) else {
            return false;
        };
        has_member(members, user)
    }
}

impl<'a> Entries<'a> for Groups<'a> {
    ghost use Rattle.std.specs.Prelude.{ℕ, List};
    ghost use Rattle.pam_tables.specs.Groups.{group_at};

    ghost Value = { List (List ℕ) };

    ghost meant = { group_at };

    ghost entries = { λ groups. groups };

    fn add_line(&mut self, alloc: Global, line: &'a [u8]) -> Result<(), TableFault>
        ensures { GivesPart (λ _. self.new) result (with_line self.old (group_at line.now)) }
    {
        if is_blank_text(line) {
            return Ok(());
        }
        let group = match group_line(line) {
            Some(group) => group,
            None => return Err(TableFault::BadGroup),
        };
        let Some(first) = self.members.insert(group.name, group.members)? else {
            return Ok(());
        };
        // Names are rarely repeated, so that one search is enough for most lines.
        self.members.insert(group.name, first)?;
        Ok(())
    }
}
