//! Returns files: the codes that modules may return.

ghost use Rattle.std.specs.Prelude.{◌≡◌, ◌≢◌, [], codes, IfOk, IfSome, MatchResult, Ok, Err};
ghost use Rattle.std.specs.Option.{option_map};
ghost use Rattle.pam_tables.specs.Error.{Gives};
ghost use Rattle.pam_tables.specs.inner.Error.{GivesPart};
ghost use Rattle.pam_tables.specs.inner.Named.{with_line};
ghost use Rattle.pam_tables.specs.Returns.{codes_for, codes_of_words, return_at, returns_of};
ghost use Rattle.pam_tables.specs.Tokens.{tokens_of};

use crate::error::{Table, TableError, TableFault};
use crate::named::{Entries, read_entries};
use crate::tokens::{Tokens, first_token};
use indexmap::IndexMap;
use pam_codes::{Code, CodeSet};
use pam_text::ByteSet;
use std::alloc::Global;
use std::marker::Model;

/// The separators between the words of a line.
const BLANKS: &[u8] = b" \t";

/// The codes that modules may return, by module name.
///
/// A line of a returns file is a module name and one or more code names, separated by spaces and tabs, as in
/// `pam_unix.so success auth_err`. The case of code names is ignored. Lines that begin with `#` and blank lines are
/// skipped. If several lines have the same name, the first counts. The table borrows the bytes it was read from.
#[derive(Drop)]
pub struct ReturnTable<'a> {
    codes: IndexMap<&'a [u8], CodeSet>,
}

impl<'a> Model for ReturnTable<'a> {
    ghost use Rattle.std.specs.Prelude.{List, map};
    ghost use Rattle.pam_tables.specs.Returns.{ReturnLine};
    ghost use Rattle.pam_tables.specs.inner.Returns.{HaveCodes};

    ghost Value = { List ReturnLine };

    ghost view = { λ t. map (λ e. (e.0.now, e.1)) t.codes.entries };

    ghost invariant = { λ t. HaveCodes (map (λ e. (e.0.now, e.1)) t.codes.entries) };
}

/// The name of a module, and the codes that it may return.
#[derive(Clone, Copy)]
struct ReturnLine<'a> {
    name: &'a [u8],
    codes: CodeSet,
}

/// Reads the names of one or more codes.
fn read_codes(text: &[u8], blanks: &ByteSet<'_>) -> Result<CodeSet, TableFault>
    ensures value { result ≡ codes_of_words (tokens_of blanks.now.bytes.now text.now) }
    ensures some { IfOk result (λ codes. codes ≢ []) }
{
    let mut set = CodeSet::empty();
    for word in Tokens::of(text, blanks) {
        match Code::from_name(word) {
            Some(code) => set.insert(code),
            None => return Err(TableFault::BadCode),
        }
    }
    if set.is_empty() {
        return Err(TableFault::MissingField);
    }
    Ok(set)
}

/// Reads a line. Returns `Ok(None)` for a comment or a blank line.
fn read_line<'a>(line: &'a [u8], blanks: &ByteSet<'_>) -> Result<Option<ReturnLine<'a>>, TableFault>
    requires { blanks.now.bytes.now ≡ codes " \t" }
    ensures value { MatchResult result (λ said. return_at line.now ≡ Ok (option_map (λ l. (l.name.now, l.codes)) said))
        (λ fault. return_at line.now ≡ Err fault) }
    ensures some { IfOk result (λ said. IfSome said (λ l. l.codes ≢ [])) }
{
    if line.starts_with(b"#") {
        return Ok(None);
    }
    let Some((name, words)) = first_token(line, blanks) else {
        return Ok(None);
    };
    if name.contains(&b'/') {
        return Err(TableFault::BadModule);
    }
    let codes = read_codes(words, blanks)?;
    Ok(Some(ReturnLine { name, codes }))
}

impl<'a> ReturnTable<'a> {
    fn empty(alloc: Global) -> Self
        ensures { result ≡ [] }
    {
        ReturnTable {
            codes: IndexMap::new(alloc),
        }
    }

    /// Reads a returns file, or returns its first fault.
    ///
    /// `TableTooLong` (line 0) comes first, then `NulByte`, then the lines from the top. Within a line `BadModule` (a
    /// slash in the module name) comes first, then `MissingField` (no code), then `BadCode` (a word that is no code).
    /// A failed allocation is `Memory`, with line 0.
    pub fn read(alloc: Global, bytes: &'a [u8]) -> Result<ReturnTable<'a>, TableError>
        ensures { Gives Table.Returns (λ table. table) result (returns_of bytes.now) }
    {
        let none = ReturnReader {
            table: ReturnTable::empty(alloc),
            blanks: ByteSet::of(BLANKS),
        };
        Ok(read_entries(alloc, Table::Returns, bytes, none)?.table)
    }

    /// Adds the codes of a line, if its name is new.
    fn add_line(&mut self, line: &'a [u8], blanks: &ByteSet<'_>) -> Result<(), TableFault>
        requires { blanks.now.bytes.now ≡ codes " \t" }
        ensures { GivesPart (λ _. self.new) result (with_line self.old (return_at line.now)) }
    {
        let line = match read_line(line, blanks) {
            Ok(Some(line)) => line,
            Ok(None) => return Ok(()),
            Err(fault) => return Err(fault),
        };
        let Ok(replaced) = self.codes.insert(line.name, line.codes) else {
            return Err(TableFault::Memory);
        };
        let Some(first) = replaced else {
            return Ok(());
        };
        // Names are rarely repeated, so that one search is enough for most lines.
        let Ok(_) = self.codes.insert(line.name, first) else {
            return Err(TableFault::Memory);
        };
        Ok(())
    }

    /// Returns the codes of the module named exactly `name`, if a line has it. There is at least one.
    pub fn codes(&self, name: &[u8]) -> Option<CodeSet>
        ensures value { result ≡ codes_for self.now name.now }
        ensures some { IfSome result (λ codes. codes ≢ []) }
    {
        self.codes.get(name).copied()
    }
}

/// A table to which lines are added.
#[derive(Drop)]
struct ReturnReader<'a, 's> {
    table: ReturnTable<'a>,
    blanks: ByteSet<'s>,
    ghost blank: { blanks.bytes.now ≡ codes " \t" },
}

impl<'a, 's> Entries<'a> for ReturnReader<'a, 's> {
    ghost use Rattle.std.specs.Prelude.{ℕ, List};
    ghost use Rattle.pam_tables.specs.Returns.{return_at};

    ghost Value = { List ℕ };

    ghost meant = { return_at };

    ghost entries = { λ reader. reader.table };

    fn add_line(&mut self, _alloc: Global, line: &'a [u8]) -> Result<(), TableFault>
        ensures { GivesPart (λ _. self.new.table) result (with_line self.old.table (return_at line.now)) }
    {
        self.table.add_line(line, &self.blanks)
    }
}
