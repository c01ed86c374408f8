//! The lines of a table, and the parts of a line.

ghost use Rattle.std.specs.Prelude.{◌≡◌, ◌+◌, ◌^◌, ◌<◌, ◌≤◌, codes, position, IfOk, IfSome, length};
ghost use Rattle.std.specs.List.{prefix_len, suffix_len};
ghost use Rattle.std.specs.Option.{option_map};
ghost use Rattle.std.specs.Iterator.{YieldsFirstBy, item_count};
ghost use Rattle.pam_tables.specs.Error.{Gives};
ghost use Rattle.pam_tables.specs.Lines.{fault_at_line, without_return, lines_from, lines_left, is_blank, is_blank_line};
ghost use Rattle.pam_tables.specs.inner.Lines.{sound};
ghost use Rattle.pam_tables.specs.Lines.{cut_at, is_among, trimmed_end, trimmed};

use crate::error::{Table, TableError, TableFault};
use memchr::memchr;
use pam_text::{MAX_FILE_BYTES, Source, SourceFault, is_table_blank};

/// The maximum length of a table, in bytes. A longer one is `TableTooLong`.
pub const MAX_TABLE_BYTES: usize = MAX_FILE_BYTES;

/// Returns the fault of a table as a whole.
pub(crate) fn source_error(table: Table, fault: SourceFault) -> TableError
    ensures { result ≡ record { table = table; fault = (fault_at_line fault).0; line = (fault_at_line fault).1 } }
{
    match fault {
        SourceFault::TooLong => TableError::new(table, TableFault::TableTooLong, 0),
        SourceFault::NulByte(line) => TableError::new(table, TableFault::NulByte, line),
    }
}

/// Checks the bytes of a table as a whole.
///
/// Returns `TableTooLong`, with line 0, if there are more than `MAX_TABLE_BYTES`; else `NulByte` with the line of the
/// first NUL byte, if there is one.
pub(crate) fn source(table: Table, bytes: &[u8]) -> Result<Source<'_>, TableError>
    ensures fault { Gives table (λ _. tt) result (sound bytes.now) }
    ensures bytes { IfOk result (λ source. source.bytes.now ≡ bytes.now) }
{
    match Source::of(bytes) {
        Ok(source) => Ok(source),
        Err(fault) => Err(source_error(table, fault)),
    }
}

/// Whether a text is empty or only spaces and tabs.
pub(crate) fn is_blank_text(text: &[u8]) -> bool
    ensures { result ≡ is_blank_line text.now }
{
    text.iter().all(|b| is_table_blank(*b))
}

fn leading_blanks(text: &[u8]) -> usize
    ensures value { result ≡ prefix_len is_blank text.now }
    ensures bound { result ≤ length text.now }
{
    text.iter().take_while(|b| is_table_blank(**b)).count()
}

fn trailing_blanks(text: &[u8]) -> usize
    ensures value { result ≡ suffix_len is_blank text.now }
    ensures bound { result ≤ length text.now }
{
    text.iter()
        .rev()
        .take_while(|b| is_table_blank(**b))
        .count()
}

/// Removes spaces and tabs from the end.
pub(crate) fn trim_end(text: &[u8]) -> &[u8]
    ensures { result.now ≡ trimmed_end text.now }
{
    text.split_at(text.len() - trailing_blanks(text)).0
}

/// Removes spaces and tabs from both ends.
pub(crate) fn trim(text: &[u8]) -> &[u8]
    ensures { result.now ≡ trimmed text.now }
{
    trim_end(text.split_at(leading_blanks(text)).1)
}

fn drop_return(line: &[u8]) -> &[u8]
    ensures { result.now ≡ without_return line.now }
{
    if line.ends_with(b"\r") {
        line.split_at(line.len() - 1).0
    } else {
        line
    }
}

fn line_feed(text: &[u8]) -> Option<usize>
    ensures value { result ≡ position (is_among (codes "\n")) text.now }
    ensures bound { IfSome result (λ i. i < length text.now) }
{
    memchr(b'\n', text)
}

/// The bytes before and after the first line feed. Uses a vector search, unlike `pam_text::cut`, since lines are longer
/// than fields.
fn cut_line(text: &[u8]) -> Option<(&[u8], &[u8])>
    ensures value { option_map (λ p. (p.0.now, p.1.now)) result ≡ cut_at (is_among (codes "\n")) text.now }
    ensures shorter { IfSome result (λ p. length p.1.now < length text.now) }
{
    let index = line_feed(text)?;
    let (line, rest) = text.split_at(index);
    Some((line, rest.split_at(1).1))
}

/// The remaining lines of a table, with their numbers, without line ends.
#[derive(Drop)]
pub struct Lines<'a> {
    rest: &'a [u8],
    number: u32,
    is_done: bool,
    ghost countable: { number + length rest.now < 2 ^ 32 },
}

impl<'a> Lines<'a> {
    /// All lines of a table, numbered from 1.
    #[tactic(auto, unfolding(crate::specs::Lines::lines_left))]
    pub fn of(source: Source<'a>) -> Self
        ensures { lines_left result.is_done result.number result.rest.now ≡ lines_from 1 source.entry.bytes.now }
    {
        Lines {
            rest: source.bytes,
            number: 1,
            is_done: false,
        }
    }
}

impl<'a> Iterator for Lines<'a> {
    type Item = (u32, &'a [u8]);

    ghost next_gives = { YieldsFirstBy (λ p. (p.0, p.1.now)) (λ s. lines_left s.is_done s.number s.rest.now) };

    ghost remaining = { item_count (λ s. lines_left s.is_done s.number s.rest.now) };

    fn next(&mut self) -> Option<(u32, &'a [u8])> {
        if self.is_done {
            return None;
        }
        let number = self.number;
        match cut_line(self.rest) {
            Some((line, rest)) => {
                self.rest = rest;
                self.number = number + 1;
                Some((number, drop_return(line)))
            }
            None => {
                self.is_done = true;
                Some((number, drop_return(self.rest)))
            }
        }
    }
}
