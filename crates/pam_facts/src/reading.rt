//! The rows of a facts file.

ghost use Rattle.std.specs.Prelude.{◌≡◌, ◌∷◌, ◌++◌, [], IfErr, MatchResult, Ok, Err, OnErr, OnOk, map};
ghost use Rattle.std.specs.Option.{option_map};
ghost use Rattle.pam_facts.specs.Codes.{codes_said};
ghost use Rattle.pam_facts.specs.Error.{Gives, no_memory};
ghost use Rattle.pam_facts.specs.inner.Error.{GivesPart};
ghost use Rattle.pam_facts.specs.Reading.{after_rows, rows_in, rows_of, table_rows};
ghost use Rattle.pam_facts.specs.inner.Reading.{unless_memory, with_row};
ghost use Rattle.pam_facts.specs.Rows.{is_name, kinds_after, row_after, row_of, row_with_argument, row_with_class};
ghost use Rattle.pam_facts.specs.Views.{row_view};
ghost use Rattle.pam_facts.specs.Words.{words_of};

use crate::error::{FactsError, FactsFault};
use crate::head::{Arguments, read_head};
use crate::kinds::Kinds;
use crate::row::{CodesByKind, Fact};
use crate::table::table;
use crate::words::{Words, first_word};
use pam_codes::Code;
use pam_tables::parts::Lines;
use pam_text::Source;

/// What is known of a module, where its rule has some arguments; or an argument that it knows.
#[derive(Clone, Copy)]
pub(crate) struct Row<'a> {
    pub(crate) name: &'a [u8],
    pub(crate) arguments: Arguments<'a>,
    pub(crate) fact: Fact,
    /// The kinds in which the module knows the argument, if the row is about one.
    pub(crate) knows: Option<Kinds>,
}

/// The codes that the words of a row say, from its class on.
fn read_codes(text: &[u8]) -> Option<CodesByKind>
    ensures { result ≡ codes_said (words_of text.now) }
{
    let mut codes = CodesByKind::any();
    let mut kinds = None;
    let mut needs_code = false;
    for word in Words::of(text) {
        if let Some(named) = Kinds::named(word) {
            if needs_code {
                return None;
            }
            kinds = Some(named);
            needs_code = true;
        } else {
            codes.insert(kinds?, Code::from_name(word)?);
            needs_code = false;
        }
    }
    if needs_code {
        return None;
    }
    Some(codes)
}

/// Whether a word is the name of a module, without folder and `.so`.
fn is_name(word: &[u8]) -> bool
    ensures { result ≡ is_name word.now }
{
    !word.contains(&b'/') && !word.ends_with(b".so")
}

/// The row of a module with a class, from the words after its name.
fn row_with_class<'a>(name: &'a [u8], text: &'a [u8]) -> Option<Row<'a>>
    ensures { option_map row_view result ≡ row_with_class name.now (words_of text.now) }
{
    let head = read_head(text)?;
    let codes = read_codes(head.rest)?;
    let fact = Fact {
        class: head.class,
        codes,
    };
    Some(Row {
        name,
        arguments: head.arguments,
        fact,
        knows: None,
    })
}

/// The kinds in which a row says that a module knows an argument, from the words after it.
fn kinds_after(text: &[u8]) -> Option<Kinds>
    ensures { result ≡ kinds_after (words_of text.now) }
{
    let Some((word, rest)) = first_word(text) else {
        return Some(Kinds::all());
    };
    match first_word(rest) {
        Some(_) => None,
        None => Kinds::named(word),
    }
}

/// The row of an argument that a module knows, from the words after `knows`.
fn row_with_argument<'a>(name: &'a [u8], text: &'a [u8]) -> Option<Row<'a>>
    ensures { option_map row_view result ≡ row_with_argument name.now (words_of text.now) }
{
    let (argument, rest) = first_word(text)?;
    let kinds = kinds_after(rest)?;
    let arguments = Arguments {
        first: Some(argument),
        second: None,
    };
    Some(Row {
        name,
        arguments,
        fact: Fact::unknown(),
        knows: Some(kinds),
    })
}

/// The row of a line, from the words after its name.
fn row_after<'a>(name: &'a [u8], text: &'a [u8]) -> Option<Row<'a>>
    ensures { option_map row_view result ≡ row_after name.now (words_of text.now) }
{
    let (word, rest) = first_word(text)?;
    if word == b"knows".as_slice() {
        row_with_argument(name, rest)
    } else {
        row_with_class(name, text)
    }
}

/// Reads a line. Returns `Ok(None)` for a comment or a blank line.
pub(crate) fn read_row(line: &[u8]) -> Result<Option<Row<'_>>, FactsFault>
    ensures { MatchResult result (λ row. row_of line.now ≡ Ok (option_map row_view row)) (λ fault. row_of line.now ≡ Err fault) }
{
    if line.starts_with(b"#") {
        return Ok(None);
    }
    let Some((name, text)) = first_word(line) else {
        return Ok(None);
    };
    if !is_name(name) {
        return Err(FactsFault::BadFact);
    }
    match row_after(name, text) {
        Some(row) => Ok(Some(row)),
        None => Err(FactsFault::BadFact),
    }
}

/// Adds the row of a line, if it has one. Where it fails, the rows stay as they are.
pub(crate) fn add_line<'a>(line: &'a [u8], rows: &mut Vec<Row<'a>>) -> Result<(), FactsFault>
    ensures added { GivesPart (λ _. map row_view rows.new.items) result (with_row (map row_view rows.old.items) (row_of line.now)) }
    ensures stays { OnErr result (rows.new.items ≡ rows.old.items) }
{
    match read_row(line) {
        Ok(Some(row)) => match rows.push(row) {
            Ok(()) => Ok(()),
            Err(_) => Err(FactsFault::Memory),
        },
        Ok(None) => Ok(()),
        Err(fault) => Err(fault),
    }
}

/// Adds the rows of a facts file, or returns its first fault.
pub(crate) fn add_file<'a>(bytes: &'a [u8], rows: &mut Vec<Row<'a>>) -> Result<(), FactsError>
    ensures { Gives (λ _. map row_view rows.new.items) result (after_rows (map row_view rows.old.items) (rows_of bytes.now)) }
{
    let source = match Source::of(bytes) {
        Ok(source) => source,
        Err(fault) => return Err(FactsError::of_source(fault)),
    };
    for (number, line) in Lines::of(source) {
        if let Err(fault) = add_line(line, rows) {
            return Err(FactsError::at(fault, number));
        }
    }
    Ok(())
}

/// The error of a line of the program's table, where only an allocation can fail.
fn table_error(fault: FactsFault) -> Result<(), FactsError>
    ensures { result ≡ unless_memory fault }
{
    match fault {
        FactsFault::Memory => Err(FactsError::at(fault, 0)),
        FactsFault::BadFact | FactsFault::NulByte | FactsFault::TooLong => Ok(()),
    }
}

/// Adds the row of a line of the program's table, which has no fault.
fn add_table_line<'a>(line: &'a [u8], rows: &mut Vec<Row<'a>>) -> Result<(), FactsError>
    ensures memory { IfErr result (λ e. e ≡ no_memory) }
    ensures row { OnOk result (map row_view rows.new.items ≡ map row_view rows.old.items ++ rows_in (line.now ∷ [])) }
{
    match add_line(line, rows) {
        Ok(()) => Ok(()),
        Err(fault) => table_error(fault),
    }
}

/// Adds the rows of the program's table.
pub(crate) fn add_table(rows: &mut Vec<Row<'_>>) -> Result<(), FactsError>
    ensures memory { IfErr result (λ e. e ≡ no_memory) }
    ensures rows { OnOk result (map row_view rows.new.items ≡ map row_view rows.old.items ++ table_rows) }
{
    // What is after the last line feed is an empty line, which has no row.
    for line in table().split(|byte| *byte == b'\n') {
        add_table_line(line, rows)?;
    }
    Ok(())
}
