//! What a check says of services, files and numbers of findings.

ghost use Rattle.std.specs.Prelude.{◌≡◌, [], IfOk, count_by, map};
ghost use Rattle.std.specs.Option.{option_map, option_map_or};
ghost use Rattle.pam_findings.specs.misspelled.MisspelledView.{misspelled_view};
ghost use Rattle.pam_report.specs.ReplyViews.{check_view};
ghost use Rattle.pam_report.specs.Unused.{level_of_unused, unused_view};
ghost use Rattle.pam_render.specs.parts.Check.{counts_of, is_level, names_of_value, number_at, number_of, path_of, stacks_of, table_number_at, text_at};
ghost use Rattle.pam_render.specs.parts.Check.{spot_of, told_line, unused_number_at, word_at};
ghost use Rattle.pam_render.specs.parts.CheckNames.{names_view, word_of};

use pam_conf::Form;
use pam_findings::host::{Finding, Level, Place, WayIn};
use pam_findings::misspelled::{Misspelled, Spot};
use pam_findings::tables::TableFinding;
use pam_report::{CheckReply, UnusedLine};
use pam_text::Texts;
use std::alloc::{AllocError, Global};

/// The number of kinds: each service has a stack for each of them.
const KINDS: usize = 4;

/// The names that the lines of a check use.
#[derive(Drop)]
pub struct Names<'a> {
    pub form: Form,
    /// The path of the configuration, and then that of each file by its position.
    pub paths: Vec<&'a [u8]>,
    pub services: Vec<&'a [u8]>,
    /// The first way in of each service.
    pub ways_in: &'a [Option<WayIn>],
}

/// Returns the texts of a list, by position.
pub(super) fn slices(alloc: Global, texts: &Texts) -> Result<Vec<&[u8]>, AllocError>
    ensures { IfOk result (λ v. map (λ text. text.now) v.items ≡ texts.now) }
{
    texts.iter().collect(alloc)
}

/// Returns the paths of a check by position, if it has any.
fn slices_if_any(alloc: Global, texts: Option<&Texts>) -> Result<Vec<&[u8]>, AllocError>
    ensures { IfOk result (λ v. map (λ text. text.now) v.items ≡ option_map_or (λ t. t.now) texts.entry []) }
{
    match texts {
        Some(texts) => slices(alloc, texts),
        None => Ok(Vec::new(alloc)),
    }
}

/// Returns the names of a check by position.
pub fn names_of<'a>(alloc: Global, reply: &'a CheckReply<'_>) -> Result<Names<'a>, AllocError>
    ensures { IfOk result (λ n. names_view n ≡ names_of_value (check_view reply.now)) }
{
    let paths = slices_if_any(alloc, reply.paths)?;
    let services = slices(alloc, &reply.report.services)?;
    Ok(Names {
        form: reply.form,
        paths,
        services,
        ways_in: &reply.report.ways_in,
    })
}

/// Returns the text at a position, empty if there is none.
pub fn text_at<'a>(texts: &[&'a [u8]], position: usize) -> &'a [u8]
    ensures { result.now ≡ text_at (map (λ t. t.now) texts.now) position }
{
    match texts.get(position) {
        Some(text) => text,
        None => b"",
    }
}

/// Returns the path of a file, or of the configuration as a whole.
pub fn path_of<'a>(names: &Names<'a>, file: Option<usize>) -> &'a [u8]
    ensures { result.now ≡ path_of (names_view names.now).paths file }
{
    match file {
        None => text_at(&names.paths, 0),
        Some(file) => match names.paths.split_first() {
            Some((_, files)) => text_at(files, file),
            None => b"",
        },
    }
}

fn lent(word: &Option<Misspelled>) -> Option<&Misspelled>
    ensures { word_of result ≡ option_map misspelled_view word.now }
{
    match word {
        Some(word) => Some(word),
        None => None,
    }
}

/// Returns the word that is wrong at a position, if there is one.
pub fn word_at(words: &[Option<Misspelled>], position: usize) -> Option<&Misspelled>
    ensures { word_of result ≡ word_at (map (option_map misspelled_view) words.now) position }
{
    match words.get(position) {
        Some(word) => lent(word),
        None => None,
    }
}

/// Returns the spot of a word, if there is one and it is known.
pub fn spot_of(word: Option<&Misspelled>) -> Option<Spot>
    ensures { result ≡ spot_of (word_of word.entry) }
{
    match word {
        Some(word) => word.spot,
        None => None,
    }
}

/// Returns the line that is told: that of the word, which need not be the first of its rule.
pub fn told_line(line: usize, spot: Option<Spot>) -> usize
    ensures { result ≡ told_line line spot }
{
    match spot {
        Some(spot) => spot.line,
        None => line,
    }
}

/// Whether a level is another.
pub(super) fn is_level(level: Level, other: Level) -> bool
    ensures { result ≡ is_level level other }
{
    level == other
}

/// Returns the number of findings of a level.
fn number_at(found: &[(Place, Finding)], level: Level) -> usize
    ensures { result ≡ number_at level found.now }
{
    found
        .iter()
        .filter(|entry| is_level(entry.1.problem.level(), level))
        .count()
}

/// Returns the number of problems of tables of a level.
fn table_number_at(tables: &[TableFinding], level: Level) -> usize
    ensures { result ≡ table_number_at level tables.now }
{
    tables
        .iter()
        .filter(|finding| is_level(finding.problem.level(), level))
        .count()
}

/// The numbers of findings, problems of tables and lines that say nothing of each level.
#[derive(Clone, Copy)]
pub struct Counts {
    pub errors: usize,
    pub warnings: usize,
    pub notes: usize,
}

/// Returns the number of lines of a level that say nothing of the host.
fn lines_at(unused: &[UnusedLine], level: Level) -> usize
    ensures { result ≡ count_by (λ line. is_level (level_of_unused (unused_view line)) level) unused.now }
{
    unused
        .iter()
        .filter(|line| is_level(line.level(), level))
        .count()
}

/// The same, by the values of the lines.
fn unused_number_at(unused: &[UnusedLine], level: Level) -> usize
    ensures { result ≡ unused_number_at level (map unused_view unused.now) }
{
    lines_at(unused, level)
}

/// Returns the number of findings, problems of tables and lines of a level.
fn number_of(
    found: &[(Place, Finding)],
    tables: &[TableFinding],
    unused: &[UnusedLine],
    level: Level,
) -> usize
    ensures { result ≡ number_of found.now tables.now (map unused_view unused.now) level }
{
    number_at(found, level)
        .saturating_add(table_number_at(tables, level))
        .saturating_add(unused_number_at(unused, level))
}

/// Counts by levels.
pub fn counts_of(
    found: &[(Place, Finding)],
    tables: &[TableFinding],
    unused: &[UnusedLine],
) -> Counts
    ensures { result ≡ counts_of found.now tables.now (map unused_view unused.now) }
{
    Counts {
        errors: number_of(found, tables, unused, Level::Error),
        warnings: number_of(found, tables, unused, Level::Warning),
        notes: number_of(found, tables, unused, Level::Note),
    }
}

/// Returns the number of stacks of services.
pub fn stacks_of(services: usize) -> usize
    ensures { result ≡ stacks_of services }
{
    services.saturating_mul(KINDS)
}
