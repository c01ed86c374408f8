//! The words that findings are about.

ghost use Rattle.std.specs.Prelude.{◌≡◌, ◌<◌, ◌^◌, ℕ, [], IfOk, List, OnOk, Option, map};
ghost use Rattle.std.specs.Option.{option_map, option_map_or};
ghost use Rattle.pam_findings.specs.misspelled.Findings.{dead_other, misspelled_at, right_names, spot_in, word_at, wrong_at, wrong_of};
ghost use Rattle.pam_findings.specs.misspelled.MisspelledView.{misspelled_view};
ghost use Rattle.pam_findings.specs.misspelled.Cursors.{IsAt};
ghost use Rattle.pam_findings.specs.misspelled.inner.MisspelledView.{right_view};
ghost use Rattle.pam_findings.specs.misspelled.inner.Reading.{IsReading};

use crate::host::{Finding, Place, Problem, is_outside};
use crate::misspelled::about::piece_of;
use crate::misspelled::cursor::Cursor;
use crate::misspelled::reader::Reader;
use crate::misspelled::right_words::{first_modules, first_names};
use crate::misspelled::spot::{Spot, spot_of};
use crate::misspelled::word::{Misspelled, RightNames, Wrong, dead_link, is_among, misspelled_in};
use pam_conf::{Files, NameList};
use pam_facts::arguments::Arguments;
use std::alloc::{AllocError, Global};

fn wrong_of(problem: Problem) -> Option<Wrong>
    ensures { result ≡ wrong_of problem }
{
    match problem {
        Problem::Fault(fault) | Problem::Walk(fault) => Some(Wrong::Fault(fault)),
        Problem::NoModule { .. } => Some(Wrong::NoModule),
        Problem::Argument { argument, wrong } => Some(Wrong::Argument(argument, wrong)),
        Problem::NeverAsked
        | Problem::NoFunction
        | Problem::CallerIsRoot { .. }
        | Problem::UnknownModule
        | Problem::SuccessNeverCounts => Some(Wrong::Path),
        Problem::IncludedFromVendor { .. } => Some(Wrong::Target),
        Problem::Released(_)
        | Problem::EmptySeparator
        | Problem::LetsNobodyIn { .. }
        | Problem::LetsAnybodyIn { .. }
        | Problem::JumpPastEnd
        | Problem::NoOther
        | Problem::UnreachableName
        | Problem::TooLarge { .. }
        | Problem::OtherAnswers { .. }
        | Problem::LeftOver
        | Problem::JumpIntoInclude
        | Problem::BadArguments(_)
        | Problem::StoredThoughRefused { .. }
        | Problem::NotCounted { .. }
        | Problem::NoFailureCounted
        | Problem::LinkOutside => None,
    }
}

/// Which word a finding is about, if it is about one, in a file whose words may be told.
fn wrong_at(outside: &[bool], entry: &(Place, Finding)) -> Option<Wrong>
    ensures { result ≡ wrong_at outside.now entry.now }
{
    if is_outside(outside, entry.0.file) {
        None
    } else {
        wrong_of(entry.1.problem)
    }
}

/// The spot of the word that a finding at this place is about, which is in this line.
fn spot_in(
    alloc: Global,
    cursor: &mut Cursor<'_>,
    place: &Place,
    wrong: Wrong,
    line: &[u8],
) -> Result<Option<Spot>, AllocError>
    requires at { IsAt cursor.old }
    requires small { place.now.line < 2 ^ 32 }
    ensures spot { IfOk result (λ spot. spot ≡ spot_in cursor.old.files.now place.now wrong line.now) }
    ensures at { OnOk result (IsAt cursor.new) }
    ensures same { OnOk result (cursor.new.files ≡ cursor.old.files) }
{
    let mut inside = Vec::new(alloc);
    let piece = piece_of(cursor.form(), wrong, line, &mut inside)?;
    cursor.seek(place.file, place.line);
    match piece {
        Some(piece) => Ok(spot_of(place.line, cursor.rest(), piece)),
        None => Ok(None),
    }
}

/// The word of the line of a finding.
#[tactic(auto, unfolding(crate::specs::misspelled::Findings::word_at))]
fn word_at(
    alloc: Global,
    right: &RightNames<'_>,
    outside: &[bool],
    reader: &mut Reader<'_>,
    cursor: &mut Cursor<'_>,
    entry: &(Place, Finding),
) -> Result<Option<Misspelled>, AllocError>
    requires reading { IsReading reader.old }
    requires at { IsAt cursor.old }
    requires files { cursor.old.files.now ≡ reader.old.files.now }
    ensures word { IfOk result (λ m. option_map misspelled_view m ≡ word_at reader.old.files.now (right_view right.now) outside.now entry.now) }
    ensures reading { OnOk result (IsReading reader.new) }
    ensures same { OnOk result (reader.new.files ≡ reader.old.files) }
    ensures at { OnOk result (IsAt cursor.new) }
    ensures still { OnOk result (cursor.new.files ≡ cursor.old.files) }
{
    let Some(wrong) = wrong_at(outside, entry) else {
        return Ok(None);
    };
    reader.seek(entry.0.file, entry.0.line)?;
    let Some(line) = reader.line(entry.0.line) else {
        return Ok(None);
    };
    let Some(mut found) = misspelled_in(alloc, right, reader.form(), line, wrong)? else {
        return Ok(None);
    };
    found.spot = spot_in(alloc, cursor, &entry.0, wrong, line)?;
    Ok(Some(found))
}

/// `other`, if a finding is that there is no such file, and it is a link that leads nowhere.
fn dead_other(
    alloc: Global,
    dead: Option<&NameList>,
    problem: Problem,
) -> Result<Option<Misspelled>, AllocError>
    ensures { IfOk result (λ m. option_map misspelled_view m ≡ dead_other (option_map_or (λ d. d.now) dead.entry []) problem) }
{
    match problem {
        Problem::NoOther if is_among(dead, b"other") => Ok(Some(dead_link(alloc, b"other")?)),
        _ => Ok(None),
    }
}

/// The word that a finding is about.
#[tactic(auto, unfolding(crate::specs::misspelled::Findings::misspelled_at))]
fn misspelled_at(
    alloc: Global,
    right: &RightNames<'_>,
    outside: &[bool],
    reader: &mut Reader<'_>,
    cursor: &mut Cursor<'_>,
    entry: &(Place, Finding),
) -> Result<Option<Misspelled>, AllocError>
    requires reading { IsReading reader.old }
    requires at { IsAt cursor.old }
    requires files { cursor.old.files.now ≡ reader.old.files.now }
    ensures word { (there : Option (List (List ℕ))) (dead : List (List ℕ)) → right_view right.now ≡ right_names reader.old.files.now there dead →
        IfOk result (λ m. option_map misspelled_view m ≡ misspelled_at reader.old.files.now there outside.now dead entry.now) }
    ensures reading { OnOk result (IsReading reader.new) }
    ensures same { OnOk result (reader.new.files ≡ reader.old.files) }
    ensures at { OnOk result (IsAt cursor.new) }
    ensures still { OnOk result (cursor.new.files ≡ cursor.old.files) }
{
    match dead_other(alloc, right.dead, entry.1.problem)? {
        Some(found) => Ok(Some(found)),
        None => word_at(alloc, right, outside, reader, cursor, entry),
    }
}

/// The right words, with what is known of the arguments of modules.
fn right_names<'a>(
    alloc: Global,
    files: &'a Files,
    there: Option<&'a NameList>,
    dead: Option<&'a NameList>,
    arguments: &'a Arguments,
) -> Result<RightNames<'a>, AllocError>
    ensures { IfOk result (λ right. right_view right ≡ right_names files.now (option_map (λ t. t.now) there.entry)
        (option_map_or (λ d. d.now) dead.entry [])) }
{
    Ok(RightNames {
        files: first_names(alloc, files)?,
        modules: first_modules(alloc, there)?,
        dead,
        arguments,
    })
}

/// Returns for each finding the word that it is about, with its spot and the nearest right word. A kind (E3), a control that is none at
/// all (E4), and a return code and an action in brackets (E5, E6) are compared without case with those of pam.conf(5), the name of a target
/// that is not there (E15) with the names of the first 1,000 files, the name of a module that is not there (S5) with the first 1,000 of the
/// paths in `there`, and an argument (S15, S16) with those that its module knows. A module of which something else is said (S3, S13, S14,
/// S25, S26), and a target of the vendor's folder (L10) are right words, and the word whose bracket stays open (E8) has none beside it.
/// `None` for a finding that is not about a word, and for one at a file that is a link which leads out of its folder, by what `outside`
/// says at its position: its words are not to be told. A target that is not there, and `other` where there is no such file (S6), may be
/// among the names in `dead`, those of links that lead nowhere.
///
/// Takes time linear in the files and the findings, if the findings are in the order of their places.
pub fn misspelled_words(
    alloc: Global,
    files: &Files,
    there: Option<&NameList>,
    outside: &[bool],
    dead: Option<&NameList>,
    found: &[(Place, Finding)],
) -> Result<Vec<Option<Misspelled>>, AllocError>
    ensures { IfOk result (λ words. map (option_map misspelled_view) words.items
        ≡ map (misspelled_at files.now (option_map (λ t. t.now) there.entry) outside.now (option_map_or (λ d. d.now) dead.entry [])) found.now) }
{
    let arguments = Arguments::table(alloc)?;
    let right = right_names(alloc, files, there, dead, &arguments)?;
    let mut reader = Reader::new(alloc, files);
    let mut cursor = Cursor::new(files);
    let mut words = Vec::new(alloc);
    for entry in found {
        let word = misspelled_at(alloc, &right, outside, &mut reader, &mut cursor, entry)?;
        words.push(word)?;
    }
    Ok(words)
}
