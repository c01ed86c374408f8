//! The word of a line that a finding is about.

ghost use Rattle.std.specs.Prelude.{◌≡◌, [], IfOk};
ghost use Rattle.std.specs.List.{list_any};
ghost use Rattle.std.specs.Option.{option_map, option_map_or};
ghost use Rattle.std.specs.Str.{bytes_eq};
ghost use Rattle.pam_findings.specs.misspelled.Misspelled.{dead_link, fault_word, is_dead, misspelled_argument, misspelled_in, nearest_by};
ghost use Rattle.pam_findings.specs.misspelled.Misspelled.{is_certain_right, nearest_known, nearest_to};
ghost use Rattle.pam_findings.specs.misspelled.Misspelled.{of_argument, with_nearest, wrong_word};
ghost use Rattle.pam_findings.specs.misspelled.MisspelledView.{misspelled_view};
ghost use Rattle.pam_findings.specs.misspelled.Open.{open_piece};
ghost use Rattle.pam_findings.specs.misspelled.inner.MisspelledView.{right_view};

use crate::host::ArgumentProblem;
use crate::misspelled::certain::{
    is_certain as is_certain_of, is_certain_argument, is_certain_fault,
};
use crate::misspelled::open::open_piece;
use crate::misspelled::pairs::wrong_in;
use crate::misspelled::path::{argument_in, path_in};
use crate::misspelled::right_words::{nearest_module, nearest_right};
use crate::misspelled::spot::Spot;
use pam_codes::ControlError;
use pam_conf::{FaultKind, Form, NameList, word_at_fault};
use pam_facts::arguments::Arguments;
use pam_facts::known::name_of_path;
use pam_facts::module_name;
use std::alloc::{AllocError, Global};

/// Which word of its line a finding is about.
#[derive(Clone, Copy)]
pub(crate) enum Wrong {
    /// That of this fault of the line.
    Fault(FaultKind),
    /// The path of a module that is not there.
    NoModule,
    /// The path of another module.
    Path,
    /// The target of an include.
    Target,
    /// The argument at a position, with which this is wrong.
    Argument(usize, ArgumentProblem),
}

/// The names of files, the modules that are there, the names of links that lead nowhere, and the arguments that modules know.
#[derive(Drop)]
pub(crate) struct RightNames<'a> {
    pub files: Vec<&'a [u8]>,
    pub modules: Vec<&'a [u8]>,
    pub dead: Option<&'a NameList>,
    pub arguments: &'a Arguments,
}

/// A word that a finding is about.
#[derive(Drop)]
pub struct Misspelled {
    /// The name of the module of which the word is an argument; empty for another word.
    pub module: Vec<u8>,
    /// As it is written, but a kind without its dash, and a target without its folder.
    pub word: Vec<u8>,
    /// The nearest right word, if it is wrong and one is near.
    pub nearest: Option<Vec<u8>>,
    /// Whether no other right word is as near.
    pub is_certain: bool,
    /// Whether it is the name of a file that is a link which leads nowhere.
    pub leads_nowhere: bool,
    /// The place of the word in its file.
    pub spot: Option<Spot>,
}

fn owned_if_any(alloc: Global, word: Option<&[u8]>) -> Result<Option<Vec<u8>>, AllocError>
    ensures { IfOk result (λ owned. option_map (λ w. w.items) owned ≡ option_map (λ w. w.now) word.entry) }
{
    match word {
        Some(word) => Ok(Some(Vec::from_slice(alloc, word)?)),
        None => Ok(None),
    }
}

fn nearest_to<'a>(
    alloc: Global,
    right: &RightNames<'a>,
    wrong: Wrong,
    word: &[u8],
) -> Result<Option<&'a [u8]>, AllocError>
    ensures { IfOk result (λ found. option_map (λ w. w.now) found ≡ nearest_to (right_view right.now) wrong word.now) }
{
    match wrong {
        Wrong::Fault(fault) => nearest_right(alloc, &right.files, fault, word),
        Wrong::NoModule => Ok(nearest_module(&right.modules, word)),
        Wrong::Path | Wrong::Target | Wrong::Argument(..) => Ok(None),
    }
}

/// Whether no other right word is as near as the one that was found.
fn is_certain<'a>(
    alloc: Global,
    right: &RightNames<'a>,
    wrong: Wrong,
    word: &[u8],
    found: Option<&'a [u8]>,
) -> Result<bool, AllocError>
    ensures { IfOk result (λ certain. certain ≡ is_certain_right (right_view right.now) wrong word.now (option_map (λ w. w.now) found.entry)) }
{
    match wrong {
        Wrong::Fault(fault) => is_certain_fault(alloc, &right.files, fault, word, found),
        Wrong::NoModule => is_certain_of(alloc, &right.modules, name_of_path(word), found),
        Wrong::Path | Wrong::Target | Wrong::Argument(..) => Ok(false),
    }
}

/// The name of a link that leads nowhere.
pub(crate) fn dead_link(alloc: Global, name: &[u8]) -> Result<Misspelled, AllocError>
    ensures { IfOk result (λ m. misspelled_view m ≡ dead_link name.now) }
{
    Ok(Misspelled {
        module: Vec::new(alloc),
        word: Vec::from_slice(alloc, name)?,
        nearest: None,
        is_certain: false,
        leads_nowhere: true,
        spot: None,
    })
}

/// Whether a name is among these, if any are known.
pub(crate) fn is_among(names: Option<&NameList>, name: &[u8]) -> bool
    ensures { result ≡ list_any (bytes_eq name.now) (option_map_or (λ n. n.now) names.entry []) }
{
    match names {
        Some(names) => names.has(name),
        None => false,
    }
}

/// Whether a word is the name of a target that is a link which leads nowhere.
fn is_dead(right: &RightNames<'_>, wrong: Wrong, word: &[u8]) -> bool
    ensures { result ≡ is_dead (right_view right.now) wrong word.now }
{
    match wrong {
        Wrong::Fault(FaultKind::NoService) => is_among(right.dead, word),
        _ => false,
    }
}

/// A word that is wrong, with the nearest right word, or the name of a link that leads nowhere.
fn with_nearest(
    alloc: Global,
    right: &RightNames<'_>,
    wrong: Wrong,
    word: &[u8],
) -> Result<Misspelled, AllocError>
    ensures { IfOk result (λ m. misspelled_view m ≡ with_nearest (right_view right.now) wrong word.now) }
{
    if is_dead(right, wrong, word) {
        return dead_link(alloc, word);
    }
    let found = nearest_to(alloc, right, wrong, word)?;
    let is_certain = is_certain(alloc, right, wrong, word, found)?;
    Ok(Misspelled {
        module: Vec::new(alloc),
        word: Vec::from_slice(alloc, word)?,
        nearest: owned_if_any(alloc, found)?,
        is_certain,
        leads_nowhere: false,
        spot: None,
    })
}

/// The rest of a line from a bracket on that stays open.
fn open_word(line: &[u8]) -> Option<&[u8]>
    ensures { option_map (λ t. t.now) result ≡ option_map (λ piece. piece.1) (open_piece line.now) }
{
    match open_piece(line) {
        Some(piece) => Some(piece.bytes),
        None => None,
    }
}

/// The word of a fault, of one in brackets a word of the control. Its text may replace the contents of `inside`.
fn fault_word<'a>(
    form: Form,
    line: &'a [u8],
    fault: FaultKind,
    inside: &'a mut Vec<u8>,
) -> Result<Option<&'a [u8]>, AllocError>
    ensures { IfOk result (λ w. option_map (λ t. t.now) w ≡ fault_word form fault line.now) }
{
    let FaultKind::Control(error) = fault else {
        return word_at_fault(form, line, fault, inside);
    };
    if let ControlError::OpenBracket = error {
        return Ok(open_word(line));
    }
    // A control that is none at all is the whole word, as it is written.
    let whole = FaultKind::Control(ControlError::BadControl);
    match word_at_fault(form, line, whole, inside)? {
        Some(control) => Ok(wrong_in(error, control)),
        None => Ok(None),
    }
}

fn wrong_word<'a>(
    form: Form,
    line: &'a [u8],
    wrong: Wrong,
    inside: &'a mut Vec<u8>,
) -> Result<Option<&'a [u8]>, AllocError>
    ensures { IfOk result (λ w. option_map (λ t. t.now) w ≡ wrong_word form wrong line.now) }
{
    match wrong {
        Wrong::Fault(fault) => fault_word(form, line, fault, inside),
        Wrong::NoModule | Wrong::Path => path_in(form, line, inside),
        Wrong::Target => word_at_fault(form, line, FaultKind::NoService, inside),
        Wrong::Argument(position, _) => argument_in(form, line, position, inside),
    }
}

/// The nearest of the arguments that the module at a path knows.
fn nearest_known(
    alloc: Global,
    arguments: &Arguments,
    path: &[u8],
    word: &[u8],
) -> Result<Option<&'static [u8]>, AllocError>
    ensures { IfOk result (λ found. option_map (λ w. w.now) found ≡ nearest_known path.now word.now) }
{
    let Some(name) = module_name(path) else {
        return Ok(None);
    };
    match arguments.of(name) {
        Some(known) => known.nearest(alloc, word),
        None => Ok(None),
    }
}

fn nearest_by(
    alloc: Global,
    arguments: &Arguments,
    wrong: ArgumentProblem,
    path: &[u8],
    word: &[u8],
) -> Result<Option<&'static [u8]>, AllocError>
    ensures { IfOk result (λ found. option_map (λ w. w.now) found ≡ nearest_by wrong path.now word.now) }
{
    match wrong {
        ArgumentProblem::Unknown(_) | ArgumentProblem::Longer => {
            nearest_known(alloc, arguments, path, word)
        }
        ArgumentProblem::OtherKind
        | ArgumentProblem::BadValue
        | ArgumentProblem::NoToken
        | ArgumentProblem::Weak
        | ArgumentProblem::MissingFile(_) => Ok(None),
    }
}

/// An argument that is wrong, with the nearest right one.
fn of_argument(
    alloc: Global,
    arguments: &Arguments,
    wrong: ArgumentProblem,
    path: &[u8],
    word: &[u8],
) -> Result<Misspelled, AllocError>
    ensures { IfOk result (λ m. misspelled_view m ≡ of_argument wrong path.now word.now) }
{
    let found = nearest_by(alloc, arguments, wrong, path, word)?;
    let is_certain = is_certain_argument(alloc, arguments, path, word, found)?;
    Ok(Misspelled {
        module: Vec::from_slice(alloc, name_of_path(path))?,
        word: Vec::from_slice(alloc, word)?,
        nearest: owned_if_any(alloc, found)?,
        is_certain,
        leads_nowhere: false,
        spot: None,
    })
}

/// The argument that is wrong in a line.
fn misspelled_argument(
    alloc: Global,
    arguments: &Arguments,
    form: Form,
    line: &[u8],
    position: usize,
    wrong: ArgumentProblem,
) -> Result<Option<Misspelled>, AllocError>
    ensures { IfOk result (λ m. option_map misspelled_view m ≡ misspelled_argument form position wrong line.now) }
{
    let mut inside_path = Vec::new(alloc);
    let mut inside = Vec::new(alloc);
    let Some(path) = path_in(form, line, &mut inside_path)? else {
        return Ok(None);
    };
    match argument_in(form, line, position, &mut inside)? {
        Some(word) => Ok(Some(of_argument(alloc, arguments, wrong, path, word)?)),
        None => Ok(None),
    }
}

/// The word of a line that a finding is about, without its spot.
pub(crate) fn misspelled_in(
    alloc: Global,
    right: &RightNames<'_>,
    form: Form,
    line: &[u8],
    wrong: Wrong,
) -> Result<Option<Misspelled>, AllocError>
    ensures { IfOk result (λ m. option_map misspelled_view m ≡ misspelled_in (right_view right.now) form wrong line.now) }
{
    if let Wrong::Argument(position, problem) = wrong {
        return misspelled_argument(alloc, right.arguments, form, line, position, problem);
    }
    let mut inside = Vec::new(alloc);
    match wrong_word(form, line, wrong, &mut inside)? {
        Some(word) => Ok(Some(with_nearest(alloc, right, wrong, word)?)),
        None => Ok(None),
    }
}
