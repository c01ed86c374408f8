//! The right words that may stand for one that is wrong.

ghost use Rattle.std.specs.Prelude.{◌≡◌, ◌<◌, IfOk, Some, map, slice_get, take};
ghost use Rattle.std.specs.Char.{to_ascii_lowercase};
ghost use Rattle.std.specs.Option.{option_map};
ghost use Rattle.pam_codes.specs.Code.{code_names};
ghost use Rattle.pam_findings.specs.misspelled.RightWords.{controls, first_modules, first_names, kinds, nearest_control, nearest_module, nearest_right, values};
ghost use Rattle.pam_spelling.specs.Nearest.{nearest};

use crate::misspelled::actions::nearest_action;
use pam_codes::{CODES, Code, ControlError};
use pam_conf::{FaultKind, Files, NameList};
use pam_facts::known::name_of_path;
use pam_spelling::nearest;
use pam_text::Texts;
use std::alloc::{AllocError, Global};

/// The number of files whose names may stand for the name of a target, and of modules that may stand for one that is not there: so the
/// time of a check stays linear in its lines.
pub const MAX_NAMES: usize = 1000;

/// The names of the first files.
pub(crate) fn first_names(alloc: Global, files: &Files) -> Result<Vec<&[u8]>, AllocError>
    ensures { IfOk result (λ names. map (λ name. name.now) names.items ≡ first_names files.now) }
{
    let mut names = Vec::new(alloc);
    for position in 0..files.len().min(MAX_NAMES) {
        if let Some(name) = files.name(position) {
            names.push(name)?;
        }
    }
    Ok(names)
}

/// The first of these modules.
fn first_of(alloc: Global, paths: &Texts) -> Result<Vec<&[u8]>, AllocError>
    ensures { IfOk result (λ modules. map (λ m. m.now) modules.items ≡ take MAX_NAMES paths.now) }
{
    let mut modules = Vec::new(alloc);
    for path in paths.iter() {
        if modules.len() == MAX_NAMES {
            return Ok(modules);
        }
        modules.push(path)?;
    }
    Ok(modules)
}

/// The first modules that are there.
pub(crate) fn first_modules(
    alloc: Global,
    there: Option<&NameList>,
) -> Result<Vec<&[u8]>, AllocError>
    ensures { IfOk result (λ modules. map (λ m. m.now) modules.items ≡ first_modules (option_map (λ t. t.now) there.entry)) }
{
    match there {
        Some(paths) => first_of(alloc, paths.names()),
        None => Ok(Vec::new(alloc)),
    }
}

pub(crate) fn in_lowercase(alloc: Global, word: &[u8]) -> Result<Vec<u8>, AllocError>
    ensures { IfOk result (λ lower. lower.items ≡ map to_ascii_lowercase word.now) }
{
    word.iter()
        .map(|byte| byte.to_ascii_lowercase())
        .collect(alloc)
}

/// The nearest word, whatever the case of `word`.
fn nearest_in_lowercase<'a>(
    alloc: Global,
    words: &[&'a [u8]],
    word: &[u8],
) -> Result<Option<&'a [u8]>, AllocError>
    ensures { IfOk result (λ found. option_map (λ w. w.now) found ≡ nearest (map (λ w. w.now) words.now) (map to_ascii_lowercase word.now)) }
{
    let lower = in_lowercase(alloc, word)?;
    Ok(nearest(words, &lower))
}

/// The kinds.
pub(crate) fn kinds(alloc: Global) -> Result<Vec<&'static [u8]>, AllocError>
    ensures { IfOk result (λ words. map (λ w. w.now) words.items ≡ kinds) }
{
    let kinds = [
        "auth".as_bytes(),
        "account".as_bytes(),
        "password".as_bytes(),
        "session".as_bytes(),
    ];
    let words = Vec::from_slice(alloc, &kinds)?;
    Ok(words)
}

fn nearest_kind(alloc: Global, word: &[u8]) -> Result<Option<&'static [u8]>, AllocError>
    ensures { IfOk result (λ found. option_map (λ w. w.now) found ≡ nearest kinds (map to_ascii_lowercase word.now)) }
{
    let kinds = kinds(alloc)?;
    nearest_in_lowercase(alloc, &kinds, word)
}

/// The controls that are words.
pub(crate) fn controls(alloc: Global) -> Result<Vec<&'static [u8]>, AllocError>
    ensures { IfOk result (λ words. map (λ w. w.now) words.items ≡ controls) }
{
    let controls = [
        "required".as_bytes(),
        "requisite".as_bytes(),
        "sufficient".as_bytes(),
        "optional".as_bytes(),
        "include".as_bytes(),
        "substack".as_bytes(),
    ];
    let words = Vec::from_slice(alloc, &controls)?;
    Ok(words)
}

fn nearest_keyword(alloc: Global, word: &[u8]) -> Result<Option<&'static [u8]>, AllocError>
    ensures { IfOk result (λ found. option_map (λ w. w.now) found ≡ nearest controls (map to_ascii_lowercase word.now)) }
{
    let controls = controls(alloc)?;
    nearest_in_lowercase(alloc, &controls, word)
}

/// The name of the code with this number.
fn name_of(number: u8) -> &'static [u8]
    requires { number < CODES }
    ensures { slice_get code_names number ≡ Some result.now }
{
    match Code::new(number) {
        Some(code) => code.name().as_bytes(),
        None => unreachable!(),
    }
}

/// The words that may stand before `=`.
pub(crate) fn values(alloc: Global) -> Result<Vec<&'static [u8]>, AllocError>
    ensures { IfOk result (λ words. map (λ w. w.now) words.items ≡ values) }
{
    let mut words = Vec::new(alloc);
    for number in 0..CODES as u8 {
        words.push(name_of(number))?;
    }
    words.push("incomplete".as_bytes())?;
    words.push("default".as_bytes())?;
    Ok(words)
}

fn nearest_value(alloc: Global, word: &[u8]) -> Result<Option<&'static [u8]>, AllocError>
    ensures { IfOk result (λ found. option_map (λ w. w.now) found ≡ nearest values (map to_ascii_lowercase word.now)) }
{
    let values = values(alloc)?;
    nearest_in_lowercase(alloc, &values, word)
}

fn nearest_control(
    alloc: Global,
    error: ControlError,
    word: &[u8],
) -> Result<Option<&'static [u8]>, AllocError>
    ensures { IfOk result (λ found. option_map (λ w. w.now) found ≡ nearest_control error word.now) }
{
    match error {
        ControlError::BadControl => nearest_keyword(alloc, word),
        ControlError::BadValue => nearest_value(alloc, word),
        ControlError::BadAction => nearest_action(alloc, word),
        ControlError::ZeroJump | ControlError::OpenBracket => Ok(None),
    }
}

/// The nearest of these modules for one that is not there.
pub(crate) fn nearest_module<'a>(modules: &[&'a [u8]], path: &[u8]) -> Option<&'a [u8]>
    ensures { option_map (λ m. m.now) result ≡ nearest_module (map (λ m. m.now) modules.now) path.now }
{
    nearest(modules, name_of_path(path))
}

/// The nearest right word for a word that is wrong by this fault, where these are the names of files.
pub(crate) fn nearest_right<'a>(
    alloc: Global,
    names: &[&'a [u8]],
    fault: FaultKind,
    word: &[u8],
) -> Result<Option<&'a [u8]>, AllocError>
    ensures { IfOk result (λ found. option_map (λ w. w.now) found ≡ nearest_right (map (λ name. name.now) names.now) fault word.now) }
{
    match fault {
        FaultKind::BadKind => nearest_kind(alloc, word),
        FaultKind::Control(error) => nearest_control(alloc, error, word),
        FaultKind::NoService => Ok(nearest(names, word)),
        // The sentences of all others name no word.
        _ => Ok(None),
    }
}
