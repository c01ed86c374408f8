//! The rule of a line: pam.conf(5), "service type control module-path module-arguments".
ghost use Rattle.std.specs.Prelude.{◌≡◌, ◌∷◌, IfOk, map};
ghost use Rattle.std.specs.Char.{to_ascii_lowercase};
ghost use Rattle.std.specs.Option.{option_map};
ghost use Rattle.pam_text.specs.Gives.{Gives};
ghost use Rattle.pam_conf.specs.inner.Tells.{KindTells};
ghost use Rattle.pam_conf.specs.Rule.{kind_named, kind_or_fault_of, dashed_kind_of};
ghost use Rattle.pam_conf.specs.Rule.{file_name_of, without_folder_of, target_of};
ghost use Rattle.pam_conf.specs.Rule.{control_body_of, body_of};
ghost use Rattle.pam_conf.specs.Rule.{kind_rule_of, include_rule_of, plain_rule_of, first_rule_of, rule_of};
ghost use Rattle.pam_conf.specs.inner.Kept.{kept_body, kept_view};
ghost use Rattle.pam_conf.specs.Remaining.{words_to_come};
ghost use Rattle.pam_conf.specs.Walk.{same_kind};

use crate::call::Call;
use crate::error::FaultKind;
use crate::kept::{KeptBody, KeptRule};
use crate::words::{Words, word_text};
use pam_codes::{Control, is_name};
use pam_text::Texts;
use std::alloc::{AllocError, Global};

/// The management group of a rule: pam.conf(5), `type`.
#[derive(Clone, Copy, Debug, PartialEq, Eq)]
pub enum Kind {
    Auth,
    Account,
    Password,
    Session,
}

/// The form of the configuration: pam.conf(5).
#[derive(Clone, Copy, Debug, PartialEq, Eq)]
pub enum Form {
    /// A folder with one file per service.
    Dir,
    /// One file, pam.conf, whose rules begin with the service.
    Single,
}

/// What a rule does.
#[derive(Debug, Drop)]
pub enum Body {
    /// Calls a module: the control, path and arguments.
    Module(Control, Vec<u8>, Texts),
    /// Includes the rules of the file with this name, as if they were written here.
    Include(Vec<u8>),
    /// Includes the rules of the file with this name as one item.
    Sub(Vec<u8>),
}

/// A rule of a file.
#[derive(Debug, Drop)]
pub struct Rule {
    /// The number of its first line, from 1.
    pub line: usize,
    /// The service in lowercase in pam.conf; `None` in a folder.
    pub service: Option<Vec<u8>>,
    /// `None` for an `@include`, which applies to every kind.
    pub kind: Option<Kind>,
    /// Whether the kind has the prefix `-`.
    pub dashed: bool,
    pub body: Body,
}

impl Kind {
    /// The kind with this name, ignoring ASCII case: pam.conf(5), `type`.
    #[tactic(auto, unfolding(crate::specs::Rule::kind_named))]
    pub fn from_name(name: &[u8]) -> Option<Kind>
        ensures { result ≡ kind_named name.now }
    {
        if is_name(b"auth", name) {
            Some(Kind::Auth)
        } else if is_name(b"account", name) {
            Some(Kind::Account)
        } else if is_name(b"password", name) {
            Some(Kind::Password)
        } else if is_name(b"session", name) {
            Some(Kind::Session)
        } else {
            None
        }
    }
}

pub(crate) fn is_same(kind: Kind, other: Kind) -> bool
    ensures { result ≡ same_kind kind other }
{
    kind == other
}

/// The kind with this name, together with `dashed`.
fn kind_or_fault(dashed: bool, name: &[u8]) -> Result<(bool, Kind), FaultKind>
    ensures { result ≡ kind_or_fault_of dashed name.now }
{
    match Kind::from_name(name) {
        Some(kind) => Ok((dashed, kind)),
        None => Err(FaultKind::BadKind),
    }
}

/// Whether `text` has the prefix `-`, and the kind after it.
#[tactic(auto, unfolding(crate::specs::Rule::dashed_kind_of))]
pub(crate) fn dashed_kind(text: &[u8]) -> Result<(bool, Kind), FaultKind>
    ensures { result ≡ dashed_kind_of text.now }
{
    let Some((first, name)) = text.split_first() else {
        return Err(FaultKind::BadKind);
    };
    if *first == b'-' {
        kind_or_fault(true, name)
    } else {
        kind_or_fault(false, text)
    }
}

/// Returns `name` if a file of the folder can have it: not empty, and without `/`.
fn file_name(name: Vec<u8>) -> Result<Vec<u8>, FaultKind>
    ensures { Gives KindTells (λ n. n.items) result (file_name_of name.items) }
{
    if name.is_empty() || name.contains(&b'/') {
        Err(FaultKind::BadTarget)
    } else {
        Ok(name)
    }
}

/// Returns a target without the folder's prefix.
fn without_folder(alloc: Global, text: Vec<u8>) -> Result<Vec<u8>, AllocError>
    ensures { IfOk result (λ n. n.items ≡ without_folder_of text.items) }
{
    let folder = b"/etc/pam.d/";
    if text.starts_with(folder) {
        Vec::from_slice(alloc, &text[folder.len()..])
    } else {
        Ok(text)
    }
}

/// The target at the start of `words`; further words are ignored.
#[tactic(auto, unfolding(crate::specs::Rule::target_of))]
fn target(alloc: Global, form: Form, words: Words<'_>) -> Result<Vec<u8>, FaultKind>
    ensures { Gives KindTells (λ t. t.items) result (target_of form (words_to_come words.entry)) }
{
    match form {
        Form::Single => Err(FaultKind::IncludeInSingleFile),
        Form::Dir => {
            let Some((word, _)) = words.split_first() else {
                return Err(FaultKind::MissingTarget);
            };
            let name = without_folder(alloc, word_text(alloc, word)?)?;
            file_name(name)
        }
    }
}

/// The body of a rule whose control is neither `include` nor `substack`; `words` are `control` and `rest`.
fn control_body(
    alloc: Global,
    words: Words<'_>,
    control: &[u8],
    rest: Words<'_>,
) -> Result<KeptBody, FaultKind>
    requires { words_to_come words ≡ control.now ∷ words_to_come rest }
    ensures { Gives KindTells kept_body result (control_body_of control.now (words_to_come rest.entry)) }
{
    if let Err(error) = Control::check(control) {
        return Err(FaultKind::Control(error));
    }
    if rest.split_first().is_none() {
        return Err(FaultKind::MissingField);
    }
    Ok(KeptBody::Module(Call::of(alloc, words)?))
}

/// The body of a rule: the words after the kind.
#[tactic(auto, unfolding(crate::specs::Rule::body_of))]
fn rule_body(alloc: Global, form: Form, words: Words<'_>) -> Result<KeptBody, FaultKind>
    ensures { Gives KindTells kept_body result (body_of form (words_to_come words.entry)) }
{
    let Some((control, rest)) = words.split_first() else {
        return Err(FaultKind::MissingField);
    };
    if is_name(b"include", control) {
        let name = target(alloc, form, rest)?;
        return Ok(KeptBody::Include(name));
    }
    if is_name(b"substack", control) {
        let name = target(alloc, form, rest)?;
        return Ok(KeptBody::Sub(name));
    }
    control_body(alloc, words, control, rest)
}

/// The rule of a line, from its kind on.
#[tactic(auto, unfolding(crate::specs::Rule::kind_rule_of))]
fn kind_rule(
    alloc: Global,
    form: Form,
    line: usize,
    service: Option<Vec<u8>>,
    kind: &[u8],
    words: Words<'_>,
) -> Result<KeptRule, FaultKind>
    ensures { Gives KindTells kept_view result
        (kind_rule_of form line (option_map (λ s. s.items) service) kind.now (words_to_come words.entry)) }
{
    let (dashed, kind) = dashed_kind(kind)?;
    let body = rule_body(alloc, form, words)?;
    Ok(KeptRule {
        line,
        service,
        kind: Some(kind),
        dashed,
        body,
    })
}

/// The rule of an `@include`, from its target on.
#[tactic(auto, unfolding(crate::specs::Rule::include_rule_of))]
fn include_rule(
    alloc: Global,
    form: Form,
    line: usize,
    words: Words<'_>,
) -> Result<KeptRule, FaultKind>
    ensures { Gives KindTells kept_view result (include_rule_of form line (words_to_come words.entry)) }
{
    let name = target(alloc, form, words)?;
    Ok(KeptRule {
        line,
        service: None,
        kind: None,
        dashed: false,
        body: KeptBody::Include(name),
    })
}

/// Lowercases ASCII letters in place.
pub(crate) fn lower(text: &mut [u8])
    ensures { text.new ≡ map to_ascii_lowercase text.old }
{
    for byte in text.iter_mut() {
        *byte = byte.to_ascii_lowercase();
    }
}

/// The rule of a line that begins with `first`, which is not `@include`.
#[tactic(auto, unfolding(crate::specs::Rule::plain_rule_of))]
fn plain_rule(
    alloc: Global,
    form: Form,
    line: usize,
    mut first: Vec<u8>,
    words: Words<'_>,
) -> Result<KeptRule, FaultKind>
    ensures { Gives KindTells kept_view result (plain_rule_of form line first.items (words_to_come words.entry)) }
{
    match form {
        Form::Dir => kind_rule(alloc, form, line, None, &first, words),
        Form::Single => {
            let Some((kind, words)) = words.split_first() else {
                return Err(FaultKind::MissingField);
            };
            lower(&mut first);
            let kind = word_text(alloc, kind)?;
            kind_rule(alloc, form, line, Some(first), &kind, words)
        }
    }
}

/// The rule of a line that begins with `first`.
#[tactic(auto, unfolding(crate::specs::Rule::first_rule_of))]
fn first_rule(
    alloc: Global,
    form: Form,
    line: usize,
    first: Vec<u8>,
    words: Words<'_>,
) -> Result<KeptRule, FaultKind>
    ensures { Gives KindTells kept_view result (first_rule_of form line first.items (words_to_come words.entry)) }
{
    if is_name(b"@include", &first) {
        include_rule(alloc, form, line, words)
    } else {
        plain_rule(alloc, form, line, first, words)
    }
}

/// The rule of a line with these words; `None` if there are none.
#[tactic(auto, unfolding(crate::specs::Rule::rule_of))]
pub(crate) fn line_rule(
    alloc: Global,
    form: Form,
    line: usize,
    words: Words<'_>,
) -> Result<Option<KeptRule>, FaultKind>
    ensures { Gives KindTells (option_map kept_view) result (rule_of form line (words_to_come words.entry)) }
{
    let Some((first, words)) = words.split_first() else {
        return Ok(None);
    };
    let first = word_text(alloc, first)?;
    let rule = first_rule(alloc, form, line, first, words)?;
    Ok(Some(rule))
}
