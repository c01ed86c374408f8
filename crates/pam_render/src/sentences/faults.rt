//! What `check` says of a fault of a file or a walk: what is wrong, and how to mend it.

ghost use Rattle.std.specs.Prelude.{◌≡◌};
ghost use Rattle.std.specs.Option.{option_map};
ghost use Rattle.pam_codes.specs.Out.{Writes};
ghost use Rattle.pam_findings.specs.misspelled.MisspelledView.{misspelled_view};
ghost use Rattle.pam_render.specs.sentences.Faults as spec;
ghost use Rattle.pam_render.specs.sentences.NamingView.{naming_view};

use crate::sentences::shown::{hidden_text, put_name, put_quoted};
use pam_codes::{ControlError, Device, Out, Piece};
use pam_conf::FaultKind;
use pam_findings::misspelled::Misspelled;
use std::io::Write;

#[tactic(auto, unfolding(crate::specs::sentences::Faults::control_sentence))]
fn control_sentence(error: ControlError) -> &'static str
    ensures { result.now ≡ spec.control_sentence error }
{
    match error {
        ControlError::BadControl => {
            "the control is not required, requisite, sufficient, optional, include, substack or pairs CODE=ACTION in one pair of brackets"
        }
        ControlError::BadValue => {
            "the word before = is no return code; write one as success, or default"
        }
        ControlError::BadAction => {
            "the word after = is no action; write ignore, bad, die, ok, done, reset or a number of at most 9 digits"
        }
        ControlError::ZeroJump => {
            "a jump over 0 items; write ignore, or the number of items to jump over"
        }
        ControlError::OpenBracket => {
            "a bracket is not closed; write ] after the last word in it"
        }
    }
}

#[tactic(auto, unfolding(crate::specs::sentences::Faults::fault_sentence))]
fn fault_sentence(fault: FaultKind) -> &'static str
    ensures { result.now ≡ spec.fault_sentence fault }
{
    match fault {
        FaultKind::NulByte => "the file has a NUL byte; remove it",
        FaultKind::MissingField => {
            "the line ends too early; a rule has a kind, a control and the path of a module"
        }
        FaultKind::BadKind => "the kind is not auth, account, password or session",
        FaultKind::Control(error) => control_sentence(error),
        FaultKind::MissingTarget => {
            "no file is named; write its name after include, substack or @include"
        }
        FaultKind::BadTarget => {
            "the file that is named is not in this folder, so it is not read here; write a name without folder"
        }
        FaultKind::Cycle => {
            "the file is being read already, so it would be read without end; remove this line, or the one that leads back"
        }
        FaultKind::TooDeep => {
            "more than 16 files would be open at once; include fewer files in one another"
        }
        FaultKind::TooManyModules => "the stack has more than 256 modules; remove some",
        FaultKind::IncludeInSingleFile => {
            "pam.conf cannot include files; write the rules here, or use a folder"
        }
        FaultKind::NoService => "there is no file of this name; mend the name, or make the file",
        FaultKind::FileTooLong => "the file is longer than 1,048,576 bytes; shorten it",
        FaultKind::Memory => "an allocation failed",
        FaultKind::TooManyFollowed => {
            "more than 256 includes and substacks are followed; include fewer files"
        }
    }
}

/// Returns what is wrong at this line, without the word that is wrong.
pub fn plain_sentence(line: usize, fault: FaultKind) -> &'static str
    ensures { result.now ≡ spec.plain_sentence line fault }
{
    match fault {
        FaultKind::NoService if line == 0 => {
            "neither the service nor other has rules, so every login is refused; write rules for one of them"
        }
        _ => fault_sentence(fault),
    }
}

fn put_plain<W: Write>(line: usize, fault: FaultKind, out: &mut Out<W>) -> Result<(), Device>
    ensures { Writes W.contents out.old out.new result (spec.plain_sentence line fault) }
{
    out.put(plain_sentence(line, fault).as_bytes())
}

/// What stands before and after the word that is wrong, and what to write where no right word is near.
#[derive(Clone, Copy)]
pub struct Naming {
    pub before: &'static str,
    pub after: &'static str,
    pub mending: &'static str,
}

#[tactic(auto, unfolding(crate::specs::sentences::Faults::naming_of_control))]
fn naming_of_control(error: ControlError) -> Option<Naming>
    ensures { option_map naming_view result ≡ spec.naming_of_control error }
{
    match error {
        ControlError::BadControl => Some(Naming {
            before: "",
            after: " is no control",
            mending: "write required, requisite, sufficient, optional, include, substack or pairs CODE=ACTION in one pair of brackets",
        }),
        ControlError::BadValue => Some(Naming {
            before: "",
            after: " is no return code",
            mending: "write one as success, or default",
        }),
        ControlError::BadAction => Some(Naming {
            before: "",
            after: " is no action",
            mending: "write ignore, bad, die, ok, done, reset or a number of at most 9 digits",
        }),
        ControlError::ZeroJump | ControlError::OpenBracket => None,
    }
}

/// Returns how a fault names the word that is wrong, if it does.
#[tactic(auto, unfolding(crate::specs::sentences::Faults::naming_of))]
pub fn naming_of(fault: FaultKind) -> Option<Naming>
    ensures { option_map naming_view result ≡ spec.naming_of fault }
{
    match fault {
        FaultKind::BadKind => Some(Naming {
            before: "",
            after: " is no kind",
            mending: "write auth, account, password or session",
        }),
        FaultKind::Control(error) => naming_of_control(error),
        FaultKind::NoService => Some(Naming {
            before: "there is no file ",
            after: "",
            mending: "mend the name, or make the file",
        }),
        FaultKind::NulByte
        | FaultKind::MissingField
        | FaultKind::MissingTarget
        | FaultKind::BadTarget
        | FaultKind::Cycle
        | FaultKind::TooDeep
        | FaultKind::TooManyModules
        | FaultKind::IncludeInSingleFile
        | FaultKind::FileTooLong
        | FaultKind::Memory
        | FaultKind::TooManyFollowed => None,
    }
}

/// Writes the nearest right word, or else how to mend the word.
fn put_mending<W: Write>(
    nearest: Option<&[u8]>,
    mending: &str,
    out: &mut Out<W>,
) -> Result<(), Device>
    ensures { Writes W.contents out.old out.new result (spec.mending_text (option_map (λ w. w.now) nearest.entry) mending.now) }
{
    let Some(right) = nearest else {
        return out.put_line(&[Piece::Bytes(b"; "), Piece::Bytes(mending.as_bytes())]);
    };
    out.put(b"; did you mean ")?;
    put_quoted(right, out)?;
    out.put(b"?")
}

fn nearest_of(misspelled: &Misspelled) -> Option<&[u8]>
    ensures { option_map (λ w. w.now) result ≡ (misspelled_view misspelled.now).nearest }
{
    match &misspelled.nearest {
        Some(right) => Some(right),
        None => None,
    }
}

/// Writes what is said after a word, and which hidden character it has.
fn put_after<W: Write>(after: &str, word: &[u8], out: &mut Out<W>) -> Result<(), Device>
    ensures { Writes W.contents out.old out.new result (spec.after_text after.now word.now) }
{
    out.put_line(&[
        Piece::Bytes(after.as_bytes()),
        Piece::Bytes(hidden_text(word).as_bytes()),
    ])
}

/// Writes what is wrong with a word, without the module of which it is an argument.
fn put_named<W: Write>(
    naming: Naming,
    misspelled: &Misspelled,
    out: &mut Out<W>,
) -> Result<(), Device>
    ensures { Writes W.contents out.old out.new result (spec.named_text (misspelled_view misspelled.now) (naming_view naming)) }
{
    out.put(naming.before.as_bytes())?;
    put_quoted(&misspelled.word, out)?;
    put_after(naming.after, &misspelled.word, out)?;
    put_mending(nearest_of(misspelled), naming.mending, out)
}

/// Returns how a file is named that is a link which leads nowhere.
#[tactic(auto, unfolding(crate::specs::sentences::Faults::dead_naming))]
pub fn dead_naming() -> Naming
    ensures { naming_view result ≡ spec.dead_naming }
{
    Naming {
        before: "",
        after: " is a link that leads nowhere",
        mending: "make the file that it names, or mend the link",
    }
}

/// Returns how a word is named: that of a link that leads nowhere as such, any other one in this way.
pub(crate) fn naming_for(misspelled: &Misspelled, naming: Naming) -> Naming
    ensures { naming_view result ≡ spec.naming_for (misspelled_view misspelled.now) (naming_view naming) }
{
    if misspelled.leads_nowhere {
        dead_naming()
    } else {
        naming
    }
}

/// Writes what is wrong with a word.
pub(crate) fn put_naming<W: Write>(
    naming: Naming,
    misspelled: &Misspelled,
    out: &mut Out<W>,
) -> Result<(), Device>
    ensures { Writes W.contents out.old out.new result (spec.naming_text (misspelled_view misspelled.now) (naming_view naming)) }
{
    put_name(&misspelled.module, out)?;
    put_named(naming_for(misspelled, naming), misspelled, out)
}

/// Writes what is wrong at this line, and how to mend it, with the word that is wrong if it is known.
pub(crate) fn put_fault<W: Write>(
    line: usize,
    fault: FaultKind,
    misspelled: Option<&Misspelled>,
    out: &mut Out<W>,
) -> Result<(), Device>
    ensures { Writes W.contents out.old out.new result (spec.fault_text line fault (option_map (λ m. misspelled_view m.now) misspelled.entry)) }
{
    let Some(misspelled) = misspelled else {
        return put_plain(line, fault, out);
    };
    match naming_of(fault) {
        Some(naming) => put_naming(naming, misspelled, out),
        None => put_plain(line, fault, out),
    }
}
