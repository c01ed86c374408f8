//! Words of a rule that name nothing of a host.

ghost use Rattle.std.specs.Prelude.{◌==◌, ◌≡◌};
ghost use Rattle.std.specs.List.{flat_map, list_any};
ghost use Rattle.std.specs.Option.{option_map};
ghost use Rattle.pam_codes.specs.Out.{Writes};
ghost use Rattle.pam_policy.specs.names.Words.{argument_view, misnamed_view, word_view};
ghost use Rattle.pam_render.specs.sentences.Policy.{argument_phrases, module_phrases, near_phrases, service_phrases, unknown_phrases, word_phrases};

use crate::sentences::phrase::{Phrase, Phrases, put_phrases};
use pam_codes::{Device, Out};
use pam_policy::names::{Argument, Misnamed, Word};
use std::io::Write;

/// Writes the nearest right word, or else these words.
fn put_near<F: Phrases, W: Write>(
    form: &F,
    nearest: &Option<Vec<u8>>,
    else_said: &[u8],
    out: &mut Out<W>,
) -> Result<(), Device>
    ensures { Writes W.contents out.old out.new result
        (flat_map F.text (near_phrases (option_map (λ near. near.items) nearest.now) else_said.now)) }
{
    match nearest {
        Some(right) => {
            let phrases = [
                Phrase::Said(b"; did you mean \""),
                Phrase::Name(right.as_slice()),
                Phrase::Said(b"\"?"),
            ];
            put_phrases(form, &phrases, out)
        }
        None => put_phrases(form, &[Phrase::Said(else_said)], out),
    }
}

/// Writes that a name is no service.
fn put_service<F: Phrases, W: Write>(form: &F, word: &Word, out: &mut Out<W>) -> Result<(), Device>
    ensures { Writes W.contents out.old out.new result (flat_map F.text (service_phrases (word_view word.now))) }
{
    let phrases = [
        Phrase::Said(b"there is no service \""),
        Phrase::Name(word.text.as_slice()),
        Phrase::Said(b"\""),
    ];
    put_phrases(form, &phrases, out)?;
    put_near(
        form,
        &word.nearest,
        b"; mend the name, or leave it out",
        out,
    )
}

fn is_path(name: &[u8]) -> bool
    ensures { result ≡ list_any (λ b. b == 47) name.now }
{
    name.iter().any(|byte| *byte == b'/')
}

/// Writes that no module has a name, unless it is a path.
fn put_unknown<F: Phrases, W: Write>(form: &F, word: &Word, out: &mut Out<W>) -> Result<(), Device>
    ensures { Writes W.contents out.old out.new result (flat_map F.text (unknown_phrases (word_view word.now))) }
{
    if is_path(&word.text) {
        return Ok(());
    }
    put_phrases(
        form,
        &[Phrase::Said(b", and none of this name is known")],
        out,
    )?;
    put_near(form, &word.nearest, b"", out)
}

/// Writes that no rule calls a module.
fn put_module<F: Phrases, W: Write>(form: &F, word: &Word, out: &mut Out<W>) -> Result<(), Device>
    ensures { Writes W.contents out.old out.new result (flat_map F.text (module_phrases (word_view word.now))) }
{
    let phrases = [
        Phrase::Said(b"no rule calls a module \""),
        Phrase::Name(word.text.as_slice()),
        Phrase::Said(b"\""),
    ];
    put_phrases(form, &phrases, out)?;
    put_unknown(form, word, out)
}

/// Writes that no module of a name has an argument with a key.
fn put_argument<F: Phrases, W: Write>(
    form: &F,
    argument: &Argument,
    out: &mut Out<W>,
) -> Result<(), Device>
    ensures { Writes W.contents out.old out.new result (flat_map F.text (argument_phrases (argument_view argument.now))) }
{
    let phrases = [
        Phrase::Said(b"no rule of \""),
        Phrase::Name(argument.name.as_slice()),
        Phrase::Said(b"\" has an argument \""),
        Phrase::Name(argument.key.as_slice()),
        Phrase::Said(b"\"; did you mean \""),
        Phrase::Name(argument.nearest.as_slice()),
        Phrase::Said(b"\"?"),
    ];
    put_phrases(form, &phrases, out)
}

/// Writes what is said of a word.
pub(super) fn put_word<F: Phrases, W: Write>(
    form: &F,
    word: &Misnamed,
    out: &mut Out<W>,
) -> Result<(), Device>
    ensures { Writes W.contents out.old out.new result (flat_map F.text (word_phrases (misnamed_view word.now))) }
{
    match word {
        Misnamed::NoService(word) => put_service(form, word, out),
        Misnamed::FitsNone => {
            let said = b"the rule fits no service; mend its first word";
            put_phrases(form, &[Phrase::Said(said)], out)
        }
        Misnamed::NoModule(word) => put_module(form, word, out),
        Misnamed::NoArgument(argument) => put_argument(form, argument, out),
    }
}
