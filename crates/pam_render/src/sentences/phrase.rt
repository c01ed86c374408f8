//! The phrases of which sentences consist.

ghost use Rattle.std.specs.Prelude.{map};
ghost use Rattle.std.specs.List.{flat_map};
ghost use Rattle.pam_codes.specs.Out.{Writes};
ghost use Rattle.pam_render.specs.sentences.PhrasesView.{phrase_view};

use pam_codes::{Device, Out};
use std::io::Write;

/// A phrase of a sentence.
#[derive(Clone, Copy)]
pub enum Phrase<'x> {
    /// Words of the sentence, which are ASCII.
    Said(&'x [u8]),
    /// A name, or another text that somebody else wrote.
    Name(&'x [u8]),
    Number(u64),
}

/// How phrases are written in a form of answers.
pub trait Phrases {
    ghost use Rattle.std.specs.Prelude.{ℕ, List};
    ghost use Rattle.pam_codes.specs.Out.{Writes};
    ghost use Rattle.pam_render.specs.sentences.Phrases.{Phrase};
    ghost use Rattle.pam_render.specs.sentences.PhrasesView.{phrase_view};

    /// The text of a phrase.
    ghost text: { Phrase → List ℕ };

    /// Writes a phrase.
    fn put_phrase<W: Write>(&self, phrase: Phrase<'_>, out: &mut Out<W>) -> Result<(), Device>
        ensures { Writes W.contents out.old out.new result (text (phrase_view phrase.entry)) };
}

/// Writes phrases in turn.
pub fn put_phrases<F: Phrases, W: Write>(
    form: &F,
    phrases: &[Phrase<'_>],
    out: &mut Out<W>,
) -> Result<(), Device>
    ensures { Writes W.contents out.old out.new result (flat_map F.text (map phrase_view phrases.now)) }
{
    for phrase in phrases {
        form.put_phrase(*phrase, out)?;
    }
    Ok(())
}
