//! The labels of edges.

ghost use Rattle.std.specs.Prelude.{◌≡◌, ◌<◌, true};
ghost use Rattle.pam_codes.specs.Out.{Writes};
ghost use Rattle.pam_codes.specs.SetText.{name_of};
ghost use Rattle.pam_codes.specs.declared.code.TheConstants.{CODES};
ghost use Rattle.pam_drawing.specs.picture.Labels.{else_text, first_name, has_else, has_note, is_named, label_text, noted_label};

use crate::name_of;
use pam_codes::{CODES, Code, CodeSet, Device, Out, Piece};
use std::io::Write;

/// The least number of codes of a class that is shown as `else`. No two classes of a node have as many.
pub(crate) const MIN_ELSE_CODES: usize = 16;

/// The most codes of a class whose label is its text.
pub(crate) const MAX_NAMED_CODES: usize = 2;

/// Whether the label of a class is `else`.
pub(crate) fn is_else(class: CodeSet) -> bool
    ensures { result ≡ has_else class }
{
    MIN_ELSE_CODES <= class.len() && class.len() < CODES
}

/// Whether the label of a class is its text.
pub(crate) fn is_named(class: CodeSet) -> bool
    ensures { result ≡ is_named class }
{
    class.len() <= MAX_NAMED_CODES
}

/// Whether a class is shown in a note below the picture.
pub(crate) fn is_noted(class: CodeSet) -> bool
    ensures { result ≡ has_note class }
{
    MAX_NAMED_CODES < class.len() && class.len() < MIN_ELSE_CODES
}

/// Returns the name of the least code.
fn first_name(class: CodeSet) -> &'static [u8]
    ensures { result.now ≡ first_name class }
{
    match class.least() {
        Some(code) => name_of(code),
        None => b"",
    }
}

/// Writes the first code of a class, how many more it has, and the number of its note.
fn put_noted<W: Write>(class: CodeSet, note: usize, out: &mut Out<W>) -> Result<(), Device>
    requires { has_note class ≡ true }
    ensures { Writes W.contents out.old out.new result (noted_label class note) }
{
    out.put_line(&[
        Piece::Bytes(first_name(class)),
        Piece::Bytes(b" +"),
        Piece::Number(class.len() as u64 - 1),
        Piece::Bytes(b" ("),
        Piece::Number(note as u64),
        Piece::Bytes(b")"),
    ])
}

/// Returns the label of a class that is every answer but a few, by whether the node has other edges.
fn else_text(forked: bool) -> &'static [u8]
    ensures { result.now ≡ else_text forked }
{
    if forked { b"else" } else { b"" }
}

/// Writes the label of a class: nothing for every answer.
#[tactic(auto, unfolding(crate::specs::picture::Labels::label_text))]
pub(crate) fn put_label<W: Write>(
    forked: bool,
    class: CodeSet,
    note: usize,
    out: &mut Out<W>,
) -> Result<(), Device>
    ensures { Writes W.contents out.old out.new result (label_text forked class note) }
{
    if is_else(class) {
        return out.put(else_text(forked));
    }
    if is_named(class) {
        return class.write_text(out);
    }
    if is_noted(class) {
        return put_noted(class, note, out);
    }
    Ok(())
}
