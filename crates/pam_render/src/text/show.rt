//! The `show` command: the stack, rule by rule.

ghost use Rattle.std.specs.Prelude.{◌++◌, codes};
ghost use Rattle.pam_codes.specs.Out.{Writes};
ghost use Rattle.pam_conf.specs.ItemsOf.{module_text};
ghost use Rattle.pam_render.specs.text.Show.{dash_text, indent, module_front, module_line, place_text, sub_line, words_text};
ghost use Rattle.pam_render.specs.text.WordText.{word_text};

use crate::parts::{RulePlace, StackLine, StackLines, name_at};
use crate::text::form::AsText;
use crate::text::header::put_header;
use crate::text::word::put_word;
use pam_codes::{Device, Out, Piece};
use pam_conf::{Files, Module, Sub};
use pam_text::Texts;
use std::io::Write;

/// Writes two spaces per level.
fn put_indent<W: Write>(level: usize, out: &mut Out<W>) -> Result<(), Device>
    ensures { Writes W.contents out.old out.new result (indent level) }
{
    for _ in 0..level {
        out.put(b"  ")?;
    }
    Ok(())
}

/// Writes `FILE:LINE`.
#[tactic(auto, unfolding(crate::specs::text::Show::place_text))]
fn put_place<W: Write>(
    files: &Files,
    file: usize,
    line: usize,
    out: &mut Out<W>,
) -> Result<(), Device>
    ensures { Writes W.contents out.old out.new result (place_text files.now file line) }
{
    out.put_line(&[
        Piece::Bytes(name_at(files, file)),
        Piece::Bytes(b":"),
        Piece::Number(line as u64),
    ])
}

/// Writes a word, with a space before it.
pub(crate) fn put_one_word<W: Write>(word: &[u8], out: &mut Out<W>) -> Result<(), Device>
    ensures { Writes W.contents out.old out.new result (codes " " ++ word_text word.now) }
{
    out.put(b" ")?;
    put_word(word, out)
}

/// Writes words, with a space before each.
pub(crate) fn put_words<W: Write>(words: &Texts, out: &mut Out<W>) -> Result<(), Device>
    ensures { Writes W.contents out.old out.new result (words_text words.now) }
{
    for word in words.iter() {
        put_one_word(word, out)?;
    }
    Ok(())
}

/// Writes the start of a module's line, up to its control.
#[tactic(auto, unfolding(crate::specs::text::Show::module_front))]
fn put_front<W: Write>(at: RulePlace<'_>, module: &Module, out: &mut Out<W>) -> Result<(), Device>
    ensures { Writes W.contents out.old out.new result (module_front at.entry.files.now at.entry.level (module_text «module».now)) }
{
    put_indent(at.level, out)?;
    out.put_line(&[Piece::Number(module.number as u64), Piece::Bytes(b" ")])?;
    put_place(at.files, module.file, module.line, out)?;
    put_dash(module.dashed, out)
}

fn put_dash<W: Write>(dashed: bool, out: &mut Out<W>) -> Result<(), Device>
    ensures { Writes W.contents out.old out.new result (dash_text dashed) }
{
    if dashed {
        return out.put(b" - ");
    }
    out.put(b" ")
}

/// Writes the line of a module.
#[tactic(auto, unfolding(crate::specs::text::Show::module_line))]
fn put_module<W: Write>(at: RulePlace<'_>, module: &Module, out: &mut Out<W>) -> Result<(), Device>
    ensures { Writes W.contents out.old out.new result (module_line at.entry.files.now at.entry.level (module_text «module».now)) }
{
    put_front(at, module, out)?;
    module.control.write_text(out)?;
    put_one_word(&module.path, out)?;
    put_words(&module.arguments, out)?;
    out.put(b"\n")
}

/// Writes the line of a substack.
#[tactic(auto, unfolding(crate::specs::text::Show::sub_line))]
fn put_sub<W: Write>(at: RulePlace<'_>, sub: &Sub, out: &mut Out<W>) -> Result<(), Device>
    ensures { Writes W.contents out.old out.new result (sub_line at.entry.files.now at.entry.level sub.now.text) }
{
    put_indent(at.level, out)?;
    out.put(b"sub ")?;
    put_place(at.files, sub.file, sub.line, out)?;
    out.put_line(&[
        Piece::Bytes(b" "),
        Piece::Bytes(name_at(at.files, sub.target)),
        Piece::Bytes(b"\n"),
    ])
}

impl StackLines for AsText {
    ghost use Rattle.pam_render.specs.text.Show.{line_text};

    ghost line = { line_text };

    fn put_line<W: Write>(&self, content: StackLine<'_>, out: &mut Out<W>) -> Result<(), Device> {
        match content {
            StackLine::Head(head) => put_header(head.service, head.kind, head.modules, out),
            StackLine::Module(at, module) => put_module(at, module, out),
            StackLine::Sub(at, sub) => put_sub(at, sub, out),
        }
    }
}
