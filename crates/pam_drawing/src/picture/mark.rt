//! The pieces of the text of a picture.

ghost use Rattle.pam_codes.specs.Out.{Writes};
ghost use Rattle.pam_drawing.specs.picture.inner.Marks.{mark_text, marks_text};
ghost use Rattle.pam_drawing.specs.picture.Picture.{bend_text};

use crate::picture::label::put_label;
use crate::picture::layout::shapes::Bend;
use crate::picture::rows::put_rows;
use crate::picture::stop::{Stop, put_stop};
use crate::{put_escaped, put_target};
use pam_codes::{CodeSet, Control, Device, Out, Piece};
use pam_graph::Target;
use std::io::Write;

/// A piece of the text of a picture.
#[derive(Clone, Copy)]
pub(crate) enum Mark<'a> {
    /// Written as it is.
    Plain(&'a [u8]),
    /// A text of a file.
    Escaped(&'a [u8]),
    Number(usize),
    Class(CodeSet),
    Control(Control),
    /// A text of a file, with a row for each of its words.
    Rows(&'a [u8]),
    /// Where a run is.
    Stop(Stop<'a>),
    /// The id of a shape.
    Id(Target),
    /// A bend of a line, and the height from which it comes.
    Bend(usize, Bend),
    /// The label of a class, by whether the node has other edges, and with the number of its note.
    Label(bool, CodeSet, usize),
}

#[tactic(auto, unfolding(crate::specs::picture::Picture::bend_text))]
fn put_bend<W: Write>(height: usize, bend: Bend, out: &mut Out<W>) -> Result<(), Device>
    ensures { Writes W.contents out.old out.new result (bend_text height bend) }
{
    let space = Piece::Bytes(b" ");
    out.put_line(&[
        Piece::Bytes(b"H"),
        Piece::Number(bend.from as u64),
        Piece::Bytes(b"C"),
        Piece::Number(bend.middle as u64),
        space,
        Piece::Number(height as u64),
        space,
        Piece::Number(bend.middle as u64),
        space,
        Piece::Number(bend.height as u64),
        space,
        Piece::Number(bend.to as u64),
        space,
        Piece::Number(bend.height as u64),
    ])
}

fn put_mark<W: Write>(mark: &Mark<'_>, out: &mut Out<W>) -> Result<(), Device>
    ensures { Writes W.contents out.old out.new result (mark_text mark.now) }
{
    match mark {
        Mark::Plain(text) => out.put(text),
        Mark::Escaped(text) => put_escaped(text, out),
        Mark::Number(number) => out.put_number(*number as u64),
        Mark::Class(class) => class.write_text(out),
        Mark::Control(control) => control.write_text(out),
        Mark::Rows(text) => put_rows(text, out),
        Mark::Stop(stop) => put_stop(stop, out),
        Mark::Id(target) => put_target(*target, out),
        Mark::Bend(height, bend) => put_bend(*height, *bend, out),
        Mark::Label(forked, class, note) => put_label(*forked, *class, *note, out),
    }
}

/// Writes pieces in order.
pub(crate) fn put_marks<W: Write>(marks: &[Mark<'_>], out: &mut Out<W>) -> Result<(), Device>
    ensures { Writes W.contents out.old out.new result (marks_text marks.now) }
{
    for mark in marks {
        put_mark(mark, out)?;
    }
    Ok(())
}
