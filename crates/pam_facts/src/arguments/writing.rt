//! The table of arguments as rows of a facts file.

ghost use Rattle.std.specs.Prelude.{◌≡◌};
ghost use Rattle.pam_facts.specs.arguments.Table.{lines_of};
ghost use Rattle.pam_facts.specs.arguments.Texts.{arguments_text, lines_text, module_text, row_line};
ghost use Rattle.pam_facts.specs.arguments.Views.{module_view, row_view};
ghost use Rattle.pam_text.specs.Out.{Writes};

use crate::arguments::cuts::Parts;
use crate::arguments::modules::{Module, or_else};
use crate::arguments::row::Row;
use crate::arguments::table::table;
use pam_text::{Device, Out, Piece, cut};
use std::io::Write;

/// Writes an argument that a module with these kinds knows.
fn write_row<'x, W: Write>(
    name: &'x [u8],
    kinds: &'x [u8],
    row: &Row<'x>,
    out: &mut Out<W>,
) -> Result<(), Device>
    ensures { Writes W.contents out.old out.new result (row_line name.now kinds.now (row_view row.now)) }
{
    out.put_line(&[
        Piece::Bytes(name),
        Piece::Bytes(b" knows "),
        Piece::Bytes(row.argument),
        Piece::Bytes(b" "),
        Piece::Bytes(or_else(row.kinds, kinds)),
        Piece::Bytes(b"\n"),
    ])
}

/// Writes the arguments that a module knows.
fn write_module<W: Write>(name: &[u8], known: &Module<'_>, out: &mut Out<W>) -> Result<(), Device>
    ensures { Writes W.contents out.old out.new result (module_text name.now (module_view known.now)) }
{
    for part in Parts::of(known.arguments, b' ') {
        let row = Row::of(part);
        write_row(name, known.kinds, &row, out)?;
    }
    Ok(())
}

/// Writes the arguments of the modules of lines.
fn write_lines<W: Write>(text: &[u8], out: &mut Out<W>) -> Result<(), Device>
    ensures { Writes W.contents out.old out.new result (lines_text (lines_of text.now)) }
{
    for line in Parts::of(Some(text), b'\n') {
        if let Some((name, rest)) = cut(line, b' ') {
            let known = Module::of(rest);
            write_module(name, &known, out)?;
        }
    }
    Ok(())
}

/// Writes the table as rows of a facts file, a row a line.
#[tactic(auto, unfolding(crate::specs::arguments::Texts::arguments_text))]
pub(crate) fn write_arguments<W: Write>(out: &mut Out<W>) -> Result<(), Device>
    ensures { Writes W.contents out.old out.new result arguments_text }
{
    write_lines(table(), out)
}
