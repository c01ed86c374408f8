//! The text of a picture.

ghost use Rattle.std.specs.Prelude.{◌≡◌};
ghost use Rattle.std.specs.List.{flat_map};
ghost use Rattle.pam_codes.specs.Out.{Writes};
ghost use Rattle.pam_drawing.specs.picture.Picture.{description_text, foot_text, heading_text, legend_text, note_text, notes_text, opening_text};
ghost use Rattle.pam_drawing.specs.picture.Picture.{shapes_text, style_text, svg_text, table_text};

use crate::picture::edge::{Sheet, put_edges, put_sentences};
use crate::picture::heading::{put_brackets, put_columns, put_lanes};
use crate::picture::layout::Layout;
use crate::picture::layout::shapes::Note;
use crate::picture::mark::{Mark, put_marks};
use crate::picture::node::{put_ends, put_nodes, put_start};
use pam_codes::{Device, Out};
use pam_conf::Stack;
use pam_graph::Graph;
use std::io::Write;

/// Writes what comes before the description.
#[tactic(auto, unfolding(crate::specs::picture::Picture::opening_text))]
fn put_opening<W: Write>(title: &[u8], layout: &Layout, out: &mut Out<W>) -> Result<(), Device>
    ensures { Writes W.contents out.old out.new result (opening_text title.now layout.now) }
{
    put_marks(
        &[
            Mark::Plain(
                b"<svg xmlns=\"http://www.w3.org/2000/svg\" role=\"img\" aria-labelledby=\"title desc\" width=\"",
            ),
            Mark::Number(layout.width),
            Mark::Plain(b"\" height=\""),
            Mark::Number(layout.height),
            Mark::Plain(b"\" viewBox=\"0 0 "),
            Mark::Number(layout.width),
            Mark::Plain(b" "),
            Mark::Number(layout.height),
            Mark::Plain(b"\">\n<title id=\"title\">"),
            Mark::Escaped(title),
            Mark::Plain(b"</title>\n<desc id=\"desc\">"),
        ],
        out,
    )
}

/// Writes how the shapes look.
fn put_style<W: Write>(out: &mut Out<W>) -> Result<(), Device>
    ensures { Writes W.contents out.old out.new result style_text }
{
    out.put(
        b"</desc>\n<style>\n\
        text{font-family:sans-serif;font-size:12px;fill:#111}\
        .strong{font-weight:bold}.weak{fill:#444}.edge text{font-size:11px}\
        .paper{fill:#fff}.lane{stroke:#bbb}.guide{stroke:#ccc;stroke-dasharray:2 3}.bracket{fill:none;stroke:#444}\n\
        .edge path{fill:none;stroke:#111;stroke-width:1.5}\
        .undef,.negative,.success,.failure{fill:#fff;stroke:#111;stroke-width:2}\
        .positive,.arrow{fill:#111}.success{stroke-width:4}\n\
        .edge:hover path{stroke-width:3}\
        @media (prefers-color-scheme:dark){text{fill:#eee}.weak{fill:#bbb}\
        .paper{fill:#161616}.lane{stroke:#555}.guide{stroke:#444}.bracket{stroke:#bbb}.edge path{stroke:#eee}\n\
        .undef,.negative,.success,.failure{fill:#161616;stroke:#eee}.positive,.arrow{fill:#eee}}\n\
        </style>\n",
    )
}

/// Writes the background and the title.
#[tactic(auto, unfolding(crate::specs::picture::Picture::heading_text))]
fn put_heading<W: Write>(title: &[u8], layout: &Layout, out: &mut Out<W>) -> Result<(), Device>
    ensures { Writes W.contents out.old out.new result (heading_text title.now layout.now) }
{
    put_marks(
        &[
            Mark::Plain(b"<rect class=\"paper\" width=\""),
            Mark::Number(layout.width),
            Mark::Plain(b"\" height=\""),
            Mark::Number(layout.height),
            Mark::Plain(b"\"/>\n<text class=\"strong\" x=\"16\" y=\"26\">"),
            Mark::Escaped(title),
            Mark::Plain(b"</text>\n"),
        ],
        out,
    )
}

/// Writes how a picture is read.
#[tactic(auto, unfolding(crate::specs::picture::Picture::foot_text))]
fn put_foot<W: Write>(foot: usize, out: &mut Out<W>) -> Result<(), Device>
    ensures { Writes W.contents out.old out.new result (foot_text foot) }
{
    put_marks(
        &[
            Mark::Plain(b"<text class=\"weak\" x=\"16\" y=\""),
            Mark::Number(foot),
            Mark::Plain(
                b"\">Read from left to right. A line without a word: any answer. else: every other answer.</text>\n",
            ),
        ],
        out,
    )
}

/// Writes a note.
#[tactic(auto, unfolding(crate::specs::picture::Picture::note_text))]
fn put_note<W: Write>(note: Note, out: &mut Out<W>) -> Result<(), Device>
    ensures { Writes W.contents out.old out.new result (note_text note) }
{
    put_marks(
        &[
            Mark::Plain(b"<text class=\"weak\" x=\"16\" y=\""),
            Mark::Number(note.height),
            Mark::Plain(b"\">("),
            Mark::Number(note.number),
            Mark::Plain(b") "),
            Mark::Class(note.class),
            Mark::Plain(b"</text>\n"),
        ],
        out,
    )
}

fn put_each_note<W: Write>(notes: &[Note], out: &mut Out<W>) -> Result<(), Device>
    ensures { Writes W.contents out.old out.new result (flat_map note_text notes.now) }
{
    for note in notes {
        put_note(*note, out)?;
    }
    Ok(())
}

fn put_notes<W: Write>(layout: &Layout, out: &mut Out<W>) -> Result<(), Device>
    ensures { Writes W.contents out.old out.new result (notes_text layout.now) }
{
    put_each_note(&layout.notes, out)
}

/// Writes what comes before the drawing.
#[tactic(auto, unfolding(crate::specs::picture::Picture::description_text))]
fn put_description<W: Write>(
    title: &[u8],
    sheet: &Sheet<'_>,
    out: &mut Out<W>,
) -> Result<(), Device>
    ensures { Writes W.contents out.old out.new result
        (description_text title.now sheet.now.stack.now sheet.now.nodes.now sheet.now.layout.now) }
{
    put_opening(title, sheet.layout, out)?;
    put_sentences(sheet, out)?;
    put_style(out)?;
    put_heading(title, sheet.layout, out)
}

/// Writes the lanes and the columns.
#[tactic(auto, unfolding(crate::specs::picture::Picture::table_text))]
fn put_table<W: Write>(sheet: &Sheet<'_>, out: &mut Out<W>) -> Result<(), Device>
    ensures { Writes W.contents out.old out.new result (table_text sheet.now.stack.now sheet.now.nodes.now sheet.now.layout.now) }
{
    put_lanes(sheet.layout, out)?;
    put_columns(sheet, out)?;
    put_brackets(sheet.layout, out)
}

/// Writes the lines, and over their ends the shapes.
#[tactic(auto, unfolding(crate::specs::picture::Picture::shapes_text))]
fn put_shapes<W: Write>(sheet: &Sheet<'_>, graph: &Graph, out: &mut Out<W>) -> Result<(), Device>
    requires { sheet.now.nodes.now ≡ graph.now.nodes }
    ensures { Writes W.contents out.old out.new result (shapes_text sheet.now.stack.now graph.now sheet.now.layout.now) }
{
    put_edges(sheet, out)?;
    put_nodes(sheet, out)?;
    put_ends(sheet.layout, graph, out)?;
    put_start(sheet.layout, &graph.start(), out)
}

/// Writes what comes after the drawing.
#[tactic(auto, unfolding(crate::specs::picture::Picture::legend_text))]
fn put_legend<W: Write>(layout: &Layout, out: &mut Out<W>) -> Result<(), Device>
    ensures { Writes W.contents out.old out.new result (legend_text layout.now) }
{
    put_foot(layout.foot, out)?;
    put_notes(layout, out)?;
    out.put(b"</svg>\n")
}

/// Writes a graph as a picture in SVG, laid out as `layout` says. A node is named by the modules of `stack`.
#[tactic(auto, unfolding(crate::specs::picture::Picture::svg_text))]
pub fn write_svg<W: Write>(
    graph: &Graph,
    stack: &Stack,
    layout: &Layout,
    title: &[u8],
    out: &mut Out<W>,
) -> Result<(), Device>
    ensures { Writes W.contents out.old out.new result (svg_text title.now stack.now graph.now layout.now) }
{
    let sheet = Sheet {
        stack,
        nodes: graph.nodes(),
        layout,
    };
    put_description(title, &sheet, out)?;
    put_table(&sheet, out)?;
    put_shapes(&sheet, graph, out)?;
    put_legend(layout, out)
}
