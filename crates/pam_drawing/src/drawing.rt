//! Drawings of graphs.

ghost use Rattle.pam_codes.specs.Out.{Writes};
ghost use Rattle.pam_drawing.specs.Drawing.{drawing, first_lines, last_line, next_lines, shapes_text, start_and_edges, title_text};
ghost use Rattle.pam_drawing.specs.declared.format.Format.TheVariants.{Dot, Mermaid};

use crate::edge::{put_all_edges, put_ends, put_start};
use crate::format::Format;
use crate::label::put_label;
use crate::node::{put_columns, put_nodes};
use pam_codes::{Device, Out};
use pam_conf::Stack;
use pam_graph::Graph;
use std::io::Write;

fn put_first_lines<W: Write>(format: Format, out: &mut Out<W>) -> Result<(), Device>
    ensures { Writes W.contents out.old out.new result (first_lines format) }
{
    match format {
        Format::Dot => out.put(
            b"digraph pamcheck {\n\
            \x20 graph [rankdir=LR, newrank=true, ranksep=0.6, nodesep=0.25, \
            fontname=\"sans-serif\", labelloc=t, label=\"",
        ),
        Format::Mermaid => out.put(b"---\ntitle: \""),
    }
}

fn put_next_lines<W: Write>(format: Format, out: &mut Out<W>) -> Result<(), Device>
    ensures { Writes W.contents out.old out.new result (next_lines format) }
{
    match format {
        Format::Dot => out.put(
            b"\"];\n\
            \x20 node [fontname=\"sans-serif\", fontsize=11, height=0.2, margin=\"0.08,0.04\"];\n\
            \x20 edge [fontname=\"sans-serif\", fontsize=10, arrowsize=0.6];\n\
            \x20 start [shape=point];\n\
            \x20 c0 [shape=point, style=invis];\n",
        ),
        Format::Mermaid => out.put(
            b"\"\n\
            ---\n\
            flowchart LR\n\
            \x20 classDef undef stroke-dasharray:4 3\n\
            \x20 classDef positive stroke-width:1px\n\
            \x20 classDef negative stroke-width:3px\n\
            \x20 classDef success stroke-width:4px\n\
            \x20 start(( ))\n",
        ),
    }
}

/// Writes what comes before the nodes.
#[tactic(auto, unfolding(crate::specs::Drawing::title_text))]
fn put_title<W: Write>(format: Format, title: &[u8], out: &mut Out<W>) -> Result<(), Device>
    ensures { Writes W.contents out.old out.new result (title_text format title.now) }
{
    put_first_lines(format, out)?;
    put_label(format, title, out)?;
    put_next_lines(format, out)
}

fn put_last_line<W: Write>(format: Format, out: &mut Out<W>) -> Result<(), Device>
    ensures { Writes W.contents out.old out.new result (last_line format) }
{
    match format {
        Format::Dot => out.put(b"}\n"),
        Format::Mermaid => out.put(b""),
    }
}

/// Writes the nodes, after their columns, and then the ends.
#[tactic(auto, unfolding(crate::specs::Drawing::shapes_text))]
fn put_shapes<W: Write>(
    format: Format,
    graph: &Graph,
    stack: &Stack,
    out: &mut Out<W>,
) -> Result<(), Device>
    ensures { Writes W.contents out.old out.new result (shapes_text format stack.now graph.now) }
{
    put_columns(format, stack, out)?;
    put_nodes(format, stack, graph.nodes(), out)?;
    put_ends(format, graph, out)
}

/// Writes the edges; the first of them comes from the start.
#[tactic(auto, unfolding(crate::specs::Drawing::start_and_edges))]
fn put_start_and_edges<W: Write>(
    format: Format,
    graph: &Graph,
    out: &mut Out<W>,
) -> Result<(), Device>
    ensures { Writes W.contents out.old out.new result (start_and_edges format graph.now) }
{
    put_start(format, graph.start(), out)?;
    put_all_edges(format, graph.nodes(), out)
}

#[tactic(auto, unfolding(crate::specs::Drawing::drawing))]
fn put_drawing<W: Write>(
    format: Format,
    graph: &Graph,
    stack: &Stack,
    title: &[u8],
    out: &mut Out<W>,
) -> Result<(), Device>
    ensures { Writes W.contents out.old out.new result (drawing format title.now stack.now graph.now) }
{
    put_title(format, title, out)?;
    put_shapes(format, graph, stack, out)?;
    put_start_and_edges(format, graph, out)?;
    put_last_line(format, out)
}

/// Writes a graph in DOT, the language of Graphviz. A node is named by the modules of `stack`.
pub fn write_dot<W: Write>(
    graph: &Graph,
    stack: &Stack,
    title: &[u8],
    out: &mut Out<W>,
) -> Result<(), Device>
    ensures { Writes W.contents out.old out.new result (drawing Dot title.now stack.now graph.now) }
{
    put_drawing(Format::Dot, graph, stack, title, out)
}

/// Writes a graph as a flowchart of Mermaid. A node is named by the modules of `stack`.
pub fn write_mermaid<W: Write>(
    graph: &Graph,
    stack: &Stack,
    title: &[u8],
    out: &mut Out<W>,
) -> Result<(), Device>
    ensures { Writes W.contents out.old out.new result (drawing Mermaid title.now stack.now graph.now) }
{
    put_drawing(Format::Mermaid, graph, stack, title, out)
}
