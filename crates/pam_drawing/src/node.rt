//! The nodes of a drawing.

ghost use Rattle.std.specs.Prelude.{◌≡◌, ◌<◌, ◌≤◌};
ghost use Rattle.std.specs.List.{flat_map, range_with_len};
ghost use Rattle.pam_codes.specs.Out.{Writes};
ghost use Rattle.pam_codes.specs.SetText.{name_of};
ghost use Rattle.pam_conf.specs.declared.stack.TheConstants.{MAX_MODULES};
ghost use Rattle.pam_drawing.specs.Drawing.{column_text, columns_text, dot_closing, drawn_nodes, impression_name, mermaid_closing};
ghost use Rattle.pam_drawing.specs.Labels.{label};
ghost use Rattle.pam_drawing.specs.Drawing.{name_at, node_closing, node_id, node_label, node_opening, node_style, node_text, rank_text, row_end, state_text};

use crate::format::Format;
use crate::label::put_label;
use pam_codes::{Code, Device, Out, Piece};
use pam_conf::Stack;
use pam_dispatch::{Impression, State};
use pam_facts::known::name_of_path;
use pam_graph::Node;
use std::io::Write;

/// Returns the name of an impression.
pub fn impression_name(impression: Impression) -> &'static [u8]
    ensures { result.now ≡ impression_name impression }
{
    match impression {
        Impression::Undef => b"undef",
        Impression::Positive => b"positive",
        Impression::Negative => b"negative",
    }
}

/// Returns the name of a code.
pub fn name_of(code: Code) -> &'static [u8]
    ensures { result.now ≡ name_of code }
{
    code.name().as_bytes()
}

/// Writes `IMPRESSION STATUS`.
#[tactic(auto, unfolding(crate::specs::Drawing::state_text))]
fn put_state<W: Write>(state: State, out: &mut Out<W>) -> Result<(), Device>
    ensures { Writes W.contents out.old out.new result (state_text state) }
{
    out.put_line(&[
        Piece::Bytes(impression_name(state.impression)),
        Piece::Bytes(b" "),
        Piece::Bytes(name_of(state.status)),
    ])
}

/// Returns the name of the file of a module, by number.
#[tactic(auto, unfolding(crate::specs::Drawing::name_at))]
pub fn name_at(stack: &Stack, number: usize) -> &[u8]
    ensures { result.now ≡ name_at stack.now number }
{
    match stack.module(number) {
        Some(module) => name_of_path(module.path.as_slice()),
        None => name_of_path(b""),
    }
}

fn put_name<W: Write>(
    format: Format,
    stack: &Stack,
    number: usize,
    out: &mut Out<W>,
) -> Result<(), Device>
    ensures { Writes W.contents out.old out.new result (label format (name_at stack.now number)) }
{
    put_label(format, name_at(stack, number), out)
}

fn put_row_end<W: Write>(format: Format, out: &mut Out<W>) -> Result<(), Device>
    ensures { Writes W.contents out.old out.new result (row_end format) }
{
    match format {
        Format::Dot => out.put(b"\\n"),
        Format::Mermaid => out.put(b"<br/>"),
    }
}

/// Writes the two rows of a node.
#[tactic(auto, unfolding(crate::specs::Drawing::node_label))]
fn put_node_label<W: Write>(
    format: Format,
    stack: &Stack,
    node: &Node,
    out: &mut Out<W>,
) -> Result<(), Device>
    ensures { Writes W.contents out.old out.new result (node_label format stack.now node.now) }
{
    out.put_number(node.module_number as u64)?;
    out.put(b" ")?;
    put_name(format, stack, node.module_number, out)?;
    put_row_end(format, out)?;
    put_state(node.state, out)
}

fn put_node_opening<W: Write>(
    format: Format,
    impression: Impression,
    out: &mut Out<W>,
) -> Result<(), Device>
    ensures { Writes W.contents out.old out.new result (node_opening format impression) }
{
    match (format, impression) {
        (Format::Dot, _) => out.put(b" [label=\""),
        (Format::Mermaid, Impression::Undef | Impression::Negative) => out.put(b"[\""),
        (Format::Mermaid, Impression::Positive) => out.put(b"(\""),
    }
}

fn put_node_style<W: Write>(impression: Impression, out: &mut Out<W>) -> Result<(), Device>
    ensures { Writes W.contents out.old out.new result (node_style impression) }
{
    match impression {
        Impression::Undef => out.put(b"\", shape=box, style=dashed, group=\""),
        Impression::Positive => out.put(b"\", shape=box, style=rounded, group=\""),
        Impression::Negative => out.put(b"\", shape=box, style=bold, group=\""),
    }
}

/// Writes what comes after the label of a node in DOT.
#[tactic(auto, unfolding(crate::specs::Drawing::dot_closing))]
fn put_dot_closing<W: Write>(state: State, out: &mut Out<W>) -> Result<(), Device>
    ensures { Writes W.contents out.old out.new result (dot_closing state) }
{
    put_node_style(state.impression, out)?;
    put_state(state, out)?;
    out.put(b"\"];\n")
}

fn put_mermaid_closing<W: Write>(impression: Impression, out: &mut Out<W>) -> Result<(), Device>
    ensures { Writes W.contents out.old out.new result (mermaid_closing impression) }
{
    match impression {
        Impression::Undef => out.put(b"\"]:::undef\n"),
        Impression::Positive => out.put(b"\"):::positive\n"),
        Impression::Negative => out.put(b"\"]:::negative\n"),
    }
}

/// Writes what comes after the label of a node.
fn put_node_closing<W: Write>(format: Format, state: State, out: &mut Out<W>) -> Result<(), Device>
    ensures { Writes W.contents out.old out.new result (node_closing format state) }
{
    match format {
        Format::Dot => put_dot_closing(state, out),
        Format::Mermaid => put_mermaid_closing(state.impression, out),
    }
}

/// Writes `nINDEX` at the beginning of a line.
#[tactic(auto, unfolding(crate::specs::Drawing::node_id))]
pub(crate) fn put_node_id<W: Write>(index: usize, out: &mut Out<W>) -> Result<(), Device>
    ensures { Writes W.contents out.old out.new result (node_id index) }
{
    out.put_line(&[Piece::Bytes(b"  n"), Piece::Number(index as u64)])
}

/// Writes in which column a node is, for Graphviz.
#[tactic(auto, unfolding(crate::specs::Drawing::rank_text))]
fn put_rank<W: Write>(
    format: Format,
    index: usize,
    number: usize,
    out: &mut Out<W>,
) -> Result<(), Device>
    ensures { Writes W.contents out.old out.new result (rank_text format index number) }
{
    match format {
        Format::Dot => {
            out.put_line(&[
                Piece::Bytes(b"  { rank=same c"),
                Piece::Number(number as u64),
                Piece::Bytes(b" n"),
                Piece::Number(index as u64),
                Piece::Bytes(b" }\n"),
            ])
        }
        Format::Mermaid => out.put(b""),
    }
}

/// Writes a node with its index in the graph.
#[tactic(auto, unfolding(crate::specs::Drawing::node_text))]
fn put_node<W: Write>(
    format: Format,
    stack: &Stack,
    index: usize,
    node: &Node,
    out: &mut Out<W>,
) -> Result<(), Device>
    ensures { Writes W.contents out.old out.new result (node_text format stack.now (index, node.now)) }
{
    put_node_id(index, out)?;
    put_node_opening(format, node.state.impression, out)?;
    put_node_label(format, stack, node, out)?;
    put_node_closing(format, node.state, out)?;
    put_rank(format, index, node.module_number, out)
}

/// Writes all nodes.
pub(crate) fn put_nodes<W: Write>(
    format: Format,
    stack: &Stack,
    nodes: &[Node],
    out: &mut Out<W>,
) -> Result<(), Device>
    ensures { Writes W.contents out.old out.new result (flat_map (node_text format stack.now) (drawn_nodes nodes.now)) }
{
    for (index, node) in nodes.iter().enumerate() {
        put_node(format, stack, index, node, out)?;
    }
    Ok(())
}

/// Writes the column after the one with this number.
#[tactic(auto, unfolding(crate::specs::Drawing::column_text))]
fn put_column<W: Write>(number: usize, out: &mut Out<W>) -> Result<(), Device>
    requires { number < MAX_MODULES }
    ensures { Writes W.contents out.old out.new result (column_text number) }
{
    let next = Piece::Number(number as u64 + 1);
    out.put_line(&[
        Piece::Bytes(b"  c"),
        next,
        Piece::Bytes(b" [shape=point, style=invis];\n  c"),
        Piece::Number(number as u64),
        Piece::Bytes(b" -> c"),
        next,
        Piece::Bytes(b" [style=invis];\n"),
    ])
}

fn put_each_column<W: Write>(count: usize, out: &mut Out<W>) -> Result<(), Device>
    requires { count ≤ MAX_MODULES }
    ensures { Writes W.contents out.old out.new result (flat_map column_text (range_with_len 0 count)) }
{
    for number in 0..count {
        put_column(number, out)?;
    }
    Ok(())
}

/// Writes the columns of a stack, for Graphviz.
#[tactic(auto, unfolding(crate::specs::Drawing::columns_text))]
pub(crate) fn put_columns<W: Write>(
    format: Format,
    stack: &Stack,
    out: &mut Out<W>,
) -> Result<(), Device>
    ensures { Writes W.contents out.old out.new result (columns_text format stack.now) }
{
    match format {
        Format::Dot => put_each_column(stack.modules(), out),
        Format::Mermaid => out.put(b""),
    }
}
