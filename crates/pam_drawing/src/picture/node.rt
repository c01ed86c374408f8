//! The nodes and ends of a picture.

ghost use Rattle.std.specs.Prelude.{◌≡◌, ◌<◌, ◌==◌};
ghost use Rattle.std.specs.List.{flat_map};
ghost use Rattle.pam_codes.specs.Code.{all_codes};
ghost use Rattle.pam_codes.specs.Out.{Writes};
ghost use Rattle.pam_drawing.specs.Drawing.{drawn_nodes};
ghost use Rattle.pam_codes.specs.declared.code.TheConstants.{CODES};
ghost use Rattle.pam_drawing.specs.picture.Picture.{box_opening, end_if_drawn, end_text, ends_text, is_forked, node_shape, node_text, nodes_text, start_text};

use crate::picture::edge::Sheet;
use crate::picture::layout::Layout;
use crate::picture::mark::{Mark, put_marks};
use crate::picture::place::{end_at, point_at, point_of};
use crate::picture::stop::stop_at;
use crate::{drawn_ends, impression_name, name_of};
use pam_codes::{CODES, Code, CodeSet, Device, Out};
use pam_dispatch::Impression;
use pam_graph::{Graph, Node, Target};
use std::io::Write;

/// Whether answers at a node lead to different places.
pub(crate) fn is_forked(node: &Node) -> bool
    ensures { result ≡ is_forked node.now }
{
    node.edges.len() > 1
}

/// Returns the shape of a node in a state with this impression; a small one if all answers lead to one place.
fn node_shape(impression: Impression, forked: bool) -> &'static [u8]
    ensures { result.now ≡ node_shape impression forked }
{
    match (impression, forked) {
        (Impression::Undef | Impression::Positive, true) => b"<circle r=\"6\"/>",
        (Impression::Undef | Impression::Positive, false) => b"<circle r=\"3\"/>",
        (Impression::Negative, true) => b"<path d=\"M-6-6h12v12h-12z\"/>",
        (Impression::Negative, false) => b"<path d=\"M-3-3h6v6h-6z\"/>",
    }
}

/// Writes a node with its index in the graph.
#[tactic(auto, unfolding(crate::specs::picture::Picture::node_text))]
fn put_node<W: Write>(
    sheet: &Sheet<'_>,
    index: usize,
    node: &Node,
    out: &mut Out<W>,
) -> Result<(), Device>
    ensures { Writes W.contents out.old out.new result (node_text sheet.now.stack.now sheet.now.layout.now (index, node.now)) }
{
    let point = point_at(sheet.layout, index);
    put_marks(
        &[
            Mark::Plain(b"<g id=\"n"),
            Mark::Number(index),
            Mark::Plain(b"\" class=\""),
            Mark::Plain(impression_name(node.state.impression)),
            Mark::Plain(b"\" transform=\"translate("),
            Mark::Number(point.x),
            Mark::Plain(b" "),
            Mark::Number(point.y),
            Mark::Plain(b")\"><title>"),
            Mark::Stop(stop_at(sheet.stack, node)),
            Mark::Plain(b"</title>"),
            Mark::Plain(node_shape(node.state.impression, is_forked(node))),
            Mark::Plain(b"</g>\n"),
        ],
        out,
    )
}

fn put_each_node<W: Write>(
    sheet: &Sheet<'_>,
    nodes: &[Node],
    out: &mut Out<W>,
) -> Result<(), Device>
    ensures { Writes W.contents out.old out.new result
        (flat_map (node_text sheet.now.stack.now sheet.now.layout.now) (drawn_nodes nodes.now)) }
{
    for (index, node) in nodes.iter().enumerate() {
        put_node(sheet, index, node, out)?;
    }
    Ok(())
}

/// Writes all nodes.
pub(crate) fn put_nodes<W: Write>(sheet: &Sheet<'_>, out: &mut Out<W>) -> Result<(), Device>
    ensures { Writes W.contents out.old out.new result (nodes_text sheet.now.stack.now sheet.now.nodes.now sheet.now.layout.now) }
{
    put_each_node(sheet, sheet.nodes, out)
}

/// Returns what the shape of a decision begins with, up to its width: success is round, and no other is.
fn box_opening(decision: Code) -> &'static [u8]
    ensures { result.now ≡ box_opening decision }
{
    if decision == Code::SUCCESS {
        b"<rect class=\"success\" x=\"12\" y=\"-13\" height=\"26\" rx=\"13\" width=\""
    } else {
        b"<rect class=\"failure\" x=\"12\" y=\"-11\" height=\"22\" width=\""
    }
}

/// Writes an end.
#[tactic(auto, unfolding(crate::specs::picture::Picture::end_text))]
fn put_end<W: Write>(layout: &Layout, decision: Code, out: &mut Out<W>) -> Result<(), Device>
    ensures { Writes W.contents out.old out.new result (end_text layout.now decision) }
{
    let end = end_at(layout, decision);
    put_marks(
        &[
            Mark::Plain(b"<g id=\"d"),
            Mark::Number(usize::from(decision.number())),
            Mark::Plain(b"\" transform=\"translate("),
            Mark::Number(end.point.x),
            Mark::Plain(b" "),
            Mark::Number(end.point.y),
            Mark::Plain(b")\"><path class=\"arrow\" d=\"M0-1h4v-3l8 4l-8 4v-3h-4z\"/>"),
            Mark::Plain(box_opening(decision)),
            Mark::Number(end.width),
            Mark::Plain(b"\"/><text class=\"strong\" x=\"24\" y=\"4\">"),
            Mark::Plain(name_of(decision)),
            Mark::Plain(b"</text></g>\n"),
        ],
        out,
    )
}

/// Returns the code of this number.
fn code_numbered(number: usize) -> Code
    requires { number < CODES }
    ensures { result ≡ number }
{
    Code::new(number as u8).unwrap()
}

#[tactic(auto, unfolding(crate::specs::picture::Picture::end_if_drawn))]
fn put_end_if_drawn<W: Write>(
    layout: &Layout,
    drawn: CodeSet,
    code: Code,
    out: &mut Out<W>,
) -> Result<(), Device>
    ensures { Writes W.contents out.old out.new result (end_if_drawn layout.now drawn code) }
{
    if drawn.contains(code) {
        return put_end(layout, code, out);
    }
    Ok(())
}

fn put_each_end<W: Write>(layout: &Layout, drawn: CodeSet, out: &mut Out<W>) -> Result<(), Device>
    ensures { Writes W.contents out.old out.new result (flat_map (end_if_drawn layout.now drawn) all_codes) }
{
    for number in 0..CODES {
        put_end_if_drawn(layout, drawn, code_numbered(number), out)?;
    }
    Ok(())
}

/// Writes the decisions to which edges lead.
pub(crate) fn put_ends<W: Write>(
    layout: &Layout,
    graph: &Graph,
    out: &mut Out<W>,
) -> Result<(), Device>
    ensures { Writes W.contents out.old out.new result (ends_text layout.now graph.now) }
{
    put_each_end(layout, drawn_ends(graph), out)
}

/// Writes where a run begins.
#[tactic(auto, unfolding(crate::specs::picture::Picture::start_text))]
pub(crate) fn put_start<W: Write>(
    layout: &Layout,
    start: &Target,
    out: &mut Out<W>,
) -> Result<(), Device>
    ensures { Writes W.contents out.old out.new result (start_text layout.now start.now) }
{
    let point = point_of(layout, *start);
    put_marks(
        &[
            Mark::Plain(b"<path id=\"start\" class=\"arrow\" data-to=\""),
            Mark::Id(*start),
            Mark::Plain(b"\" d=\"M"),
            Mark::Number(point.x),
            Mark::Plain(b" "),
            Mark::Number(point.y),
            Mark::Plain(b"m-8 0l-8-4v8z\"/>\n"),
        ],
        out,
    )
}
