//! The edges of a picture.

ghost use Rattle.std.specs.List.{enumerate_from, flat_map};
ghost use Rattle.pam_codes.specs.Out.{Writes};
ghost use Rattle.pam_drawing.specs.Drawing.{drawn_nodes};
ghost use Rattle.pam_drawing.specs.picture.Picture.{edge_text, edges_text, node_edges, node_sentences, sentence_text, sentences_text};

use crate::picture::layout::Layout;
use crate::picture::mark::{Mark, put_marks};
use crate::picture::node::is_forked;
use crate::picture::place::{point_at, point_of, route_at};
use crate::picture::stop::{stop_at, stop_of};
use pam_codes::{Device, Out};
use pam_conf::Stack;
use pam_graph::{Edge, Node};
use std::io::Write;

/// What a picture is written from.
#[derive(Clone, Copy)]
pub(crate) struct Sheet<'a> {
    pub stack: &'a Stack,
    pub nodes: &'a [Node],
    pub layout: &'a Layout,
}

/// Writes by which answers an edge leads from a node, and to where.
#[tactic(auto, unfolding(crate::specs::picture::Picture::sentence_text))]
fn put_sentence<W: Write>(
    sheet: &Sheet<'_>,
    node: &Node,
    edge: &Edge,
    out: &mut Out<W>,
) -> Result<(), Device>
    ensures { Writes W.contents out.old out.new result (sentence_text sheet.now.stack.now sheet.now.nodes.now node.now edge.now) }
{
    put_marks(
        &[
            Mark::Stop(stop_at(sheet.stack, node)),
            Mark::Plain(b": "),
            Mark::Class(edge.class),
            Mark::Plain(b" to "),
            Mark::Stop(stop_of(sheet.stack, sheet.nodes, edge.target)),
            Mark::Plain(b".\n"),
        ],
        out,
    )
}

fn put_sentences_of<W: Write>(
    sheet: &Sheet<'_>,
    node: &Node,
    edges: &[Edge],
    out: &mut Out<W>,
) -> Result<(), Device>
    ensures { Writes W.contents out.old out.new result
        (flat_map (sentence_text sheet.now.stack.now sheet.now.nodes.now node.now) edges.now) }
{
    for edge in edges {
        put_sentence(sheet, node, edge, out)?;
    }
    Ok(())
}

/// Writes the sentences of the edges of a node.
fn put_node_sentences<W: Write>(
    sheet: &Sheet<'_>,
    node: &Node,
    out: &mut Out<W>,
) -> Result<(), Device>
    ensures { Writes W.contents out.old out.new result (node_sentences sheet.now.stack.now sheet.now.nodes.now node.now) }
{
    put_sentences_of(sheet, node, &node.edges, out)
}

fn put_each_sentence<W: Write>(
    sheet: &Sheet<'_>,
    nodes: &[Node],
    out: &mut Out<W>,
) -> Result<(), Device>
    ensures { Writes W.contents out.old out.new result
        (flat_map (node_sentences sheet.now.stack.now sheet.now.nodes.now) nodes.now) }
{
    for node in nodes {
        put_node_sentences(sheet, node, out)?;
    }
    Ok(())
}

/// Writes a sentence for each edge.
pub(crate) fn put_sentences<W: Write>(sheet: &Sheet<'_>, out: &mut Out<W>) -> Result<(), Device>
    ensures { Writes W.contents out.old out.new result (sentences_text sheet.now.stack.now sheet.now.nodes.now) }
{
    put_each_sentence(sheet, sheet.nodes, out)
}

/// An edge of a node, with the indices of both.
#[derive(Clone, Copy)]
struct EdgeOf<'a> {
    index: usize,
    node: &'a Node,
    position: usize,
    edge: &'a Edge,
}

#[tactic(auto, unfolding(crate::specs::picture::Picture::edge_text))]
fn put_edge<W: Write>(sheet: &Sheet<'_>, of: &EdgeOf<'_>, out: &mut Out<W>) -> Result<(), Device>
    ensures { Writes W.contents out.old out.new result
        (edge_text sheet.now.stack.now sheet.now.nodes.now sheet.now.layout.now (of.now.index, of.now.node.now) (of.now.position, of.now.edge.now)) }
{
    let start = point_at(sheet.layout, of.index);
    let end = point_of(sheet.layout, of.edge.target);
    let route = route_at(sheet.layout, of.index, of.position);
    let marks = [
        Mark::Plain(b"<g class=\"edge\" data-from=\"n"),
        Mark::Number(of.index),
        Mark::Plain(b"\" data-to=\""),
        Mark::Id(of.edge.target),
        Mark::Plain(b"\"><title>"),
        Mark::Stop(stop_at(sheet.stack, of.node)),
        Mark::Plain(b": "),
        Mark::Class(of.edge.class),
        Mark::Plain(b" to "),
        Mark::Stop(stop_of(sheet.stack, sheet.nodes, of.edge.target)),
        Mark::Plain(b"</title><path d=\"M"),
        Mark::Number(start.x),
        Mark::Plain(b" "),
        Mark::Number(start.y),
        Mark::Bend(start.y, route.fan),
        Mark::Bend(route.fan.height, route.turn),
        Mark::Bend(route.turn.height, route.landing),
        Mark::Plain(b"L"),
        Mark::Number(end.x),
        Mark::Plain(b" "),
        Mark::Number(end.y),
        Mark::Plain(b"\"/><text x=\""),
        Mark::Number(route.fan.to),
        Mark::Plain(b"\" y=\""),
        Mark::Number(route.fan.height),
        Mark::Plain(b"\" dx=\"3\" dy=\"-3\">"),
        Mark::Label(is_forked(of.node), of.edge.class, route.note),
        Mark::Plain(b"</text></g>\n"),
    ];
    put_marks(&marks, out)
}

fn put_edges_of<W: Write>(
    sheet: &Sheet<'_>,
    index: usize,
    node: &Node,
    edges: &[Edge],
    out: &mut Out<W>,
) -> Result<(), Device>
    ensures { Writes W.contents out.old out.new result
        (flat_map (edge_text sheet.now.stack.now sheet.now.nodes.now sheet.now.layout.now (index, node.now)) (enumerate_from 0 edges.now)) }
{
    for (position, edge) in edges.iter().enumerate() {
        let of = EdgeOf {
            index,
            node,
            position,
            edge,
        };
        put_edge(sheet, &of, out)?;
    }
    Ok(())
}

/// Writes the edges of a node.
fn put_node_edges<W: Write>(
    sheet: &Sheet<'_>,
    index: usize,
    node: &Node,
    out: &mut Out<W>,
) -> Result<(), Device>
    ensures { Writes W.contents out.old out.new result
        (node_edges sheet.now.stack.now sheet.now.nodes.now sheet.now.layout.now (index, node.now)) }
{
    put_edges_of(sheet, index, node, &node.edges, out)
}

fn put_each_edge<W: Write>(
    sheet: &Sheet<'_>,
    nodes: &[Node],
    out: &mut Out<W>,
) -> Result<(), Device>
    ensures { Writes W.contents out.old out.new result
        (flat_map (node_edges sheet.now.stack.now sheet.now.nodes.now sheet.now.layout.now) (drawn_nodes nodes.now)) }
{
    for (index, node) in nodes.iter().enumerate() {
        put_node_edges(sheet, index, node, out)?;
    }
    Ok(())
}

/// Writes all edges.
pub(crate) fn put_edges<W: Write>(sheet: &Sheet<'_>, out: &mut Out<W>) -> Result<(), Device>
    ensures { Writes W.contents out.old out.new result (edges_text sheet.now.stack.now sheet.now.nodes.now sheet.now.layout.now) }
{
    put_each_edge(sheet, sheet.nodes, out)
}
