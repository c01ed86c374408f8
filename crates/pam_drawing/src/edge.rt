//! The edges and ends of a drawing.

ghost use Rattle.std.specs.Prelude.{◌≡◌, ◌<◌, ◌==◌};
ghost use Rattle.std.specs.List.{flat_map, list_any};
ghost use Rattle.pam_codes.specs.Code.{all_codes};
ghost use Rattle.pam_codes.specs.Out.{Writes};
ghost use Rattle.pam_codes.specs.Set.{codes_where};
ghost use Rattle.pam_codes.specs.declared.code.TheConstants.{CODES};
ghost use Rattle.pam_drawing.specs.Drawing.{class_between, class_text, dot_edge, dot_failure, drawn_ends, drawn_nodes, edge_text, end_if_drawn};
ghost use Rattle.pam_drawing.specs.Drawing.{end_text, ends_closing, ends_opening, ends_text, failure_text, is_end, leads_to, line_closing};
ghost use Rattle.pam_drawing.specs.Drawing.{mermaid_edge, mermaid_failure, node_edges, start_opening, start_text, success_text, target_text};

use crate::format::Format;
use crate::node::{name_of, put_node_id};
use pam_codes::{CODES, Code, CodeSet, Device, Out, Piece};
use pam_graph::{Edge, Graph, Node, Target};
use std::io::Write;

/// Returns the end that a target is, as a set; empty for a node.
fn end_of(target: Target) -> CodeSet
    ensures { result ≡ codes_where (λ code. is_end code target) }
{
    match target {
        Target::At(_) => CodeSet::empty(),
        Target::End(decision) => end_at(decision),
    }
}

fn end_at(decision: Code) -> CodeSet
    ensures { result ≡ codes_where (λ code. decision == code) }
{
    let mut end = CodeSet::empty();
    end.insert(decision);
    end
}

/// Returns the ends to which edges lead.
fn ends_of_edges(edges: &[Edge]) -> CodeSet
    ensures { result ≡ codes_where (λ code. list_any (λ (edge : Edge). is_end code edge.target) edges.now) }
{
    let mut ends = CodeSet::empty();
    for edge in edges {
        ends = ends.union(end_of(edge.target));
    }
    ends
}

fn ends_of_node(node: &Node) -> CodeSet
    ensures { result ≡ codes_where (λ code. leads_to code node.now) }
{
    ends_of_edges(&node.edges)
}

/// Returns the ends to which the edges of nodes lead.
fn ends_of_nodes(nodes: &[Node]) -> CodeSet
    ensures { result ≡ codes_where (λ code. list_any (leads_to code) nodes.now) }
{
    let mut ends = CodeSet::empty();
    for node in nodes {
        ends = ends.union(ends_of_node(node));
    }
    ends
}

/// Returns the ends to which runs come.
pub fn drawn_ends(graph: &Graph) -> CodeSet
    ensures { result ≡ drawn_ends graph.now }
{
    end_of(graph.start()).union(ends_of_nodes(graph.nodes()))
}

fn put_success_text<W: Write>(format: Format, out: &mut Out<W>) -> Result<(), Device>
    ensures { Writes W.contents out.old out.new result (success_text format) }
{
    match format {
        Format::Dot => out.put(
            b"  d0 [label=\"success\", shape=ellipse, peripheries=2, group=\"positive success\"];\n",
        ),
        Format::Mermaid => out.put(b"  d0([\"success\"]):::success\n"),
    }
}

#[tactic(auto, unfolding(crate::specs::Drawing::dot_failure))]
fn put_dot_failure<W: Write>(code: Code, out: &mut Out<W>) -> Result<(), Device>
    ensures { Writes W.contents out.old out.new result (dot_failure code) }
{
    let name = name_of(code);
    out.put_line(&[
        Piece::Bytes(b"  d"),
        Piece::Number(u64::from(code.number())),
        Piece::Bytes(b" [label=\""),
        Piece::Bytes(name),
        Piece::Bytes(b"\", shape=octagon, group=\"negative "),
        Piece::Bytes(name),
        Piece::Bytes(b"\"];\n"),
    ])
}

#[tactic(auto, unfolding(crate::specs::Drawing::mermaid_failure))]
fn put_mermaid_failure<W: Write>(code: Code, out: &mut Out<W>) -> Result<(), Device>
    ensures { Writes W.contents out.old out.new result (mermaid_failure code) }
{
    out.put_line(&[
        Piece::Bytes(b"  d"),
        Piece::Number(u64::from(code.number())),
        Piece::Bytes(b"{{\""),
        Piece::Bytes(name_of(code)),
        Piece::Bytes(b"\"}}\n"),
    ])
}

/// Writes a decision other than success.
fn put_failure<W: Write>(format: Format, code: Code, out: &mut Out<W>) -> Result<(), Device>
    ensures { Writes W.contents out.old out.new result (failure_text format code) }
{
    match format {
        Format::Dot => put_dot_failure(code, out),
        Format::Mermaid => put_mermaid_failure(code, out),
    }
}

/// Writes an end.
#[tactic(auto, unfolding(crate::specs::Drawing::end_text))]
fn put_end<W: Write>(format: Format, code: Code, out: &mut Out<W>) -> Result<(), Device>
    ensures { Writes W.contents out.old out.new result (end_text format code) }
{
    if code == Code::SUCCESS {
        return put_success_text(format, out);
    }
    put_failure(format, code, out)
}

/// Returns the code of this number.
fn code_numbered(number: usize) -> Code
    requires { number < CODES }
    ensures { result ≡ number }
{
    Code::new(number as u8).unwrap()
}

#[tactic(auto, unfolding(crate::specs::Drawing::end_if_drawn))]
fn put_end_if_drawn<W: Write>(
    format: Format,
    drawn: CodeSet,
    code: Code,
    out: &mut Out<W>,
) -> Result<(), Device>
    ensures { Writes W.contents out.old out.new result (end_if_drawn format drawn code) }
{
    if drawn.contains(code) {
        return put_end(format, code, out);
    }
    Ok(())
}

fn put_each_end<W: Write>(format: Format, drawn: CodeSet, out: &mut Out<W>) -> Result<(), Device>
    ensures { Writes W.contents out.old out.new result (flat_map (end_if_drawn format drawn) all_codes) }
{
    for number in 0..CODES {
        put_end_if_drawn(format, drawn, code_numbered(number), out)?;
    }
    Ok(())
}

fn put_ends_opening<W: Write>(format: Format, out: &mut Out<W>) -> Result<(), Device>
    ensures { Writes W.contents out.old out.new result (ends_opening format) }
{
    match format {
        Format::Dot => out.put(b"  { rank=sink\n"),
        Format::Mermaid => out.put(b""),
    }
}

fn put_ends_closing<W: Write>(format: Format, out: &mut Out<W>) -> Result<(), Device>
    ensures { Writes W.contents out.old out.new result (ends_closing format) }
{
    match format {
        Format::Dot => out.put(b"  }\n"),
        Format::Mermaid => out.put(b""),
    }
}

/// Writes the ends to which runs come.
#[tactic(auto, unfolding(crate::specs::Drawing::ends_text))]
pub(crate) fn put_ends<W: Write>(
    format: Format,
    graph: &Graph,
    out: &mut Out<W>,
) -> Result<(), Device>
    ensures { Writes W.contents out.old out.new result (ends_text format graph.now) }
{
    put_ends_opening(format, out)?;
    put_each_end(format, drawn_ends(graph), out)?;
    put_ends_closing(format, out)
}

/// Writes the id of the shape of a target. Returns `Device` if the writer fails.
pub fn put_target<W: Write>(target: Target, out: &mut Out<W>) -> Result<(), Device>
    ensures { Writes W.contents out.old out.new result (target_text target) }
{
    match target {
        Target::At(index) => out.put_line(&[Piece::Bytes(b"n"), Piece::Number(u64::from(index))]),
        Target::End(decision) => {
            out.put_line(&[
                Piece::Bytes(b"d"),
                Piece::Number(u64::from(decision.number())),
            ])
        }
    }
}

fn put_start_opening<W: Write>(format: Format, out: &mut Out<W>) -> Result<(), Device>
    ensures { Writes W.contents out.old out.new result (start_opening format) }
{
    match format {
        Format::Dot => out.put(b"  start -> "),
        Format::Mermaid => out.put(b"  start --> "),
    }
}

fn put_line_closing<W: Write>(format: Format, out: &mut Out<W>) -> Result<(), Device>
    ensures { Writes W.contents out.old out.new result (line_closing format) }
{
    match format {
        Format::Dot => out.put(b";\n"),
        Format::Mermaid => out.put(b"\n"),
    }
}

/// Writes where a run begins.
#[tactic(auto, unfolding(crate::specs::Drawing::start_text))]
pub(crate) fn put_start<W: Write>(
    format: Format,
    start: Target,
    out: &mut Out<W>,
) -> Result<(), Device>
    ensures { Writes W.contents out.old out.new result (start_text format start) }
{
    put_start_opening(format, out)?;
    put_target(start, out)?;
    put_line_closing(format, out)
}

#[tactic(auto, unfolding(crate::specs::Drawing::class_between))]
fn put_class_between<W: Write>(
    before: &[u8],
    class: CodeSet,
    after: &[u8],
    out: &mut Out<W>,
) -> Result<(), Device>
    ensures { Writes W.contents out.old out.new result (class_between before.now class after.now) }
{
    out.put(before)?;
    class.write_text(out)?;
    out.put(after)
}

/// Writes a class between two texts; nothing for every answer.
#[tactic(auto, unfolding(crate::specs::Drawing::class_text))]
fn put_class<W: Write>(
    before: &[u8],
    class: CodeSet,
    after: &[u8],
    out: &mut Out<W>,
) -> Result<(), Device>
    ensures { Writes W.contents out.old out.new result (class_text before.now class after.now) }
{
    if class.len() == CODES {
        return Ok(());
    }
    put_class_between(before, class, after, out)
}

#[tactic(auto, unfolding(crate::specs::Drawing::dot_edge))]
fn put_dot_edge<W: Write>(index: usize, edge: &Edge, out: &mut Out<W>) -> Result<(), Device>
    ensures { Writes W.contents out.old out.new result (dot_edge index edge.now) }
{
    put_node_id(index, out)?;
    out.put(b" -> ")?;
    put_target(edge.target, out)?;
    put_class(b" [label=\"", edge.class, b"\"]", out)?;
    out.put(b";\n")
}

#[tactic(auto, unfolding(crate::specs::Drawing::mermaid_edge))]
fn put_mermaid_edge<W: Write>(index: usize, edge: &Edge, out: &mut Out<W>) -> Result<(), Device>
    ensures { Writes W.contents out.old out.new result (mermaid_edge index edge.now) }
{
    put_node_id(index, out)?;
    out.put(b" -->")?;
    put_class(b"|\"", edge.class, b"\"|", out)?;
    out.put(b" ")?;
    put_target(edge.target, out)?;
    out.put(b"\n")
}

/// Writes an edge of the node with this index.
fn put_edge<W: Write>(
    format: Format,
    index: usize,
    edge: &Edge,
    out: &mut Out<W>,
) -> Result<(), Device>
    ensures { Writes W.contents out.old out.new result (edge_text format index edge.now) }
{
    match format {
        Format::Dot => put_dot_edge(index, edge, out),
        Format::Mermaid => put_mermaid_edge(index, edge, out),
    }
}

fn put_edges<W: Write>(
    format: Format,
    index: usize,
    edges: &[Edge],
    out: &mut Out<W>,
) -> Result<(), Device>
    ensures { Writes W.contents out.old out.new result (flat_map (edge_text format index) edges.now) }
{
    for edge in edges {
        put_edge(format, index, edge, out)?;
    }
    Ok(())
}

/// Writes the edges of a node.
fn put_node_edges<W: Write>(
    format: Format,
    index: usize,
    node: &Node,
    out: &mut Out<W>,
) -> Result<(), Device>
    ensures { Writes W.contents out.old out.new result (node_edges format (index, node.now)) }
{
    put_edges(format, index, &node.edges, out)
}

/// Writes the edges of all nodes.
pub(crate) fn put_all_edges<W: Write>(
    format: Format,
    nodes: &[Node],
    out: &mut Out<W>,
) -> Result<(), Device>
    ensures { Writes W.contents out.old out.new result (flat_map (node_edges format) (drawn_nodes nodes.now)) }
{
    for (index, node) in nodes.iter().enumerate() {
        put_node_edges(format, index, node, out)?;
    }
    Ok(())
}
