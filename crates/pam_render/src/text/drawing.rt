//! The text of `graph`: the drawing of the graph of a stack's runs.

ghost use Rattle.std.specs.Prelude.{◌≡◌, IfOk, map};
ghost use Rattle.std.specs.Char.{to_ascii_lowercase};
ghost use Rattle.pam_codes.specs.Out.{Writes, WritesAndFlushes};
ghost use Rattle.pam_report.specs.Reply.{Drawing};
ghost use Rattle.pam_report.specs.ReplyViews.{drawing_view};
ghost use Rattle.pam_render.specs.text.inner.Canvas.{IsCanvasOf, canvas_text};
ghost use Rattle.pam_render.specs.text.Drawing.{title_of};
ghost use Rattle.pam_render.specs.text.inner.Leaves.{Prints};

use crate::parts::with_write_fault;
use pam_codes::{Device, Out};
use pam_conf::Kind;
use pam_drawing::picture::{Layout, write_svg};
use pam_drawing::{write_dot, write_mermaid};
use pam_report::{Fault, GraphReply, kind_name};
use pam_words::GraphFormat;
use std::alloc::{AllocError, Global};
use std::io::Write;

/// Returns a text in lowercase.
fn lowered(alloc: Global, text: &str) -> Result<Vec<u8>, AllocError>
    ensures { IfOk result (λ v. v.items ≡ map to_ascii_lowercase text.now) }
{
    text.as_bytes()
        .iter()
        .map(|byte| byte.to_ascii_lowercase())
        .collect(alloc)
}

/// Returns `SERVICE KIND`, with the service in lowercase.
#[tactic(auto, unfolding(crate::specs::text::Drawing::title_of))]
fn title_of(alloc: Global, service: &str, kind: Kind) -> Result<Vec<u8>, AllocError>
    ensures { IfOk result (λ title. title.items ≡ title_of service.now kind) }
{
    let mut title = lowered(alloc, service)?;
    title.extend_from_slice(b" ")?;
    title.extend_from_slice(kind_name(kind).as_bytes())?;
    Ok(title)
}

/// A format, with what has to be allocated for it.
#[derive(Drop)]
enum Canvas {
    Dot,
    Mermaid,
    Svg(Layout),
}

/// Returns the format that is asked for; for a picture, with its layout.
fn canvas_of(alloc: Global, reply: &GraphReply<'_>, title: &[u8]) -> Result<Canvas, AllocError>
    ensures { IfOk result (IsCanvasOf reply.now.format reply.now.stack reply.now.graph) }
{
    match reply.format {
        GraphFormat::Dot => Ok(Canvas::Dot),
        GraphFormat::Mermaid => Ok(Canvas::Mermaid),
        GraphFormat::Svg => {
            let layout = Layout::of(alloc, &reply.stack, &reply.graph, title)?;
            Ok(Canvas::Svg(layout))
        }
    }
}

/// Writes the graph in a format.
fn put_graph<W: Write>(
    reply: &GraphReply<'_>,
    canvas: &Canvas,
    title: &[u8],
    out: &mut Out<W>,
) -> Result<(), Device>
    ensures { Writes W.contents out.old out.new result (canvas_text canvas.now title.now reply.now.stack reply.now.graph) }
{
    match canvas {
        Canvas::Dot => write_dot(&reply.graph, &reply.stack, title, out),
        Canvas::Mermaid => write_mermaid(&reply.graph, &reply.stack, title, out),
        Canvas::Svg(layout) => write_svg(&reply.graph, &reply.stack, layout, title, out),
    }
}

fn write_graph<W: Write>(
    reply: &GraphReply<'_>,
    canvas: &Canvas,
    title: &[u8],
    out: &mut Out<W>,
) -> Result<(), Device>
    ensures { WritesAndFlushes W.contents out.old out.new result
        (canvas_text canvas.now title.now reply.now.stack reply.now.graph) }
{
    put_graph(reply, canvas, title, out)?;
    out.finish()
}

/// Writes a drawing. Allocates its title and its layout before the first byte.
// Not inlined, so that a command uses no stack for the values of the others.
#[inline(never)]
pub(crate) fn write_drawing<W: Write>(
    alloc: Global,
    reply: &GraphReply<'_>,
    out: &mut Out<W>,
) -> Result<(), Fault>
    ensures { Prints W.contents out.old out.new result (Drawing (drawing_view reply.now)) }
{
    let title = match title_of(alloc, reply.service, reply.kind) {
        Ok(title) => title,
        Err(_) => return Err(Fault::Memory),
    };
    let canvas = match canvas_of(alloc, reply, &title) {
        Ok(canvas) => canvas,
        Err(_) => return Err(Fault::Memory),
    };
    with_write_fault(write_graph(reply, &canvas, &title, out))
}
