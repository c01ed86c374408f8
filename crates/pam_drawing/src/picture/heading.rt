//! What is over the columns and left of the lanes.

ghost use Rattle.std.specs.Prelude.{◌≡◌, ◌<◌, ◌≤◌};
ghost use Rattle.std.specs.List.{flat_map, list_any, range_with_len};
ghost use Rattle.pam_codes.specs.Out.{Writes};
ghost use Rattle.pam_conf.specs.declared.stack.TheConstants.{MAX_MODULES};
ghost use Rattle.pam_drawing.specs.picture.Picture.{asked_row, asks, bracket_text, brackets_text, column_heading, column_text, columns_text};
ghost use Rattle.pam_drawing.specs.picture.Picture.{lane_impression, lane_status, lane_text, lanes_text, name_ending, name_front};

use crate::picture::edge::Sheet;
use crate::picture::layout::Layout;
use crate::picture::layout::shapes::{Bracket, Lane};
use crate::picture::mark::{Mark, put_marks};
use crate::picture::place::{column_at, control_at};
use crate::{impression_name, name_of};
use pam_codes::{Control, Device, Out};
use pam_dispatch::State;
use pam_facts::known::name_of_path;
use pam_graph::Node;
use std::io::Write;

/// The most bytes of a name that are shown over its column.
pub(crate) const MAX_NAME: usize = 24;

/// How many bytes of a longer name are shown.
pub(crate) const CUT_NAME: usize = 22;

/// Returns what is shown of a name.
pub(crate) fn name_front(name: &[u8]) -> &[u8]
    ensures { result.now ≡ name_front name.now }
{
    if name.len() > MAX_NAME {
        &name[..CUT_NAME]
    } else {
        name
    }
}

/// Returns what is shown after the first part of a name.
fn name_ending(name: &[u8]) -> &'static [u8]
    ensures { result.now ≡ name_ending name.now }
{
    if name.len() > MAX_NAME { b".." } else { b"" }
}

/// Whether some node asks a module.
pub(crate) fn is_asked(nodes: &[Node], number: usize) -> bool
    ensures { result ≡ list_any (asks number) nodes.now }
{
    for node in nodes {
        if node.module_number == number {
            return true;
        }
    }
    false
}

/// Returns what is shown of a module that no run asks.
fn asked_row(nodes: &[Node], number: usize) -> &'static [u8]
    ensures { result.now ≡ asked_row nodes.now number }
{
    if is_asked(nodes, number) {
        b""
    } else {
        b"</tspan><tspan x=\"-6\" dy=\"15\">never asked"
    }
}

#[tactic(auto, unfolding(crate::specs::picture::Picture::column_heading))]
fn put_heading<'a, W: Write>(
    sheet: &Sheet<'a>,
    index: usize,
    number: usize,
    control: Control,
    path: &'a [u8],
    out: &mut Out<W>,
) -> Result<(), Device>
    ensures { Writes W.contents out.old out.new result
        (column_heading sheet.now.nodes.now sheet.now.layout.now index number control path.now) }
{
    let name = name_of_path(path);
    let marks = [
        Mark::Plain(b"<g transform=\"translate("),
        Mark::Number(column_at(sheet.layout, index)),
        Mark::Plain(b" "),
        Mark::Number(sheet.layout.headings),
        Mark::Plain(b")\"><title>"),
        Mark::Number(number),
        Mark::Plain(b" "),
        Mark::Control(control),
        Mark::Plain(b" "),
        Mark::Escaped(path),
        Mark::Plain(b"</title><text class=\"strong\" x=\"-6\">"),
        Mark::Number(number),
        Mark::Plain(b"</text><text class=\"strong\" x=\"-6\" y=\"15\">"),
        Mark::Escaped(name_front(name)),
        Mark::Plain(name_ending(name)),
        Mark::Plain(b"</text><text class=\"weak\" y=\"30\"><tspan x=\"-6\">"),
        Mark::Rows(control_at(sheet.layout, index)),
        Mark::Plain(asked_row(sheet.nodes, number)),
        Mark::Plain(b"</tspan></text><path class=\"guide\" d=\"M0 "),
        Mark::Number(sheet.layout.rows),
        Mark::Plain(b"v"),
        Mark::Number(sheet.layout.guide),
        Mark::Plain(b"\"/></g>\n"),
    ];
    put_marks(&marks, out)
}

/// Writes the heading of the column after this many columns.
#[tactic(auto, unfolding(crate::specs::picture::Picture::column_text))]
fn put_column<W: Write>(sheet: &Sheet<'_>, index: usize, out: &mut Out<W>) -> Result<(), Device>
    requires { index < MAX_MODULES }
    ensures { Writes W.contents out.old out.new result
        (column_text sheet.now.stack.now sheet.now.nodes.now sheet.now.layout.now index) }
{
    match sheet.stack.module(index + 1) {
        Some(module) => put_heading(
            sheet,
            index,
            module.number,
            module.control,
            &module.path,
            out,
        ),
        None => Ok(()),
    }
}

fn put_each_column<W: Write>(
    sheet: &Sheet<'_>,
    count: usize,
    out: &mut Out<W>,
) -> Result<(), Device>
    requires { count ≤ MAX_MODULES }
    ensures { Writes W.contents out.old out.new result
        (flat_map (column_text sheet.now.stack.now sheet.now.nodes.now sheet.now.layout.now) (range_with_len 0 count)) }
{
    for index in 0..count {
        put_column(sheet, index, out)?;
    }
    Ok(())
}

/// Writes the headings of all columns.
pub(crate) fn put_columns<W: Write>(sheet: &Sheet<'_>, out: &mut Out<W>) -> Result<(), Device>
    ensures { Writes W.contents out.old out.new result (columns_text sheet.now.stack.now sheet.now.nodes.now sheet.now.layout.now) }
{
    put_each_column(sheet, sheet.stack.modules(), out)
}

#[tactic(auto, unfolding(crate::specs::picture::Picture::bracket_text))]
fn put_bracket<W: Write>(bracket: Bracket, out: &mut Out<W>) -> Result<(), Device>
    ensures { Writes W.contents out.old out.new result (bracket_text bracket) }
{
    put_marks(
        &[
            Mark::Plain(b"<path class=\"bracket\" d=\"M"),
            Mark::Number(bracket.left),
            Mark::Plain(b" "),
            Mark::Number(bracket.height),
            Mark::Plain(b"v-6H"),
            Mark::Number(bracket.right),
            Mark::Plain(b"v6\"/>\n"),
        ],
        out,
    )
}

fn put_each_bracket<W: Write>(brackets: &[Bracket], out: &mut Out<W>) -> Result<(), Device>
    ensures { Writes W.contents out.old out.new result (flat_map bracket_text brackets.now) }
{
    for bracket in brackets {
        put_bracket(*bracket, out)?;
    }
    Ok(())
}

/// Writes the brackets over substacks.
pub(crate) fn put_brackets<W: Write>(layout: &Layout, out: &mut Out<W>) -> Result<(), Device>
    ensures { Writes W.contents out.old out.new result (brackets_text layout.now) }
{
    put_each_bracket(&layout.brackets, out)
}

/// Returns the impression of the nodes in a lane.
fn lane_impression(state: Option<State>) -> &'static [u8]
    ensures { result.now ≡ lane_impression state }
{
    match state {
        Some(state) => impression_name(state.impression),
        None => b"",
    }
}

/// Returns the status of the nodes in a lane.
fn lane_status(state: Option<State>) -> &'static [u8]
    ensures { result.now ≡ lane_status state }
{
    match state {
        Some(state) => name_of(state.status),
        None => b"",
    }
}

#[tactic(auto, unfolding(crate::specs::picture::Picture::lane_text))]
fn put_lane<W: Write>(width: usize, lane: Lane, out: &mut Out<W>) -> Result<(), Device>
    ensures { Writes W.contents out.old out.new result (lane_text width lane) }
{
    put_marks(
        &[
            Mark::Plain(b"<path class=\"lane\" d=\"M0 "),
            Mark::Number(lane.top),
            Mark::Plain(b"H"),
            Mark::Number(width),
            Mark::Plain(b"\"/>\n<text class=\"strong\" x=\"16\" y=\""),
            Mark::Number(lane.middle),
            Mark::Plain(b"\" dy=\"4\">"),
            Mark::Plain(lane_impression(lane.state)),
            Mark::Plain(b"</text>\n<text class=\"weak\" x=\"16\" y=\""),
            Mark::Number(lane.middle),
            Mark::Plain(b"\" dy=\"18\">"),
            Mark::Plain(lane_status(lane.state)),
            Mark::Plain(b"</text>\n"),
        ],
        out,
    )
}

fn put_each_lane<W: Write>(width: usize, lanes: &[Lane], out: &mut Out<W>) -> Result<(), Device>
    ensures { Writes W.contents out.old out.new result (flat_map (lane_text width) lanes.now) }
{
    for lane in lanes {
        put_lane(width, *lane, out)?;
    }
    Ok(())
}

/// Writes the lanes with their names.
pub(crate) fn put_lanes<W: Write>(layout: &Layout, out: &mut Out<W>) -> Result<(), Device>
    ensures { Writes W.contents out.old out.new result (lanes_text layout.now) }
{
    put_each_lane(layout.width, &layout.lanes, out)
}
