//! Where a run is, in words.

ghost use Rattle.std.specs.Prelude.{◌≡◌};
ghost use Rattle.pam_codes.specs.Out.{Writes};
ghost use Rattle.pam_drawing.specs.picture.Picture.{asked_words, place_words, state_words, target_words};
ghost use Rattle.pam_drawing.specs.picture.inner.Marks.{stop_text};

use crate::{impression_name, name_at, name_of, put_escaped};
use pam_codes::{Code, Device, Out, Piece};
use pam_conf::Stack;
use pam_dispatch::State;
use pam_graph::{Node, Target};
use std::io::Write;

/// Where a run is.
#[derive(Clone, Copy)]
pub(crate) enum Stop<'a> {
    /// The number and name of a module that is asked, and the state.
    Asks(usize, &'a [u8], State),
    Decides(Code),
    Nowhere,
}

/// Returns where a run is at a node.
pub(crate) fn stop_at<'a>(stack: &'a Stack, node: &Node) -> Stop<'a>
    ensures { stop_text result ≡ place_words stack.now node.now }
{
    let number = node.module_number;
    Stop::Asks(number, name_at(stack, number), node.state)
}

/// Returns where an edge leads.
pub(crate) fn stop_of<'a>(stack: &'a Stack, nodes: &[Node], target: Target) -> Stop<'a>
    ensures { stop_text result ≡ target_words stack.now nodes.now target }
{
    match target {
        Target::At(index) => match nodes.get(index as usize) {
            Some(node) => stop_at(stack, node),
            None => Stop::Nowhere,
        },
        Target::End(decision) => Stop::Decides(decision),
    }
}

/// Writes `IMPRESSION STATUS`.
#[tactic(auto, unfolding(crate::specs::picture::Picture::state_words))]
fn put_state<W: Write>(state: State, out: &mut Out<W>) -> Result<(), Device>
    ensures { Writes W.contents out.old out.new result (state_words state) }
{
    out.put_line(&[
        Piece::Bytes(impression_name(state.impression)),
        Piece::Bytes(b" "),
        Piece::Bytes(name_of(state.status)),
    ])
}

/// Writes `NUMBER NAME STATE`.
#[tactic(auto, unfolding(crate::specs::picture::Picture::asked_words))]
fn put_asked<W: Write>(
    number: usize,
    name: &[u8],
    state: State,
    out: &mut Out<W>,
) -> Result<(), Device>
    ensures { Writes W.contents out.old out.new result (asked_words number name.now state) }
{
    out.put_line(&[Piece::Number(number as u64), Piece::Bytes(b" ")])?;
    put_escaped(name, out)?;
    out.put(b" ")?;
    put_state(state, out)
}

/// Writes where a run is.
pub(crate) fn put_stop<W: Write>(stop: &Stop<'_>, out: &mut Out<W>) -> Result<(), Device>
    ensures { Writes W.contents out.old out.new result (stop_text stop.now) }
{
    match stop {
        Stop::Asks(number, name, state) => put_asked(*number, name, *state, out),
        Stop::Decides(decision) => out.put(name_of(*decision)),
        Stop::Nowhere => out.put(b""),
    }
}
