//! Files of a folder that are links which lead out of it: S27, and the ways in that tell of their modules.

ghost use Rattle.std.specs.Prelude.{◌≡◌, OnOk, None, map};
ghost use Rattle.pam_findings.specs.host.Links.{IsLinkOutside, asks_outside, is_outside, stands_outside, told_way};
ghost use Rattle.pam_findings.specs.host.inner.Linked.{IsLinkAt};
ghost use Rattle.pam_findings.specs.host.inner.Table.{Puts, with_met};

use crate::host::problem::{Problem, Spot};
use crate::host::table::{Table, put};
use crate::host::way_in::WayIn;
use pam_conf::Stack;
use std::alloc::AllocError;

/// Whether the file at a position is such a link.
pub fn is_outside(outside: &[bool], file: Option<usize>) -> bool
    ensures { result ≡ is_outside outside.now file }
{
    match file {
        Some(position) => position < outside.len() && outside[position],
        None => false,
    }
}

/// Adds S27 to the file at a position, if it is such a link.
fn put_link(table: &mut Table, outside: &[bool], position: usize) -> Result<(), AllocError>
    ensures { OnOk result (Puts (IsLinkAt outside.now position) (with_met None) table.old table.new) }
{
    let file = Some(position);
    if !is_outside(outside, file) {
        return Ok(());
    }
    let spot = Spot {
        file,
        line: 0,
        problem: Problem::LinkOutside,
    };
    put(table, spot, None)
}

/// Adds S27 to the files that are such links.
pub(crate) fn put_links(table: &mut Table, outside: &[bool]) -> Result<(), AllocError>
    ensures { OnOk result (Puts (IsLinkOutside outside.now) (with_met None) table.old table.new) }
{
    for position in 0..outside.len() {
        put_link(table, outside, position)?;
    }
    Ok(())
}

/// Whether the rule of the module with this number is in such a file.
fn stands_outside(outside: &[bool], stack: &Stack, number: usize) -> bool
    ensures { result ≡ stands_outside outside.now stack.now number }
{
    match stack.module(number) {
        Some(module) => is_outside(outside, Some(module.file)),
        None => false,
    }
}

/// Whether a way in asks a module whose rule is in such a file.
fn asks_outside(outside: &[bool], way: &WayIn) -> bool
    ensures { result ≡ asks_outside outside.now way.now }
{
    way.answers.iter().any(|answer| stands_outside(outside, &way.stack, answer.number))
}

/// Takes away a way in that asks such a module.
fn tell_way(outside: &[bool], way: &mut Option<WayIn>)
    ensures { way.new ≡ told_way outside.now way.old }
{
    let is_hidden = match way {
        Some(way) => asks_outside(outside, way),
        None => false,
    };
    if is_hidden {
        *way = None;
    }
}

/// Takes away the ways in that ask such a module.
pub(crate) fn tell_ways(outside: &[bool], ways: &mut [Option<WayIn>])
    ensures { ways.new ≡ map (told_way outside.now) ways.old }
{
    for way in ways.iter_mut() {
        tell_way(outside, way);
    }
}
