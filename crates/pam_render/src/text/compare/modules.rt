//! Modules of a stack, and what changes in them.

ghost use Rattle.std.specs.Prelude.{◌≡◌, ◌||◌, false, true};
ghost use Rattle.std.specs.List.{flat_map};
ghost use Rattle.pam_codes.specs.Out.{Writes};
ghost use Rattle.pam_render.specs.text.Compare.{added_text, arguments_text, has_any, if_more, module_changes, module_text, moved_text};
ghost use Rattle.pam_render.specs.text.Compare.{numbered, numbered_text, occurrence_text, separator, spaced};

use crate::parts::occurrence;
use crate::sentences::put_name;
use pam_changes::StackPair;
use pam_codes::{Device, Out, Piece};
use pam_conf::Stack;
use pam_report::path_at;
use pam_text::Texts;
use std::io::Write;

fn put_occurrence<W: Write>(place: &[u8], occurrence: usize, out: &mut Out<W>) -> Result<(), Device>
    ensures { Writes W.contents out.old out.new result (occurrence_text place.now occurrence) }
{
    if occurrence <= 1 {
        return Ok(());
    }
    out.put_line(&[
        Piece::Bytes(b"#"),
        Piece::Number(occurrence as u64),
        Piece::Bytes(place),
    ])
}

/// Writes `PATH` or `PATH#N`, with a text after the number.
#[tactic(auto, unfolding(crate::specs::text::Compare::module_text))]
pub(super) fn put_module<W: Write>(
    place: &[u8],
    stack: &Stack,
    number: usize,
    out: &mut Out<W>,
) -> Result<(), Device>
    ensures { Writes W.contents out.old out.new result (module_text place.now stack.now number) }
{
    put_name(path_at(stack, number), out)?;
    put_occurrence(place, occurrence(stack, number), out)
}

/// Writes a name, with a space before it if it is not the first.
fn put_spaced<W: Write>(more: bool, name: &[u8], out: &mut Out<W>) -> Result<(), Device>
    ensures { Writes W.contents out.old out.new result (if_more more name.now) }
{
    if more {
        out.put(b" ")?;
    }
    put_name(name, out)
}

/// Writes names, with a space between each two.
fn put_all_spaced<W: Write>(names: &Texts, out: &mut Out<W>) -> Result<(), Device>
    ensures { Writes W.contents out.old out.new result (spaced false names.now) }
{
    let mut more = false;
    for name in names.iter() {
        put_spaced(more, name, out)?;
        more = true;
    }
    Ok(())
}

/// Writes the arguments of a module.
#[tactic(auto, unfolding(crate::specs::text::Compare::arguments_text))]
pub(super) fn put_arguments<W: Write>(
    stack: &Stack,
    number: usize,
    out: &mut Out<W>,
) -> Result<(), Device>
    ensures { Writes W.contents out.old out.new result (arguments_text stack.now number) }
{
    match stack.module(number) {
        Some(module) => put_all_spaced(&module.arguments, out),
        None => Ok(()),
    }
}

/// Writes a colon, or a comma if it is not the first.
fn put_separator<W: Write>(more: bool, out: &mut Out<W>) -> Result<(), Device>
    ensures { Writes W.contents out.old out.new result (separator more) }
{
    if more { out.put(b", ") } else { out.put(b": ") }
}

/// Writes a module and what changes in it.
#[tactic(auto, unfolding(crate::specs::text::Compare::numbered_text))]
fn put_numbered_one<W: Write>(
    place: &[u8],
    stack: &Stack,
    change: &[u8],
    more: bool,
    number: usize,
    out: &mut Out<W>,
) -> Result<(), Device>
    ensures { Writes W.contents out.old out.new result (numbered_text place.now stack.now change.now more number) }
{
    put_separator(more, out)?;
    put_module(place, stack, number, out)?;
    out.put(b" ")?;
    out.put(change)
}

fn put_next_numbered<W: Write>(
    place: &[u8],
    stack: &Stack,
    change: &[u8],
    numbers: &[usize],
    out: &mut Out<W>,
) -> Result<(), Device>
    ensures { Writes W.contents out.old out.new result (flat_map (numbered_text place.now stack.now change.now true) numbers.now) }
{
    for number in numbers {
        put_numbered_one(place, stack, change, true, *number, out)?;
    }
    Ok(())
}

/// Writes modules and what changes in them.
fn put_numbered<W: Write>(
    place: &[u8],
    stack: &Stack,
    change: &[u8],
    more: bool,
    numbers: &[usize],
    out: &mut Out<W>,
) -> Result<(), Device>
    ensures { Writes W.contents out.old out.new result (numbered place.now stack.now change.now more numbers.now) }
{
    let Some((first, others)) = numbers.split_first() else {
        return Ok(());
    };
    put_numbered_one(place, stack, change, more, *first, out)?;
    put_next_numbered(place, stack, change, others, out)
}

/// Whether there is a number.
fn has_any(numbers: &[usize]) -> bool
    ensures { result ≡ has_any numbers.now }
{
    !numbers.is_empty()
}

/// Whether one of two holds.
fn either(one: bool, other: bool) -> bool
    ensures { result ≡ (one || other) }
{
    one || other
}

/// Writes which modules were moved, and which got another control.
fn put_moved<W: Write>(pair: &StackPair, more: bool, out: &mut Out<W>) -> Result<(), Device>
    ensures { Writes W.contents out.old out.new result (moved_text pair.now more) }
{
    let modules = &pair.modules;
    put_numbered(b"", &pair.old, b"moved", more, &modules.moved, out)?;
    let more = either(more, has_any(&modules.moved));
    put_numbered(
        b"",
        &pair.old,
        b"with another control",
        more,
        &modules.controls,
        out,
    )
}

/// Writes which modules were added, and what changes in those that both stacks have.
fn put_added<W: Write>(pair: &StackPair, more: bool, out: &mut Out<W>) -> Result<(), Device>
    ensures { Writes W.contents out.old out.new result (added_text pair.now more) }
{
    let modules = &pair.modules;
    put_numbered(b" of new", &pair.new, b"added", more, &modules.added, out)?;
    put_moved(pair, either(more, has_any(&modules.added)), out)
}

/// Writes which modules were removed, added, moved, or got another control.
pub(super) fn put_module_changes<W: Write>(pair: &StackPair, out: &mut Out<W>) -> Result<(), Device>
    ensures { Writes W.contents out.old out.new result (module_changes pair.now) }
{
    let modules = &pair.modules;
    put_numbered(b"", &pair.old, b"removed", false, &modules.removed, out)?;
    put_added(pair, has_any(&modules.removed), out)
}
