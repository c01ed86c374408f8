//! Modules that two stacks ask, and their answers.

ghost use Rattle.std.specs.Prelude.{◌++◌, codes};
ghost use Rattle.std.specs.List.{flat_map};
ghost use Rattle.pam_codes.specs.Out.{Writes};
ghost use Rattle.pam_codes.specs.SetText.{name_of};
ghost use Rattle.pam_render.specs.text.Compare.{asked_text, asked_texts, module_text, next_asked};

use super::modules::put_module;
use pam_changes::{AskedModule, StackPair};
use pam_codes::{Code, Device, Out};
use pam_conf::Stack;
use pam_drawing::name_of;
use std::io::Write;

/// Writes a module of a stack and its answer. The mark comes before the module, and the place after its number.
fn put_step<W: Write>(
    mark: &[u8],
    place: &[u8],
    stack: &Stack,
    number: usize,
    code: Code,
    out: &mut Out<W>,
) -> Result<(), Device>
    ensures { Writes W.contents out.old out.new result (mark.now ++ module_text place.now stack.now number ++ codes " " ++ name_of code) }
{
    out.put(mark)?;
    put_module(place, stack, number, out)?;
    out.put(b" ")?;
    out.put(name_of(code))
}

/// Writes a module that is asked, and its answer.
#[tactic(auto, unfolding(crate::specs::text::Compare::asked_text))]
fn put_asked<W: Write>(
    pair: &StackPair,
    asked: &AskedModule,
    out: &mut Out<W>,
) -> Result<(), Device>
    ensures { Writes W.contents out.old out.new result (asked_text pair.now asked.now) }
{
    match asked {
        AskedModule::Old { number, code } => put_step(b"-", b"", &pair.old, *number, *code, out),
        AskedModule::New { number, code } => {
            put_step(b"+", b" of new", &pair.new, *number, *code, out)
        }
        AskedModule::Both { old, code, .. } => put_step(b"", b"", &pair.old, *old, *code, out),
    }
}

fn put_next_one<W: Write>(
    pair: &StackPair,
    asked: &AskedModule,
    out: &mut Out<W>,
) -> Result<(), Device>
    ensures { Writes W.contents out.old out.new result (next_asked pair.now asked.now) }
{
    out.put(b", ")?;
    put_asked(pair, asked, out)
}

fn put_next_asked<W: Write>(
    pair: &StackPair,
    asked: &[AskedModule],
    out: &mut Out<W>,
) -> Result<(), Device>
    ensures { Writes W.contents out.old out.new result (flat_map (next_asked pair.now) asked.now) }
{
    for module in asked {
        put_next_one(pair, module, out)?;
    }
    Ok(())
}

/// Writes the modules that are asked, with commas.
pub(super) fn put_all_asked<W: Write>(
    pair: &StackPair,
    asked: &[AskedModule],
    out: &mut Out<W>,
) -> Result<(), Device>
    ensures { Writes W.contents out.old out.new result (asked_texts pair.now asked.now) }
{
    let Some((first, others)) = asked.split_first() else {
        return Ok(());
    };
    put_asked(pair, first, out)?;
    put_next_asked(pair, others, out)
}
