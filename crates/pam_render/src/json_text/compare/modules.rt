//! Modules of two stacks, as objects.

ghost use Rattle.pam_codes.specs.Out.{Writes};
ghost use Rattle.pam_render.specs.json_text.Compare.{arguments_array, asked_object, module_object, modules_array, step_object, steps_array};
ghost use Rattle.serde_json.specs.Written.{compact_text};

use crate::json_lines::{Elements, Member, put_array, put_object, put_strings};
use crate::parts::occurrence;
use pam_changes::{AskedModule, StackPair};
use pam_codes::{Code, Device, Out};
use pam_conf::Stack;
use pam_drawing::name_of;
use pam_report::path_at;
use std::io::Write;

/// Writes a module by its number in the stack of a configuration: its path, and which it is there of those with this path.
#[tactic(auto, unfolding(crate::specs::json_text::Compare::module_object))]
fn put_module<W: Write>(
    place: &'static [u8],
    stack: &Stack,
    number: usize,
    out: &mut Out<W>,
) -> Result<(), Device>
    ensures { Writes W.contents out.old out.new result (compact_text (module_object place.now stack.now number)) }
{
    let members: [Member<'_, ()>; 3] = [
        Member::readable("module", path_at(stack, number)),
        Member::number("occurrence", occurrence(stack, number) as u64),
        Member::text("counted_in", place),
    ];
    put_object(&members, out)
}

/// Writes modules of the stack of a configuration.
#[derive(Clone, Copy)]
struct ModuleElements<'x> {
    place: &'static [u8],
    stack: &'x Stack,
}

impl Elements<usize> for ModuleElements<'_> {
    ghost use Rattle.pam_render.specs.json_text.Compare.{module_object};

    ghost element = { λ elements number. module_object elements.place.now elements.stack.now number };

    fn put_element<W: Write>(&self, number: &usize, out: &mut Out<W>) -> Result<(), Device> {
        put_module(self.place, self.stack, *number, out)
    }
}

/// Writes modules by their numbers.
pub(super) fn put_modules<W: Write>(
    place: &'static [u8],
    stack: &Stack,
    numbers: &[usize],
    out: &mut Out<W>,
) -> Result<(), Device>
    ensures { Writes W.contents out.old out.new result (compact_text (modules_array place.now stack.now numbers.now)) }
{
    put_array(&ModuleElements { place, stack }, numbers, out)
}

/// Writes the arguments of a module, none for a number that no module has.
#[tactic(auto, unfolding(crate::specs::json_text::Compare::arguments_array))]
pub(super) fn put_arguments<W: Write>(
    stack: &Stack,
    number: usize,
    out: &mut Out<W>,
) -> Result<(), Device>
    ensures { Writes W.contents out.old out.new result (compact_text (arguments_array stack.now number)) }
{
    match stack.module(number) {
        Some(module) => put_strings(&module.arguments, out),
        None => out.put(b"[]"),
    }
}

/// Writes a module that is asked, and its answer: in which configurations, and by its number in the stack of one.
#[tactic(auto, unfolding(crate::specs::json_text::Compare::asked_object))]
fn put_asked<W: Write>(
    configuration: &'static [u8],
    place: &'static [u8],
    stack: &Stack,
    number: usize,
    code: Code,
    out: &mut Out<W>,
) -> Result<(), Device>
    ensures { Writes W.contents out.old out.new result (compact_text (asked_object configuration.now place.now stack.now number code)) }
{
    let members: [Member<'_, ()>; 5] = [
        Member::text("configuration", configuration),
        Member::readable("module", path_at(stack, number)),
        Member::number("occurrence", occurrence(stack, number) as u64),
        Member::text("counted_in", place),
        Member::text("code", name_of(code)),
    ];
    put_object(&members, out)
}

/// Writes a module that is asked, of one stack or of both.
fn put_step<W: Write>(pair: &StackPair, asked: &AskedModule, out: &mut Out<W>) -> Result<(), Device>
    ensures { Writes W.contents out.old out.new result (compact_text (step_object pair.now asked.now)) }
{
    match asked {
        AskedModule::Old { number, code } => {
            put_asked(b"old", b"old", &pair.old, *number, *code, out)
        }
        AskedModule::New { number, code } => {
            put_asked(b"new", b"new", &pair.new, *number, *code, out)
        }
        AskedModule::Both { old, code, .. } => {
            put_asked(b"both", b"old", &pair.old, *old, *code, out)
        }
    }
}

/// Writes modules that are asked.
#[derive(Clone, Copy)]
struct StepElements<'x> {
    pair: &'x StackPair,
}

impl Elements<AskedModule> for StepElements<'_> {
    ghost use Rattle.pam_render.specs.json_text.Compare.{step_object};

    ghost element = { λ elements asked. step_object elements.pair.now asked };

    fn put_element<W: Write>(&self, asked: &AskedModule, out: &mut Out<W>) -> Result<(), Device> {
        put_step(self.pair, asked, out)
    }
}

/// Writes the modules that are asked, and their answers.
pub(super) fn put_steps<W: Write>(
    pair: &StackPair,
    asked: &[AskedModule],
    out: &mut Out<W>,
) -> Result<(), Device>
    ensures { Writes W.contents out.old out.new result (compact_text (steps_array pair.now asked.now)) }
{
    put_array(&StepElements { pair }, asked, out)
}
