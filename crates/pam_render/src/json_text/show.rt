//! The JSON of `show`: the stack, rule by rule.

ghost use Rattle.json.specs.Print.{quoted};
ghost use Rattle.pam_codes.specs.ControlText.{control_text};
ghost use Rattle.pam_codes.specs.Out.{Writes};
ghost use Rattle.pam_conf.specs.ItemsOf.{module_text};
ghost use Rattle.pam_render.specs.json_text.Show.{module_json, sub_json};

use crate::json_lines::{Member, Written, put_line, put_strings};
use crate::json_text::form::AsJson;
use crate::json_text::header::put_stack;
use crate::parts::{RulePlace, StackLine, StackLines, name_at};
use pam_codes::{Control, Device, Out};
use pam_conf::{Module, Sub};
use pam_text::Texts;
use std::io::Write;

/// Writes a control as a string. It has no byte to be escaped.
fn put_control<W: Write>(control: &Control, out: &mut Out<W>) -> Result<(), Device>
    ensures { Writes W.contents out.old out.new result (quoted (control_text control.now)) }
{
    out.put(b"\"")?;
    control.write_text(out)?;
    out.put(b"\"")
}

/// A value in the line of a module.
#[derive(Clone, Copy)]
enum ModuleValue<'x> {
    Control(&'x Control),
    Arguments(&'x Texts),
}

impl Written for ModuleValue<'_> {
    ghost use Rattle.pam_render.specs.json_text.inner.Written.{module_value};

    ghost value = { module_value };

    fn put<W: Write>(&self, out: &mut Out<W>) -> Result<(), Device> {
        match self {
            ModuleValue::Control(control) => put_control(*control, out),
            ModuleValue::Arguments(arguments) => put_strings(*arguments, out),
        }
    }
}

/// Writes the line of a module.
#[tactic(auto, unfolding(crate::specs::json_text::Show::module_json))]
fn put_module<'x, W: Write>(
    at: RulePlace<'x>,
    module: &'x Module,
    out: &mut Out<W>,
) -> Result<(), Device>
    ensures { Writes W.contents out.old out.new result (module_json at.entry.files.now at.entry.level (module_text «module».now)) }
{
    put_line(
        &[
            Member::text("kind", b"module"),
            Member::number("depth", at.level as u64),
            Member::number("number", module.number as u64),
            Member::readable("file", name_at(at.files, module.file)),
            Member::number("line", module.line as u64),
            Member::boolean("dashed", module.dashed),
            Member::written("control", ModuleValue::Control(&module.control)),
            Member::readable("path", &module.path),
            Member::written("arguments", ModuleValue::Arguments(&module.arguments)),
        ],
        out,
    )
}

/// Writes the line of a substack.
#[tactic(auto, unfolding(crate::specs::json_text::Show::sub_json))]
fn put_sub<W: Write>(at: RulePlace<'_>, sub: &Sub, out: &mut Out<W>) -> Result<(), Device>
    ensures { Writes W.contents out.old out.new result (sub_json at.entry.files.now at.entry.level sub.now.text) }
{
    let members: [Member<'_, ()>; 5] = [
        Member::text("kind", b"substack"),
        Member::number("depth", at.level as u64),
        Member::readable("file", name_at(at.files, sub.file)),
        Member::number("line", sub.line as u64),
        Member::readable("target", name_at(at.files, sub.target)),
    ];
    put_line(&members, out)
}

impl StackLines for AsJson {
    ghost use Rattle.pam_render.specs.json_text.Show.{line_json};

    ghost line = { line_json };

    fn put_line<W: Write>(&self, content: StackLine<'_>, out: &mut Out<W>) -> Result<(), Device> {
        match content {
            StackLine::Head(head) => put_stack(head.service, head.kind, head.modules, out),
            StackLine::Module(at, module) => put_module(at, module, out),
            StackLine::Sub(at, sub) => put_sub(at, sub, out),
        }
    }
}
