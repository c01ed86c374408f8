//! The steps of a path, as an array of objects, and cursors.

ghost use Rattle.std.specs.Prelude.{◌++◌, false, map, option_map};
ghost use Rattle.json.specs.Print.{quoted};
ghost use Rattle.pam_codes.specs.Out.{Writes};
ghost use Rattle.pam_render.specs.parts.Ways.{count_text};
ghost use Rattle.pam_paths.specs.CursorText.{cursor_text};
ghost use Rattle.pam_paths.specs.Paths.{key};
ghost use Rattle.pam_paths.specs.Steps.{step_seen};
ghost use Rattle.pam_render.specs.json_lines.Line.{items_of};
ghost use Rattle.pam_render.specs.json_text.Paths.{next_or_null};
ghost use Rattle.pam_render.specs.json_text.Steps.{code_string, code_strings, step_object, steps_array};
ghost use Rattle.serde_json.specs.Written.{comma_if, compact_text, items_text};

use crate::json_lines::{Elements, Member, Written, put_array, put_comma, put_object, put_quoted};
use crate::parts::{ModulePaths, UNCOUNTED};
use itoa::Buffer;
use pam_codes::{Code, CodeSet, Device, Out};
use pam_drawing::name_of;
use pam_facts::known::name_of_path;
use pam_paths::{Cursor, Path, PathStep};
use std::io::Write;

/// Writes the name of a code, with a comma before it unless it is the first.
fn put_code<W: Write>(later: bool, code: Code, out: &mut Out<W>) -> Result<(), Device>
    ensures { Writes W.contents out.old out.new result (comma_if later ++ compact_text (code_string code)) }
{
    put_comma(later, out)?;
    put_quoted(name_of(code), out)
}

/// Writes the names of codes, and the closing bracket.
fn put_codes<W: Write>(set: CodeSet, out: &mut Out<W>) -> Result<(), Device>
    ensures { Writes W.contents out.old out.new result (items_text false (items_of (map code_string set))) }
{
    let mut later = false;
    let mut remaining = set;
    while let Some(code) = remaining.take_least() {
        put_code(later, code, out)?;
        later = true;
    }
    out.put(b"]")
}

/// The names of codes.
#[derive(Clone, Copy)]
struct CodeNames(CodeSet);

impl Written for CodeNames {
    ghost use Rattle.pam_render.specs.json_text.Steps.{code_strings};

    ghost value = { λ names. code_strings names.0 };

    fn put<W: Write>(&self, out: &mut Out<W>) -> Result<(), Device> {
        out.put(b"[")?;
        put_codes(self.0, out)
    }
}

/// Writes a module that is asked, and the codes that take the path.
#[tactic(auto, unfolding(crate::specs::json_text::Steps::step_object))]
fn put_step<W: Write>(
    modules: &ModulePaths<'_>,
    step: &PathStep,
    out: &mut Out<W>,
) -> Result<(), Device>
    ensures { Writes W.contents out.old out.new result (compact_text (step_object modules.now (step_seen step.now))) }
{
    put_object(
        &[
            Member::number("number", step.number() as u64),
            Member::readable("module", name_of_path(modules.path(step.number()))),
            Member::written("codes", CodeNames(step.class())),
        ],
        out,
    )
}

/// Writes steps of paths through a stack.
#[derive(Clone, Copy)]
struct StepElements<'x> {
    modules: &'x ModulePaths<'x>,
}

impl Elements<PathStep> for StepElements<'_> {
    ghost use Rattle.pam_paths.specs.Steps.{step_seen};
    ghost use Rattle.pam_render.specs.json_text.Steps.{step_object};

    ghost element = { λ elements step. step_object elements.modules.now (step_seen step) };

    fn put_element<W: Write>(&self, step: &PathStep, out: &mut Out<W>) -> Result<(), Device> {
        put_step(self.modules, step, out)
    }
}

fn put_steps<W: Write>(
    modules: &ModulePaths<'_>,
    steps: &[PathStep],
    out: &mut Out<W>,
) -> Result<(), Device>
    ensures { Writes W.contents out.old out.new result (compact_text (steps_array modules.now (map step_seen steps.now))) }
{
    put_array(&StepElements { modules }, steps, out)
}

/// Writes a cursor as a string. It has no byte to be escaped.
fn put_cursor<W: Write>(cursor: &Cursor, out: &mut Out<W>) -> Result<(), Device>
    ensures { Writes W.contents out.old out.new result (quoted (cursor_text cursor.now)) }
{
    out.put(b"\"")?;
    cursor.write_text(out)?;
    out.put(b"\"")
}

/// Writes the cursor of a path as a string.
fn put_cursor_of<W: Write>(path: &Path, out: &mut Out<W>) -> Result<(), Device>
    ensures { Writes W.contents out.old out.new result (quoted (cursor_text (key path.now))) }
{
    put_cursor(&path.cursor(), out)
}

/// Writes a cursor, or `null`.
fn put_next<W: Write>(cursor: Option<&Cursor>, out: &mut Out<W>) -> Result<(), Device>
    ensures { Writes W.contents out.old out.new result (compact_text (next_or_null (option_map (λ c. c.now) cursor.entry))) }
{
    match cursor {
        Some(cursor) => put_cursor(cursor, out),
        None => out.put(b"null"),
    }
}

/// Writes a number of ways as a string.
fn put_ways<W: Write>(count: Option<u128>, out: &mut Out<W>) -> Result<(), Device>
    ensures { Writes W.contents out.old out.new result (quoted (count_text count)) }
{
    let Some(count) = count else {
        return put_quoted(UNCOUNTED, out);
    };
    let mut buffer = Buffer::new();
    put_quoted(buffer.format(count).as_bytes(), out)
}

/// A value in the line of a path, or of the paths that end in a decision.
#[derive(Clone, Copy)]
pub(crate) enum PathValue<'x> {
    /// The cursor of a path.
    Cursor(&'x Path),
    /// The cursor with which a listing goes on, if it does.
    Next(Option<&'x Cursor>),
    Steps {
        modules: &'x ModulePaths<'x>,
        steps: &'x [PathStep],
    },
    Ways(Option<u128>),
}

impl Written for PathValue<'_> {
    ghost use Rattle.pam_render.specs.json_text.inner.Written.{path_value};

    ghost value = { path_value };

    fn put<W: Write>(&self, out: &mut Out<W>) -> Result<(), Device> {
        match self {
            PathValue::Cursor(path) => put_cursor_of(*path, out),
            PathValue::Next(cursor) => put_next(*cursor, out),
            PathValue::Steps { modules, steps } => put_steps(*modules, *steps, out),
            PathValue::Ways(count) => put_ways(*count, out),
        }
    }
}
