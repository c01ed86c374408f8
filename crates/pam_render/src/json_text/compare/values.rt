//! The values of a line of `compare` that are written part by part.

ghost use Rattle.std.specs.Prelude.{◌≡◌, option_map};
ghost use Rattle.pam_codes.specs.Out.{Writes};
ghost use Rattle.pam_render.specs.json_text.Compare.{fault_if_any, fault_object};
ghost use Rattle.pam_report.specs.ReplyViews.{side_files};
ghost use Rattle.serde_json.specs.Written.{compact_text};

use super::modules::{put_arguments, put_modules, put_steps};
use crate::json_lines::{Member, Written, put_object};
use crate::parts::file_of;
use pam_changes::{AskedModule, StackPair};
use pam_codes::{Device, Out};
use pam_conf::{ConfError, Files, Stack};
use pam_findings::host::Problem;
use std::io::Write;

/// Returns a line, if there is a file.
pub(super) fn line_in(file: Option<&[u8]>, line: usize) -> Option<u64>
    ensures { result ≡ option_map (λ _. line) (option_map (λ f. f.now) file.entry) }
{
    match file {
        Some(_) => Some(line as u64),
        None => None,
    }
}

/// Writes the first fault of a configuration, and where it is.
#[tactic(auto, unfolding(crate::specs::json_text::Compare::fault_object))]
fn put_fault<W: Write>(
    files: Option<&Files>,
    fault: &ConfError,
    out: &mut Out<W>,
) -> Result<(), Device>
    ensures { Writes W.contents out.old out.new result (compact_text (fault_object (side_files files.entry) fault.now)) }
{
    let problem = Problem::Fault(fault.kind);
    let file = file_of(files, fault);
    let members: [Member<'_, ()>; 4] = [
        Member::text("number", problem.number().as_bytes()),
        Member::text("name", problem.name().as_bytes()),
        Member::readable_if_any("file", file),
        Member::number_if_any("line", line_in(file, fault.line)),
    ];
    put_object(&members, out)
}

/// Writes the first fault of a configuration, or `null` where it accepts the service.
fn put_fault_if_any<W: Write>(
    files: Option<&Files>,
    fault: &Option<ConfError>,
    out: &mut Out<W>,
) -> Result<(), Device>
    ensures { Writes W.contents out.old out.new result (compact_text (fault_if_any (side_files files.entry) fault.now)) }
{
    match fault {
        Some(fault) => put_fault(files, fault, out),
        None => out.put(b"null"),
    }
}

/// A value in a line of `compare`.
#[derive(Clone, Copy)]
pub(super) enum ChangeValue<'x> {
    /// What a configuration says of a service.
    Fault {
        files: Option<&'x Files>,
        fault: &'x Option<ConfError>,
    },
    /// The arguments of a module, by its number.
    Arguments {
        stack: &'x Stack,
        number: usize,
    },
    /// Modules that the old stack has, by their numbers there.
    OldModules {
        pair: &'x StackPair,
        numbers: &'x [usize],
    },
    /// Modules that the new stack alone has, by their numbers there.
    NewModules {
        pair: &'x StackPair,
        numbers: &'x [usize],
    },
    /// Modules that are asked, and their answers.
    Steps {
        pair: &'x StackPair,
        asked: &'x [AskedModule],
    },
}

impl Written for ChangeValue<'_> {
    ghost use Rattle.pam_render.specs.json_text.inner.Written.{change_value};

    ghost value = { change_value };

    fn put<W: Write>(&self, out: &mut Out<W>) -> Result<(), Device> {
        match self {
            ChangeValue::Fault { files, fault } => put_fault_if_any(*files, *fault, out),
            ChangeValue::Arguments { stack, number } => put_arguments(*stack, *number, out),
            ChangeValue::OldModules { pair, numbers } => {
                put_modules(b"old", &pair.old, *numbers, out)
            }
            ChangeValue::NewModules { pair, numbers } => {
                put_modules(b"new", &pair.new, *numbers, out)
            }
            ChangeValue::Steps { pair, asked } => put_steps(*pair, *asked, out),
        }
    }
}
