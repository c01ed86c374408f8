//! The JSON of `check`: a line for each finding, and a last line with their numbers.

ghost use Rattle.pam_codes.specs.Out.{Writes};
ghost use Rattle.pam_render.specs.json_text.Check.{checked_json};

mod finding;
mod sentence;
mod values;

use crate::json_lines::{Member, put_line};
use crate::json_text::form::AsJson;
use crate::parts::{CheckLine, CheckLines, Counts, stacks_of};
use finding::{put_finding, put_table_finding, put_unused};
use pam_codes::{Device, Out};
use std::io::Write;
pub(crate) use values::FindingValue;

/// Writes the last line.
#[tactic(auto, unfolding(crate::specs::json_text::Check::checked_json))]
fn put_checked<W: Write>(services: usize, counts: Counts, out: &mut Out<W>) -> Result<(), Device>
    ensures { Writes W.contents out.old out.new result (checked_json services counts) }
{
    let members: [Member<'_, ()>; 6] = [
        Member::text("kind", b"checked"),
        Member::number("services", services as u64),
        Member::number("stacks", stacks_of(services) as u64),
        Member::number("errors", counts.errors as u64),
        Member::number("warnings", counts.warnings as u64),
        Member::number("notes", counts.notes as u64),
    ];
    put_line(&members, out)
}

impl CheckLines for AsJson {
    ghost use Rattle.pam_render.specs.json_text.Check.{line_json};

    ghost line = { line_json };

    fn put_line<W: Write>(&self, content: CheckLine<'_>, out: &mut Out<W>) -> Result<(), Device> {
        match content {
            CheckLine::Found(found) => put_finding(found, out),
            CheckLine::InTable { paths, finding } => put_table_finding(paths, finding, out),
            CheckLine::Unused { file, line } => put_unused(file, line, out),
            CheckLine::Last { services, counts } => put_checked(services, counts, out),
        }
    }
}
