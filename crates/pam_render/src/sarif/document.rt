//! The document: this program, what its numbers mean, and what it found.

ghost use Rattle.pam_render.specs.parts.CheckNames.{names_view};
ghost use Rattle.pam_render.specs.parts.Prints.{PrintsBy};
ghost use Rattle.pam_render.specs.sarif.Document as spec;
ghost use Rattle.pam_report.specs.Reply.{Check};
ghost use Rattle.pam_report.specs.ReplyViews.{check_view};
ghost use Rattle.pam_text.specs.Out.{Writes, WritesAndFlushes};
ghost use Rattle.serde_json.specs.Written.{compact_text};

use crate::json_lines::{Member, Written, put_line, put_object, put_single};
use crate::parts::{Names, names_of, with_write_fault};
use crate::sarif::results::put_results;
use crate::sarif::rules::put_rules;
use pam_report::{CheckReply, Fault};
use pam_text::{Device, Out};
use pam_words::version;
use std::alloc::Global;
use std::io::Write;

/// The rules.
#[derive(Clone, Copy)]
struct RulesValue<'x> {
    reply: &'x CheckReply<'x>,
}

impl Written for RulesValue<'_> {
    ghost use Rattle.pam_render.specs.sarif.Rules.{rules_array};
    ghost use Rattle.pam_report.specs.ReplyViews.{check_view};

    ghost value = { λ rules. rules_array (check_view rules.reply.now) };

    fn put<W: Write>(&self, out: &mut Out<W>) -> Result<(), Device> {
        put_rules(self.reply, out)
    }
}

fn put_driver<'x, W: Write>(reply: &'x CheckReply<'x>, out: &mut Out<W>) -> Result<(), Device>
    ensures { Writes W.contents out.old out.new result (compact_text (spec.driver_object (check_view reply.now))) }
{
    put_object(
        &[
            Member::text("name", b"pamcheck"),
            Member::text("version", version().as_bytes()),
            Member::written("rules", RulesValue { reply }),
        ],
        out,
    )
}

/// This program.
#[derive(Clone, Copy)]
struct DriverValue<'x> {
    reply: &'x CheckReply<'x>,
}

impl Written for DriverValue<'_> {
    ghost use Rattle.pam_render.specs.sarif.Document.{driver_object};
    ghost use Rattle.pam_report.specs.ReplyViews.{check_view};

    ghost value = { λ driver. driver_object (check_view driver.reply.now) };

    fn put<W: Write>(&self, out: &mut Out<W>) -> Result<(), Device> {
        put_driver(self.reply, out)
    }
}

fn put_tool<'x, W: Write>(reply: &'x CheckReply<'x>, out: &mut Out<W>) -> Result<(), Device>
    ensures { Writes W.contents out.old out.new result (compact_text (spec.tool_object (check_view reply.now))) }
{
    put_object(&[Member::written("driver", DriverValue { reply })], out)
}

/// A member of the run.
#[derive(Clone, Copy)]
enum RunValue<'x> {
    Tool(&'x CheckReply<'x>),
    Results {
        names: &'x Names<'x>,
        reply: &'x CheckReply<'x>,
    },
}

impl Written for RunValue<'_> {
    ghost use Rattle.pam_render.specs.sarif.inner.Written.{run_value};

    ghost value = { run_value };

    fn put<W: Write>(&self, out: &mut Out<W>) -> Result<(), Device> {
        match self {
            RunValue::Tool(reply) => put_tool(reply, out),
            RunValue::Results { names, reply } => put_results(names, reply, out),
        }
    }
}

fn put_run<'x, W: Write>(
    names: &'x Names<'x>,
    reply: &'x CheckReply<'x>,
    out: &mut Out<W>,
) -> Result<(), Device>
    ensures { Writes W.contents out.old out.new result (compact_text (spec.run_object (names_view names.now) (check_view reply.now))) }
{
    put_object(
        &[
            Member::written("tool", RunValue::Tool(reply)),
            Member::written("results", RunValue::Results { names, reply }),
        ],
        out,
    )
}

/// The run.
#[derive(Clone, Copy)]
struct RunObject<'x> {
    names: &'x Names<'x>,
    reply: &'x CheckReply<'x>,
}

impl Written for RunObject<'_> {
    ghost use Rattle.pam_render.specs.parts.CheckNames.{names_view};
    ghost use Rattle.pam_render.specs.sarif.Document.{run_object};
    ghost use Rattle.pam_report.specs.ReplyViews.{check_view};

    ghost value = { λ run. run_object (names_view run.names.now) (check_view run.reply.now) };

    fn put<W: Write>(&self, out: &mut Out<W>) -> Result<(), Device> {
        put_run(self.names, self.reply, out)
    }
}

/// The runs, of which there is one.
#[derive(Clone, Copy)]
struct RunsValue<'x> {
    names: &'x Names<'x>,
    reply: &'x CheckReply<'x>,
}

impl Written for RunsValue<'_> {
    ghost use Rattle.pam_render.specs.parts.CheckNames.{names_view};
    ghost use Rattle.pam_render.specs.sarif.Document.{runs_array};
    ghost use Rattle.pam_report.specs.ReplyViews.{check_view};

    ghost value = { λ runs. runs_array (names_view runs.names.now) (check_view runs.reply.now) };

    fn put<W: Write>(&self, out: &mut Out<W>) -> Result<(), Device> {
        let RunsValue { names, reply } = *self;
        put_single(&RunObject { names, reply }, out)
    }
}

/// Writes the document of a check with these names, and flushes.
fn write_named<W: Write>(
    names: &Names<'_>,
    reply: &CheckReply<'_>,
    out: &mut Out<W>,
) -> Result<(), Device>
    ensures { WritesAndFlushes W.contents out.old out.new result (spec.named_sarif (names_view names.now) (check_view reply.now)) }
{
    let runs = RunsValue {
        names: &*names,
        reply: &*reply,
    };
    put_line(
        &[
            Member::text("$schema", b"https://json.schemastore.org/sarif-2.1.0.json"),
            Member::text("version", b"2.1.0"),
            Member::written("runs", runs),
        ],
        out,
    )?;
    out.finish()
}

/// Writes the document of a check, and flushes. Allocates lists of names before the first byte.
// Not inlined, so that a command uses no stack for the values of the others.
#[inline(never)]
pub fn write_sarif<W: Write>(
    alloc: Global,
    reply: &CheckReply<'_>,
    out: &mut Out<W>,
) -> Result<(), Fault>
    ensures { PrintsBy W.contents spec.IsSarif out.old out.new result (Check (check_view reply.now)) }
{
    match names_of(alloc, reply) {
        Ok(names) => with_write_fault(write_named(&names, reply, out)),
        Err(_) => Err(Fault::Memory),
    }
}
