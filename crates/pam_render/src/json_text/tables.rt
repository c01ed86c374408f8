//! The JSON of `access` and `time`: the line of a table that decides.

ghost use Rattle.std.specs.Prelude.{◌≡◌, None, Some};
ghost use Rattle.std.specs.Option.{option_copied};
ghost use Rattle.pam_codes.specs.Out.{Writes, WritesAndFlushes};
ghost use Rattle.pam_render.specs.json_text.Tables.{access_json, access_line, access_members, denied_at, is_allowed, is_granted, time_json, time_members};
ghost use Rattle.pam_render.specs.json_lines.Line.{line};

use crate::json_lines::{Member, put_line};
use pam_codes::{Device, Out};
use pam_report::AccessReply;
use pam_tables::AccessAnswer;
use pam_tables::times::TimeAnswer;
use std::io::Write;

fn is_granted(answer: AccessAnswer) -> bool
    ensures { result ≡ is_granted answer }
{
    match answer {
        AccessAnswer::Granted(_) => true,
        AccessAnswer::Denied(_) => false,
    }
}

/// Returns the line that decides, if there is one.
fn access_line(answer: AccessAnswer) -> Option<u64>
    ensures { result ≡ access_line answer }
{
    match answer {
        AccessAnswer::Granted(None) => None,
        AccessAnswer::Granted(Some(line)) | AccessAnswer::Denied(line) => Some(u64::from(line)),
    }
}

/// Writes the answer of one table, or that no line of several decides.
fn put_answer<W: Write>(answer: AccessAnswer, out: &mut Out<W>) -> Result<(), Device>
    ensures { Writes W.contents out.old out.new result (line (access_members answer None)) }
{
    let members: [Member<'_, ()>; 3] = [
        Member::text("kind", b"access"),
        Member::boolean("granted", is_granted(answer)),
        Member::number_if_any("line", access_line(answer)),
    ];
    put_line(&members, out)
}

/// Writes the answer of a table among several.
fn put_answer_of<W: Write>(
    answer: AccessAnswer,
    table: &str,
    out: &mut Out<W>,
) -> Result<(), Device>
    ensures { Writes W.contents out.old out.new result (line (access_members answer (Some table.now))) }
{
    let members: [Member<'_, ()>; 4] = [
        Member::text("kind", b"access"),
        Member::boolean("granted", is_granted(answer)),
        Member::number_if_any("line", access_line(answer)),
        Member::text("table", table.as_bytes()),
    ];
    put_line(&members, out)
}

fn put_access<W: Write>(reply: AccessReply<'_>, out: &mut Out<W>) -> Result<(), Device>
    ensures { Writes W.contents out.old out.new result (line (access_members reply.entry.answer (option_copied reply.entry.table))) }
{
    match reply.table {
        Some(table) => put_answer_of(reply.answer, table, out),
        None => put_answer(reply.answer, out),
    }
}

pub(crate) fn write_access<W: Write>(reply: AccessReply<'_>, out: &mut Out<W>) -> Result<(), Device>
    ensures { WritesAndFlushes W.contents out.old out.new result (access_json reply.entry.answer (option_copied reply.entry.table)) }
{
    put_access(reply, out)?;
    out.finish()
}

fn is_allowed(answer: TimeAnswer) -> bool
    ensures { result ≡ is_allowed answer }
{
    match answer {
        TimeAnswer::Granted => true,
        TimeAnswer::Denied(_) => false,
    }
}

/// Returns the line that denies, if one does.
fn denied_at(answer: TimeAnswer) -> Option<u64>
    ensures { result ≡ denied_at answer }
{
    match answer {
        TimeAnswer::Granted => None,
        TimeAnswer::Denied(line) => Some(u64::from(line)),
    }
}

fn put_time<W: Write>(answer: TimeAnswer, out: &mut Out<W>) -> Result<(), Device>
    ensures { Writes W.contents out.old out.new result (line (time_members answer)) }
{
    let members: [Member<'_, ()>; 3] = [
        Member::text("kind", b"time"),
        Member::boolean("granted", is_allowed(answer)),
        Member::number_if_any("line", denied_at(answer)),
    ];
    put_line(&members, out)
}

pub(crate) fn write_time<W: Write>(answer: TimeAnswer, out: &mut Out<W>) -> Result<(), Device>
    ensures { WritesAndFlushes W.contents out.old out.new result (time_json answer) }
{
    put_time(answer, out)?;
    out.finish()
}
