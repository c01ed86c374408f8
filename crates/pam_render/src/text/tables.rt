//! The text of `access` and `time`: the line of a table that decides.

ghost use Rattle.std.specs.Option.{option_copied};
ghost use Rattle.pam_codes.specs.Out.{Writes, WritesAndFlushes};
ghost use Rattle.pam_render.specs.text.Tables.{access_text, denied_text, line_text, of_name, of_table, time_text, verdict_text};

use crate::sentences::put_name;
use pam_codes::{Device, Out, Piece};
use pam_report::AccessReply;
use pam_tables::AccessAnswer;
use pam_tables::times::TimeAnswer;
use std::io::Write;

/// Writes `denied line N`.
fn put_denied<W: Write>(line: u32, out: &mut Out<W>) -> Result<(), Device>
    ensures { Writes W.contents out.old out.new result (denied_text line) }
{
    out.put_line(&[
        Piece::Bytes(b"denied line "),
        Piece::Number(u64::from(line)),
        Piece::Bytes(b"\n"),
    ])
}

/// Writes ` of TABLE`, and ends the line.
fn put_of<W: Write>(table: &str, out: &mut Out<W>) -> Result<(), Device>
    ensures { Writes W.contents out.old out.new result (of_name table.now) }
{
    out.put(b" of ")?;
    put_name(table.as_bytes(), out)?;
    out.put(b"\n")
}

/// Writes the table of a line, where several are given, and ends the line.
fn put_table<W: Write>(table: Option<&str>, out: &mut Out<W>) -> Result<(), Device>
    ensures { Writes W.contents out.old out.new result (of_table (option_copied table.entry)) }
{
    match table {
        Some(table) => put_of(table, out),
        None => out.put(b"\n"),
    }
}

/// Writes a verdict with its line.
fn put_line<W: Write>(verdict: &[u8], line: u32, out: &mut Out<W>) -> Result<(), Device>
    ensures { Writes W.contents out.old out.new result (line_text verdict.now line) }
{
    out.put_line(&[
        Piece::Bytes(verdict),
        Piece::Bytes(b" line "),
        Piece::Number(u64::from(line)),
    ])
}

/// Writes a verdict with its line and its table.
fn put_verdict<W: Write>(
    verdict: &[u8],
    line: u32,
    table: Option<&str>,
    out: &mut Out<W>,
) -> Result<(), Device>
    ensures { Writes W.contents out.old out.new result (verdict_text verdict.now line (option_copied table.entry)) }
{
    put_line(verdict, line, out)?;
    put_table(table, out)
}

#[tactic(auto, unfolding(crate::specs::text::Tables::access_text))]
fn put_access<W: Write>(reply: AccessReply<'_>, out: &mut Out<W>) -> Result<(), Device>
    ensures { Writes W.contents out.old out.new result (access_text reply.entry.answer (option_copied reply.entry.table)) }
{
    match reply.answer {
        AccessAnswer::Granted(None) => out.put(b"granted no line\n"),
        AccessAnswer::Granted(Some(line)) => put_verdict(b"granted", line, reply.table, out),
        AccessAnswer::Denied(line) => put_verdict(b"denied", line, reply.table, out),
    }
}

pub(crate) fn write_access<W: Write>(reply: AccessReply<'_>, out: &mut Out<W>) -> Result<(), Device>
    ensures { WritesAndFlushes W.contents out.old out.new result (access_text reply.entry.answer (option_copied reply.entry.table)) }
{
    put_access(reply, out)?;
    out.finish()
}

#[tactic(auto, unfolding(crate::specs::text::Tables::time_text))]
fn put_time<W: Write>(answer: TimeAnswer, out: &mut Out<W>) -> Result<(), Device>
    ensures { Writes W.contents out.old out.new result (time_text answer) }
{
    match answer {
        TimeAnswer::Granted => out.put(b"granted\n"),
        TimeAnswer::Denied(line) => put_denied(line, out),
    }
}

pub(crate) fn write_time<W: Write>(answer: TimeAnswer, out: &mut Out<W>) -> Result<(), Device>
    ensures { WritesAndFlushes W.contents out.old out.new result (time_text answer) }
{
    put_time(answer, out)?;
    out.finish()
}
