//! The walk over the lines of policies.

ghost use Rattle.std.specs.Prelude.{length, map};
ghost use Rattle.pam_text.specs.Out.{Writes, WritesAndFlushes};
ghost use Rattle.pam_render.specs.parts.Policy.{Last, counts_of, found_lines, lines_of, rule_lines};
ghost use Rattle.pam_render.specs.parts.PolicyView.{host_view, rule_view, told_view};

use crate::parts::policy::found::counts_of;
use crate::parts::policy::line::PolicyLine;
use crate::parts::policy::told::{PolicyHost, Told, ToldFinding, ToldRule};
use pam_text::{Device, Out};
use std::io::Write;

/// How the lines of policies are written in a form of answers.
pub trait PolicyLines {
    ghost use Rattle.std.specs.Prelude.{ℕ, List};
    ghost use Rattle.pam_text.specs.Out.{Writes};
    ghost use Rattle.pam_render.specs.parts.Policy.{Line};
    ghost use Rattle.pam_render.specs.parts.PolicyView.{line_view};

    /// The text of a line.
    ghost line: { Line → List ℕ };

    /// Writes a line.
    fn put_line<W: Write>(&self, content: PolicyLine<'_>, out: &mut Out<W>) -> Result<(), Device>
        ensures { Writes W.contents out.old out.new result (line (line_view content.entry)) };
}

fn put_found<'x, L: PolicyLines, W: Write>(
    lines: &L,
    host: &'x PolicyHost<'x>,
    found: &'x [ToldFinding<'x>],
    out: &mut Out<W>,
) -> Result<(), Device>
    ensures { Writes W.contents out.old out.new result (found_lines L.line (host_view host.now) (map told_view found.now)) }
{
    for told in found {
        lines.put_line(PolicyLine::Found { host, told }, out)?;
    }
    Ok(())
}

fn put_rules<L: PolicyLines, W: Write>(
    lines: &L,
    rules: &[ToldRule<'_>],
    out: &mut Out<W>,
) -> Result<(), Device>
    ensures { Writes W.contents out.old out.new result (rule_lines L.line (map rule_view rules.now)) }
{
    for rule in rules {
        lines.put_line(PolicyLine::Judged(*rule), out)?;
    }
    Ok(())
}

/// Writes the last line.
fn put_last<L: PolicyLines, W: Write>(
    lines: &L,
    rules: &[ToldRule<'_>],
    found: &[ToldFinding<'_>],
    stacks: usize,
    out: &mut Out<W>,
) -> Result<(), Device>
    ensures { Writes W.contents out.old out.new result
        (L.line (Last (length (map rule_view rules.now)) stacks (counts_of (map told_view found.now)))) }
{
    let count = rules.len();
    let counts = counts_of(found);
    let last = PolicyLine::Last {
        rules: count,
        stacks,
        counts,
    };
    lines.put_line(last, out)
}

/// Writes the lines of findings and of rules, and the last line, and flushes.
pub(super) fn write_told<L: PolicyLines, W: Write>(
    lines: &L,
    told: &Told<'_>,
    out: &mut Out<W>,
) -> Result<(), Device>
    ensures { WritesAndFlushes W.contents out.old out.new result
        (lines_of L.line (host_view told.now.host) (map rule_view told.now.rules.items) (map told_view told.now.found.items) told.now.stacks) }
{
    put_found(lines, &told.host, &told.found, out)?;
    put_rules(lines, &told.rules, out)?;
    put_last(lines, &told.rules, &told.found, told.stacks, out)?;
    out.finish()
}
