//! The stacks that meet a problem.

ghost use Rattle.std.specs.Prelude.{map};
ghost use Rattle.pam_codes.specs.Out.{Writes};
ghost use Rattle.pam_render.specs.text.Check.{if_kind, kinds_text, met_if_any, met_text, others_if_any, others_text};

use crate::parts::text_at;
use crate::sentences::put_name;
use pam_codes::{Device, Out, Piece};
use pam_facts::Kinds;
use pam_findings::host::Met;
use std::io::Write;

/// Writes the name of a kind that is meant, with a comma before it if it is not the first.
#[tactic(auto, unfolding(crate::specs::text::Check::if_kind))]
fn put_if_kind<W: Write>(
    is_named: bool,
    more: bool,
    name: &str,
    out: &mut Out<W>,
) -> Result<(), Device>
    ensures { Writes W.contents out.old out.new result (if_kind is_named more name.now) }
{
    if !is_named {
        return Ok(());
    }
    if more {
        out.put(b", ")?;
    }
    out.put(name.as_bytes())
}

#[tactic(auto, unfolding(crate::specs::text::Check::kinds_text))]
fn put_kinds<W: Write>(kinds: Kinds, out: &mut Out<W>) -> Result<(), Device>
    ensures { Writes W.contents out.old out.new result (kinds_text kinds) }
{
    put_if_kind(kinds.auth, false, "auth", out)?;
    put_if_kind(kinds.account, kinds.auth, "account", out)?;
    put_if_kind(kinds.password, kinds.auth || kinds.account, "password", out)?;
    let more = kinds.auth || kinds.account || kinds.password;
    put_if_kind(kinds.session, more, "session", out)
}

/// Writes the second service, and the number of the others.
fn put_others<W: Write>(
    services: &[&[u8]],
    second: usize,
    count: usize,
    out: &mut Out<W>,
) -> Result<(), Device>
    ensures { Writes W.contents out.old out.new result (others_text (map (λ s. s.now) services.now) second count) }
{
    if count <= 2 {
        out.put(b" and ")?;
        return put_name(text_at(services, second), out);
    }
    out.put(b", ")?;
    put_name(text_at(services, second), out)?;
    out.put_line(&[
        Piece::Bytes(b" and "),
        Piece::Number((count - 2) as u64),
        Piece::Bytes(b" more"),
    ])
}

fn put_others_if_any<W: Write>(services: &[&[u8]], met: Met, out: &mut Out<W>) -> Result<(), Device>
    ensures { Writes W.contents out.old out.new result (others_if_any (map (λ s. s.now) services.now) met) }
{
    match met.second {
        Some(second) => put_others(services, second, met.services, out),
        None => Ok(()),
    }
}

/// Writes ` (KINDS; SERVICES)`.
#[tactic(auto, unfolding(crate::specs::text::Check::met_text))]
pub(super) fn put_met<W: Write>(
    services: &[&[u8]],
    met: Met,
    out: &mut Out<W>,
) -> Result<(), Device>
    ensures { Writes W.contents out.old out.new result (met_text (map (λ s. s.now) services.now) met) }
{
    out.put(b" (")?;
    put_kinds(met.kinds, out)?;
    out.put(b"; ")?;
    put_name(text_at(services, met.first), out)?;
    put_others_if_any(services, met, out)?;
    out.put(b")")
}

/// Writes the stacks that meet a problem, if any do.
pub(super) fn put_met_if_any<W: Write>(
    services: &[&[u8]],
    met: Option<Met>,
    out: &mut Out<W>,
) -> Result<(), Device>
    ensures { Writes W.contents out.old out.new result (met_if_any (map (λ s. s.now) services.now) met) }
{
    match met {
        Some(met) => put_met(services, met, out),
        None => Ok(()),
    }
}
