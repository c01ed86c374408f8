//! The table of findings, by their places.

ghost use Rattle.std.specs.Prelude.{◌≡◌, OnOk, Some};
ghost use Rattle.pam_text.specs.Members.{Member};
ghost use Rattle.pam_findings.specs.host.inner.Table.{Puts, Removes, finding_at, met_of, with_met, with_stack};

use crate::host::met::Met;
use crate::host::problem::{Place, Spot};
use crate::host::report::Finding;
use pam_conf::Kind;
use std::alloc::AllocError;
use std::collections::BTreeMap;

pub(crate) type Table = BTreeMap<Place, Finding>;

/// The stacks that are known to meet a problem.
fn met_at(table: &Table, spot: Spot) -> Option<Met>
    ensures { result ≡ met_of (finding_at table.now spot) }
{
    match table.get(&spot.place()) {
        Some(finding) => finding.met,
        None => None,
    }
}

/// Adds a problem that these stacks meet.
pub(crate) fn put(table: &mut Table, spot: Spot, met: Option<Met>) -> Result<(), AllocError>
    ensures { OnOk result (Puts (λ other. other ≡ spot) (with_met met) table.old table.new) }
{
    let finding = Finding {
        problem: spot.problem,
        met,
    };
    let _ = table.insert(spot.place(), finding)?;
    Ok(())
}

/// Adds a problem that one more stack meets.
fn put_stack(table: &mut Table, spot: Spot, service: usize, kind: Kind) -> Result<(), AllocError>
    ensures { OnOk result (Puts (λ other. other ≡ spot) (with_stack service kind) table.old table.new) }
{
    let met = Met::with(met_at(table, spot), service, kind)?;
    put(table, spot, Some(met))
}

/// Adds the problems that these stacks meet.
pub(crate) fn put_all(table: &mut Table, spots: &[Spot], met: Option<Met>) -> Result<(), AllocError>
    ensures { OnOk result (Puts (λ spot. Member spot spots.now) (with_met met) table.old table.new) }
{
    for spot in spots {
        put(table, *spot, met)?;
    }
    Ok(())
}

/// Removes the finding of a problem, if there is one.
fn remove(table: &mut Table, spot: Spot)
    ensures { Removes (λ other. other ≡ spot) table.old table.new }
{
    let _ = table.remove(&spot.place());
}

/// Removes the findings of these problems.
pub(crate) fn remove_all(table: &mut Table, spots: &[Spot])
    ensures { Removes (λ spot. Member spot spots.now) table.old table.new }
{
    for spot in spots {
        remove(table, *spot);
    }
}

/// Adds the problems that one more stack meets.
pub(crate) fn put_stack_at_all(
    table: &mut Table,
    spots: &[Spot],
    service: usize,
    kind: Kind,
) -> Result<(), AllocError>
    ensures { OnOk result (Puts (λ spot. Member spot spots.now) (with_stack service kind) table.old table.new) }
{
    for spot in spots {
        put_stack(table, *spot, service, kind)?;
    }
    Ok(())
}
