//! Jumps that land inside what an include brought in: S12.

ghost use Rattle.std.specs.Prelude.{◌≡◌, ◌++◌, IfOk, OnOk, drop, map};
ghost use Rattle.pam_conf.specs.ListedText.{listed_text};
ghost use Rattle.pam_findings.specs.host.Inside.{action_lands, begins_by, control_lands, is_same, item_lands, jumping, lands_inside, share_other};
ghost use Rattle.pam_findings.specs.host.inner.Insides.{jump_spot, jumps_from, jumps_from_all};

use crate::host::problem::{Problem, Spot};
use pam_codes::{Action, CODES, Code, Control};
use pam_conf::{Kind, Listed, Location, RuleFiles};
use std::alloc::{AllocError, Global};

fn is_same(one: Location, other: Location) -> bool
    ensures { result ≡ is_same one other }
{
    one.file == other.file && one.line == other.line
}

/// Whether the include at this depth is this one.
fn has_at(includes: &[Location], depth: usize, include: Location) -> bool
    ensures { result ≡ begins_by include (drop depth includes.now) }
{
    match includes.get(depth) {
        Some(own) => is_same(*own, include),
        None => false,
    }
}

/// Whether two items came in by an include by which the item of `own` did not.
fn share_other(before: &[Location], after: &[Location], own: &[Location]) -> bool
    ensures { result ≡ share_other before.now after.now own.now }
{
    for depth in 0..before.len() {
        let include = before[depth];
        if !has_at(after, depth, include) {
            return false;
        }
        if !has_at(own, depth, include) {
            return true;
        }
    }
    false
}

/// Whether the item after those that a rule jumps over, in the rest of its list, is inside an include that the rule is not in.
fn lands_inside(own: &Listed, rest: &[Listed], over: usize) -> bool
    ensures { result ≡ lands_inside (listed_text own.now) (map listed_text rest.now) over }
{
    let Some(after) = rest.get(over) else {
        return false;
    };
    if over == 0 {
        return share_other(&own.includes, &after.includes, &own.includes);
    }
    let Some(before) = rest.get(over - 1) else {
        return false;
    };
    share_other(&before.includes, &after.includes, &own.includes)
}

fn action_lands(own: &Listed, rest: &[Listed], action: Action) -> bool
    ensures { result ≡ action_lands (listed_text own.now) (map listed_text rest.now) action }
{
    match action {
        Action::Jump(over) => lands_inside(own, rest, over as usize),
        Action::Ignore | Action::Ok | Action::Done | Action::Bad | Action::Die | Action::Reset =>
            false,
    }
}

/// Whether a control jumps so for some code.
fn control_lands(own: &Listed, rest: &[Listed], control: &Control) -> bool
    ensures { result ≡ control_lands (listed_text own.now) (map listed_text rest.now) control.now }
{
    for number in 0..CODES as u8 {
        if let Some(code) = Code::new(number) {
            if action_lands(own, rest, control.action(code)) {
                return true;
            }
        }
    }
    false
}

/// Whether an item jumps so, in the rest of its list.
fn item_lands(own: &Listed, rest: &[Listed]) -> bool
    ensures { result ≡ item_lands (listed_text own.now) (map listed_text rest.now) }
{
    match &own.control {
        Some(control) => control_lands(own, rest, control),
        None => false,
    }
}

/// Appends S12 of the items of a list that jump so.
fn push_jumping(spots: &mut Vec<Spot>, items: &[Listed]) -> Result<(), AllocError>
    ensures { OnOk result (spots.new.items ≡ spots.old.items ++ map jump_spot (jumping (map listed_text items.now))) }
{
    for at in 0..items.len() {
        if item_lands(&items[at], &items[at + 1..]) {
            spots.push(Spot {
                file: Some(items[at].file),
                line: items[at].line,
                problem: Problem::JumpIntoInclude,
            })?;
        }
    }
    Ok(())
}

/// Appends S12 of the list of a file.
fn push_from(
    alloc: Global,
    spots: &mut Vec<Spot>,
    rules: &RuleFiles<'_>,
    kind: Kind,
    file: usize,
) -> Result<(), AllocError>
    ensures { OnOk result (spots.new.items ≡ spots.old.items ++ jumps_from rules.now kind file) }
{
    let items = rules.list(alloc, kind, file)?;
    push_jumping(spots, &items)
}

/// S12 of the lists of these files.
pub(crate) fn jumps_inside(
    alloc: Global,
    rules: &RuleFiles<'_>,
    kind: Kind,
    files: &[usize],
) -> Result<Vec<Spot>, AllocError>
    ensures { IfOk result (λ spots. spots.items ≡ jumps_from_all rules.now kind files.now) }
{
    let mut spots = Vec::new(alloc);
    for file in files {
        push_from(alloc, &mut spots, rules, kind, *file)?;
    }
    Ok(spots)
}
