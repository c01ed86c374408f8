//! The levels of the lists whose entry states a reset can still read.

ghost use Rattle.std.specs.Prelude.{◌≡◌, ◌∷◌, ◌<◌, All, IfOk, List};
ghost use Rattle.std.specs.List.{list_any};
ghost use Rattle.pam_dispatch.specs.declared.entered.TheConstants.{LISTS};
ghost use Rattle.pam_dispatch.specs.declared.flat_item.FlatItem.{FlatItem};
ghost use Rattle.pam_dispatch.specs.Flat.{level_of};
ghost use Rattle.pam_dispatch.specs.inner.Flat.{IsBounded};
ghost use Rattle.pam_dispatch.specs.inner.ReadLevels.{AreReadLevels, IsReadTable};
ghost use Rattle.pam_dispatch.specs.Representatives.{is_reset, resets};

use crate::entered::LISTS;
use crate::error::Memory;
use crate::flat_item::FlatItem;
use pam_codes::{Action, CODES, Code, Control};
use std::alloc::Global;

/// Of each level, whether a reset can still read the state in which the list there was entered.
pub(crate) type ReadLevels = [bool; LISTS];

fn is_reset(action: Action) -> bool
    ensures { result ≡ is_reset action }
{
    match action {
        Action::Reset => true,
        Action::Ignore | Action::Ok | Action::Done | Action::Bad | Action::Die | Action::Jump(_) =>
            false,
    }
}

/// Whether the action of some code is a reset.
pub fn has_reset(control: &Control) -> bool
    ensures { result ≡ list_any is_reset control.now }
{
    for number in 0..CODES as u8 {
        if let Some(code) = Code::new(number) {
            if is_reset(control.action(code)) {
                return true;
            }
        }
    }
    // A control says with an action that it has one for each code.
    let _action = control.action(Code::SUCCESS);
    false
}

/// Whether an item is a module that has a reset.
fn resets(flat_item: &FlatItem) -> bool
    ensures { result ≡ resets flat_item.now }
{
    match flat_item {
        FlatItem::Module { control, .. } => has_reset(control),
        FlatItem::Substack { .. } => false,
    }
}

/// The levels from an item on, from those after it.
fn levels_from(flat_item: &FlatItem, after: &ReadLevels) -> ReadLevels
    requires { level_of flat_item.now < LISTS }
    ensures { (rest : List FlatItem) → AreReadLevels rest after.now → AreReadLevels (flat_item.now ∷ rest) result }
{
    let mut levels = *after;
    let here = flat_item.level();
    for level in here + 1..LISTS {
        levels[level] = false;
    }
    let is_read = resets(flat_item) || levels[here];
    levels[here] = is_read;
    levels
}

/// The levels from each position on, the last position first, which is the end.
pub(crate) fn read_table(alloc: Global, flat_items: &[FlatItem]) -> Result<Vec<ReadLevels>, Memory>
    requires { All IsBounded flat_items.now }
    ensures { IfOk result (λ table. IsReadTable flat_items.now table.items) }
{
    let mut levels = [false; LISTS];
    let mut table = Vec::new(alloc);
    table.push(levels)?;
    let mut position = flat_items.len();
    while position > 0 {
        position -= 1;
        levels = levels_from(&flat_items[position], &levels);
        table.push(levels)?;
    }
    Ok(table)
}
