//! The flat list of a stack's items.

ghost use Rattle.std.specs.Prelude.{◌≡◌, ◌+◌, ◌≤◌, ◌++◌, OnOk};
ghost use Rattle.pam_conf.specs.Stack.{depth};
ghost use Rattle.pam_conf.specs.ItemsOf.{items_of};
ghost use Rattle.pam_dispatch.specs.inner.Flat.{flat_list};
ghost use Rattle.pam_dispatch.specs.declared.entered.TheConstants.{LISTS};

use crate::error::Memory;
use crate::flat_item::FlatItem;
use pam_conf::Item;

/// Appends `items`, nested `level` deep, to `flat_items`.
pub(crate) fn flatten(
    items: &[Item],
    level: usize,
    flat_items: &mut Vec<FlatItem>,
) -> Result<(), Memory>
    requires { level + depth (items_of items.now) ≤ LISTS }
    ensures { OnOk result (flat_items.new.items ≡ flat_items.old.items ++ flat_list level (items_of items.now)) }
{
    let mut items_after = items.len();
    for item in items {
        items_after -= 1;
        match item {
            Item::Module(module) => flat_items.push(FlatItem::Module {
                level,
                number: module.number,
                control: module.control,
                items_after,
            })?,
            Item::Sub(sub) => {
                flat_items.push(FlatItem::Substack { level })?;
                flatten(&sub.items, level + 1, flat_items)?;
            }
        }
    }
    Ok(())
}
