//! Stretches of items on one level, which are skipped in one step.

ghost use Rattle.std.specs.Prelude.{IfOk};
ghost use Rattle.pam_dispatch.specs.inner.Stretches.{IsStretchTable};

use crate::error::Memory;
use crate::flat_item::FlatItem;
use std::alloc::Global;

/// The length of the stretch at each position, the last position first, which is the end.
pub(crate) fn stretch_table(alloc: Global, flat_items: &[FlatItem]) -> Result<Vec<usize>, Memory>
    ensures { IfOk result (λ table. IsStretchTable flat_items.now table.items) }
{
    let mut length = 0;
    let mut level = 0;
    let mut table = Vec::new(alloc);
    table.push(length)?;
    let mut position = flat_items.len();
    while position > 0 {
        position -= 1;
        let here = flat_items[position].level();
        length = if here == level { length + 1 } else { 1 };
        level = here;
        table.push(length)?;
    }
    Ok(table)
}
