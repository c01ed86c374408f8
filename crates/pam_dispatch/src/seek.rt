//! Moves to the next module that is asked.

ghost use Rattle.std.specs.Prelude.{◌≡◌, ◌<◌, ◌≤◌, All, drop, length, take};
ghost use Rattle.pam_dispatch.specs.Flat.{IsPlaceOf, resume, rest_of};
ghost use Rattle.pam_dispatch.specs.inner.Flat.{IsBounded};
ghost use Rattle.pam_dispatch.specs.inner.Stretches.{IsStretchTable};

use crate::flat_item::FlatItem;
use crate::place::Place;

/// Moves `place` from its position to the next module asked, or to the end. Skips the items deeper than `level` and
/// `skip` items of that level, and then enters substacks. Items of one stretch are skipped in one step.
pub(crate) fn seek(
    program: &[FlatItem],
    stretches: &[usize],
    place: &mut Place,
    mut level: usize,
    mut skip: usize,
)
    requires below { level < place.old.depth }
    requires within { place.old.position ≤ length program.now }
    requires flat_items { All IsBounded program.now }
    requires stretches { IsStretchTable program.now stretches.now }
    ensures place { IsPlaceOf program.now place.new }
    ensures state { place.new.state ≡ place.old.state }
    ensures rest { rest_of program.now place.new
        ≡ resume (drop place.old.position program.now) level skip (take place.old.depth place.old.entered.states) place.old.state }
{
    let mut position = place.position;
    let mut depth = usize::from(place.depth);
    while position < program.len() {
        let flat_item = &program[position];
        let here = flat_item.level();
        if here > level {
            position += 1;
        } else if here == level && skip > 0 {
            let skipped = skip.min(stretches[program.len() - position]);
            skip -= skipped;
            position += skipped;
        } else {
            match flat_item {
                FlatItem::Module { number, .. } => {
                    place.position = position;
                    place.depth = (here + 1) as u8;
                    place.module_number = Some(*number as u16);
                    return;
                }
                FlatItem::Substack { .. } => {
                    let state = place.state;
                    place.entered.enter(here + 1, &state);
                    depth = here + 2;
                    level = here + 1;
                    skip = 0;
                    position += 1;
                }
            }
        }
    }
    place.position = position;
    place.depth = depth as u8;
    place.module_number = None;
}
