//! Whose module is asked next.

ghost use Rattle.std.specs.Prelude.{◌≡◌, IfNone, IfSome, None};
ghost use Rattle.pam_compare.specs.Walks.{turn_name, turn_of};
ghost use Rattle.pam_compare.specs.inner.Turn.{IsTurn, first_of};

use crate::naming::{Naming, value_at};

/// The module that is asked next, by its number.
#[derive(Clone, Copy, Debug)]
pub(crate) enum Turn {
    /// A module of the old stack.
    Old(usize),
    /// A module of the new stack.
    New(usize),
    /// One of each, which have one name.
    Both(usize, usize),
}

/// The turn where the stacks ask these modules next; `None` at the end of both.
pub(crate) fn next_turn(naming: &Naming, old: Option<usize>, new: Option<usize>) -> Option<Turn>
    ensures turn { IfSome result (λ turn. IsTurn naming.now.names.items old new turn) }
    ensures exact { result ≡ turn_of naming.now.names.items (first_of naming.now.ranks) old new }
    ensures ends { IfNone result ((old ≡ None) × (new ≡ None)) }
{
    match old {
        None => match new {
            None => None,
            Some(number) => Some(Turn::New(number)),
        },
        Some(number) => match new {
            None => Some(Turn::Old(number)),
            Some(other) => {
                if value_at(&naming.names, other) == number {
                    return Some(Turn::Both(number, other));
                }
                if value_at(&naming.ranks.old, number) <= value_at(&naming.ranks.new, other) {
                    Some(Turn::Old(number))
                } else {
                    Some(Turn::New(other))
                }
            }
        },
    }
}

/// The name of the module that is asked.
pub(crate) fn turn_name(naming: &Naming, turn: Turn) -> usize
    ensures { result ≡ turn_name naming.now.names.items turn }
{
    match turn {
        Turn::Old(number) => number,
        Turn::New(number) => value_at(&naming.names, number),
        Turn::Both(number, _) => number,
    }
}
