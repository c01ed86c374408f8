//! The end of a run that no answer changes.

ghost use Rattle.std.specs.Prelude.{◌≡◌, [], ◌∷◌, IsTrue, drop};
ghost use Rattle.pam_dispatch.specs.Settled.{keeps_failure};
ghost use Rattle.pam_dispatch.specs.inner.Settled.{AllKeepFailure, KeepFailure};

use crate::decision::Decision;
use crate::flat_item::FlatItem;
use pam_codes::{Action, CODES, Code, Control};

/// The rest of a run that no answer changes.
#[derive(Clone, Copy, Debug)]
pub struct SettledRun {
    /// The number of modules that are still asked: the last ones of the program.
    pub modules: usize,
    /// The decision at the end.
    pub decision: Decision,
}

/// Whether `action` leaves a failed stack as it is, and continues with the next item.
pub fn keeps_failure(action: Action) -> bool
    ensures { result ≡ keeps_failure action }
{
    match action {
        Action::Ignore | Action::Ok | Action::Done | Action::Bad => true,
        Action::Die | Action::Reset | Action::Jump(_) => false,
    }
}

/// Whether the actions of all codes leave a failed stack as it is.
fn all_keep_failure(control: &Control) -> bool
    ensures { IsTrue result → AllKeepFailure control.now }
{
    for number in 0..CODES as u8 {
        if let Some(code) = Code::new(number) {
            if !keeps_failure(control.action(code)) {
                return false;
            }
        }
    }
    true
}

/// Whether `flat_item` is a module of the outermost list that leaves a failed stack as it is.
fn is_harmless(flat_item: &FlatItem) -> bool
    ensures { IsTrue result → KeepFailure (flat_item.now ∷ []) }
{
    match flat_item {
        FlatItem::Module { level, control, .. } => *level == 0 && all_keep_failure(control),
        FlatItem::Substack { .. } => false,
    }
}

/// The position from which on all items are modules of the outermost list that leave a failed stack as it is.
pub(crate) fn first_harmless(flat_items: &[FlatItem]) -> usize
    ensures harmless { KeepFailure (drop result flat_items.now) }
{
    let mut position = flat_items.len();
    while position > 0 && is_harmless(&flat_items[position - 1]) {
        position -= 1;
    }
    position
}
