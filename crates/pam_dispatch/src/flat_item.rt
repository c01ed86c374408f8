//! The items of the flat list.

use pam_codes::Control;

/// An item of a stack, with its level: the number of substacks around it.
#[derive(Clone, Copy, Debug)]
pub enum FlatItem {
    Module {
        level: usize,
        /// From 1, in the order of the list.
        number: usize,
        control: Control,
        /// The number of items after it in its own list.
        items_after: usize,
    },
    /// The items of the substack follow, one level deeper.
    Substack {
        level: usize,
    },
}

impl FlatItem {
    ghost use Rattle.std.specs.Prelude.{◌≡◌};
    ghost use Rattle.pam_dispatch.specs.Flat.{level_of};

    pub(crate) fn level(&self) -> usize
        ensures { result ≡ level_of self.now }
    {
        match self {
            FlatItem::Module { level, .. } => *level,
            FlatItem::Substack { level } => *level,
        }
    }
}
