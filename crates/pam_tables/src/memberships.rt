//! The groups that list a user, found once for each login.

ghost use Rattle.std.specs.Prelude.{◌≡◌, ◌<◌, ◌≤◌, ℕ};
ghost use Rattle.pam_tables.specs.inner.Flags.{is_set};
ghost use Rattle.pam_tables.specs.Groups.{lists_user};
ghost use Rattle.pam_tables.specs.inner.Groups.{lists_at};

use crate::flags::{FLAGS, Flags};
use crate::groups::{Groups, has_member};

/// Which groups list a user.
///
/// Each group is searched once. The names of groups differ, so that a file of the greatest length has fewer groups than
/// there are flags; were there more, the last ones would be searched for each token.
#[derive(Drop)]
pub(crate) struct Memberships<'a> {
    pub(crate) groups: &'a Groups<'a>,
    pub(crate) user: &'a [u8],
    /// The number of groups that have been searched.
    searched: usize,
    /// The groups among these that list the user, by their indices.
    listing: Flags,
    ghost few: { searched ≤ 160000 },
    ghost right: { (k : ℕ) → k < searched → is_set listing.words k ≡ lists_at groups.now user.now k },
}

impl<'a> Memberships<'a> {
    pub(crate) fn of(groups: &'a Groups<'a>, user: &'a [u8]) -> Self
        ensures groups { result.groups.now ≡ groups.now }
        ensures user { result.user.now ≡ user.now }
    {
        let searched = groups.len().min(FLAGS);
        let mut listing = Flags::none();
        for index in 0..searched {
            if groups.lists_at(index, user) {
                listing.set(index);
            }
        }
        Memberships {
            groups,
            user,
            searched,
            listing,
        }
    }

    /// Whether the group named exactly `group` lists the user.
    #[inline(always)]
    pub(crate) fn has(&self, group: &[u8]) -> bool
        ensures { result ≡ lists_user self.now.groups.now group.now self.now.user.now }
    {
        match self.groups.find(group) {
            Some((index, members)) => {
                if index < self.searched {
                    self.listing.has(index)
                } else {
                    has_member(members, self.user)
                }
            }
            None => false,
        }
    }
}
