//! Where a login comes from, as in access.conf(5).

ghost use Rattle.std.specs.Prelude.{◌≡◌};
ghost use Rattle.pam_tables.specs.Login.{login_view, origin_of};
ghost use Rattle.pam_tables.specs.inner.Login.{origin_view, IsKnown};

use crate::address::Address;
use crate::times::{Login, drop_dev};

/// The origin of a login.
#[derive(Clone, Copy)]
pub(crate) enum Origin<'a> {
    /// A remote host, and its address if the text is one.
    Remote(&'a [u8], Option<Address>),
    /// A terminal without `/dev/`, or a service.
    Local(&'a [u8]),
}

impl<'a> Origin<'a> {
    #[tactic(auto, unfolding(crate::specs::Login::origin_of))]
    pub(crate) fn of(login: &Login<'a>) -> Self
        ensures origin { origin_view result ≡ origin_of (login_view login.now) }
        ensures known { IsKnown result }
    {
        if !login.rhost.is_empty() {
            Origin::Remote(login.rhost, Address::read(login.rhost))
        } else if !login.tty.is_empty() {
            Origin::Local(drop_dev(login.tty))
        } else {
            Origin::Local(login.service)
        }
    }
}
