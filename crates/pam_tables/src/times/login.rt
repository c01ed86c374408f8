//! Logins, as pam_time(8) and pam_access(8) see them.

ghost use Rattle.std.specs.Prelude.{◌≡◌};
ghost use Rattle.pam_tables.specs.times.Login.{without_dev};

/// A login: the user, the service, the terminal and the remote host. An empty terminal or host means there is none.
/// pam_time(8) does not look at the host.
#[derive(Clone, Copy, Debug)]
pub struct Login<'a> {
    pub user: &'a [u8],
    pub service: &'a [u8],
    pub tty: &'a [u8],
    pub rhost: &'a [u8],
}

/// Removes one `/dev/` prefix from the name of a terminal.
pub fn drop_dev(tty: &[u8]) -> &[u8]
    ensures { result.now ≡ without_dev tty.now }
{
    match tty.strip_prefix(b"/dev/") {
        Some(name) => name,
        None => tty,
    }
}
