//! The kinds for which the program of a service never asks.

ghost use Rattle.std.specs.Prelude.{◌≡◌, map};
ghost use Rattle.std.specs.List.{list_any};
ghost use Rattle.std.specs.Str.{bytes_eq};
ghost use Rattle.pam_findings.specs.host.Unasked.{never_asks, services_without_account, services_without_auth};

use pam_conf::Kind;

/// The services of programs that start sessions or jobs of a user whom nobody has to check.
static SERVICES_WITHOUT_AUTH: [&[u8]; 6] = [
    b"systemd-user",
    b"elogind-user",
    b"nodm",
    b"cron",
    b"crond",
    b"atd",
];

/// The services of programs that look at who it is alone: lockers of a screen, and `runuser`, which is root's.
static SERVICES_WITHOUT_ACCOUNT: [&[u8]; 6] = [
    b"i3lock",
    b"swaylock",
    b"gtklock",
    b"poppassd",
    b"runuser",
    b"runuser-l",
];

#[tactic(auto, unfolding(crate::specs::host::Unasked::services_without_auth))]
fn services_without_auth() -> &'static [&'static [u8]]
    ensures { map (λ service. service.now) result.now ≡ services_without_auth }
{
    &SERVICES_WITHOUT_AUTH
}

#[tactic(auto, unfolding(crate::specs::host::Unasked::services_without_account))]
fn services_without_account() -> &'static [&'static [u8]]
    ensures { map (λ service. service.now) result.now ≡ services_without_account }
{
    &SERVICES_WITHOUT_ACCOUNT
}

/// Whether a service is one of these.
pub(crate) fn is_among(services: &[&[u8]], service: &[u8]) -> bool
    ensures { result ≡ list_any (λ known. bytes_eq service.now known.now) services.now }
{
    services.iter().any(|known| service == *known)
}

fn asks_no_auth(service: &[u8]) -> bool
    ensures { result ≡ never_asks service.now Kind.Auth }
{
    is_among(services_without_auth(), service)
}

fn asks_no_account(service: &[u8]) -> bool
    ensures { result ≡ never_asks service.now Kind.Account }
{
    is_among(services_without_account(), service)
}

/// Whether the program of a service never asks for a kind.
pub(crate) fn never_asks(service: &[u8], kind: Kind) -> bool
    ensures { result ≡ never_asks service.now kind }
{
    match kind {
        Kind::Auth => asks_no_auth(service),
        Kind::Account => asks_no_account(service),
        Kind::Password | Kind::Session => false,
    }
}
