//! Modules that look at the user of the calling process, and the services in which that user is whoever asks.

ghost use Rattle.std.specs.Prelude.{◌≡◌, map};
ghost use Rattle.std.specs.List.{list_any};
ghost use Rattle.std.specs.Str.{bytes_eq};
ghost use Rattle.pam_conf.specs.ItemsOf.{module_text};
ghost use Rattle.pam_findings.specs.host.Callers.{asks_caller, asks_caller_by, caller_is_root, daemon_services};
ghost use Rattle.pam_findings.specs.host.Callers.{greeter_services, is_daemon_service, is_greeter, is_user_service, user_services};

use crate::host::unasked::{is_among, never_asks};
use pam_conf::{Kind, Module};
use pam_facts::module_name;
use pam_text::Texts;

/// The services of programs that users start themselves: set-user-ID programs, tools of root, and what locks a screen.
static USER_SERVICES: [&[u8]; 53] = [
    b"su",
    b"su-l",
    b"runuser",
    b"runuser-l",
    b"sudo",
    b"sudo-i",
    b"pkexec",
    b"polkit-1",
    b"passwd",
    b"chsh",
    b"chfn",
    b"chpasswd",
    b"newusers",
    b"useradd",
    b"userdel",
    b"usermod",
    b"groupadd",
    b"groupdel",
    b"groupmod",
    b"at",
    b"crontab",
    b"schroot",
    b"doas",
    b"chage",
    b"groupmems",
    b"newrole",
    b"run_init",
    b"screen",
    b"vlock",
    b"physlock",
    b"xscreensaver",
    b"i3lock",
    b"swaylock",
    b"kde",
    b"gnome-screensaver",
    b"mate-screensaver",
    b"cinnamon-screensaver",
    b"xfce4-screensaver",
    b"ukui-screensaver",
    b"light-locker",
    b"gtklock",
    b"waylock",
    b"hyprlock",
    b"xlock",
    b"xtrlock",
    b"slock",
    b"super",
    b"calife",
    b"pwauth",
    b"frr",
    b"config-util",
    b"sudo-rs",
    b"su-rs",
];

/// The services of daemons that run as root, and ask on behalf of whoever comes.
static DAEMON_SERVICES: [&[u8]; 45] = [
    b"sshd",
    b"login",
    b"remote",
    b"rlogin",
    b"rsh",
    b"gdm",
    b"gdm-password",
    b"gdm-autologin",
    b"gdm-fingerprint",
    b"gdm-smartcard",
    b"gdm-smartcard-exclusive",
    b"gdm-smartcard-sssd-exclusive",
    b"gdm-smartcard-sssd-or-password",
    b"gdm-smartcard-pkcs11-exclusive",
    b"gdm-launch-environment",
    b"lightdm",
    b"lightdm-autologin",
    b"lightdm-greeter",
    b"sddm",
    b"sddm-autologin",
    b"sddm-greeter",
    b"xdm",
    b"kdm",
    b"lxdm",
    b"slim",
    b"wdm",
    b"greetd",
    b"greetd-greeter",
    b"ftp",
    b"vsftpd",
    b"proftpd",
    b"pure-ftpd",
    b"dovecot",
    b"imap",
    b"pop3",
    b"smtp",
    b"cockpit",
    b"xrdp-sesman",
    b"samba",
    b"cups",
    b"ppp",
    b"pcsd",
    b"monit",
    b"radiusd",
    b"ocserv",
];

/// The services of greeters, which are asked for the user as which the greeter itself runs.
static GREETER_SERVICES: [&[u8]; 4] = [
    b"lightdm-greeter",
    b"sddm-greeter",
    b"greetd-greeter",
    b"gdm-launch-environment",
];

#[tactic(auto, unfolding(crate::specs::host::Callers::user_services))]
fn user_services() -> &'static [&'static [u8]]
    ensures { map (λ service. service.now) result.now ≡ user_services }
{
    &USER_SERVICES
}

#[tactic(auto, unfolding(crate::specs::host::Callers::daemon_services))]
fn daemon_services() -> &'static [&'static [u8]]
    ensures { map (λ service. service.now) result.now ≡ daemon_services }
{
    &DAEMON_SERVICES
}

#[tactic(auto, unfolding(crate::specs::host::Callers::greeter_services))]
fn greeter_services() -> &'static [&'static [u8]]
    ensures { map (λ service. service.now) result.now ≡ greeter_services }
{
    &GREETER_SERVICES
}

fn is_user_service(service: &[u8]) -> bool
    ensures { result ≡ is_user_service service.now }
{
    is_among(user_services(), service)
}

/// Whether a service is that of a daemon that runs as root.
pub(crate) fn is_daemon_service(service: &[u8]) -> bool
    ensures { result ≡ is_daemon_service service.now }
{
    is_among(daemon_services(), service)
}

/// Whether a service is that of a greeter.
pub(crate) fn is_greeter(service: &[u8]) -> bool
    ensures { result ≡ is_greeter service.now }
{
    is_among(greeter_services(), service)
}

pub(crate) fn has_argument(wanted: &[u8], arguments: &Texts) -> bool
    ensures { result ≡ list_any (λ argument. bytes_eq argument wanted.now) arguments.now }
{
    arguments.iter().any(|argument| argument == wanted)
}

/// Whether a module of this name looks at the user of the process.
fn asks_caller_by(name: &[u8], arguments: &Texts) -> bool
    ensures { result ≡ asks_caller_by arguments.now name.now }
{
    name == b"pam_rootok".as_slice()
        || (name == b"pam_succeed_if".as_slice() || name == b"pam_usertype".as_slice())
            && has_argument(b"use_uid", arguments)
        || name == b"pam_wheel".as_slice() && has_argument(b"trust", arguments)
}

/// Whether a module looks at the user of the process.
fn asks_caller(module: &Module) -> bool
    ensures { result ≡ asks_caller (module_text «module».now) }
{
    match module_name(&module.path) {
        Some(name) => asks_caller_by(name, &module.arguments),
        None => false,
    }
}

/// Whether a module looks at the user of the process, which no user has started, in a service that asks for `auth`: S14.
pub(crate) fn caller_is_root(kind: Kind, service: &[u8], module: &Module) -> bool
    ensures { result ≡ caller_is_root kind service.now (module_text «module».now) }
{
    kind == Kind::Auth
        && !is_user_service(service)
        && !never_asks(service, kind)
        && asks_caller(module)
}
