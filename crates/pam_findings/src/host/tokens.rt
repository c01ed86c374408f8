//! Tokens, which are the passwords that a module asks for, and stores for the modules after it: which modules ask for one, and which
//! only take one.

ghost use Rattle.std.specs.Prelude.{◌≡◌, map};
ghost use Rattle.pam_conf.specs.ItemsOf.{module_text};
ghost use Rattle.pam_conf.specs.declared.rule.Kind.TheVariants.{Auth, Password};
ghost use Rattle.pam_findings.specs.host.Tokens.{first_takers, is_one_of, may_ask_for, never_askers, never_asks_for, new_takers, only_takes, takes, takes_by};

use crate::host::unasked::is_among;
use pam_conf::{Kind, Module};
use pam_facts::module_name;

/// The modules that with `use_first_pass` take only a token that a module before them asked for, where they check it.
static FIRST_TAKERS: [&[u8]; 13] = [
    b"pam_unix",
    b"pam_ldap",
    b"pam_sss",
    b"pam_winbind",
    b"pam_userdb",
    b"pam_radius_auth",
    b"pam_pwdfile",
    b"pam_google_authenticator",
    b"pam_oath",
    b"pam_yubico",
    b"pam_mysql",
    b"pam_ccreds",
    b"pam_pkcs11",
];

/// The modules that with `use_authtok` take only a new token that a module before them asked for, where they change it.
static NEW_TAKERS: [&[u8]; 9] = [
    b"pam_unix",
    b"pam_ldap",
    b"pam_sss",
    b"pam_winbind",
    b"pam_krb5",
    b"pam_pwhistory",
    b"pam_pwquality",
    b"pam_passwdqc",
    b"pam_cracklib",
];

/// The modules that never ask for a token which others can take, whatever their arguments.
static NEVER_ASKERS: [&[u8]; 38] = [
    b"pam_deny",
    b"pam_permit",
    b"pam_env",
    b"pam_access",
    b"pam_nologin",
    b"pam_faildelay",
    b"pam_faillock",
    b"pam_group",
    b"pam_issue",
    b"pam_keyinit",
    b"pam_limits",
    b"pam_succeed_if",
    b"pam_rootok",
    b"pam_wheel",
    b"pam_listfile",
    b"pam_localuser",
    b"pam_securetty",
    b"pam_shells",
    b"pam_usertype",
    b"pam_warn",
    b"pam_debug",
    b"pam_echo",
    b"pam_selinux",
    b"pam_sepermit",
    b"pam_mail",
    b"pam_motd",
    b"pam_lastlog",
    b"pam_rhosts",
    b"pam_timestamp",
    b"pam_time",
    b"pam_canonicalize_user",
    b"pam_tmpdir",
    b"pam_cap",
    b"pam_systemd",
    b"pam_u2f",
    b"pam_fprintd",
    b"pam_duo",
    b"pam_ssh_agent_auth",
];

#[tactic(auto, unfolding(crate::specs::host::Tokens::first_takers))]
fn first_takers() -> &'static [&'static [u8]]
    ensures { map (λ name. name.now) result.now ≡ first_takers }
{
    &FIRST_TAKERS
}

#[tactic(auto, unfolding(crate::specs::host::Tokens::new_takers))]
fn new_takers() -> &'static [&'static [u8]]
    ensures { map (λ name. name.now) result.now ≡ new_takers }
{
    &NEW_TAKERS
}

#[tactic(auto, unfolding(crate::specs::host::Tokens::never_askers))]
fn never_askers() -> &'static [&'static [u8]]
    ensures { map (λ name. name.now) result.now ≡ never_askers }
{
    &NEVER_ASKERS
}

fn is_first_taker(name: &[u8]) -> bool
    ensures { result ≡ is_one_of first_takers name.now }
{
    is_among(first_takers(), name)
}

fn is_new_taker(name: &[u8]) -> bool
    ensures { result ≡ is_one_of new_takers name.now }
{
    is_among(new_takers(), name)
}

fn is_never_asker(name: &[u8]) -> bool
    ensures { result ≡ is_one_of never_askers name.now }
{
    is_among(never_askers(), name)
}

/// Whether a module of this name, which checks a token, takes only one that a module before it asked for, since it has this word.
fn takes_first(name: &[u8], word: &[u8]) -> bool
    ensures { result ≡ takes_by Auth name.now word.now }
{
    word == b"use_first_pass".as_slice() && is_first_taker(name)
        || word == b"force_first_pass".as_slice() && name == b"pam_krb5".as_slice()
}

/// The same of a module that changes a token.
fn takes_new(name: &[u8], word: &[u8]) -> bool
    ensures { result ≡ takes_by Password name.now word.now }
{
    word == b"use_authtok".as_slice() && is_new_taker(name)
        || word == b"use_first_pass".as_slice() && name == b"pam_unix".as_slice()
}

/// Whether a module of this name takes only a token that a module before it asked for, since it has this word.
fn takes_by(kind: Kind, name: &[u8], word: &[u8]) -> bool
    ensures { result ≡ takes_by kind name.now word.now }
{
    match kind {
        Kind::Auth => takes_first(name, word),
        Kind::Password => takes_new(name, word),
        Kind::Account | Kind::Session => false,
    }
}

/// Whether the module of a rule takes only a token that a module before it asked for, since it has this word.
pub(crate) fn takes(kind: Kind, module: &Module, word: &[u8]) -> bool
    ensures { result ≡ takes kind (module_text «module».now) word.now }
{
    match module_name(&module.path) {
        Some(name) => takes_by(kind, name, word),
        None => false,
    }
}

/// Whether the module of a rule has such a word.
pub(crate) fn only_takes(kind: Kind, module: &Module) -> bool
    ensures { result ≡ only_takes kind (module_text «module».now) }
{
    module
        .arguments
        .iter()
        .any(|word| takes(kind, module, word))
}

fn never_asks_for(module: &Module) -> bool
    ensures { result ≡ never_asks_for (module_text «module».now) }
{
    match module_name(&module.path) {
        Some(name) => is_never_asker(name),
        None => false,
    }
}

/// Whether a module may ask for a token that later modules can take.
pub(crate) fn may_ask_for(kind: Kind, module: &Module) -> bool
    ensures { result ≡ may_ask_for kind (module_text «module».now) }
{
    !only_takes(kind, module) && !never_asks_for(module)
}
