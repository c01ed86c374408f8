//! What modules make of the arguments of their rules, as their manual pages have them.

use crate::tests::same::same;
use pam_conf::Kind;
use pam_facts::arguments::{Arguments, Module, Reaction, Verdict, Wanted};
use std::alloc::Global;
use std::process::Abort;
use std::test::Fail;

/// Verdicts on arguments: the module, the kind, the word, and what the module makes of it.
type Row = (&'static [u8], Kind, &'static [u8], Option<Verdict<'static>>);

/// Asserts each verdict.
fn are(rt: &impl Abort, table: &Arguments, rows: &[Row]) {
    for (name, kind, word, wanted) in rows {
        same(rt, "the verdict", &table.judge(name, *kind, word), wanted);
    }
}

/// pam_unix(8), pam_faillock(8), pam_exec(8), pam_listfile(8), pam_mkhomedir(8).
static OF_PAGES: [Row; 17] = [
    (b"pam_unix", Kind::Auth, b"nullok", Some(Verdict::Known)),
    (
        b"pam_unix",
        Kind::Auth,
        b"nullok_secure",
        Some(Verdict::Known),
    ),
    (
        b"pam_unix",
        Kind::Password,
        b"remember=5",
        Some(Verdict::Known),
    ),
    (
        b"pam_unix",
        Kind::Auth,
        b"remember=5",
        Some(Verdict::OtherKind),
    ),
    (
        b"pam_unix",
        Kind::Password,
        b"remember=five",
        Some(Verdict::BadValue(Wanted::Number)),
    ),
    (
        b"pam_unix",
        Kind::Password,
        b"use_authtoken",
        Some(Verdict::Longer(b"use_authtok")),
    ),
    (b"pam_unix", Kind::Password, b"md5", Some(Verdict::Weak)),
    (
        b"pam_unix",
        Kind::Password,
        b"md5x",
        Some(Verdict::Longer(b"md5")),
    ),
    (b"pam_unix", Kind::Auth, b"md5", Some(Verdict::Known)),
    (
        b"pam_unix",
        Kind::Auth,
        b"nulok",
        Some(Verdict::Unknown(Reaction::Logs)),
    ),
    (b"pam_faillock", Kind::Auth, b"deny=3", Some(Verdict::Known)),
    (
        b"pam_faillock",
        Kind::Auth,
        b"unlock_time=never",
        Some(Verdict::Known),
    ),
    (
        b"pam_faillock",
        Kind::Auth,
        b"unlock_time=10m",
        Some(Verdict::BadValue(Wanted::NumberOrNever)),
    ),
    (
        b"pam_listfile",
        Kind::Auth,
        b"onerr=succeed",
        Some(Verdict::Known),
    ),
    (
        b"pam_listfile",
        Kind::Auth,
        b"onerr=success",
        Some(Verdict::BadValue(Wanted::OneOf(b"succeed|fail"))),
    ),
    (
        b"pam_mkhomedir",
        Kind::Session,
        b"umask=0077",
        Some(Verdict::Known),
    ),
    (
        b"pam_mkhomedir",
        Kind::Session,
        b"umask=0088",
        Some(Verdict::BadValue(Wanted::Octal)),
    ),
];

#[test]
fn arguments_of_manual_pages(rt: HostRuntime) -> Result<(), Fail> {
    are(&rt, &Arguments::table(rt.alloc())?, &OF_PAGES);
    Ok(())
}

/// pam_permit(8) takes no arguments; pam_echo(8) and pam_exec(8) take text and a program; pam_winbind(8) refuses what it does not
/// know, and pam_duo reads its arguments in `auth` alone.
static OTHERS: [Row; 9] = [
    (
        b"pam_permit",
        Kind::Auth,
        b"debug",
        Some(Verdict::Unknown(Reaction::Ignores)),
    ),
    (b"pam_echo", Kind::Auth, b"Welcome", Some(Verdict::Free)),
    (b"pam_exec", Kind::Account, b"QUIET", Some(Verdict::Known)),
    (
        b"pam_exec",
        Kind::Session,
        b"/usr/local/bin/greet",
        Some(Verdict::Free),
    ),
    (
        b"pam_winbind",
        Kind::Account,
        b"krb5_aut",
        Some(Verdict::Unknown(Reaction::Fails)),
    ),
    (
        b"pam_duo",
        Kind::Auth,
        b"config=a",
        Some(Verdict::Unknown(Reaction::Fails)),
    ),
    (
        b"pam_duo",
        Kind::Session,
        b"config=a",
        Some(Verdict::Unknown(Reaction::Ignores)),
    ),
    (
        b"pam_krb5",
        Kind::Auth,
        b"debug=maybe",
        Some(Verdict::BadValue(Wanted::Boolean)),
    ),
    (b"pam_of_nobody", Kind::Auth, b"debug", None),
];

#[test]
fn other_arguments(rt: HostRuntime) -> Result<(), Fail> {
    are(&rt, &Arguments::table(rt.alloc())?, &OTHERS);
    Ok(())
}

/// Asserts that a misspelled word of a module is nearest to this argument.
fn is_near(
    rt: &impl Abort,
    alloc: Global,
    known: &Module<'_>,
    word: &[u8],
    wanted: Option<&[u8]>,
) -> Result<(), Fail> {
    same(rt, "the nearest", &known.nearest(alloc, word)?, &wanted);
    Ok(())
}

#[test]
fn nearest_arguments(rt: HostRuntime) -> Result<(), Fail> {
    let table = Arguments::table(rt.alloc())?;
    let known = table.of(b"pam_faillock").ok_or("known")?;
    is_near(&rt, rt.alloc(), &known, b"autfail", Some(b"authfail"))?;
    is_near(&rt, rt.alloc(), &known, b"dney=5", Some(b"deny="))?;
    is_near(
        &rt,
        rt.alloc(),
        &known,
        b"unlocktime=600",
        Some(b"unlock_time="),
    )?;
    is_near(&rt, rt.alloc(), &known, b"remember=5", None)?;
    let arguments = known.arguments(rt.alloc())?;
    same(&rt, "how many arguments", &arguments.len(), &16);
    Ok(())
}
