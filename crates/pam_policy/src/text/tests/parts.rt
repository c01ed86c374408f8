//! Services, arguments and modules of rules.

use super::same;
use crate::text::{Event, Events, Policy, Sentence};
use pam_text::Texts;
use std::alloc::Global;
use std::test::Fail;

fn fits(alloc: Global, text: &str, service: &str) -> Result<Option<bool>, Fail> {
    let policy = Policy::read(alloc, text.as_bytes(), 0)?;
    Ok(
        policy
            .rules
            .first()
            .map(|rule| rule.fits(service.as_bytes())),
    )
}

#[test]
fn services(rt: HostRuntime) -> Result<(), Fail> {
    let rows = [
        ("sshd,login auth needs a", "login", true),
        ("SSHD auth needs a", "sshd", true),
        ("sshd auth needs a", "sshd2", false),
        ("* auth needs a", "common-auth", true),
        ("*,!common-* auth needs a", "common-auth", false),
        ("!common-*,* auth needs a", "sshd", true),
        ("gdm* auth needs a", "gdm", true),
        ("*-autologin auth needs a", "gdm-autologin", true),
        ("s*d auth needs a", "sd", true),
        ("ss*sd auth needs a", "sssd", true),
        ("ss*sd auth needs a", "ssd", false),
    ];
    for (text, service, wanted) in rows {
        same(&rt, text, &fits(rt.alloc(), text, service)?, &Some(wanted));
    }
    Ok(())
}

/// The first event of a sentence, if it has one.
fn first_event<'s, 'a>(sentence: &'s Sentence<'a>) -> Option<&'s Event<'a>> {
    match sentence.loose_events() {
        Some(events) => events.events().first(),
        None => sentence.strict_events()?.events().first(),
    }
}

/// Whether the first test of the first event of a rule holds of two arguments.
fn holds(alloc: Global, text: &str, first: &str, second: &str) -> Result<Option<bool>, Fail> {
    let policy = Policy::read(alloc, text.as_bytes(), 0)?;
    let mut texts = Texts::new(alloc);
    texts.push(first.as_bytes())?;
    texts.push(second.as_bytes())?;
    let Some(rule) = policy.rules.first() else {
        return Ok(None);
    };
    let Some(event) = first_event(&rule.sentence) else {
        return Ok(None);
    };
    Ok(event.tests.first().map(|test| test.holds(&texts)))
}

#[test]
fn arguments(rt: HostRuntime) -> Result<(), Fail> {
    let rows = [
        ("* * never asks a[nullok]", "nullok", "debug", true),
        ("* * never asks a[nullok]", "nullok_secure", "debug", false),
        ("* * never asks a[!nullok]", "nullok", "debug", false),
        ("* * never asks a[!sha512]", "nullok", "debug", true),
        ("* * never asks a[remember=]", "remember=5", "debug", true),
        ("* * never asks a[remember=]", "remember", "debug", false),
        ("* * never asks a[deny>5]", "deny=5", "deny=6", true),
        ("* * never asks a[deny>5]", "deny=6", "deny=5", false),
        ("* * never asks a[deny<=5]", "deny=5", "debug", true),
        ("* * never asks a[deny<5]", "deny=5", "debug", false),
        ("* * never asks a[deny>=-1]", "deny=-1", "debug", true),
        ("* * never asks a[deny<5]", "deny", "debug", false),
        ("* * never asks a[deny<5]", "deny=x", "debug", false),
        ("* * never asks a[!deny<5]", "deny=x", "debug", true),
        (
            "* * never asks a[deny<5]",
            "deny=0000000001",
            "debug",
            false,
        ),
        ("* * never asks a[deny<x]", "deny<x", "debug", true),
        ("* * never asks a[<5]", "<5", "debug", true),
    ];
    for (text, first, second, wanted) in rows {
        let got = holds(rt.alloc(), text, first, second)?;
        same(&rt, text, &got, &Some(wanted));
    }
    Ok(())
}

/// Whether the first event of a rule speaks of the module at a path.
fn names(alloc: Global, text: &str, is_strict: bool, path: &str) -> Result<Option<bool>, Fail> {
    let policy = Policy::read(alloc, text.as_bytes(), 0)?;
    let Some(rule) = policy.rules.first() else {
        return Ok(None);
    };
    Ok(first_event(&rule.sentence).map(|event| event.names(path.as_bytes(), is_strict)))
}

#[test]
fn modules(rt: HostRuntime) -> Result<(), Fail> {
    let rows = [
        ("* * needs pam_u2f", true, "pam_u2f.so", true),
        (
            "* * needs pam_u2f.so",
            true,
            "/usr/lib/security/pam_u2f.so",
            true,
        ),
        ("* * needs pam_u2f", true, "/tmp/pam_u2f.so", false),
        ("* * never asks pam_exec", false, "/tmp/pam_exec.so", true),
        ("* * never asks pam_exec.so", false, "/tmp/pam_exec", true),
        ("* * never asks pam_exec", false, "/tmp/pam_execs.so", false),
        ("* * needs /tmp/pam_u2f.so", true, "/tmp/pam_u2f.so", true),
        (
            "* * never asks /tmp/pam_u2f",
            false,
            "/tmp/pam_u2f.so",
            false,
        ),
    ];
    for (text, is_strict, path, wanted) in rows {
        let got = names(rt.alloc(), text, is_strict, path)?;
        same(&rt, text, &got, &Some(wanted));
    }
    Ok(())
}

#[test]
fn texts_of_rules(rt: HostRuntime) -> Result<(), Fail> {
    let policy = Policy::read(rt.alloc(), b"\n  sshd \tauth\r needs  a # b", 0)?;
    let lines = policy.rules.first().map(|rule| rule.line);
    same(&rt, "line", &lines, &Some(2));
    let text = policy.rules.first().map(|rule| rule.text.as_slice()
        == b"sshd auth needs a".as_slice());
    same(&rt, "text", &text, &Some(true));
    Ok(())
}
