//! Words of rules that a host does not have.

use crate::names::{Call, Host, Misnamed, Word, calls_in, misnamed};
use crate::text::Policy;
use pam_conf::{Files, Form, NameList, RuleFiles};
use pam_text::Texts;
use std::alloc::{AllocError, Global};
use std::test::Fail;

/// The texts between spaces.
fn texts(alloc: Global, words: &str) -> Result<Texts, AllocError> {
    let mut texts = Texts::new(alloc);
    for word in words.as_bytes().split(|byte| *byte == b' ') {
        texts.push(word)?;
    }
    Ok(texts)
}

fn add_call(
    alloc: Global,
    calls: &mut Vec<Call>,
    path: &str,
    arguments: &str,
) -> Result<(), AllocError> {
    let path = Vec::from_slice(alloc, path.as_bytes())?;
    let arguments = texts(alloc, arguments)?;
    calls.push(Call { path, arguments })?;
    Ok(())
}

fn put_word(text: &mut Vec<u8>, number: &str, word: &Word) -> Result<(), AllocError> {
    text.extend_from_slice(number.as_bytes())?;
    text.extend_from_slice(&word.text)?;
    if let Some(near) = &word.nearest {
        text.push(b'>')?;
        text.extend_from_slice(near)?;
    }
    Ok(())
}

/// Writes what is said of a word: as `P3 word>nearest `.
fn put(text: &mut Vec<u8>, said: &Misnamed) -> Result<(), AllocError> {
    match said {
        Misnamed::NoService(word) => put_word(text, "P3 ", word)?,
        Misnamed::FitsNone => text.extend_from_slice(b"P3")?,
        Misnamed::NoModule(word) => put_word(text, "P4 ", word)?,
        Misnamed::NoArgument(argument) => {
            text.extend_from_slice(b"P7 ")?;
            text.extend_from_slice(&argument.name)?;
            text.push(b' ')?;
            text.extend_from_slice(&argument.key)?;
            text.push(b'>')?;
            text.extend_from_slice(&argument.nearest)?;
        }
    }
    text.push(b'|')?;
    Ok(())
}

fn calls(alloc: Global) -> Result<Vec<Call>, AllocError> {
    let mut calls = Vec::new(alloc);
    add_call(alloc, &mut calls, "pam_unix.so", "nullok remember=5")?;
    add_call(alloc, &mut calls, "/tmp/pam_u2f.so", "nouserok")?;
    add_call(alloc, &mut calls, "pam_faillock.so", "deny=3")?;
    Ok(calls)
}

/// What is said of the rules of a text.
fn said(alloc: Global, rule: &str) -> Result<Vec<u8>, Fail> {
    let calls = calls(alloc)?;
    let services = texts(alloc, "common-auth login sshd su")?;
    let known = texts(alloc, "pam_deny pam_wheel")?;
    let there = NameList::of(alloc, texts(alloc, "pam_own.so")?)?;
    let host = Host {
        services: &services,
        calls: &calls,
        known: &known,
        there: Some(&there),
    };
    let policy = Policy::read(alloc, rule.as_bytes(), 0)?;
    let mut text = Vec::new(alloc);
    for rule in &policy.rules {
        for said in &misnamed(alloc, &host, rule)? {
            put(&mut text, said)?;
        }
    }
    Ok(text)
}

#[test]
fn words_of_rules(rt: HostRuntime) -> Result<(), Fail> {
    let rows = [
        (
            "SSHD,common-* auth needs pam_unix.so or pam_wheel or pam_own",
            "",
        ),
        (
            "Logn,loginn,Logn,nowhere auth needs pam_unix",
            "P3 Logn>login|P3 loginn>login|P3 nowhere|",
        ),
        ("gdm*,!none auth needs pam_unix", "P3|"),
        ("sshd,!s* auth needs pam_unix", "P3|"),
        (
            "su auth needs pam_faillok or pam_faillok or pam_x",
            "P4 pam_faillok>pam_faillock|P4 pam_x|",
        ),
        ("su auth needs pam_u2f", "P4 pam_u2f|"),
        ("su auth never asks pam_u2f or /tmp/pam_u2f.so", ""),
        ("su auth never asks /tmp/pam_u2f", "P4 /tmp/pam_u2f|"),
        (
            "su auth never asks pam_unix[nulok][!nulok][remember][quiet]",
            "P7 pam_unix nulok>nullok|P7 pam_unix remember>remember=|",
        ),
        (
            "su auth never succeeds with pam_faillock[dny>5]=any without pam_wheel[deny>5]=any",
            "P7 pam_faillock dny=>deny=|",
        ),
    ];
    for (rule, wanted) in rows {
        let said = said(rt.alloc(), rule)?;
        assert_eq!(rt; said.as_slice(), wanted.as_bytes(), "{rule}");
    }
    Ok(())
}

#[test]
fn calls_of_files(rt: HostRuntime) -> Result<(), Fail> {
    let mut files = Files::new(rt.alloc(), Form::Dir);
    let login = Vec::from_slice(rt.alloc(), b"login")?;
    let lines = b"auth required pam_unix.so nullok\nauth include common\nauth bad x.so\n";
    files.put(login, Vec::from_slice(rt.alloc(), lines)?)?;
    let rules = RuleFiles::read(rt.alloc(), &files)?;
    let calls = calls_in(rt.alloc(), &rules)?;
    assert_eq!(rt; calls.len(), 1);
    assert_eq!(rt; calls[0].path.as_slice(), b"pam_unix.so".as_slice());
    assert_eq!(rt; calls[0].arguments.len(), 1);
    Ok(())
}
