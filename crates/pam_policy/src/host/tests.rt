//! What a small host says of rules, worked out by hand.

use super::{Finding, Idle, Place, RuleReport, Stacks};
use crate::names::{Call, Host, Misnamed};
use crate::rules::{Site, Verdict};
use crate::text::Policy;
use pam_conf::{Files, Form, Kind, Stack, resolve};
use pam_dispatch::Program;
use pam_facts::Facts;
use pam_graph::Graph;
use pam_paths::Known;
use pam_text::Texts;
use std::alloc::{AllocError, Global};
use std::process::Abort;
use std::test::Fail;

/// A stack, its runs and what is known of it.
#[derive(Drop)]
struct Ready<'a> {
    stack: Stack,
    facts: Facts<'a>,
    known: Known,
    graph: Graph,
}

impl<'a> Ready<'a> {
    fn of(alloc: Global, rules: &[u8]) -> Result<Ready<'static>, Fail> {
        let mut files = Files::new(alloc, Form::Dir);
        files.put(b"sshd".as_slice().to_vec(alloc)?, rules.to_vec(alloc)?)?;
        let stack = resolve(alloc, &files, b"sshd", Kind::Auth)?;
        let facts = Facts::read(alloc, b"")?;
        let known = facts.answers(&stack, Kind::Auth, None);
        let program = Program::of(alloc, &stack)?;
        let graph = Graph::of(alloc, &program, &known)?;
        Ok(Ready {
            stack,
            facts,
            known,
            graph,
        })
    }

    fn site(&self) -> Site<'_, 'a> {
        Site {
            kind: Kind::Auth,
            stack: &self.stack,
            facts: &self.facts,
            known: &self.known,
            graph: &self.graph,
        }
    }
}

/// The texts between spaces.
fn texts(alloc: Global, words: &[u8]) -> Result<Texts, AllocError> {
    let mut texts = Texts::new(alloc);
    for word in words.split(|byte| *byte == b' ') {
        texts.push(word)?;
    }
    Ok(texts)
}

fn call(alloc: Global, path: &[u8], arguments: &[u8]) -> Result<Call, AllocError> {
    let path = Vec::from_slice(alloc, path)?;
    let arguments = texts(alloc, arguments)?;
    Ok(Call { path, arguments })
}

fn place(service: &[u8], kind: Kind, class: usize) -> Place<'_> {
    Place {
        service,
        kind,
        class,
    }
}

fn put_classes(alloc: Global, text: &mut String, report: &RuleReport) -> Result<(), Fail> {
    for place in &report.places {
        let number = format!(in alloc; "{place} ")?;
        text.push_str(number.as_str())?;
    }
    for of_class in &report.classes {
        let sign = match &of_class.verdict {
            Some(Verdict::Holds) => "holds",
            Some(Verdict::Broken(_)) => "broken",
            Some(Verdict::Shown(_)) => "shown",
            Some(Verdict::Impossible) => "impossible",
            None => "unknown",
        };
        let class = format!(in alloc; "| {} {sign} ", of_class.class)?;
        text.push_str(class.as_str())?;
    }
    Ok(())
}

/// Writes a finding: its number, and its class or what is the matter.
fn put(alloc: Global, text: &mut String, finding: &Finding<'_>) -> Result<(), Fail> {
    let words = match finding {
        Finding::Broken(class, run) => format!(in alloc; "P1 {class} {}", run.steps.len())?,
        Finding::Impossible(class) => format!(in alloc; "P2 {class}")?,
        Finding::Misnamed(Misnamed::NoService(_)) => format!(in alloc; "P3 name")?,
        Finding::Misnamed(Misnamed::FitsNone) => format!(in alloc; "P3 none")?,
        Finding::Misnamed(Misnamed::NoModule(_)) => format!(in alloc; "P4")?,
        Finding::SaysNothing(Idle::CannotHappen) => format!(in alloc; "P5 happen")?,
        Finding::SaysNothing(Idle::CannotEnd) => format!(in alloc; "P5 end")?,
        Finding::NotKnown(class) => format!(in alloc; "P6 {class}")?,
        Finding::Misnamed(Misnamed::NoArgument(_)) => format!(in alloc; "P7")?,
    };
    text.push_str("; ")?;
    text.push_str(words.as_str())?;
    Ok(())
}

/// What these stacks say of a rule, on a host whose rules call two modules.
fn told(alloc: Global, stacks: &Stacks<'_, '_>, rule: &str) -> Result<String, Fail> {
    let services = texts(alloc, b"cron login other sshd su")?;
    let calls = [
        call(alloc, b"pam_unix.so", b"nullok")?,
        call(alloc, b"pam_u2f.so", b"")?,
    ];
    let known = texts(alloc, b"pam_deny")?;
    let host = Host {
        services: &services,
        calls: &calls,
        known: &known,
        there: None,
    };
    let policy = Policy::read(alloc, rule.as_bytes(), 0)?;
    let mut text = String::new(alloc);
    for rule in &policy.rules {
        let report = RuleReport::of(alloc, &host, stacks, rule)?;
        put_classes(alloc, &mut text, &report)?;
        for finding in &report.findings(alloc)? {
            put(alloc, &mut text, finding)?;
        }
    }
    Ok(text)
}

/// A host with the stacks of `sshd` and `su`, which are equal, and those of `login`, of `cron`, which is refused, and of `other`, which
/// lets nobody in; and with `sshd` for accounts, of which nothing is known.
#[derive(Drop)]
struct Small {
    two: Ready<'static>,
    one: Ready<'static>,
    deny: Ready<'static>,
}

impl Small {
    fn new(alloc: Global) -> Result<Small, Fail> {
        let two = Ready::of(
            alloc,
            b"auth required pam_unix.so nullok\nauth required pam_u2f.so\n",
        )?;
        let one = Ready::of(alloc, b"auth required pam_unix.so\n")?;
        let deny = Ready::of(alloc, b"auth required pam_deny.so\n")?;
        Ok(Small { two, one, deny })
    }

    fn classes(&self) -> [Option<Site<'_, 'static>>; 4] {
        [
            Some(self.two.site()),
            Some(self.one.site()),
            None,
            Some(self.deny.site()),
        ]
    }
}

/// What this host says of a rule.
fn said(alloc: Global, rule: &str) -> Result<String, Fail> {
    let host = Small::new(alloc)?;
    let classes = host.classes();
    let places = [
        place(b"sshd", Kind::Auth, 0),
        place(b"login", Kind::Auth, 1),
        place(b"su", Kind::Auth, 0),
        place(b"cron", Kind::Auth, 2),
        place(b"sshd", Kind::Account, 7),
        place(b"other", Kind::Auth, 3),
    ];
    let stacks = Stacks {
        places: &places,
        classes: &classes,
    };
    told(alloc, &stacks, rule)
}

fn says(rt: &(impl Abort + Copy), alloc: Global, rule: &str, wanted: &str) -> Result<(), Fail> {
    let said = said(alloc, rule)?;
    assert_eq!(rt; said.as_str(), wanted, "{rule}");
    Ok(())
}

#[test]
fn classes_are_judged_once(rt: HostRuntime) -> Result<(), Fail> {
    let alloc = rt.alloc();
    says(
        &rt,
        alloc,
        "sshd,login,su auth always asks pam_u2f",
        "0 1 2 | 0 holds | 1 broken ; P1 1 1",
    )?;
    says(
        &rt,
        alloc,
        "login,s* auth can succeed without pam_u2f=any",
        "0 1 2 | 0 impossible | 1 shown ; P2 0",
    )?;
    says(
        &rt,
        alloc,
        "su,login auth asks pam_unix before pam_u2f",
        "1 2 | 1 holds | 0 holds ",
    )
}

#[test]
fn rules_that_say_nothing(rt: HostRuntime) -> Result<(), Fail> {
    let alloc = rt.alloc();
    says(
        &rt,
        alloc,
        "login auth asks pam_unix before pam_u2f",
        "1 | 1 holds ; P5 happen",
    )?;
    says(
        &rt,
        alloc,
        "sshd,login auth never succeeds with pam_u2f[quiet]=success",
        "0 1 | 0 holds | 1 holds ; P5 happen",
    )?;
    says(
        &rt,
        alloc,
        "other auth never succeeds with pam_deny=any",
        "5 | 3 holds ; P5 end",
    )?;
    says(&rt, alloc, "login auth never asks pam_u2f", "1 | 1 holds ")?;
    says(&rt, alloc, "other auth never succeeds", "5 | 3 holds ")
}

#[test]
fn classes_that_are_not_known(rt: HostRuntime) -> Result<(), Fail> {
    let alloc = rt.alloc();
    says(
        &rt,
        alloc,
        "*,!other auth always asks pam_unix",
        "0 1 2 3 | 0 holds | 1 holds | 2 unknown ; P6 2",
    )?;
    says(
        &rt,
        alloc,
        "sshd auth,account never succeeds with pam_u2f[quiet]=success",
        "0 4 | 0 holds | 7 unknown ; P6 7",
    )?;
    says(&rt, alloc, "cron auth can succeed", "3 | 2 unknown ; P6 2")
}

#[test]
fn words_that_name_nothing(rt: HostRuntime) -> Result<(), Fail> {
    let alloc = rt.alloc();
    says(&rt, alloc, "ssh auth never asks pam_unix", "; P3 name")?;
    says(&rt, alloc, "gdm* auth needs pam_unix", "; P3 none")?;
    says(
        &rt,
        alloc,
        "*,!other,ssh auth needs pam_u2g[quiet] or pam_unix[nulok]",
        "0 1 2 3 | 0 broken | 1 broken | 2 unknown ; P1 0 2; P1 1 1; P3 name; P4; P6 2; P7",
    )
}
