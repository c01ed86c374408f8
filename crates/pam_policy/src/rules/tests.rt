//! Rules at small stacks, whose verdicts are worked out by hand.

use super::{JudgeError, Site, Verdict, can_end, can_happen, judge};
use crate::search::Run;
use crate::text::{Codes, Condition, Ending, Event, Events, Policy, Sentence};
use pam_codes::CodeSet;
use pam_conf::{Files, Form, Kind, Stack, resolve};
use pam_dispatch::Program;
use pam_facts::Facts;
use pam_graph::Graph;
use pam_paths::Known;
use std::alloc::Global;
use std::process::Abort;
use std::test::Fail;

/// Answers of modules: the number of each, and of its code.
type Answers<'a> = &'a [(usize, u8)];

/// A stack of a service, as rules of one kind.
#[derive(Clone, Copy)]
struct Case<'a> {
    alloc: Global,
    kind: Kind,
    rules: &'a [u8],
}

/// A stack, its runs and what is known of it.
#[derive(Drop)]
struct Ready<'a> {
    stack: Stack,
    facts: Facts<'a>,
    known: Known,
    graph: Graph,
}

/// The steps of a run, and then its decision, as an answer of module 0.
fn steps_of(alloc: Global, run: &Run) -> Result<Vec<(usize, u8)>, Fail> {
    let mut shown = Vec::new(alloc);
    for step in &run.steps {
        shown.push((step.module_number, step.code.number()))?;
    }
    shown.push((0, run.decision.number()))?;
    Ok(shown)
}

impl Case<'_> {
    fn ready(&self) -> Result<Ready<'static>, Fail> {
        let alloc = self.alloc;
        let mut files = Files::new(alloc, Form::Dir);
        files.put(b"sshd".as_slice().to_vec(alloc)?, self.rules.to_vec(alloc)?)?;
        let stack = resolve(alloc, &files, b"sshd", self.kind)?;
        let facts = Facts::read(alloc, b"")?;
        let known = facts.answers(&stack, self.kind, None);
        let program = Program::of(alloc, &stack)?;
        let graph = Graph::of(alloc, &program, &known)?;
        Ok(Ready {
            stack,
            facts,
            known,
            graph,
        })
    }

    /// What is said of the rule of a line.
    fn judged(&self, line: &[u8]) -> Result<Verdict, Fail> {
        let policy = Policy::read(self.alloc, line, 0)?;
        let rule = policy.rules.first().ok_or("no rule")?;
        let ready = self.ready()?;
        let site = ready.site(self.kind);
        let verdict = judge(self.alloc, &site, &rule.sentence)?;
        Ok(verdict)
    }

    fn holds(&self, rt: &impl Abort, line: &[u8]) -> Result<(), Fail> {
        assert!(rt; matches!(self.judged(line)?, Verdict::Holds));
        Ok(())
    }

    fn is_impossible(&self, rt: &impl Abort, line: &[u8]) -> Result<(), Fail> {
        assert!(rt; matches!(self.judged(line)?, Verdict::Impossible));
        Ok(())
    }

    fn is_broken(&self, rt: &impl Abort, line: &[u8], wanted: Answers) -> Result<(), Fail> {
        match self.judged(line)? {
            Verdict::Broken(run) => {
                assert_eq!(rt; steps_of(self.alloc, &run)?.as_slice(), wanted)
            }
            _ => assert!(rt; false, "it is not broken"),
        }
        Ok(())
    }

    fn is_shown(&self, rt: &impl Abort, line: &[u8], wanted: Answers) -> Result<(), Fail> {
        match self.judged(line)? {
            Verdict::Shown(run) => {
                assert_eq!(rt; steps_of(self.alloc, &run)?.as_slice(), wanted)
            }
            _ => assert!(rt; false, "it is not shown"),
        }
        Ok(())
    }

    /// Whether the events of the rule of a line can happen, and whether the stack can end as it says.
    fn concerns(&self, line: &[u8]) -> Result<(bool, bool), Fail> {
        let policy = Policy::read(self.alloc, line, 0)?;
        let rule = policy.rules.first().ok_or("no rule")?;
        let ready = self.ready()?;
        let site = ready.site(self.kind);
        let happen = can_happen(self.alloc, &site, &rule.sentence)?;
        let end = can_end(self.alloc, &site, &rule.sentence)?;
        Ok((happen, end))
    }
}

impl<'a> Ready<'a> {
    fn site(&self, kind: Kind) -> Site<'_, 'a> {
        Site {
            kind,
            stack: &self.stack,
            facts: &self.facts,
            known: &self.known,
            graph: &self.graph,
        }
    }
}

fn case_of<'a>(rt: &HostRuntime, kind: Kind, rules: &'a [u8]) -> Case<'a> {
    Case {
        alloc: rt.alloc(),
        kind,
        rules,
    }
}

/// A password and then a code of a token, which users without one need not give.
const TOKEN: &[u8] = b"auth requisite pam_faillock.so preauth
auth [success=2 default=ignore] pam_unix.so try_first_pass nullok
auth [default=die] pam_faillock.so authfail
auth requisite pam_deny.so
auth required pam_permit.so
auth optional pam_cap.so
auth required pam_google_authenticator.so nullok
";

#[test]
fn a_token_that_may_be_missing(rt: HostRuntime) -> Result<(), Fail> {
    let case = case_of(&rt, Kind::Auth, TOKEN);
    let broken = [(1, 0), (2, 0), (5, 0), (6, 0), (7, 25), (0, 0)];
    case.is_broken(
        &rt,
        b"sshd auth needs pam_u2f or pam_google_authenticator",
        &broken,
    )?;
    case.holds(&rt, b"sshd auth needs pam_unix or pam_sss")?;
    case.is_broken(
        &rt,
        b"* * never asks pam_unix[nullok]",
        &[(1, 0), (2, 7), (3, 0), (0, 6)],
    )
}

#[test]
fn an_optional_module(rt: HostRuntime) -> Result<(), Fail> {
    let case = case_of(
        &rt,
        Kind::Auth,
        b"auth optional pam_u2f.so\nauth required pam_unix.so\n",
    );
    case.is_broken(&rt, b"sshd auth needs pam_u2f", &[(1, 7), (2, 0), (0, 0)])?;
    case.holds(&rt, b"sshd auth always asks pam_u2f")
}

#[test]
fn modules_of_the_system(rt: HostRuntime) -> Result<(), Fail> {
    let case = case_of(&rt, Kind::Auth, b"auth required /tmp/pam_u2f.so\n");
    case.is_broken(&rt, b"sshd auth needs pam_u2f", &[(1, 0), (0, 0)])?;
    case.is_broken(&rt, b"sshd auth never asks pam_u2f", &[(1, 0), (0, 0)])?;
    case.holds(&rt, b"sshd auth needs /tmp/pam_u2f.so")?;
    case.is_impossible(&rt, b"sshd auth can ask pam_u2f")?;
    case.is_impossible(&rt, b"sshd auth can succeed without pam_u2f=any")
}

#[test]
fn a_new_password(rt: HostRuntime) -> Result<(), Fail> {
    let account = case_of(&rt, Kind::Account, b"account required pam_a.so\n");
    account.is_broken(
        &rt,
        b"sshd account never succeeds with pam_a=new_authtok_reqd",
        &[(1, 12), (0, 12)],
    )?;
    let auth = case_of(&rt, Kind::Auth, b"auth required pam_a.so\n");
    auth.holds(&rt, b"sshd auth never succeeds with pam_a=new_authtok_reqd")
}

#[test]
fn each_of_some_events(rt: HostRuntime) -> Result<(), Fail> {
    let enough = case_of(
        &rt,
        Kind::Auth,
        b"auth sufficient pam_a.so\nauth required pam_b.so\n",
    );
    enough.is_broken(&rt, b"sshd auth needs pam_a and pam_b", &[(1, 0), (0, 0)])?;
    enough.holds(&rt, b"sshd auth needs pam_a or pam_b")?;
    enough.is_broken(
        &rt,
        b"sshd auth never ends with pam_a=failure and pam_b=success",
        &[(1, 7), (2, 0), (0, 0)],
    )?;
    enough.holds(
        &rt,
        b"sshd auth never succeeds with pam_a=success and pam_b=any",
    )
}

#[test]
fn events_in_order(rt: HostRuntime) -> Result<(), Fail> {
    let three = case_of(
        &rt,
        Kind::Auth,
        b"auth required pam_a.so\nauth required pam_b.so\nauth required pam_c.so\n",
    );
    let all = [(1, 0), (2, 0), (3, 0), (0, 0)];
    three.holds(&rt, b"sshd auth asks pam_a before pam_b")?;
    three.is_broken(&rt, b"sshd auth asks pam_b before pam_a", &all)?;
    three.is_broken(&rt, b"sshd auth asks pam_a before pam_a", &all)?;
    three.holds(&rt, b"sshd auth asks pam_a and pam_b before pam_c")?;
    three.is_broken(&rt, b"sshd auth asks pam_a and pam_c before pam_b", &all)?;
    three.is_broken(
        &rt,
        b"sshd auth asks pam_a=success before pam_c=auth_err",
        &[(1, 7), (2, 0), (3, 7), (0, 7)],
    )
}

#[test]
fn arguments(rt: HostRuntime) -> Result<(), Fail> {
    let case = case_of(
        &rt,
        Kind::Auth,
        b"auth required pam_faillock.so deny=3 deny=10\n",
    );
    let asked = [(1, 0), (0, 0)];
    case.is_broken(&rt, b"sshd auth never asks pam_faillock[deny>5]", &asked)?;
    case.holds(&rt, b"sshd auth never asks pam_faillock[deny<5]")?;
    case.holds(&rt, b"sshd auth never asks pam_faillock[!deny=]")?;
    case.is_broken(
        &rt,
        b"sshd auth never asks pam_faillock[!preauth][deny=10]",
        &asked,
    )
}

#[test]
fn what_can_be(rt: HostRuntime) -> Result<(), Fail> {
    let line = b"sshd auth can succeed without pam_a=but:authinfo_unavail";
    let enough = case_of(
        &rt,
        Kind::Auth,
        b"auth sufficient pam_a.so\nauth required pam_b.so\n",
    );
    enough.is_shown(&rt, line, &[(1, 9), (2, 0), (0, 0)])?;
    case_of(&rt, Kind::Auth, b"auth required pam_a.so\n").is_impossible(&rt, line)
}

#[test]
fn rules_that_say_nothing(rt: HostRuntime) -> Result<(), Fail> {
    let case = case_of(
        &rt,
        Kind::Auth,
        b"auth required pam_a.so\nauth requisite pam_deny.so\n",
    );
    assert_eq!(rt; case.concerns(b"sshd auth obeys pam_a")?, (true, false));
    assert_eq!(rt;
        case.concerns(b"sshd auth never fails with pam_b=any")?,
        (false, true)
    );
    assert_eq!(rt;
        case.concerns(b"sshd auth asks pam_a before pam_b")?,
        (false, true)
    );
    assert_eq!(rt;
        case.concerns(b"sshd auth asks pam_b before pam_a")?,
        (true, true)
    );
    Ok(())
}

#[test]
fn more_events_than_are_read(rt: HostRuntime) -> Result<(), Fail> {
    let alloc = rt.alloc();
    let case = case_of(&rt, Kind::Auth, b"auth required pam_a.so\n");
    let ready = case.ready()?;
    let mut five = Vec::new(alloc);
    for _ in 0..5 {
        five.push(Event {
            name: b"pam_a",
            tests: Vec::new(alloc),
            codes: Codes::Given(CodeSet::all()),
        })?;
    }
    let sentence = Sentence::Never(Condition {
        ending: Ending::Ends,
        with: Some(Events::And(five)),
        without: None,
    });
    let judged = judge(alloc, &ready.site(Kind::Auth), &sentence);
    assert!(rt; matches!(judged, Err(JudgeError::TooManyTogether)));
    Ok(())
}
