//! The rules that hold of small stacks, worked out by hand.

use super::{StackEvent, Suggestion, suggestions};
use crate::rules::Site;
use pam_conf::{Files, Form, Kind, Stack, resolve};
use pam_dispatch::Program;
use pam_facts::Facts;
use pam_graph::Graph;
use std::alloc::Global;
use std::test::Fail;

/// Adds an event as a policy has it.
fn add_event(stack: &Stack, event: StackEvent, text: &mut Vec<u8>) -> Result<(), Fail> {
    text.extend_from_slice(event.name(stack))?;
    if let Some(argument) = event.argument(stack) {
        text.push(b'[')?;
        text.extend_from_slice(argument)?;
        text.push(b']')?;
    }
    Ok(())
}

/// Adds the sentence of a rule.
fn add_sentence(stack: &Stack, rule: &Suggestion, text: &mut Vec<u8>) -> Result<(), Fail> {
    match rule {
        Suggestion::Needs(events) => {
            let mut joint = b"needs ".as_slice();
            for event in events {
                text.extend_from_slice(joint)?;
                add_event(stack, *event, text)?;
                joint = b" or ";
            }
        }
        Suggestion::Obeys(event) => {
            text.extend_from_slice(b"obeys ")?;
            add_event(stack, *event, text)?;
        }
        Suggestion::NeedsAsked(event) => {
            text.extend_from_slice(b"needs ")?;
            add_event(stack, *event, text)?;
            text.extend_from_slice(b"=any")?;
        }
        Suggestion::AlwaysAsks(event) => {
            text.extend_from_slice(b"always asks ")?;
            add_event(stack, *event, text)?;
        }
    }
    text.push(b'\n')?;
    Ok(())
}

/// Two modules of which the answers are known.
const FACTS: &[u8] = b"pam_password checks auth success auth_err
pam_token checks auth success auth_err
";

/// The sentences that hold of the stack of a service with these rules, or that there is no way in.
fn sentences_of(alloc: Global, kind: Kind, rules: &[u8]) -> Result<Vec<u8>, Fail> {
    let mut files = Files::new(alloc, Form::Dir);
    files.put(b"su".as_slice().to_vec(alloc)?, rules.to_vec(alloc)?)?;
    let stack = resolve(alloc, &files, b"su", kind)?;
    let facts = Facts::read(alloc, FACTS)?;
    let known = facts.answers(&stack, kind, None);
    let program = Program::of(alloc, &stack)?;
    let graph = Graph::of(alloc, &program, &known)?;
    let site = Site {
        kind,
        stack: &stack,
        facts: &facts,
        known: &known,
        graph: &graph,
    };
    let mut text = Vec::new(alloc);
    let found = suggestions(alloc, &site)?;
    match found {
        Some(rules) => {
            for rule in &rules {
                add_sentence(&stack, rule, &mut text)?;
            }
        }
        None => text.extend_from_slice(b"no way in\n")?,
    }
    Ok(text)
}

/// `su`, for root and for the members of a group.
const SU: &[u8] = b"auth sufficient pam_rootok.so
auth required pam_wheel.so use_uid group=sugroup
auth requisite pam_faillock.so preauth
auth [success=2 default=ignore] pam_unix.so try_first_pass
auth [default=die] pam_faillock.so authfail
auth requisite pam_deny.so
auth required pam_permit.so
auth optional pam_cap.so
";

#[test]
fn members_of_a_group(rt: HostRuntime) -> Result<(), Fail> {
    let text = sentences_of(rt.alloc(), Kind::Auth, SU)?;
    assert_eq!(rt;
        text.as_slice(),
        b"needs pam_rootok or pam_unix
needs pam_rootok or pam_wheel
needs pam_rootok or pam_faillock
obeys pam_wheel
obeys pam_faillock
obeys pam_unix
always asks pam_rootok
"
            .as_slice()
    );
    Ok(())
}

#[test]
fn a_second_factor(rt: HostRuntime) -> Result<(), Fail> {
    let text = sentences_of(
        rt.alloc(),
        Kind::Auth,
        b"auth requisite pam_password.so\nauth required pam_token.so\nauth optional pam_cap.so\n",
    )?;
    assert_eq!(rt;
        text.as_slice(),
        b"needs pam_password
needs pam_token
obeys pam_password
obeys pam_token
needs pam_cap=any
always asks pam_password
"
            .as_slice()
    );
    Ok(())
}

/// Modules of one name, the last with arguments of which rules can say only the last.
const ONE_NAME: &[u8] = b"auth required pam_unix.so first both
auth sufficient pam_unix.so both nullok
auth required pam_unix.so both !third [fo ur] f[ifth six= seven
";

#[test]
fn arguments_that_one_module_has(rt: HostRuntime) -> Result<(), Fail> {
    let text = sentences_of(rt.alloc(), Kind::Auth, ONE_NAME)?;
    assert_eq!(rt;
        text.as_slice(),
        b"needs pam_unix
obeys pam_unix[first]
obeys pam_unix[seven]
always asks pam_unix
"
            .as_slice()
    );
    Ok(())
}

#[test]
fn no_way_in(rt: HostRuntime) -> Result<(), Fail> {
    let text = sentences_of(rt.alloc(), Kind::Auth, b"auth requisite pam_deny.so\n")?;
    assert_eq!(rt; text.as_slice(), b"no way in\n".as_slice());
    Ok(())
}
