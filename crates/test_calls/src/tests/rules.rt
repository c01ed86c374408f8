//! The rules of a configuration file, in either form.

use crate::tests::same::same;
use pam_conf::{Body, FaultKind, Form, Kind, Rule, RuleFault, rules};
use pam_text::Texts;
use std::alloc::Global;
use std::process::Abort;
use std::test::Fail;

const THREE_LINES: &[u8] =
    b"auth required a.so [query=a \\] b] \\\n  debug # note \\\n-auth optional c.so";

/// The rules of `THREE_LINES`: the line of each, whether it has a dash, its module's path and its arguments.
static RULES: [(usize, bool, &[u8], &[&[u8]]); 2] = [
    (1, false, b"a.so", &[b"query=a ] b", b"debug"]),
    (3, true, b"c.so", &[]),
];

fn are(rt: &impl Abort, words: &Texts, wanted: &[&[u8]]) {
    same(rt, "how many arguments", &words.len(), &wanted.len());
    for (word, text) in words.iter().zip(wanted) {
        same(rt, "an argument", &word, text);
    }
}

/// Asserts that a rule has a module with this path and these arguments.
fn asks(rt: &impl Abort, rule: &Rule, path: &[u8], arguments: &[&[u8]]) {
    match &rule.body {
        Body::Module(_, found, words) => {
            same(rt, "the path", &found.as_slice(), &path);
            are(rt, words, arguments);
        }
        _ => assert!(rt; false, "no module is asked"),
    }
}

#[test]
fn continued_lines_brackets_comments_and_dashes(rt: HostRuntime) -> Result<(), Fail> {
    let found = rules(rt.alloc(), THREE_LINES, Form::Dir)?;
    same(&rt, "how many rules", &found.len(), &RULES.len());
    for (rule, (line, dashed, path, arguments)) in found.iter().zip(&RULES) {
        same(&rt, "the line", &rule.line, line);
        same(&rt, "the dash", &rule.dashed, dashed);
        same(&rt, "the kind", &rule.kind, &Some(Kind::Auth));
        asks(&rt, rule, path, arguments);
    }
    Ok(())
}

/// Returns the number of rules in a text, or its fault.
fn count(alloc: Global, text: &[u8]) -> Result<usize, RuleFault> {
    Ok(rules(alloc, text, Form::Dir)?.len())
}

#[test]
fn faults_of_a_whole_file(rt: HostRuntime) -> Result<(), Fail> {
    let kind = FaultKind::NulByte;
    let nul = count(rt.alloc(), b"autth\n# a \0\n\0");
    same(&rt, "zero bytes", &nul, &Err(RuleFault { kind, line: 2 }));
    let kind = FaultKind::FileTooLong;
    let long = count(rt.alloc(), &vec![in rt.alloc(); 0u8; 1_048_577]?);
    same(&rt, "too long", &long, &Err(RuleFault { kind, line: 0 }));
    let longest = count(rt.alloc(), &vec![in rt.alloc(); b'\n'; 1_048_576]?);
    same(&rt, "the longest", &longest, &Ok(0));
    Ok(())
}
