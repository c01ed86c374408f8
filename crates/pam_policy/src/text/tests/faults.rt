//! Faults of lines and files.

use super::same;
use crate::text::{Policy, PolicyFault};
use std::alloc::Global;
use std::test::Fail;

fn fault_of(alloc: Global, text: &str, rules_before: usize) -> Option<(PolicyFault, u32)> {
    match Policy::read(alloc, text.as_bytes(), rules_before) {
        Ok(_) => None,
        Err(error) => Some((error.fault, error.line)),
    }
}

#[test]
fn faults_of_lines(rt: HostRuntime) {
    let rows = [
        ("", None),
        ("# nothing\n \t\r\n  # more\n", None),
        ("sshd auth needs a#b # or c", None),
        ("sshd", Some(PolicyFault::MissingField)),
        ("sshd auth", Some(PolicyFault::MissingField)),
        ("sshd auth # needs a", Some(PolicyFault::MissingField)),
        ("sshd auth needs", Some(PolicyFault::MissingField)),
        ("sshd auth needs a or", Some(PolicyFault::MissingField)),
        ("sshd auth always", Some(PolicyFault::MissingField)),
        ("sshd auth never", Some(PolicyFault::MissingField)),
        ("sshd auth never decides", Some(PolicyFault::MissingField)),
        ("sshd auth never ends", Some(PolicyFault::MissingField)),
        ("sshd auth can end", Some(PolicyFault::MissingField)),
        (
            "sshd auth can succeed with",
            Some(PolicyFault::MissingField),
        ),
        ("sshd auth asks a before", Some(PolicyFault::MissingField)),
        ("sshd auth needs a=sucess", Some(PolicyFault::BadCode)),
        ("sshd auth needs a=", Some(PolicyFault::BadCode)),
        ("sshd auth needs a=success,", Some(PolicyFault::BadCode)),
        ("sshd auth needs a=any,success", Some(PolicyFault::BadCode)),
        (
            "sshd auth never decides but:failure,success,new_authtok_reqd,ignore",
            Some(PolicyFault::BadCode),
        ),
        ("sshd,,login auth needs a", Some(PolicyFault::BadServices)),
        ("s*d* auth needs a", Some(PolicyFault::BadServices)),
        ("pam.d/sshd auth needs a", Some(PolicyFault::BadServices)),
        ("!!sshd,a auth needs a", Some(PolicyFault::BadServices)),
        ("!sshd auth needs a", Some(PolicyFault::BadServices)),
        ("!sshd", Some(PolicyFault::BadServices)),
        ("sshd auths needs a", Some(PolicyFault::BadKinds)),
        ("sshd auth,* needs a", Some(PolicyFault::BadKinds)),
        ("sshd auth need a", Some(PolicyFault::BadVerb)),
        ("sshd auth Needs a", Some(PolicyFault::BadVerb)),
        ("sshd auth always ask a", Some(PolicyFault::BadVerb)),
        ("sshd auth never needs a", Some(PolicyFault::BadVerb)),
        ("sshd auth can or", Some(PolicyFault::BadVerb)),
        ("sshd auth needs or", Some(PolicyFault::BadEvent)),
        ("sshd auth needs with=any", Some(PolicyFault::BadEvent)),
        ("sshd auth needs [a]", Some(PolicyFault::BadEvent)),
        ("sshd auth needs a[]", Some(PolicyFault::BadEvent)),
        ("sshd auth needs a[!]", Some(PolicyFault::BadEvent)),
        ("sshd auth needs a[b", Some(PolicyFault::BadEvent)),
        ("sshd auth needs a]", Some(PolicyFault::BadEvent)),
        ("sshd auth needs a[b]c", Some(PolicyFault::BadEvent)),
        ("sshd auth needs =any", Some(PolicyFault::BadEvent)),
        ("sshd auth needs a or b and c", Some(PolicyFault::BadList)),
        ("sshd auth obeys a or b", Some(PolicyFault::BadList)),
        (
            "sshd auth never asks a and b and c and d and e",
            Some(PolicyFault::BadList),
        ),
        ("sshd auth never asks a and b and c and d", None),
        ("sshd auth never asks a or b or c or d or e", None),
        ("sshd auth needs a and b and c and d and e", None),
        (
            "sshd auth can end with a=any and a=any and a=any and a=any and a=any",
            Some(PolicyFault::BadList),
        ),
        (
            "sshd auth never succeeds with a",
            Some(PolicyFault::NoAnswers),
        ),
        ("sshd auth can fail without a", Some(PolicyFault::NoAnswers)),
        ("sshd auth needs a b", Some(PolicyFault::ExtraWord)),
        ("sshd auth never ends a", Some(PolicyFault::ExtraWord)),
        (
            "sshd auth never fails without a=any with b=any",
            Some(PolicyFault::ExtraWord),
        ),
        ("sshd auth needs a before b", Some(PolicyFault::ExtraWord)),
    ];
    for (text, fault) in rows {
        let wanted = fault.map(|fault| (fault, 1));
        same(&rt, text, &fault_of(rt.alloc(), text, 0), &wanted);
    }
}

#[test]
fn faults_of_files(rt: HostRuntime) -> Result<(), Fail> {
    let long = vec![in rt.alloc(); b' '; 1_048_577]?;
    let error = Policy::read(rt.alloc(), &long, 0).err();
    same(
        &rt,
        "too long",
        &error.map(|e| (e.fault, e.line)),
        &Some((PolicyFault::TableTooLong, 0)),
    );
    let fault = fault_of(rt.alloc(), "\nsshd\n# \0", 0);
    same(&rt, "NUL", &fault, &Some((PolicyFault::NulByte, 3)));
    let two = "* * needs a\n#\n\n* * needs b";
    same(&rt, "1000 rules", &fault_of(rt.alloc(), two, 998), &None);
    let fault = fault_of(rt.alloc(), two, 999);
    same(
        &rt,
        "1001 rules",
        &fault,
        &Some((PolicyFault::TooManyRules, 4)),
    );
    let fault = fault_of(rt.alloc(), "* * needs a\n* * needs", 999);
    same(
        &rt,
        "a rule too many",
        &fault,
        &Some((PolicyFault::TooManyRules, 2)),
    );
    Ok(())
}
