//! Sentences: their forms, endings and lists.

use super::same;
use crate::text::{Codes, Ending, Events, Policy, Sentence};
use pam_codes::{Code, CodeSet};
use std::alloc::Global;
use std::process::Abort;
use std::test::Fail;

/// How the events of a list are joined, if there is a list.
#[derive(Clone, Copy, Debug, PartialEq, Eq)]
enum Joint {
    NoList,
    Or,
    And,
}

#[derive(Clone, Copy, Debug, PartialEq, Eq)]
enum Form {
    Never,
    Can,
    Before,
}

/// A list of events: its joint, the number of its events, and the codes of the first.
type Listed = (Joint, usize, Option<Codes>);

fn listed(events: Option<&Events<'_>>) -> Listed {
    match events {
        Some(Events::Or(events)) => (
            Joint::Or,
            events.len(),
            events.first().map(|event| event.codes),
        ),
        Some(Events::And(events)) => (
            Joint::And,
            events.len(),
            events.first().map(|event| event.codes),
        ),
        None => (Joint::NoList, 0, None),
    }
}

/// A sentence: its form, its ending, and its lists.
type Shape = (Form, Option<Ending>, Listed, Listed);

fn shape_of(sentence: &Sentence<'_>) -> Shape {
    match sentence {
        Sentence::Never(condition) => (
            Form::Never,
            Some(condition.ending),
            listed(condition.with.as_ref()),
            listed(condition.without.as_ref()),
        ),
        Sentence::Can(condition) => (
            Form::Can,
            Some(condition.ending),
            listed(condition.with.as_ref()),
            listed(condition.without.as_ref()),
        ),
        Sentence::Before(first, others) => (
            Form::Before,
            None,
            listed(Some(first)),
            listed(Some(others)),
        ),
    }
}

fn expect_shape(rt: &impl Abort, alloc: Global, text: &str, wanted: &Shape) -> Result<(), Fail> {
    let policy = Policy::read(alloc, text.as_bytes(), 0)?;
    let shape = policy.rules.first().map(|rule| shape_of(&rule.sentence));
    same(rt, text, &shape, &Some(*wanted));
    Ok(())
}

fn codes_of(codes: &[Code]) -> CodeSet {
    let mut set = CodeSet::empty();
    for code in codes {
        set.insert(*code);
    }
    set
}

fn no_list() -> Listed {
    (Joint::NoList, 0, None)
}

fn or(count: usize, codes: Codes) -> Listed {
    (Joint::Or, count, Some(codes))
}

fn and(count: usize, codes: Codes) -> Listed {
    (Joint::And, count, Some(codes))
}

fn never(ending: Ending, with: Listed, without: Listed) -> Shape {
    (Form::Never, Some(ending), with, without)
}

fn can(ending: Ending, with: Listed, without: Listed) -> Shape {
    (Form::Can, Some(ending), with, without)
}

fn before(first: Listed, others: Listed) -> Shape {
    (Form::Before, None, first, others)
}

fn failures() -> CodeSet {
    CodeSet::all().without(codes_of(&[Code::SUCCESS, Code::NEW_AUTHTOK_REQD, Code::IGNORE]))
}

fn failing() -> Codes {
    Codes::Given(failures())
}

fn any() -> Codes {
    Codes::Given(CodeSet::all())
}

#[test]
fn sentences(rt: HostRuntime) -> Result<(), Fail> {
    let rows = [
        (
            "* * needs a or b",
            never(Ending::Succeeds, no_list(), or(2, Codes::LetsGoOn)),
        ),
        (
            "* * needs a and b",
            never(Ending::Succeeds, no_list(), and(2, Codes::LetsGoOn)),
        ),
        (
            "* * needs a=failure",
            never(Ending::Succeeds, no_list(), or(1, failing())),
        ),
        (
            "* * obeys a",
            never(Ending::Succeeds, or(1, failing()), no_list()),
        ),
        (
            "* * obeys a and b",
            never(Ending::Succeeds, or(2, failing()), no_list()),
        ),
        (
            "* * always asks a",
            never(Ending::Ends, no_list(), or(1, any())),
        ),
        (
            "* * asks a and b",
            never(Ending::Ends, no_list(), and(2, any())),
        ),
        ("* * asks a before b", before(or(1, any()), or(1, any()))),
        (
            "* * always asks a and b before c and d",
            before(and(2, any()), or(2, any())),
        ),
        (
            "* * never asks a",
            never(Ending::Ends, or(1, any()), no_list()),
        ),
        (
            "* * never ask a and b",
            never(Ending::Ends, and(2, any()), no_list()),
        ),
        (
            "* * can ask a or b",
            can(Ending::Ends, or(2, any()), no_list()),
        ),
        (
            "* * never succeeds",
            never(Ending::Succeeds, no_list(), no_list()),
        ),
        (
            "* * can succeed without a=FAILURE",
            can(Ending::Succeeds, no_list(), or(1, failing())),
        ),
        (
            "* * never fail with a=but:success,new_authtok_reqd,ignore and b=any without c=Any",
            never(Ending::Fails, and(2, failing()), or(1, any())),
        ),
        (
            "* * can end with a=any",
            can(Ending::Ends, or(1, any()), no_list()),
        ),
        (
            "* * never decides SUCCESS",
            never(
                Ending::Decides(codes_of(&[Code::SUCCESS])),
                no_list(),
                no_list(),
            ),
        ),
        (
            "* * can decide failure",
            can(Ending::Decides(failures()), no_list(), no_list()),
        ),
    ];
    for (text, wanted) in rows {
        expect_shape(&rt, rt.alloc(), text, &wanted)?;
    }
    Ok(())
}
