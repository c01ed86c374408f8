//! Small stacks whose witnesses are worked out by hand.

use super::{Marks, Query, search};
use arrayvec::ArrayVec;
use pam_codes::{Code, CodeSet};
use pam_conf::{Files, Form, Kind, Stack, resolve};
use pam_dispatch::{MAX_MODULES, Program};
use pam_graph::Graph;
use pam_paths::Known;
use std::alloc::Global;
use std::process::Abort;
use std::test::Fail;

/// Answers of modules: the number of each, and of its code.
type Answers<'a> = &'a [(usize, u8)];

/// The stack of these rules of a service, for the kind `auth`.
fn stack_of(alloc: Global, rules: &[u8]) -> Result<Stack, Fail> {
    let mut files = Files::new(alloc, Form::Dir);
    files.put(b"login".as_slice().to_vec(alloc)?, rules.to_vec(alloc)?)?;
    Ok(resolve(alloc, &files, b"login", Kind::Auth)?)
}

fn codes_of(numbers: &[u8]) -> CodeSet {
    let mut codes = CodeSet::empty();
    for number in numbers {
        if let Some(code) = Code::new(*number) {
            codes.insert(code);
        }
    }
    codes
}

/// The event that happens by these answers.
fn event(answers: Answers) -> Marks {
    let mut marks = Marks::new();
    for (number, code) in answers {
        if 1 <= *number && *number <= MAX_MODULES {
            marks.add(*number, codes_of(&[*code]));
        }
    }
    marks
}

/// The knowledge that these are the answers of the modules with these numbers.
fn known_of(answers: &[(usize, &[u8])]) -> Known {
    let mut known = Known::new();
    for (number, codes) in answers {
        let set = codes_of(codes);
        if 1 <= *number && *number <= MAX_MODULES && !set.is_empty() {
            known.set(*number, set);
        }
    }
    known
}

fn together(wanted: &[Answers], barred: Answers, decisions: CodeSet) -> Query {
    let mut events = ArrayVec::new();
    for answers in wanted {
        let _ = events.try_push(event(answers));
    }
    Query::Together {
        wanted: events,
        barred: event(barred),
        decisions,
    }
}

fn success() -> CodeSet {
    CodeSet::single(Code::SUCCESS)
}

/// A stack, and what is known of its modules.
#[derive(Clone, Copy)]
struct Case<'a> {
    alloc: Global,
    rules: &'a [u8],
    known: &'a Known,
}

impl Case<'_> {
    /// The run that is found, as its steps and then its decision, as an answer of module 0.
    fn found(&self, query: &Query) -> Result<Option<Vec<(usize, u8)>>, Fail> {
        let stack = stack_of(self.alloc, self.rules)?;
        let program = Program::of(self.alloc, &stack)?;
        let graph = Graph::of(self.alloc, &program, self.known)?;
        let Some(run) = search(self.alloc, &graph, self.known, query)? else {
            return Ok(None);
        };
        let mut shown = Vec::new(self.alloc);
        for step in &run.steps {
            shown.push((step.module_number, step.code.number()))?;
        }
        shown.push((0, run.decision.number()))?;
        Ok(Some(shown))
    }

    /// Asserts that this run is found; none if `wanted` is empty.
    fn finds(&self, rt: &impl Abort, query: &Query, wanted: Answers) -> Result<(), Fail> {
        match self.found(query)? {
            Some(run) => assert_eq!(rt; run.as_slice(), wanted),
            None => assert!(rt; wanted.is_empty(), "no run is found"),
        }
        Ok(())
    }
}

fn case_of<'a>(rt: &HostRuntime, rules: &'a [u8], known: &'a Known) -> Case<'a> {
    Case {
        alloc: rt.alloc(),
        rules,
        known,
    }
}

const TWO: &[u8] = b"auth required a.so\nauth required b.so\n";

const ENOUGH: &[u8] = b"auth sufficient a.so\nauth required b.so\nauth sufficient c.so\n";

#[test]
fn the_fewest_modules(rt: HostRuntime) -> Result<(), Fail> {
    let known = Known::new();
    let two = case_of(&rt, TWO, &known);
    let enough = case_of(&rt, ENOUGH, &known);
    let query = together(&[], &[], success());
    two.finds(&rt, &query, &[(1, 0), (2, 0), (0, 0)])?;
    enough.finds(&rt, &query, &[(1, 0), (0, 0)])?;
    let without = together(&[], &[(1, 0)], success());
    enough.finds(&rt, &without, &[(1, 7), (2, 0), (3, 0), (0, 0)])
}

#[test]
fn the_first_answers(rt: HostRuntime) -> Result<(), Fail> {
    let known = known_of(&[(1, &[1, 9, 25]), (2, &[25, 10, 30])]);
    let query = together(&[], &[], CodeSet::all().without(success()));
    case_of(&rt, TWO, &known).finds(&rt, &query, &[(1, 9), (2, 10), (0, 9)])
}

#[test]
fn each_of_the_wanted(rt: HostRuntime) -> Result<(), Fail> {
    let known = Known::new();
    let two = case_of(&rt, TWO, &known);
    let query = together(&[&[(1, 7)], &[(2, 0)]], &[], CodeSet::all());
    two.finds(&rt, &query, &[(1, 7), (2, 0), (0, 7)])?;
    let crossed = together(&[&[(1, 7), (2, 5)], &[(1, 6), (2, 7)]], &[], CodeSet::all());
    two.finds(&rt, &crossed, &[(1, 7), (2, 7), (0, 7)])
}

#[test]
fn a_module_that_is_left_no_answer(rt: HostRuntime) -> Result<(), Fail> {
    let known = known_of(&[(2, &[0])]);
    let query = together(&[], &[(2, 0)], CodeSet::all());
    case_of(&rt, TWO, &known).finds(&rt, &query, &[])?;
    case_of(&rt, ENOUGH, &known).finds(&rt, &query, &[(1, 0), (0, 0)])
}

#[test]
fn no_module_before(rt: HostRuntime) -> Result<(), Fail> {
    let known = Known::new();
    let two = case_of(&rt, TWO, &known);
    let query = Query::Before {
        first: event(&[(1, 0)]),
        second: event(&[(2, 0)]),
    };
    two.finds(&rt, &query, &[(1, 7), (2, 0), (0, 7)])?;
    let at_once = Query::Before {
        first: event(&[(1, 0), (2, 0)]),
        second: event(&[(1, 0), (2, 0)]),
    };
    two.finds(&rt, &at_once, &[(1, 0), (2, 0), (0, 0)])
}
