//! Calls of the libraries that take memory, one after another. `tests/alone` refuses each allocation in turn: the lines of the calls
//! before the one that says so are printed, and the status is 6.

use pam_conf::{Body, ConfError, FaultKind, Files, Form, Kind, Rule, resolve, rules};
use pam_dispatch::Program;
use pam_graph::{Graph, GraphError};
use pam_paths::Free;
use pam_report::{Fault, fault_text, usage_text};
use pam_words::Usage;
use std::alloc::{AllocError, Global};
use std::process::ExitCode;

/// The rules of a service. Two of them go on in a second line.
const LOGIN: &[u8] = b"auth [success=1 default=ignore] a.so [b c] \\\n  d
auth requisite e.so
auth required f.so \\\n  g";

/// Why the program ends before its last line.
enum Failure {
    /// A call says that memory ran out.
    Memory,
    /// A call gives another error, or a line cannot be written.
    Other,
}

impl Failure {
    fn of(is_memory: bool) -> Failure {
        if is_memory {
            Failure::Memory
        } else {
            Failure::Other
        }
    }
}

/// Prints a line after the name of its call.
fn print(rt: &HostRuntime, call: &str, text: &str) -> Result<(), Failure> {
    println!(rt; "{call}: {text}").map_err(|_| Failure::Other)
}

/// The number of words after the paths of modules.
fn argument_count(rules: &[Rule]) -> usize {
    let mut count: usize = 0;
    for rule in rules {
        if let Body::Module(_, _, words) = &rule.body {
            count = count.saturating_add(words.len());
        }
    }
    count
}

fn print_rules(rt: &HostRuntime) -> Result<(), Failure> {
    match rules(rt.alloc(), LOGIN, Form::Dir) {
        Ok(found) => {
            let count = argument_count(&found);
            println!(rt; "rules: {} with {count} arguments", found.len()).map_err(
                |_| Failure::Other,
            )
        }
        Err(fault) => Err(Failure::of(fault.kind == FaultKind::Memory)),
    }
}

/// The files of one service.
fn files(alloc: Global) -> Result<Files, Failure> {
    let (Ok(name), Ok(text)) = (b"login".to_vec(alloc), LOGIN.to_vec(alloc)) else {
        return Err(Failure::Memory);
    };
    let mut files = Files::new(alloc, Form::Dir);
    match files.put(name, text) {
        Ok(()) => Ok(files),
        Err(_) => Err(Failure::Memory),
    }
}

fn print_fault(rt: &HostRuntime, files: &Files) -> Result<(), Failure> {
    let fault = Fault::Conf(ConfError {
        kind: FaultKind::MissingField,
        at: Some(0),
        line: 12,
    });
    print_text(rt, "fault_text", fault_text(rt.alloc(), &fault, files))
}

/// Prints a text after the name of its call.
fn print_text(
    rt: &HostRuntime,
    call: &str,
    got: Result<Vec<u8>, AllocError>,
) -> Result<(), Failure> {
    match got {
        Ok(text) => print(
            rt,
            call,
            str::from_utf8(&text).unwrap_or("no text").trim_end(),
        ),
        Err(_) => Err(Failure::Memory),
    }
}

fn print_graph(rt: &HostRuntime, files: &Files) -> Result<(), Failure> {
    let alloc = rt.alloc();
    let stack = resolve(alloc, files, b"login", Kind::Auth).map_err(|error| Failure::of(
        error.kind == FaultKind::Memory,
    ))?;
    let program = Program::of(alloc, &stack).map_err(|_| Failure::Memory)?;
    match Graph::of(alloc, &program, &Free) {
        Ok(graph) => {
            let nodes = graph.nodes();
            println!(rt; "Graph::of: {} nodes", nodes.len()).map_err(|_| Failure::Other)
        }
        Err(error) => Err(Failure::of(error == GraphError::Memory)),
    }
}

fn run(rt: &HostRuntime) -> Result<(), Failure> {
    print_rules(rt)?;
    print_text(rt, "usage_text", usage_text(rt.alloc(), &Usage::KindName))?;
    let files = files(rt.alloc())?;
    print_fault(rt, &files)?;
    print_graph(rt, &files)
}

/// Makes these calls, and returns the exit status.
pub(crate) fn status(rt: &HostRuntime) -> ExitCode {
    match run(rt) {
        Ok(()) => ExitCode::from(0),
        Err(Failure::Memory) => ExitCode::from(6),
        Err(Failure::Other) => ExitCode::from(1),
    }
}
