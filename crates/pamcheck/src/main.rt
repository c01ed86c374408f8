//! Explains what a stack of PAM modules can decide.
#![tactic(auto)]

use pam_cli::{Host, refuse, refuse_without_memory, run};
use pam_codes::Out;
use pam_lsp::serve;
use pam_words::Usage;
use std::alloc::Global;
use std::io::{BufWriter, ErrorKind, Write};
use std::process::ExitCode;
use std::{env, io};

/// The size of the buffer for standard output, in bytes: one system call writes as much of a long answer.
const BUFFER_BYTES: usize = 64 * 1024;

/// Returns the words of the command line. It is an error if one is not UTF-8.
fn words(rt: &HostRuntime) -> io::Result<Vec<String>> {
    let words: Vec<String> = env::args(rt)?.collect(rt.alloc())?;
    Ok(words)
}

/// Returns the refusal if the words cannot be read.
fn usage_of(error: &io::Error) -> Usage {
    if error.kind() == ErrorKind::OutOfMemory {
        Usage::Memory
    } else {
        Usage::NotUtf8
    }
}

/// The command that no table of words has, since it answers an editor and not its words.
const LSP: &str = "lsp";

/// What the help says of this command.
const LSP_HELP: &[u8] = b"\
Answers an editor over standard input and output, by the Language Server Protocol

Usage: pamcheck lsp

The editor starts it by these two words, and shows what check finds while a file is edited: see pamcheck-lsp(8)
";

/// What is said where other words are beside it.
const LSP_ALONE: &[u8] = b"pamcheck: lsp stands alone; see pamcheck lsp --help\n";

/// The statuses of an answer, of wrong words, and of output that cannot be written.
const ANSWERED: u8 = 0;

const WRONG_WORDS: u8 = 2;

const NOT_WRITTEN: u8 = 5;

/// What words ask of the language server.
enum Editing {
    Nothing,
    Serve,
    Help,
    Wrong,
}

/// The word at a place, or none.
fn word_at(words: &[String], place: usize) -> &str {
    match words.get(place) {
        Some(word) => word.as_str(),
        None => "",
    }
}

/// What the words ask of the language server, by the first three after the name of the program.
fn editing_of(words: &[String]) -> Editing {
    match (word_at(words, 1), word_at(words, 2), words.len()) {
        (LSP, _, 2) => Editing::Serve,
        (LSP, "--help" | "-h", 3) | ("help", LSP, 3) => Editing::Help,
        (LSP, _, _) => Editing::Wrong,
        _ => Editing::Nothing,
    }
}

/// Serves an editor over standard input and output, and returns the exit status.
fn serve_editor<V: Write>(rt: &HostRuntime, alloc: Global, err: &mut Out<V>) -> u8 {
    let mut input = rt.stdin();
    let mut out = Out::new(io::writer(rt));
    serve(&Host::new(rt), alloc, &mut input, &mut out, err)
}

/// Writes a text, and returns the status, which is another one if it cannot be written.
fn say<W: Write>(text: &[u8], status: u8, out: &mut Out<W>) -> u8 {
    match out.put(text).and_then(|()| out.finish()) {
        Ok(()) => status,
        Err(_) => NOT_WRITTEN,
    }
}

/// Runs the program with a buffer for standard output, and returns the exit status.
fn status<V: Write>(rt: &HostRuntime, alloc: Global, words: &[String], err: &mut Out<V>) -> u8 {
    match BufWriter::with_capacity(alloc, BUFFER_BYTES, io::writer(rt)) {
        Ok(writer) => run(&Host::new(rt), alloc, words, &mut Out::new(writer), err),
        Err(_) => refuse_without_memory(alloc, err),
    }
}

fn main(rt: HostRuntime) -> ExitCode {
    let alloc = rt.alloc();
    let mut err = Out::new(rt.stderr());
    let number = match words(&rt) {
        Ok(words) => match editing_of(&words) {
            Editing::Nothing => status(&rt, alloc, &words, &mut err),
            Editing::Serve => serve_editor(&rt, alloc, &mut err),
            Editing::Help => say(LSP_HELP, ANSWERED, &mut Out::new(io::writer(&rt))),
            Editing::Wrong => say(LSP_ALONE, WRONG_WORDS, &mut err),
        },
        Err(error) => refuse(alloc, &usage_of(&error), &mut err),
    };
    ExitCode::from(number)
}
