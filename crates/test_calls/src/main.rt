//! Calls of the libraries: tests of the paths of stacks, of findings and of facts; what `benches/` measures; and calls that take
//! memory, one after another, with the word `refusals`. Other words are a test, and without words each line of standard input is one:
//!
//! - `list SERVICE FIRST LAST [NUMBER=NAME,...]...`: how many paths there are, and the lines from FIRST to LAST.
//! - `first SERVICE COUNT`: the lines of the first COUNT paths.
//! - `page SERVICE LIMIT from -`, or with `after CURSOR` or `before CURSOR`; then `[NUMBER=NAME,...]...`: a page.
//! - `cursor SERVICE TEXT`: whether a cursor is accepted or refused, in both directions.
//! - `findings folder TEXT` or `findings pam.conf TEXT`: where released Linux-PAM reads this file otherwise. In TEXT `\n`, `\r`,
//!   `\t` and `\s` are a line feed, a carriage return, a tab and a space, `\L` is a thousand letters, and `\\` a backslash.
//! - `table rows`: the number of rows of the table of facts, if each of them is read back.
//! - `access ARGUMENT TEXT`, `time TEXT`: where the modules of released Linux-PAM read this table otherwise, an access table with one
//!   argument (`-` for none), or a time table; `separators ARGUMENT...`: whether one is a separator without a value.
//! - `measure WHAT COUNT FILE...`: what is measured of a stack.
//! - `fact KIND PATH [ARGUMENT]...`: the class of the module at this path, and the codes that it can answer.
//!
//! The tests of what no command shows are here too, above all libraries, so that no library is proved again for its tests.
#![tactic(auto)]

ghost use Rattle.std.specs.Prelude.{◌≤◌, length};

mod cursors;
mod facts;
mod lines;
mod measured;
mod old_tables;
mod pages;
mod refusals;
mod released;
mod stacks;
#[cfg(test)]
mod tests;

use anyhow::Error;
use pam_paths::{Explorer, Free, Path};
use stacks::{known_of, program_of};
use std::io::{BufRead, BufReader};
use std::process::ExitCode;
use std::{env, io};

fn print_line(rt: &HostRuntime, path: &Path) -> Result<(), Error> {
    let line = String::from_utf8(lines::line_of(rt.alloc(), path)?)?;
    println!(rt; "{line}")?;
    Ok(())
}

/// Prints the lines of the first paths.
fn first(rt: &HostRuntime, service: &str, count: u64) -> Result<(), Error> {
    let program = program_of(rt, service)?;
    let mut explorer = Explorer::start(&program, &Free);
    for _ in 0..count {
        if let Some(path) = explorer.next() {
            print_line(rt, &path)?;
        }
    }
    Ok(())
}

/// Prints how many paths there are, and some of their lines.
fn list(
    rt: &HostRuntime,
    service: &str,
    first: u64,
    last: u64,
    known: &[&str],
) -> Result<(), Error> {
    let program = program_of(rt, service)?;
    let known = known_of(known)?;
    let mut explorer = Explorer::start(&program, &known);
    for count in 0..u64::MAX {
        let Some(path) = explorer.next() else {
            println!(rt; "{count} paths")?;
            break;
        };
        if first <= count + 1 && count < last {
            print_line(rt, &path)?;
        }
    }
    Ok(())
}

/// Runs a test of what files say.
fn test_files(rt: &HostRuntime, words: &[&str]) -> Result<(), Error>
    requires { 2 ≤ length words.now }
{
    match words[0] {
        "fact" if words.len() >= 3 => facts::print_fact(rt, words[1], words[2], &words[3..]),
        "table" => facts::read_back(rt),
        "findings" => released::print_findings(rt, words[1], &words[2..]),
        "access" if words.len() >= 3 => old_tables::print_access(rt, words[1], &words[2..]),
        "time" => old_tables::print_time(rt, &words[1..]),
        "separators" => old_tables::print_separators(rt, &words[1..]),
        _ => {
            println!(rt; "no such test")?;
            Ok(())
        }
    }
}

/// Runs the test of a line.
fn test(rt: &HostRuntime, words: &[&str]) -> Result<(), Error> {
    if words.len() < 2 {
        return Ok(());
    }
    match words[0] {
        "list" if words.len() >= 4 => {
            list(
                rt,
                words[1],
                words[2].parse()?,
                words[3].parse()?,
                &words[4..],
            )
        }
        "first" if words.len() == 3 => first(rt, words[1], words[2].parse()?),
        "page" if words.len() >= 5 => pages::page(rt, words),
        "cursor" if words.len() == 3 => cursors::cursor(rt, words[1], words[2]),
        "measure" if words.len() >= 4 => {
            measured::measure(rt, words[1], words[2].parse()?, &words[3..])
        }
        _ => test_files(rt, words),
    }
}

/// Runs each line of standard input as a test.
fn test_lines(rt: &HostRuntime) -> Result<(), Error> {
    for line in BufReader::new(rt.alloc(), rt.reader())?.lines(rt.alloc()) {
        let line = line?;
        println!(rt; "> {line}")?;
        let words: Vec<&str> = line.as_str().split(' ').collect(rt.alloc())?;
        test(rt, &words)?;
    }
    Ok(())
}

/// The words of the command line after the name of the program.
fn words(rt: &HostRuntime) -> io::Result<Vec<String>> {
    let words: Vec<String> = env::args(rt)?.skip(1).collect(rt.alloc())?;
    Ok(words)
}

/// Runs the test of the words, or without words that of each line of standard input.
fn run(rt: &HostRuntime, words: &[String]) -> Result<(), Error> {
    if words.is_empty() {
        return test_lines(rt);
    }
    let words: Vec<&str> = words.iter().map(|word| word.as_str()).collect(rt.alloc())?;
    test(rt, &words)
}

/// Whether the first word is `refusals`. Unlike `words` this takes no memory but for the words themselves.
fn asks_for_refusals(rt: &HostRuntime) -> io::Result<bool> {
    let words = env::args(rt)?;
    match words.skip(1).next() {
        Some(word) => Ok(word.as_str() == "refusals"),
        None => Ok(false),
    }
}

fn main(rt: HostRuntime) -> ExitCode {
    match asks_for_refusals(&rt) {
        Ok(true) => return refusals::status(&rt),
        Ok(false) => {}
        Err(_) => return ExitCode::from(6),
    }
    let Ok(words) = words(&rt) else {
        return ExitCode::from(6);
    };
    match run(&rt, &words) {
        Ok(()) => ExitCode::from(0),
        Err(_) => ExitCode::from(1),
    }
}
