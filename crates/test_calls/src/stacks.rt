//! The stacks of test files, and the knowledge of their modules.

use anyhow::Error;
use pam_codes::{Code, CodeSet};
use pam_conf::{Files, Form, Kind, Stack, resolve};
use pam_dispatch::{MAX_MODULES, Program};
use pam_paths::Known;
use std::alloc::Global;
use std::fs;

/// Reads the file `name` into `files`.
fn put(rt: &HostRuntime, alloc: Global, files: &mut Files, name: &str) -> Result<(), Error> {
    let bytes = fs::read(rt, name)?;
    files.put(name.as_bytes().to_vec(alloc)?, bytes)?;
    Ok(())
}

/// The stack of the first of these files for the kind `auth`. Its rules may include the others.
pub(crate) fn stack_in(rt: &HostRuntime, names: &[&str]) -> Result<Stack, Error> {
    let alloc = rt.alloc();
    let mut files = Files::new(alloc, Form::Dir);
    for name in names {
        put(rt, alloc, &mut files, name)?;
    }
    let service = names.first().unwrap_or(&"");
    Ok(resolve(alloc, &files, service.as_bytes(), Kind::Auth)?)
}

/// The stack of a service for the kind `auth`. Its rules may include the files `inner` and `empty`.
pub(crate) fn stack_of(rt: &HostRuntime, service: &str) -> Result<Stack, Error> {
    stack_in(rt, &[service, "inner", "empty"])
}

/// The program of that stack.
pub(crate) fn program_of(rt: &HostRuntime, service: &str) -> Result<Program, Error> {
    let stack = stack_of(rt, service)?;
    Ok(Program::of(rt.alloc(), &stack)?)
}

/// The codes of names separated by commas. Skips unknown names.
fn codes_of(names: &str) -> CodeSet {
    let mut codes = CodeSet::empty();
    for name in names.split(',') {
        if let Some(code) = Code::from_name(name.as_bytes()) {
            codes.insert(code);
        }
    }
    codes
}

/// Adds the knowledge of a word `NUMBER=NAME,...`: the module with this number answers one of these codes.
fn learn(known: &mut Known, word: &str) -> Result<(), Error> {
    let Some((number, names)) = word.split_once('=') else {
        return Ok(());
    };
    let number: usize = number.parse()?;
    let codes = codes_of(names);
    if 1 <= number && number <= MAX_MODULES && !codes.is_empty() {
        known.set(number, codes);
    }
    Ok(())
}

/// The knowledge of words `NUMBER=NAME,...`.
pub(crate) fn known_of(words: &[&str]) -> Result<Known, Error> {
    let mut known = Known::new();
    for word in words {
        learn(&mut known, word)?;
    }
    Ok(known)
}
