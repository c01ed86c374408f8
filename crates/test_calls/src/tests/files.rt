//! Configuration files, by name.

use crate::tests::same::same;
use pam_conf::{Files, Form, Kind, Stack, resolve};
use std::alloc::Global;
use std::process::Abort;
use std::test::Fail;

/// Adds a file, or replaces the one of this name.
pub(crate) fn put(alloc: Global, files: &mut Files, name: &[u8], text: &[u8]) -> Result<(), Fail> {
    let name = name.to_vec(alloc)?;
    let text = text.to_vec(alloc)?;
    files.put(name, text)?;
    Ok(())
}

/// Returns two files, the first of which was replaced.
fn two_files(alloc: Global) -> Result<Files, Fail> {
    let mut files = Files::new(alloc, Form::Dir);
    for (name, text) in [
        ("login", "auth required old.so"),
        ("other", ""),
        ("login", "auth required new.so"),
    ] {
        put(alloc, &mut files, name.as_bytes(), text.as_bytes())?;
    }
    Ok(files)
}

/// Asserts that the file at a position has this name.
fn is_named(rt: &impl Abort, files: &Files, position: usize, name: Option<&[u8]>) {
    same(rt, "a name", &files.name(position), &name);
}

#[test]
fn new_files_have_their_form_and_no_names(rt: HostRuntime) {
    let files = Files::new(rt.alloc(), Form::Dir);
    same(&rt, "the form", &files.form(), &Form::Dir);
    is_named(&rt, &files, 0, None);
}

#[test]
fn a_name_that_is_there_keeps_its_position(rt: HostRuntime) -> Result<(), Fail> {
    let files = two_files(rt.alloc())?;
    is_named(&rt, &files, 0, Some(b"login"));
    is_named(&rt, &files, 1, Some(b"other"));
    is_named(&rt, &files, 2, None);
    Ok(())
}

/// Asserts that the first module of a stack has this path, in the file at this position.
fn asks_first(rt: &impl Abort, stack: &Stack, path: &[u8], file: usize) {
    match stack.module(1) {
        Some(module) => {
            same(rt, "the path", &module.path.as_slice(), &path);
            same(rt, "the file", &module.file, &file);
        }
        None => assert!(rt; false),
    }
}

#[test]
fn a_name_that_is_there_gets_the_new_bytes(rt: HostRuntime) -> Result<(), Fail> {
    let files = two_files(rt.alloc())?;
    let stack = resolve(rt.alloc(), &files, b"login", Kind::Auth)?;
    asks_first(&rt, &stack, b"new.so", 0);
    Ok(())
}
