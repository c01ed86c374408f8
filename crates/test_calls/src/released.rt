//! What released Linux-PAM reads otherwise.

use anyhow::Error;
use pam_conf::Form;
use pam_released::{Finding, findings};
use pam_text::Source;
use std::alloc::Global;

/// How many letters `\L` is.
const LETTERS: usize = 1000;

/// Appends the bytes of `\` and this letter.
fn push_escape(bytes: &mut Vec<u8>, letter: u8) -> Result<(), Error> {
    match letter {
        b'n' => bytes.push(b'\n')?,
        b'r' => bytes.push(b'\r')?,
        b't' => bytes.push(b'\t')?,
        b's' => bytes.push(b' ')?,
        b'L' => {
            for _ in 0..LETTERS {
                bytes.push(b'a')?;
            }
        }
        _ => bytes.push(letter)?,
    }
    Ok(())
}

/// The bytes of a text with escapes.
fn bytes_of(alloc: Global, text: &[u8]) -> Result<Vec<u8>, Error> {
    let mut bytes = Vec::new(alloc);
    let mut is_escaped = false;
    for byte in text {
        if is_escaped {
            push_escape(&mut bytes, *byte)?;
            is_escaped = false;
        } else if *byte == b'\\' {
            is_escaped = true;
        } else {
            bytes.push(*byte)?;
        }
    }
    Ok(bytes)
}

/// The bytes of words with escapes and of the blanks between them.
pub(crate) fn bytes_of_words(alloc: Global, words: &[&str]) -> Result<Vec<u8>, Error> {
    let mut text = Vec::new(alloc);
    for word in words {
        if !text.is_empty() {
            text.push(b' ')?;
        }
        text.extend_from_slice(word.as_bytes())?;
    }
    bytes_of(alloc, &text)
}

fn form_named(name: &str) -> Form {
    if name == "pam.conf" {
        Form::Single
    } else {
        Form::Dir
    }
}

fn print_finding(rt: &HostRuntime, finding: Finding) -> Result<(), Error> {
    println!(rt; "{} {}", finding.line, finding.difference.name())?;
    Ok(())
}

fn print_all(rt: &HostRuntime, form: Form, bytes: &[u8]) -> Result<(), Error> {
    let found = findings(rt.alloc(), Source::of(bytes)?, form)?;
    for finding in &found {
        print_finding(rt, *finding)?;
    }
    Ok(())
}

/// Prints the findings of the file that the words spell.
pub(crate) fn print_findings(rt: &HostRuntime, form: &str, words: &[&str]) -> Result<(), Error> {
    let bytes = bytes_of_words(rt.alloc(), words)?;
    print_all(rt, form_named(form), &bytes)
}
