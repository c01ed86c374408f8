//! What released Linux-PAM reads otherwise in tables.

use crate::released::bytes_of_words;
use anyhow::Error;
use pam_released::tables::{TableFinding, access_findings, has_empty_separator, time_findings};
use pam_tables::AccessOptions;
use pam_text::{Source, Texts};
use std::alloc::Global;

/// The arguments that the words spell.
fn arguments_of(alloc: Global, words: &[&str]) -> Result<Texts, Error> {
    let mut arguments = Texts::new(alloc);
    for word in words {
        arguments.push(&bytes_of_words(alloc, &[word])?)?;
    }
    Ok(arguments)
}

fn print_all(rt: &HostRuntime, found: &[TableFinding]) -> Result<(), Error> {
    for finding in found {
        println!(rt; "{} {}", finding.line, finding.difference.name())?;
    }
    Ok(())
}

/// Prints the findings of the access table that the words spell, read with one argument.
pub(crate) fn print_access(rt: &HostRuntime, argument: &str, words: &[&str]) -> Result<(), Error> {
    let alloc = rt.alloc();
    let arguments = arguments_of(alloc, &[argument])?;
    let table = bytes_of_words(alloc, words)?;
    let options = AccessOptions::of(&arguments);
    print_all(rt, &access_findings(alloc, Source::of(&table)?, &options)?)
}

/// Prints the findings of the time table that the words spell.
pub(crate) fn print_time(rt: &HostRuntime, words: &[&str]) -> Result<(), Error> {
    let table = bytes_of_words(rt.alloc(), words)?;
    print_all(rt, &time_findings(rt.alloc(), Source::of(&table)?)?)
}

/// Prints whether one of these arguments of pam_access is a separator without a value (A5).
pub(crate) fn print_separators(rt: &HostRuntime, words: &[&str]) -> Result<(), Error> {
    let arguments = arguments_of(rt.alloc(), words)?;
    println!(rt; "{}", has_empty_separator(&arguments))?;
    Ok(())
}
