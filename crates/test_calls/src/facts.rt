//! What is known of modules.

use anyhow::Error;
use pam_codes::Out;
use pam_conf::Kind;
use pam_facts::{Class, Fact, Facts, write_facts};
use pam_text::Texts;
use std::alloc::Global;

fn class_name(class: Class) -> &'static str {
    match class {
        Class::Checks => "checks",
        Class::Ignores => "ignores",
        Class::Passes => "passes",
        Class::Fails => "fails",
    }
}

/// The codes that a module can answer in a kind.
fn codes_text(alloc: Global, fact: Fact, kind: Kind) -> Result<Vec<u8>, Error> {
    let mut text = Vec::new(alloc);
    fact.codes_in(kind).write_text(&mut Out::new(&mut text))?;
    Ok(text)
}

fn texts_of(alloc: Global, words: &[&str]) -> Result<Texts, Error> {
    let mut texts = Texts::new(alloc);
    for word in words {
        texts.push(word.as_bytes())?;
    }
    Ok(texts)
}

/// Prints the class of a module and the codes that it can answer in a kind, for the arguments of its rule.
pub(crate) fn print_fact(
    rt: &HostRuntime,
    kind: &str,
    path: &str,
    arguments: &[&str],
) -> Result<(), Error> {
    let facts = Facts::read(rt.alloc(), b"")?;
    let arguments = texts_of(rt.alloc(), arguments)?;
    let fact = facts.of(path.as_bytes(), &arguments);
    let Some(kind) = Kind::from_name(kind.as_bytes()) else {
        println!(rt; "no kind")?;
        return Ok(());
    };
    let codes = String::from_utf8(codes_text(rt.alloc(), fact, kind)?)?;
    println!(rt; "{} {codes}", class_name(fact.class))?;
    Ok(())
}

/// Prints how many rows the table has, if a facts file with these rows has no fault.
pub(crate) fn read_back(rt: &HostRuntime) -> Result<(), Error> {
    let mut text = Vec::new(rt.alloc());
    write_facts(&mut Out::new(&mut text))?;
    Facts::read(rt.alloc(), &text)?;
    let rows = text.iter().filter(|b| **b == b'\n').count();
    println!(rt; "{rows} rows")?;
    Ok(())
}
