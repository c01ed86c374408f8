//! What `check` finds, from the lines of its JSON.

ghost use Rattle.std.specs.Prelude.{◌≡◌, ◌++◌, IfOk, OnOk, map};
ghost use Rattle.std.specs.Option.{option_copied, option_map};
ghost use Rattle.serde_json.specs.Errors.{IsMemory};
ghost use Rattle.serde_json.specs.Read.{read};
ghost use Rattle.serde_json.specs.View.{view};
ghost use Rattle.pam_lsp.specs.Findings as spec;

use crate::position::Spot;
use serde_json::{Error, Value};
use std::alloc::{AllocError, Global};

/// How grave a finding is.
#[derive(Clone, Copy)]
pub enum Severity {
    Error,
    Warning,
    Note,
}

/// A finding.
#[derive(Clone, Copy)]
pub struct Finding<'v> {
    /// The path of its file.
    pub file: &'v str,
    /// Its line, from 1; `None` for a file as a whole.
    pub line: Option<u64>,
    pub spot: Option<Spot>,
    pub severity: Severity,
    pub number: &'v str,
    pub sentence: &'v str,
}

/// The text that a member is.
fn text_in<'v>(value: &'v Value, name: &str) -> Option<&'v str>
    ensures { option_copied result ≡ spec.text_in name.now (view value.now) }
{
    match value.get(name) {
        Some(member) => member.as_str(),
        None => None,
    }
}

/// The number that a member is.
fn number_in(value: &Value, name: &str) -> Option<u64>
    ensures { result ≡ spec.number_in name.now (view value.now) }
{
    match value.get(name) {
        Some(member) => member.as_u64(),
        None => None,
    }
}

fn severity_named(level: &str) -> Option<Severity>
    ensures { result ≡ spec.severity_named level.now }
{
    if level == "error" {
        Some(Severity::Error)
    } else if level == "warning" {
        Some(Severity::Warning)
    } else if level == "note" {
        Some(Severity::Note)
    } else {
        None
    }
}

/// How grave a finding is, by its member `level`.
fn severity_in(value: &Value) -> Option<Severity>
    ensures { result ≡ spec.severity_in (view value.now) }
{
    match text_in(value, "level") {
        Some(level) => severity_named(level),
        None => None,
    }
}

/// The word that a finding is about, if it is about one.
fn spot_in(value: &Value) -> Option<Spot>
    ensures { result ≡ spec.spot_in (view value.now) }
{
    match (number_in(value, "column"), number_in(value, "length")) {
        (Some(column), Some(length)) => Some(Spot { column, length }),
        _ => None,
    }
}

/// The finding that a line tells, if it tells one.
pub(crate) fn finding_in(value: &Value) -> Option<Finding<'_>>
    ensures { option_map spec.finding_view result ≡ spec.finding_in (view value.now) }
{
    let file = text_in(value, "file")?;
    let severity = severity_in(value)?;
    let number = text_in(value, "number")?;
    let sentence = text_in(value, "sentence")?;
    Some(Finding {
        file,
        line: number_in(value, "line"),
        spot: spot_in(value),
        severity,
        number,
        sentence,
    })
}

/// The findings that lines tell.
pub(crate) fn findings_in(alloc: Global, values: &[Value]) -> Result<Vec<Finding<'_>>, AllocError>
    ensures { IfOk result (λ findings. map spec.finding_view findings.items ≡ spec.findings_in (map view values.now)) }
{
    let mut findings = Vec::new(alloc);
    for value in values {
        if let Some(finding) = finding_in(value) {
            findings.push(finding)?;
        }
    }
    Ok(findings)
}

/// Whether a text was refused, and memory was not at fault.
pub(crate) fn refused(error: &Error) -> Result<(), AllocError>
    ensures { IfOk result (λ _. ¬ (IsMemory error.now)) }
{
    if error.is_memory() {
        return Err(AllocError);
    }
    Ok(())
}

/// The value that a line is, if it is one.
fn value_of(alloc: Global, line: &[u8]) -> Result<Option<Value>, AllocError>
    ensures { IfOk result (λ value. option_map view value ≡ read line.now) }
{
    let Ok(text) = std::str::from_utf8(line) else {
        return Err(AllocError);
    };
    match Value::from_str(alloc, text) {
        Ok(value) => Ok(Some(value)),
        Err(error) => {
            refused(&error)?;
            Ok(None)
        }
    }
}

/// Adds the value that a line is.
fn push_value(alloc: Global, values: &mut Vec<Value>, line: &[u8]) -> Result<(), AllocError>
    ensures { OnOk result (map view values.new.items ≡ map view values.old.items ++ spec.values_in line.now) }
{
    if let Some(value) = value_of(alloc, line)? {
        values.push(value)?;
    }
    Ok(())
}

/// Adds the values that the lines of an answer are.
pub(crate) fn push_values(
    alloc: Global,
    values: &mut Vec<Value>,
    answer: &[u8],
) -> Result<(), AllocError>
    ensures { OnOk result (map view values.new.items ≡ map view values.old.items ++ spec.values_of answer.now) }
{
    for line in answer.split(|byte| *byte == b'\n') {
        push_value(alloc, values, line)?;
    }
    Ok(())
}
