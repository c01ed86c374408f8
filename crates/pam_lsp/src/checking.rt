//! A check of the folders of open documents.

ghost use Rattle.std.specs.Prelude.{◌≡◌, IfOk, OnOk, map, string_bytes};
ghost use Rattle.serde_json.specs.View.{view};
ghost use Rattle.pam_lsp.specs.Checks as spec;
ghost use Rattle.pam_lsp.specs.Documents.{document_view};

use crate::document::Document;
use crate::finding::push_values;
use pam_cli::{System, run};
use pam_codes::Out;
use serde_json::Value;
use std::alloc::{AllocError, Global};

/// Whether a text is among others.
fn has(texts: &[String], text: &str) -> bool
    ensures { result ≡ spec.has text.now (map string_bytes texts.now) }
{
    for other in texts {
        if other.as_str() == text {
            return true;
        }
    }
    false
}

/// Adds a text that is not among others.
pub(crate) fn push_new(alloc: Global, texts: &mut Vec<String>, text: &str) -> Result<(), AllocError>
    ensures { OnOk result (map string_bytes texts.new.items ≡ spec.with_new (map string_bytes texts.old.items) text.now) }
{
    if has(texts, text) {
        return Ok(());
    }
    texts.push(String::from_str(alloc, text)?)?;
    Ok(())
}

/// The folders of documents, each once.
fn folders_of(alloc: Global, documents: &[Document]) -> Result<Vec<String>, AllocError>
    ensures { IfOk result (λ folders. map string_bytes folders.items ≡ spec.folders_of (map document_view documents.now)) }
{
    let mut folders = Vec::new(alloc);
    for document in documents {
        push_new(alloc, &mut folders, document.folder.as_str())?;
    }
    Ok(folders)
}

/// Copies of texts.
fn copies_of(alloc: Global, words: &[&str]) -> Result<Vec<String>, AllocError>
    ensures { IfOk result (λ copies. map string_bytes copies.items ≡ map (λ w. w.now) words.now) }
{
    let mut copies = Vec::new(alloc);
    for word in words {
        copies.push(String::from_str(alloc, word)?)?;
    }
    Ok(copies)
}

/// The words of a check of a folder.
fn check_words(alloc: Global, folder: &str) -> Result<Vec<String>, AllocError>
    ensures { IfOk result (λ words. map string_bytes words.items ≡ spec.check_words folder.now) }
{
    copies_of(
        alloc,
        &["pamcheck", "check", "--dir", folder, "--format", "json"],
    )
}

/// Checks a folder, and returns what is written to standard output.
fn answer_of<S: System>(system: &S, alloc: Global, folder: &str) -> Result<Vec<u8>, AllocError>
    ensures { IfOk result (λ answer. spec.IsAnswer (S.told system.now) folder.now answer.items) }
{
    let words = check_words(alloc, folder)?;
    let mut out = Out::new(Vec::new(alloc));
    let mut err = Out::new(Vec::new(alloc));
    let _status = run(system, alloc, &words, &mut out, &mut err);
    Ok(out.into_inner())
}

/// Checks folders in turn, and returns the lines of the answers.
fn lines_of<S: System>(
    system: &S,
    alloc: Global,
    folders: &[String],
) -> Result<Vec<Value>, AllocError>
    ensures { IfOk result (λ values. spec.AreLines (S.told system.now) (map string_bytes folders.now) (map view values.items)) }
{
    let mut values = Vec::new(alloc);
    for folder in folders {
        let answer = answer_of(system, alloc, folder.as_str())?;
        push_values(alloc, &mut values, &answer)?;
    }
    Ok(values)
}

/// Checks the folders of documents, and returns the lines of the answers.
pub(crate) fn checked<S: System>(
    system: &S,
    alloc: Global,
    documents: &[Document],
) -> Result<Vec<Value>, AllocError>
    ensures { IfOk result (λ values. spec.AreLines (S.told system.now) (spec.folders_of (map document_view documents.now)) (map view values.items)) }
{
    let folders = folders_of(alloc, documents)?;
    let values = lines_of(system, alloc, &folders)?;
    Ok(values)
}
