//! What is published of the folders of open documents.

ghost use Rattle.std.specs.Prelude.{◌≡◌, ◌++◌, IfOk, OnOk, map, string_bytes};
ghost use Rattle.pam_lsp.specs.Documents.{document_view};
ghost use Rattle.pam_lsp.specs.Findings.{finding_view};
ghost use Rattle.pam_lsp.specs.Publishing as spec;

use crate::checking::{checked, push_new};
use crate::document::Document;
use crate::finding::{Finding, findings_in};
use crate::overlay::Overlay;
use crate::position::Encoding;
use crate::publication::put_publication;
use pam_cli::System;
use pam_codes::Out;
use std::alloc::{AllocError, Global};

/// What is known of the client when findings are published.
#[derive(Clone, Copy)]
pub(crate) struct Shown<'x> {
    pub(crate) encoding: Encoding,
    pub(crate) documents: &'x [Document],
}

/// The files of findings, each once.
fn files_of(alloc: Global, findings: &[Finding<'_>]) -> Result<Vec<String>, AllocError>
    ensures { IfOk result (λ files. map string_bytes files.items ≡ spec.files_of (map finding_view findings.now)) }
{
    let mut files = Vec::new(alloc);
    for finding in findings {
        push_new(alloc, &mut files, finding.file)?;
    }
    Ok(files)
}

/// Adds the files of which something was published before.
fn add_old(alloc: Global, files: &mut Vec<String>, old: &[String]) -> Result<(), AllocError>
    ensures { OnOk result (map string_bytes files.new.items ≡ spec.with_old (map string_bytes files.old.items) (map string_bytes old.now)) }
{
    for file in old {
        push_new(alloc, files, file.as_str())?;
    }
    Ok(())
}

/// The findings of a file.
fn findings_at<'v>(
    alloc: Global,
    findings: &[Finding<'v>],
    path: &str,
) -> Result<Vec<Finding<'v>>, AllocError>
    ensures { IfOk result (λ those. map finding_view those.items ≡ spec.findings_at path.now (map finding_view findings.now)) }
{
    let mut those = Vec::new(alloc);
    for finding in findings {
        if finding.file == path {
            those.push(*finding)?;
        }
    }
    Ok(those)
}

/// The message that publishes the findings of a file.
fn publication(
    alloc: Global,
    shown: Shown<'_>,
    findings: &[Finding<'_>],
    path: &str,
) -> Result<Vec<u8>, AllocError>
    ensures { IfOk result (λ text. text.items ≡ spec.published_of shown.entry.encoding (map document_view shown.entry.documents.now)
        (map finding_view findings.now) path.now) }
{
    let those = findings_at(alloc, findings, path)?;
    let mut out = Out::new(Vec::new(alloc));
    match put_publication(shown.encoding, shown.documents, path, &those, &mut out) {
        Ok(()) => Ok(out.into_inner()),
        Err(_) => Err(AllocError),
    }
}

/// Adds the message of each file.
fn push_publications(
    alloc: Global,
    shown: Shown<'_>,
    findings: &[Finding<'_>],
    paths: &[String],
    sent: &mut Vec<Vec<u8>>,
) -> Result<(), AllocError>
    ensures { OnOk result (map (λ m. m.items) sent.new.items ≡ map (λ m. m.items) sent.old.items
        ++ map (spec.published_of shown.entry.encoding (map document_view shown.entry.documents.now) (map finding_view findings.now))
        (map string_bytes paths.now)) }
{
    for path in paths {
        sent.push(publication(alloc, shown, findings, path.as_str())?)?;
    }
    Ok(())
}

/// Publishes what is found in the folders of the documents, and that nothing is any more in the other files of which something was
/// published. Returns the files of which something is published now.
pub(crate) fn publish<S: System>(
    system: &S,
    alloc: Global,
    shown: Shown<'_>,
    published: &[String],
    sent: &mut Vec<Vec<u8>>,
) -> Result<Vec<String>, AllocError>
    ensures { IfOk result (λ now. spec.Publishes (S.told system.now) shown.entry.encoding (map document_view shown.entry.documents.now)
        (map string_bytes published.now) (map string_bytes now.items) (map (λ m. m.items) sent.old.items) (map (λ m. m.items) sent.new.items)) }
{
    let overlay = Overlay {
        base: system,
        documents: shown.documents,
    };
    let values = checked(&overlay, alloc, shown.documents)?;
    let findings = findings_in(alloc, &values)?;
    let now = files_of(alloc, &findings)?;
    let mut all = files_of(alloc, &findings)?;
    add_old(alloc, &mut all, published)?;
    push_publications(alloc, shown, &findings, &all, sent)?;
    Ok(now)
}
