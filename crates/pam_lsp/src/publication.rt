//! What is published of a file: its diagnostics.

ghost use Rattle.std.specs.Prelude.{◌≡◌, map};
ghost use Rattle.std.specs.Option.{option_copied, option_map};
ghost use Rattle.pam_codes.specs.Out.{Writes};
ghost use Rattle.pam_lsp.specs.Documents.{document_view};
ghost use Rattle.pam_lsp.specs.Findings.{finding_view};
ghost use Rattle.pam_lsp.specs.Publications as spec;
ghost use Rattle.pam_lsp.specs.inner.Written.{published_value};

use crate::document::{Document, document_at};
use crate::finding::{Finding, Severity};
use crate::position::{Encoding, Position, Range, range_of};
use pam_codes::{Device, Out};
use pam_render::json_lines::{Elements, Member, Written, put_array, put_object, put_quoted};
use pam_render::sarif::put_uri;
use std::io::Write;

impl Written for Position {
    ghost use Rattle.pam_lsp.specs.Publications.{position_object};

    ghost value = { position_object };

    fn put<W: Write>(&self, out: &mut Out<W>) -> Result<(), Device> {
        let members: [Member<'_, ()>; 2] = [
            Member::number("line", self.line),
            Member::number("character", self.character),
        ];
        put_object(&members, out)
    }
}

impl Written for Range {
    ghost use Rattle.pam_lsp.specs.Publications.{range_object};

    ghost value = { range_object };

    fn put<W: Write>(&self, out: &mut Out<W>) -> Result<(), Device> {
        put_object(
            &[
                Member::written("start", self.start),
                Member::written("end", self.end),
            ],
            out,
        )
    }
}

/// The number of how grave a finding is.
fn severity_number(severity: Severity) -> u64
    ensures { result ≡ spec.severity_number severity }
{
    match severity {
        Severity::Error => 1,
        Severity::Warning => 2,
        Severity::Note => 3,
    }
}

/// What writes the diagnostics of a file, whose text may be at hand.
#[derive(Clone, Copy)]
struct Diagnostics<'x> {
    encoding: Encoding,
    text: Option<&'x str>,
}

/// The text of a document.
fn bytes_of(text: Option<&str>) -> Option<&[u8]>
    ensures { option_copied result ≡ option_copied text.entry }
{
    match text {
        Some(text) => Some(text.as_bytes()),
        None => None,
    }
}

impl<'f> Elements<Finding<'f>> for Diagnostics<'_> {
    ghost use Rattle.std.specs.Option.{option_copied};
    ghost use Rattle.pam_lsp.specs.Findings.{finding_view};
    ghost use Rattle.pam_lsp.specs.Publications.{diagnostic_object};

    ghost element = { λ diagnostics finding. diagnostic_object diagnostics.encoding (option_copied diagnostics.text) (finding_view finding) };

    fn put_element<W: Write>(&self, item: &Finding<'f>, out: &mut Out<W>) -> Result<(), Device> {
        let range = range_of(self.encoding, bytes_of(self.text), item.line, item.spot);
        put_object(
            &[
                Member::written("range", range),
                Member::number("severity", severity_number(item.severity)),
                Member::text("code", item.number.as_bytes()),
                Member::text("source", b"pamcheck"),
                Member::text("message", item.sentence.as_bytes()),
            ],
            out,
        )
    }
}

/// A member of the parameters of a publication.
#[derive(Clone, Copy)]
enum PublishedValue<'x> {
    /// The URI of a document.
    Uri(&'x str),
    /// The path of a file of which no document is open.
    Path(&'x str),
    Diagnostics(Diagnostics<'x>, &'x [Finding<'x>]),
}

impl Written for PublishedValue<'_> {
    ghost use Rattle.pam_lsp.specs.inner.Written.{published_value};

    ghost value = { published_value };

    fn put<W: Write>(&self, out: &mut Out<W>) -> Result<(), Device> {
        match self {
            PublishedValue::Uri(uri) => put_quoted(uri.as_bytes(), out),
            PublishedValue::Path(path) => put_uri(path.as_bytes(), out),
            PublishedValue::Diagnostics(diagnostics, findings) => {
                put_array(diagnostics, findings, out)
            }
        }
    }
}

/// The parameters of a publication.
#[derive(Clone, Copy)]
struct Parameters<'x> {
    uri: PublishedValue<'x>,
    diagnostics: PublishedValue<'x>,
}

impl Written for Parameters<'_> {
    ghost use Rattle.pam_lsp.specs.Publications.{parameters_object};
    ghost use Rattle.pam_lsp.specs.inner.Written.{published_value};

    ghost value = { λ parameters. parameters_object (published_value parameters.uri) (published_value parameters.diagnostics) };

    fn put<W: Write>(&self, out: &mut Out<W>) -> Result<(), Device> {
        put_object(
            &[
                Member::written("uri", self.uri),
                Member::written("diagnostics", self.diagnostics),
            ],
            out,
        )
    }
}

/// The URI of a file: that of its document, if one is open.
fn uri_of<'x>(document: Option<&'x Document>, path: &'x str) -> PublishedValue<'x>
    ensures { published_value result ≡ spec.uri_of (option_map document_view (option_copied document.entry)) path.now }
{
    match document {
        Some(document) => PublishedValue::Uri(document.uri.as_str()),
        None => PublishedValue::Path(path),
    }
}

/// The text of a document, if it is open.
fn text_of(document: Option<&Document>) -> Option<&str>
    ensures { option_copied result ≡ option_map (λ d. d.text) (option_map document_view (option_copied document.entry)) }
{
    match document {
        Some(document) => Some(document.text.as_str()),
        None => None,
    }
}

/// Writes the notification of the findings of a file.
pub(crate) fn put_publication<W: Write>(
    encoding: Encoding,
    documents: &[Document],
    path: &str,
    findings: &[Finding<'_>],
    out: &mut Out<W>,
) -> Result<(), Device>
    ensures { Writes W.contents out.old out.new result (spec.publication_text encoding (map document_view documents.now) path.now
        (map finding_view findings.now)) }
{
    let document = document_at(documents, path);
    let text = text_of(document);
    let parameters = Parameters {
        uri: uri_of(document, path),
        diagnostics: PublishedValue::Diagnostics(Diagnostics { encoding, text }, findings),
    };
    put_object(
        &[
            Member::text("jsonrpc", b"2.0"),
            Member::text("method", b"textDocument/publishDiagnostics"),
            Member::written("params", parameters),
        ],
        out,
    )
}
