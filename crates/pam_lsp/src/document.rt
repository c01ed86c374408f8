//! The documents that an editor has open.

ghost use Rattle.std.specs.Prelude.{◌≡◌, ◌==◌, OnOk, map};
ghost use Rattle.std.specs.Option.{option_copied, option_map};
ghost use Rattle.pam_lsp.specs.Documents.{changed, closed, document_at, document_view, has_older, opened, text_at};
ghost use Rattle.pam_lsp.specs.Documents.{is_older};

use std::alloc::AllocError;

/// A document of a file in a folder.
#[derive(Drop)]
pub struct Document {
    pub uri: String,
    /// The path of the file.
    pub path: String,
    pub folder: String,
    /// The name of the file in its folder.
    pub name: String,
    pub version: u64,
    pub text: String,
}

/// Whether a document has this URI, and an older version.
fn is_older(document: &Document, uri: &str, version: u64) -> bool
    ensures { result ≡ is_older uri.now version (document_view document.now) }
{
    document.uri.as_str() == uri && document.version < version
}

/// The first document with this path.
pub(crate) fn document_at<'d>(documents: &'d [Document], path: &str) -> Option<&'d Document>
    ensures { option_map document_view (option_copied result) ≡ document_at path.now (map document_view documents.now) }
{
    for document in documents {
        if document.path.as_str() == path {
            return Some(document);
        }
    }
    None
}

/// The text of the first document with this path.
pub(crate) fn text_at<'d>(documents: &'d [Document], path: &str) -> Option<&'d str>
    ensures { option_map (λ t. t.now) result ≡ text_at path.now (map document_view documents.now) }
{
    for document in documents {
        if document.path.as_str() == path {
            return Some(document.text.as_str());
        }
    }
    None
}

/// Closes the document with this URI.
pub(crate) fn close(documents: &mut Vec<Document>, uri: &str)
    ensures { map document_view documents.new.items ≡ closed uri.now (map document_view documents.old.items) }
{
    documents.retain(|document| document.uri.as_str() != uri);
}

/// Opens a document, in the place of one with the same URI.
pub(crate) fn open(documents: &mut Vec<Document>, document: Document) -> Result<(), AllocError>
    ensures { OnOk result (map document_view documents.new.items ≡ opened (document_view document) (map document_view documents.old.items)) }
{
    close(documents, document.uri.as_str());
    documents.push(document)?;
    Ok(())
}

/// Whether a document with the URI of this one is open in an older version.
fn has_older(documents: &[Document], document: &Document) -> bool
    ensures { result ≡ has_older (document_view document.now) (map document_view documents.now) }
{
    for other in documents {
        if is_older(other, document.uri.as_str(), document.version) {
            return true;
        }
    }
    false
}

/// Changes an open document. A version that is not newer is not taken.
pub(crate) fn change(documents: &mut Vec<Document>, document: Document) -> Result<(), AllocError>
    ensures { OnOk result (map document_view documents.new.items ≡ changed (document_view document) (map document_view documents.old.items)) }
{
    if has_older(documents, &document) {
        open(documents, document)
    } else {
        Ok(())
    }
}
