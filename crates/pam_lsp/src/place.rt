//! The file of a document.

ghost use Rattle.std.specs.Prelude.{◌≡◌, IfOk, string_bytes};
ghost use Rattle.std.specs.Option.{option_copied, option_map};
ghost use Rattle.std.specs.Path.{path_bytes};
ghost use Rattle.pam_lsp.specs.Documents.{document_view};
ghost use Rattle.pam_lsp.specs.Places as spec;

use crate::document::Document;
use percent_encoding::percent_decode;
use std::alloc::{AllocError, Global};
use std::path::Path;

/// The escaped path of a URI of a file of this machine.
fn after_scheme(uri: &str) -> Option<&[u8]>
    ensures { option_copied result ≡ spec.after_scheme uri.now }
{
    let bytes = uri.as_bytes();
    if bytes.starts_with(b"file:///") {
        Some(&bytes[7..])
    } else {
        None
    }
}

/// The path of the file with a URI. Bytes that are no UTF-8 become U+FFFD.
fn path_of(alloc: Global, uri: &str) -> Result<Option<String>, AllocError>
    ensures { IfOk result (λ path. option_map string_bytes path ≡ spec.path_of uri.now) }
{
    let Some(escaped) = after_scheme(uri) else {
        return Ok(None);
    };
    let mut bytes = Vec::new(alloc);
    percent_decode(escaped).append_to(&mut bytes)?;
    Ok(Some(String::from_utf8_lossy(alloc, &bytes)?))
}

/// Whether a folder has the files of PAM, by its name.
fn is_of_pam(folder: Path<'_>) -> bool
    ensures { result ≡ spec.is_of_pam (path_bytes folder.entry) }
{
    match folder.file_name() {
        Some(name) => name == "pam.d",
        None => false,
    }
}

/// The document of the file with this name in a folder.
fn placed(
    alloc: Global,
    uri: &str,
    folder: Path<'_>,
    name: &str,
    version: u64,
    text: &str,
) -> Result<Document, AllocError>
    ensures { IfOk result (λ document. document_view document ≡ spec.placed uri.now (path_bytes folder.entry) name.now version text.now) }
{
    let path = folder.join(alloc, name)?;
    Ok(Document {
        uri: String::from_str(alloc, uri)?,
        path: String::from_str(alloc, path.as_str())?,
        folder: String::from_str(alloc, folder.as_str())?,
        name: String::from_str(alloc, name)?,
        version,
        text: String::from_str(alloc, text)?,
    })
}

/// The document with this URI, if it is that of a file in a folder `pam.d`.
pub(crate) fn document_of(
    alloc: Global,
    uri: &str,
    version: u64,
    text: &str,
) -> Result<Option<Document>, AllocError>
    ensures { IfOk result (λ document. option_map document_view document ≡ spec.document_of uri.now version text.now) }
{
    let Some(path) = path_of(alloc, uri)? else {
        return Ok(None);
    };
    let path = Path::new(path.as_str());
    match (path.parent(), path.file_name()) {
        (Some(folder), Some(name)) if is_of_pam(folder) => {
            Ok(Some(placed(alloc, uri, folder, name, version, text)?))
        }
        _ => Ok(None),
    }
}
