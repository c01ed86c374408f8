//! A system with the open documents of an editor in the place of files.

ghost use Rattle.std.specs.Prelude.{◌≡◌, ◌++◌, ◌∷◌, [], IfOk, OnOk, map, string_bytes};
ghost use Rattle.std.specs.Cmp.Lexicographic.{slice_cmp};
ghost use Rattle.std.specs.List.{list_any};
ghost use Rattle.std.specs.List.Sorted.{IsPermutation, IsSortedByKey};
ghost use Rattle.std.specs.Ordering.{nat_cmp};
ghost use Rattle.std.specs.Str.{bytes_eq};
ghost use Rattle.pam_lsp.specs.Documents.{document_view};
ghost use Rattle.pam_lsp.specs.Overlay.{IsListed, has_named, is_named, lacked, names_in};

use crate::document::{Document, text_at};
use pam_cli::{Found, Held, Place, System, front_of};
use std::alloc::{AllocError, Global};
use std::io;
use std::io::ErrorKind;

/// A system in which the text of an open document stands in the place of the file with its path.
#[derive(Clone, Copy)]
pub(crate) struct Overlay<'s, 'd, S> {
    pub(crate) base: &'s S,
    pub(crate) documents: &'d [Document],
}

/// Whether a document is that of the file with this name in a folder.
fn is_named(document: &Document, folder: &str, name: &[u8]) -> bool
    ensures { result ≡ is_named folder.now name.now (document_view document.now) }
{
    document.folder.as_str() == folder && document.name.as_bytes() == name
}

/// Whether a document is open of the file with this name in a folder.
fn has_named(documents: &[Document], folder: &str, name: &[u8]) -> bool
    ensures { result ≡ has_named folder.now name.now (map document_view documents.now) }
{
    for document in documents {
        if is_named(document, folder, name) {
            return true;
        }
    }
    false
}

/// Returns the names of the documents of a folder.
fn names_in<'d>(
    alloc: Global,
    documents: &'d [Document],
    folder: &str,
) -> Result<Vec<&'d str>, AllocError>
    ensures { IfOk result (λ names. map (λ n. n.now) names.items ≡ names_in folder.now (map document_view documents.now)) }
{
    let mut names = Vec::new(alloc);
    for document in documents {
        if document.folder.as_str() == folder {
            names.push(document.name.as_str())?;
        }
    }
    Ok(names)
}

/// Whether a name is among others.
fn has_name(names: &[Vec<u8>], name: &str) -> bool
    ensures { result ≡ list_any (λ other. bytes_eq other name.now) (map (λ n. n.items) names.now) }
{
    for other in names {
        if other.as_slice() == name.as_bytes() {
            return true;
        }
    }
    false
}

/// Returns the names that are not among others.
fn lacked(alloc: Global, there: &[Vec<u8>], names: &[&str]) -> Result<Vec<Vec<u8>>, AllocError>
    ensures { IfOk result (λ more. map (λ n. n.items) more.items ≡ lacked (map (λ n. n.items) there.now) (map (λ n. n.now) names.now)) }
{
    let mut more = Vec::new(alloc);
    for name in names {
        if !has_name(there, name) {
            more.push(Vec::from_slice(alloc, name.as_bytes())?)?;
        }
    }
    Ok(more)
}

/// Adds names to others.
fn add_all(names: &mut Vec<Vec<u8>>, more: Vec<Vec<u8>>) -> Result<(), AllocError>
    ensures { OnOk result (map (λ n. n.items) names.new.items ≡ map (λ n. n.items) names.old.items ++ map (λ n. n.items) more.items) }
{
    for name in more {
        names.push(name)?;
    }
    Ok(())
}

/// Sorts names in ascending byte order.
fn sort_names(names: &mut Vec<Vec<u8>>) -> Result<(), AllocError>
    ensures same { OnOk result (IsPermutation (map (λ n. n.items) names.old.items) (map (λ n. n.items) names.new.items)) }
    ensures order { OnOk result (IsSortedByKey (λ n. n.items) (slice_cmp nat_cmp) names.new.items) }
{
    names.sort()
}

/// Adds the names of the documents of a folder that it lacks, and sorts all.
fn list_documents(
    alloc: Global,
    names: &mut Vec<Vec<u8>>,
    documents: &[Document],
    folder: &str,
) -> Result<(), AllocError>
    ensures names { OnOk result (IsListed (map (λ n. n.items) names.old.items) (names_in folder.now (map document_view documents.now))
        (map (λ n. n.items) names.new.items)) }
    ensures order { OnOk result (IsSortedByKey (λ n. n.items) (slice_cmp nat_cmp) names.new.items) }
{
    let opened = names_in(alloc, documents, folder)?;
    let more = lacked(alloc, names, &opened)?;
    add_all(names, more)?;
    sort_names(names)
}

/// Returns texts as bytes.
fn bytes_of(alloc: Global, texts: &[String]) -> Result<Vec<Vec<u8>>, AllocError>
    ensures { IfOk result (λ bytes. map (λ b. b.items) bytes.items ≡ map string_bytes texts.now) }
{
    let mut all = Vec::new(alloc);
    for text in texts {
        all.push(Vec::from_slice(alloc, text.as_bytes())?)?;
    }
    Ok(all)
}

fn push_text(alloc: Global, texts: &mut Vec<String>, bytes: &[u8]) -> io::Result<()>
    ensures { OnOk result (map string_bytes texts.new.items ≡ map string_bytes texts.old.items ++ bytes.now ∷ []) }
{
    match std::str::from_utf8(bytes) {
        Ok(text) => {
            texts.push(String::from_str(alloc, text)?)?;
            Ok(())
        }
        Err(_) => Err(io::Error::from(ErrorKind::InvalidData)),
    }
}

/// Returns bytes as texts. It is an error if some are not UTF-8.
fn texts_of(alloc: Global, all: &[Vec<u8>]) -> io::Result<Vec<String>>
    ensures { IfOk result (λ texts. map string_bytes texts.items ≡ map (λ b. b.items) all.now) }
{
    let mut texts = Vec::new(alloc);
    for bytes in all {
        push_text(alloc, &mut texts, bytes)?;
    }
    Ok(texts)
}

impl<S: System> System for Overlay<'_, '_, S> {
    ghost use Rattle.std.specs.Prelude.{map};
    ghost use Rattle.pam_lsp.specs.Documents.{document_view};
    ghost use Rattle.pam_lsp.specs.Overlay.{over};

    ghost told = { λ overlay. over (S.told overlay.base.now) (map document_view overlay.documents.now) };

    fn file(&self, alloc: Global, path: &str) -> io::Result<Vec<u8>> {
        match text_at(self.documents, path) {
            Some(text) => front_of(alloc, text.as_bytes(), text.len() as u64),
            None => self.base.file(alloc, path),
        }
    }

    fn entries(&self, alloc: Global, folder: Place<'_>) -> io::Result<Vec<String>> {
        let names = self.base.entries(alloc, folder)?;
        let mut all = bytes_of(alloc, &names)?;
        let path = folder.shown(alloc)?;
        list_documents(alloc, &mut all, self.documents, path.as_str())?;
        let texts = texts_of(alloc, &all)?;
        Ok(texts)
    }

    fn names(&self, alloc: Global, folder: Place<'_>) -> io::Result<Vec<Vec<u8>>> {
        let mut all = self.base.names(alloc, folder)?;
        let path = folder.shown(alloc)?;
        list_documents(alloc, &mut all, self.documents, path.as_str())?;
        Ok(all)
    }

    fn look(&self, alloc: Global, place: Place<'_>) -> io::Result<Found> {
        let path = place.shown(alloc)?;
        match text_at(self.documents, path.as_str()) {
            Some(_) => Ok(Found::File),
            None => self.base.look(alloc, place),
        }
    }

    fn held(&self, alloc: Global, place: Place<'_>) -> io::Result<Held> {
        let path = place.shown(alloc)?;
        match text_at(self.documents, path.as_str()) {
            Some(text) => Ok(Held::Bytes(front_of(alloc, text.as_bytes(), text.len() as u64)?)),
            None => self.base.held(alloc, place),
        }
    }

    fn leads_out(&self, alloc: Global, folder: &str, name: &[u8]) -> Result<bool, AllocError> {
        if has_named(self.documents, folder, name) {
            Ok(false)
        } else {
            self.base.leads_out(alloc, folder, name)
        }
    }
}
