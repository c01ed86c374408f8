//! The files of a memory, and the entries of its folders.

ghost use Rattle.std.specs.Prelude.{◌≡◌, ◌↔◌, IfOk, List, ℕ, map};
ghost use Rattle.std.specs.Cmp.Lexicographic.{slice_cmp};
ghost use Rattle.std.specs.List.{Contains, list_any};
ghost use Rattle.std.specs.List.Sorted.{IsStrictlySortedBy};
ghost use Rattle.std.specs.Ordering.{nat_cmp};
ghost use Rattle.pam_web.specs.Files.{before_slash, begins, file_view, names_after};

use pam_text::cut;
use std::alloc::{AllocError, Global};

/// A file in memory.
#[derive(Clone, Copy)]
pub struct File<'a> {
    pub path: &'a [u8],
    pub bytes: &'a [u8],
}

/// The bytes before the first slash, or all of them.
fn before_slash(text: &[u8]) -> &[u8]
    ensures { result.now ≡ before_slash text.now }
{
    match cut(text, b'/') {
        Some((front, _)) => front,
        None => text,
    }
}

/// Whether the path of a file begins with this text.
pub(crate) fn is_any_below(files: &[File<'_>], start: &[u8]) -> bool
    ensures { result ≡ list_any (λ f. begins start.now f.0) (map file_view files.now) }
{
    for file in files {
        if file.path.starts_with(start) {
            return true;
        }
    }
    false
}

/// Returns what follows this text in the path of each file that begins with it, up to the next slash.
fn names_after<'a>(
    alloc: Global,
    files: &[File<'a>],
    start: &[u8],
) -> Result<Vec<&'a [u8]>, AllocError>
    ensures { IfOk result (λ names. map (λ n. n.now) names.items ≡ names_after start.now (map file_view files.now)) }
{
    let mut names = Vec::new(alloc);
    for file in files {
        if file.path.starts_with(start) {
            names.push(before_slash(&file.path[start.len()..]))?;
        }
    }
    Ok(names)
}

/// Returns these names, each once, in ascending byte order.
pub(crate) fn entries_after<'a>(
    alloc: Global,
    files: &[File<'a>],
    start: &[u8],
) -> Result<Vec<&'a [u8]>, AllocError>
    ensures rising { IfOk result (λ names. IsStrictlySortedBy (slice_cmp nat_cmp) (map (λ n. n.now) names.items)) }
    ensures those { IfOk result (λ names. (name : List ℕ) → Contains (map (λ n. n.now) names.items) name
        ↔ Contains (names_after start.now (map file_view files.now)) name) }
{
    let mut names = names_after(alloc, files, start)?;
    names.sort()?;
    names.dedup();
    Ok(names)
}
